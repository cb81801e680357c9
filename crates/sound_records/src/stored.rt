// The stored requests and the hold durations.
ghost use Rattle.std.specs.Prelude.{◌≡◌, ◌&&◌};
ghost use Rattle.rules.specs.Rules.Sound.{number_keeps, request_keeps, duration_keeps, slot_keeps};
ghost use Rattle.requests.specs.Views.{request_of, digits_of};
ghost use Rattle.slots.specs.Views.{named, slot_view};
ghost use Rattle.sound_records.specs.Kept.{most_at, digits_fit, number_exact, slot_exact};

use requests::Request;
use sequence::parts::{duration_ok, is_ship};
use sequence::{DIGITS, LAST_SECOND, LEAST_SECOND, MOST_DIGITS, Number};
use slots::mast::{Mast, is_ours};
use slots::{Slot, lasted_in, stores};
use units::Duration;

// What may stand at a place of a number with so many digits.
fn most_at(place: usize, count: u8) -> u8
    ensures { result ≡ most_at place count }
{
    if place < count as usize { 9 } else { 0 }
}

// Each digit at most what may stand at its place: all sixteen are looked at, so that the compiler does so at once.
fn digits_fit(digits: &[u8; DIGITS], count: u8) -> bool
    ensures { result ≡ digits_fit count 0 digits.now }
{
    let mut fit = true;
    for (place, digit) in digits.iter().enumerate() {
        fit = fit & (*digit <= most_at(place, count));
    }
    fit
}

// "A number has 1 to 16 digits", and its unused digits are 0.
#[tactic(auto, using(crate::proofs::KeepLaws::number_parts))]
fn number_stored(number: Number) -> bool
    ensures { result ≡ (number_keeps (digits_of number) && number_exact number) }
{
    let count = number.count;
    let fit = digits_fit(&number.digits, count);
    fit && 1 <= count && count <= MOST_DIGITS
}

// From a ship, to this station, the second telecommand 100 to 126.
#[tactic(auto, unfolding(rules::specs::Rules::Sound::request_keeps, requests::specs::Views::request_of))]
pub(crate) fn request_stored(request: Request, mast: Mast) -> bool
    ensures { result ≡ (request_keeps (named mast) (request_of request) && number_exact request.number) }
{
    let second = request.second;
    is_ship(request.ship)
        && is_ours(mast, request.station)
        && LEAST_SECOND <= second
        && second <= LAST_SECOND
        && number_stored(request.number)
}

#[tactic(auto, unfolding(rules::specs::Rules::Sound::duration_keeps))]
fn lasted_keeps(lasted: Option<Duration>) -> bool
    ensures { result ≡ duration_keeps lasted }
{
    match lasted {
        None => true,
        Some(duration) => duration_ok(duration),
    }
}

// "stored requests (simplex or duplex, to this station) and hold durations keep these rules"
pub(crate) fn slot_stored(slot: Slot, mast: Mast) -> bool
    ensures { result ≡ (slot_keeps (named mast) (slot_view slot) && slot_exact slot) }
{
    let phase = slot.phase;
    !stores(phase) || (lasted_keeps(lasted_in(phase)) && request_stored(slot.request, mast))
}
