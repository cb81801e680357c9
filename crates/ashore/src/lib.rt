// What a caller ashore asks for: judged, and stored as a request.
#![tactic(auto)]

ghost use Rattle.std.specs.Prelude.{◌≡◌, min};
ghost use Rattle.sequence.specs.Figures.{most_digits};
ghost use Rattle.rules.specs.Rules.Bytes.{number_of};
ghost use Rattle.rules.specs.Rules.Ashore.{is_mode, mode_of};
ghost use Rattle.rules.specs.Rules.Sound.{number_keeps};
ghost use Rattle.requests.specs.Images.{mode_image};
ghost use Rattle.ashore.specs.Stored.{stored_digit, stored_digits, request_from};

use requests::{Mode, Request};
use sequence::{DIGITS, FIRST_DUPLEX, FIRST_SIMPLEX, Number, UNTOLD};
use slots::mast::Mast;

// "19 for a bad number": a digit is 0 to 9
const LARGEST_DIGIT: u32 = 9;

// "The mode is 100 or 101".
pub fn is_mode(mode: u32) -> bool
    ensures { result ≡ is_mode mode }
{
    mode == FIRST_SIMPLEX as u32 || mode == FIRST_DUPLEX as u32
}

// "A number has 1 to 16 digits"; a digit of 300 is judged, and not cut.
#[tactic(auto, using(crate::proofs::StoredLaws::digits_listed))]
pub fn digits_keep(digits: &[u32]) -> bool
    ensures { result ≡ number_keeps digits.now }
{
    1 <= digits.len()
        && digits.len() <= DIGITS
        && digits.iter().all(|digit| *digit <= LARGEST_DIGIT)
}

fn mode_from(mode: u32) -> Mode
    ensures { result ≡ mode_image (mode_of mode) }
{
    if mode == FIRST_DUPLEX as u32 {
        return Mode::Duplex;
    }
    Mode::Simplex
}

fn stored_digit(digit: u32) -> u8
    ensures { result ≡ stored_digit digit }
{
    digit.min(255) as u8
}

fn number_from(digits: &[u32]) -> Number
    ensures { result ≡ number_of (stored_digits digits.now) }
{
    let count = digits.len().min(DIGITS);
    let mut stored = [0u8; DIGITS];
    for (i, digit) in digits[..count].iter().enumerate() {
        stored[i] = stored_digit(*digit);
    }
    Number {
        count: count as u8,
        digits: stored,
    }
}

// "a 123 call (mode, 126)", with "the caller's digits".
pub fn request_from(mast: Mast, ship: u32, mode: u32, digits: &[u32]) -> Request
    ensures { result ≡ request_from mast ship mode digits.now }
{
    Request {
        ship,
        station: mast.identity,
        mode: mode_from(mode),
        second: UNTOLD,
        number: number_from(digits),
    }
}
