// Records with nothing left in their unused places.
ghost use Rattle.std.specs.Prelude.{◌≡◌, cond, ltb};
ghost use Rattle.sequence.specs.Figures.{most_digits};
ghost use Rattle.rules.specs.Rules.Bytes.{padded};
ghost use Rattle.requests.specs.Views.{viewed, itself};
ghost use Rattle.requests.specs.Images.{tidy_request};
ghost use Rattle.slots.specs.Images.{free_on, blank_slot, blank_waiting, tidy_slot, tidy_waiting};

use crate::{Phase, Slot, Waiting, stores};
use requests::{Request, blank_request};
use sequence::{DIGITS, MOST_DIGITS, Number};
use units::{CallNumber, Channel, Tenths};

// What is kept of a digit at a place: 0 where none is in use, by the smaller of two, which the compiler works out for all sixteen at once.
fn kept(digit: u8, place: usize, count: u8) -> u8
    ensures { result ≡ cond (ltb place count) digit 0 }
{
    digit.min(if place < count as usize { 255 } else { 0 })
}

// The first `count` digits, and 0 behind them.
fn cleared(digits: [u8; DIGITS], count: u8) -> [u8; DIGITS]
    ensures { result ≡ padded 0 most_digits (viewed itself count digits) }
{
    let mut cleared = digits;
    for (place, digit) in cleared.iter_mut().enumerate() {
        *digit = kept(*digit, place, count);
    }
    cleared
}

fn tidy_request(request: Request) -> Request
    ensures { result ≡ tidy_request request }
{
    let number = request.number;
    Request {
        number: Number {
            count: number.count.min(MOST_DIGITS),
            digits: cleared(number.digits, number.count),
        },
        ..request
    }
}

pub fn tidy_slot(slot: Slot) -> Slot
    ensures { result ≡ tidy_slot slot }
{
    if stores(slot.phase) {
        return Slot {
            request: tidy_request(slot.request),
            ..slot
        };
    }
    Slot {
        call: CallNumber(0),
        request: blank_request(),
        ..slot
    }
}

#[tactic(auto, unfolding(crate::specs::Images::free_on, crate::specs::Images::slot_image))]
pub fn free_on(channel: Channel) -> Slot
    ensures { result ≡ free_on channel }
{
    Slot {
        phase: Phase::Free,
        channel,
        call: CallNumber(0),
        request: blank_request(),
    }
}

#[tactic(auto, unfolding(crate::specs::Images::blank_slot, crate::specs::Images::free_on))]
pub fn blank_slot() -> Slot
    ensures { result ≡ blank_slot }
{
    free_on(Channel(0))
}

pub fn tidy_waiting(entry: Waiting) -> Waiting
    ensures { result ≡ tidy_waiting entry }
{
    Waiting {
        due: entry.due,
        request: tidy_request(entry.request),
    }
}

#[tactic(auto, unfolding(crate::specs::Images::blank_waiting))]
pub fn blank_waiting() -> Waiting
    ensures { result ≡ blank_waiting }
{
    Waiting {
        due: Tenths(0),
        request: blank_request(),
    }
}
