// A stored request: who asks for what. What the records of slots, of the queue and of actions share.
#![tactic(auto)]

pub mod sameness;

ghost use Rattle.std.specs.Prelude.{◌≡◌};
ghost use Rattle.requests.specs.Images.{blank_request};

use sequence::{DIGITS, Number};

#[derive(Clone, Copy, PartialEq, Eq)]
pub enum Mode {
    Simplex,
    Duplex,
}

// A call request as it is stored: the ship with the station that it calls, and what it asks for.
#[derive(Clone, Copy)]
pub struct Request {
    pub number: Number,
    pub mode: Mode,
    pub second: u8,
    pub ship: u32,
    pub station: u32,
}

#[tactic(auto, unfolding(crate::specs::Images::blank_request))]
pub fn blank_request() -> Request
    ensures { result ≡ blank_request }
{
    let number = Number {
        count: 0,
        digits: [0u8; DIGITS],
    };
    Request {
        ship: 0,
        station: 0,
        mode: Mode::Simplex,
        second: 0,
        number,
    }
}
