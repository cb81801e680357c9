// The transmission of one sequence: its characters as they go on the air, and what is refused where it is written or read.
#![tactic(auto)]

ghost use Rattle.std.specs.Prelude.{◌≡◌};
ghost use Rattle.transmission.specs.Answers.{refusal_number};

// "125 in six DX places and 111, 110, .., 104 in eight RX places"
pub const DX_PHASING: usize = 6;

pub const DX_PHASING_SYMBOL: u8 = 125;

pub const RX_PHASING: usize = 8;

pub const FIRST_RX_PHASING_SYMBOL: u8 = 111;

// "up to eleven of its beginning lost"
pub const MOST_LOST: usize = 11;

// The longest transmission, of 28 symbols.
pub const LONGEST_TRANSMISSION: usize = 74;

// What is refused: symbols to be written as a transmission, or a transmission to be read. Each has the documents' number.
#[derive(Clone, Copy, PartialEq, Eq)]
pub enum Refusal {
    BadLength = 11,
    BadSymbol = 12,
    ShortRoom = 21,
    NoPhasing = 51,
    CopiesBad,
    EndsEarly,
}

// Where a transmission may start, and how many phasing characters stand in their places there.
#[derive(Clone, Copy)]
pub struct Start {
    pub place: usize,
    pub phasing: usize,
}

impl Refusal {
    pub fn number(self) -> u8
        ensures { result ≡ refusal_number self }
    {
        self as u8
    }
}
