// One DSC sequence of 21 to 28 symbols: what it means, and the tests of its parts.
#![tactic(auto)]

ghost use Rattle.std.specs.Prelude.{◌≡◌, cond, Ok, Err};
ghost use Rattle.sequence.specs.Answers.{refusal_number};

pub mod parts;
pub mod symbols;

use units::{Channel, Duration};

// "One sequence, 21 to 28 symbols", each "0 to 127".
pub const SHORTEST: usize = 21;

pub const LONGEST: usize = 28;

pub const LAST_SYMBOL: u8 = 127;

// "format 123", "category 100".
pub const FORMAT: u8 = 123;

pub const CATEGORY: u8 = 100;

// The first telecommand: "100 simplex, 101 duplex or 106 data", "104 unable", "105 end of call".
pub const FIRST_SIMPLEX: u8 = 100;

pub const FIRST_DUPLEX: u8 = 101;

pub const FIRST_DATA: u8 = 106;

pub const FIRST_UNABLE: u8 = 104;

pub const FIRST_OVER: u8 = 105;

// The second: behind a call "100 to 126", behind an unable "100 to 109 or 126".
pub const LEAST_SECOND: u8 = 100;

pub const LAST_SECOND: u8 = 126;

pub const LAST_REASON: u8 = 109;

// Nothing is told: "second 126", "the field 126s". A channel is: "90, 0, channel".
pub const UNTOLD: u8 = 126;

pub const CHANNEL_TOLD: u8 = 90;

// "105 if the number has an odd count of digits, 106 if even"
pub const ODD_COUNT: u8 = 105;

pub const EVEN_COUNT: u8 = 106;

// "digit pairs, each 0 to 99"; "A number has 1 to 16 digits".
pub const LAST_PAIR: u8 = 99;

pub const DIGITS: usize = 16;

pub const MOST_DIGITS: u8 = DIGITS as u8;

// "end of sequence: 117 RQ, 122 BQ or 127"
pub const END_RQ: u8 = 117;

pub const END_BQ: u8 = 122;

pub const END_LAST: u8 = 127;

// Why symbols are not read, or a meaning is not written: each by document 01's number.
#[derive(Clone, Copy, PartialEq, Eq)]
pub enum Refusal {
    BadLength = 11,
    BadSymbol,
    BadCheck,
    BadFormat,
    BadIdentities,
    BadCategory,
    BadTelecommands,
    BadField,
    BadNumber,
    BadEnd = 20,
    ShortRoom = 21,
}

// What the channel field holds. Behind an end of call it holds no channel, so 90 0 26 is a duration there.
#[derive(Clone, Copy)]
pub enum Field {
    Blank,
    Channel(Channel),
    Duration(Duration),
}

// A number of 1 to 16 digits; the unused digits are 0. An array with a count: memory is fixed, and C's meaning block has both.
#[derive(Clone, Copy)]
pub struct Number {
    pub digits: [u8; DIGITS],
    pub count: u8,
}

// What a sequence means. The sender is its self-identification.
#[derive(Clone, Copy)]
pub struct Meaning {
    pub address: u32,
    pub sender: u32,
    pub first: u8,
    pub second: u8,
    pub field: Field,
    pub number: Number,
    pub end: u8,
}

impl Refusal {
    // Document 01's number.
    pub fn number(self) -> u8
        ensures { result ≡ refusal_number self }
    {
        self as u8
    }
}

// One test, with its refusal where it fails.
pub fn unless<R: Copy>(passes: bool, refusal: R) -> Result<(), R>
    ensures { result ≡ cond passes (Ok tt) (Err refusal) }
{
    if passes { Ok(()) } else { Err(refusal) }
}
