// Document 02, no. 4: call numbers, each given once.
ghost use Rattle.std.specs.Prelude.{◌≡◌};
ghost use Rattle.rules.specs.Rules.Station.{none_left, number_after};

use units::CallNumber;

pub const LAST_NUMBER: u32 = 4_294_967_295;

// "once 4,294,967,295 has been given"
pub fn none_left(last: CallNumber) -> bool
    ensures { result ≡ none_left last.0 }
{
    LAST_NUMBER <= last.0
}

// "the next call number from 1"; behind the last there is none, and it stays.
pub fn number_after(last: CallNumber) -> CallNumber
    ensures { result ≡ record { 0 = number_after last.0 } }
{
    CallNumber(last.0.saturating_add(1))
}
