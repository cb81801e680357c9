// The parts of a sequence, each held to document 01's ranges.
#![tactic(auto, unfolding(crate::specs::Identity::is_ship, crate::specs::Identity::is_coast, crate::specs::Identity::identities_ok, crate::specs::Field::is_call, crate::specs::Field::unable_second, crate::specs::Field::telecommands_ok, crate::specs::Field::channel_ok, crate::specs::Field::duration_ok, crate::specs::Number::number_ok, crate::specs::Layout::end_ok))]

ghost use Rattle.std.specs.Prelude.{◌≡◌};
ghost use Rattle.sequence.specs.Identity.{is_ship, is_coast, identities_ok};
ghost use Rattle.sequence.specs.Field.{is_call, unable_second, telecommands_ok, channel_ok, duration_ok};
ghost use Rattle.sequence.specs.Number.{number_ok};
ghost use Rattle.sequence.specs.Layout.{end_ok};

use crate::symbols::all_at_most;
use crate::{
    DIGITS, END_BQ, END_LAST, END_RQ, FIRST_DATA, FIRST_DUPLEX, FIRST_OVER, FIRST_SIMPLEX,
    FIRST_UNABLE, LAST_REASON, LAST_SECOND, LEAST_SECOND, Number, UNTOLD,
};
use units::{Channel, Duration};

pub fn is_ship(identity: u32) -> bool
    ensures { result ≡ is_ship identity }
{
    200000000 <= identity && identity <= 799999999
}

pub fn is_coast(identity: u32) -> bool
    ensures { result ≡ is_coast identity }
{
    2000000 <= identity && identity <= 7999999
}

pub fn identities_ok(address: u32, sender: u32) -> bool
    ensures { result ≡ identities_ok address sender }
{
    if is_ship(address) {
        is_coast(sender)
    } else {
        is_coast(address) && is_ship(sender)
    }
}

pub fn is_call(first: u8) -> bool
    ensures { result ≡ is_call first }
{
    first == FIRST_SIMPLEX || first == FIRST_DUPLEX || first == FIRST_DATA
}

fn unable_second(second: u8) -> bool
    ensures { result ≡ unable_second second }
{
    (LEAST_SECOND <= second && second <= LAST_REASON) || second == UNTOLD
}

pub fn telecommands_ok(first: u8, second: u8) -> bool
    ensures { result ≡ telecommands_ok first second }
{
    if is_call(first) {
        LEAST_SECOND <= second && second <= LAST_SECOND
    } else if first == FIRST_UNABLE {
        unable_second(second)
    } else {
        first == FIRST_OVER && second == UNTOLD
    }
}

pub fn channel_ok(channel: Channel) -> bool
    ensures { result ≡ channel_ok channel }
{
    let number = channel.0;
    number != 16
        && number != 70
        && ((1 <= number && number <= 28) || (60 <= number && number <= 88))
}

pub fn duration_ok(duration: Duration) -> bool
    ensures { result ≡ duration_ok duration }
{
    duration.hours <= 99 && duration.minutes <= 59 && duration.seconds <= 59
}

pub fn number_ok(number: Number) -> bool
    ensures { result ≡ number_ok number }
{
    let count = number.count as usize;
    1 <= count
        && count <= DIGITS
        && all_at_most(&number.digits, 9)
        && all_at_most(&number.digits[count..], 0)
}

pub fn end_ok(end: u8) -> bool
    ensures { result ≡ end_ok end }
{
    end == END_RQ || end == END_BQ || end == END_LAST
}
