// The channel field of a meaning: whether it may stand, and its three symbols.
ghost use Rattle.std.specs.Prelude.{◌≡◌, ◌≤◌};
ghost use Rattle.sequence.specs.Figures.{last_symbol};
ghost use Rattle.sequence.specs.Field.{field_ok, field_first, field_second, field_third};

use sequence::parts::{channel_ok, duration_ok, is_call};
use sequence::{CHANNEL_TOLD, FIRST_OVER, Field, UNTOLD};

#[tactic(auto, unfolding(sequence::specs::Field::field_ok))]
pub(crate) fn field_ok(first: u8, field: Field) -> bool
    ensures { result ≡ field_ok first field }
{
    match field {
        Field::Blank => true,
        Field::Channel(channel) => is_call(first) && channel_ok(channel),
        Field::Duration(duration) => first == FIRST_OVER && duration_ok(duration),
    }
}

pub(crate) fn field_first(field: Field) -> u8
    ensures { result ≡ field_first field }
{
    match field {
        Field::Blank => UNTOLD,
        Field::Channel(_) => CHANNEL_TOLD,
        Field::Duration(duration) => duration.hours,
    }
}

pub(crate) fn field_second(field: Field) -> u8
    ensures { result ≡ field_second field }
{
    match field {
        Field::Blank => UNTOLD,
        Field::Channel(_) => 0,
        Field::Duration(duration) => duration.minutes,
    }
}

pub(crate) fn field_third(field: Field) -> u8
    requires { field_third field ≤ last_symbol }
    ensures { result ≡ field_third field }
{
    match field {
        Field::Blank => UNTOLD,
        Field::Channel(channel) => channel.0 as u8,
        Field::Duration(duration) => duration.seconds,
    }
}
