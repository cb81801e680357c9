// A sequence's channel field as the numbers that lent bytes hold of it, and the field that such numbers stand for.
#![tactic(auto)]

ghost use Rattle.std.specs.Prelude.{◌≡◌};
ghost use Rattle.channel_fields.specs.ChannelFields.{field_bytes, field_from};

use sequence::Field;
use units::{Channel, Duration};

// The kind of a channel field by its number, and what it holds: the four bytes of a lent meaning (COAST_AT_FIELD_KIND of include/coast.h).
#[derive(Clone, Copy)]
pub struct FieldBytes {
    pub kind: u8,
    pub first: u8,
    pub second: u8,
    pub third: u8,
}

// A channel has one byte in the layout.
pub fn field_bytes(field: Field) -> FieldBytes
    ensures { result ≡ field_bytes field }
{
    match field {
        Field::Blank => FieldBytes {
            kind: 0,
            first: 0,
            second: 0,
            third: 0,
        },
        Field::Channel(channel) => FieldBytes {
            kind: 1,
            first: (channel.0 % 256) as u8,
            second: 0,
            third: 0,
        },
        Field::Duration(duration) => FieldBytes {
            kind: 2,
            first: duration.hours,
            second: duration.minutes,
            third: duration.seconds,
        },
    }
}

// Bytes that are no field give channel 0, which the writer refuses.
#[tactic(auto, unfolding(crate::specs::ChannelFields::field_from))]
pub fn field_from(bytes: FieldBytes) -> Field
    ensures { result ≡ field_from bytes }
{
    match (bytes.kind, bytes.first, bytes.second, bytes.third) {
        (0, 0, 0, 0) => Field::Blank,
        (1, channel, 0, 0) => Field::Channel(Channel(channel as u32)),
        (2, hours, minutes, seconds) => Field::Duration(Duration {
            hours,
            minutes,
            seconds,
        }),
        _ => Field::Channel(Channel(0)),
    }
}
