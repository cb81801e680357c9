// A meaning in bytes: laid into a lent room, and taken out of one.
ghost use Rattle.std.specs.Prelude.{◌≡◌};
ghost use Rattle.lent_layout.specs.Meanings.{meaning_from, meaning_laid};

use crate::numbers::{digits_at, four_at, lay};
use channel_fields::{FieldBytes, field_bytes, field_from};
use layouts::low_first;
use reading::blank_meaning;
use sequence::{DIGITS, Meaning, Number};

// Where each field stands: behind the one before it, from the address on.
const SENDER: usize = 4;

const FIRST: usize = SENDER + 4;

const SECOND: usize = FIRST + 1;

const KIND: usize = SECOND + 1;

const FIELD_FIRST: usize = KIND + 1;

const FIELD_SECOND: usize = FIELD_FIRST + 1;

const FIELD_THIRD: usize = FIELD_SECOND + 1;

const COUNT: usize = FIELD_THIRD + 1;

const END: usize = COUNT + 1;

const DIGITS_PLACE: usize = END + 1;

pub const MEANING_SIZE: usize = DIGITS_PLACE + DIGITS;

pub fn lay_meaning(meaning: Meaning, room: &mut [u8])
    ensures { room.new ≡ meaning_laid meaning room.old }
{
    if room.len() < MEANING_SIZE {
        return;
    }
    let number = meaning.number;
    let held = field_bytes(meaning.field);
    let address = low_first(meaning.address);
    let marks = [
        meaning.first,
        meaning.second,
        held.kind,
        held.first,
        held.second,
        held.third,
        number.count,
        meaning.end,
    ];
    lay(&address, 0, room);
    lay(&low_first(meaning.sender), SENDER, room);
    lay(&marks, FIRST, room);
    lay(&number.digits, DIGITS_PLACE, room);
}

// Fewer bytes tell no meaning.
pub fn meaning_from(bytes: &[u8]) -> Meaning
    ensures { result ≡ meaning_from bytes.now }
{
    if bytes.len() < MEANING_SIZE {
        return blank_meaning();
    }
    Meaning {
        address: four_at(bytes, 0),
        sender: four_at(bytes, SENDER),
        first: bytes[FIRST],
        second: bytes[SECOND],
        field: field_from(FieldBytes {
            kind: bytes[KIND],
            first: bytes[FIELD_FIRST],
            second: bytes[FIELD_SECOND],
            third: bytes[FIELD_THIRD],
        }),
        number: Number {
            count: bytes[COUNT],
            digits: digits_at(bytes, DIGITS_PLACE),
        },
        end: bytes[END],
    }
}
