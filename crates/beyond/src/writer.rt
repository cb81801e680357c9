// The writer's refusals, alone and in their order; no event makes a meaning that it refuses. They stand as document 01's numbers.
use crate::answered;
use crate::rooms::untouched_from;
use crate::stations::{no_number, number_of};
use sequence::{Field, Meaning, Number};
use std::io;
use units::Channel;
use writing::write;

// The answer to a meaning written in a room of that length; with a refusal nothing is written.
fn written_in(
    length: usize,
    address: u32,
    first: u8,
    field: Field,
    number: Number,
    end: u8,
) -> Option<u8> {
    let meaning = Meaning {
        address,
        sender: 200056789,
        first,
        second: 126,
        field,
        number,
        end,
    };
    let mut room = [165u8; 40];
    let (answer, count) = match write(meaning, &mut room[..length.min(40)]) {
        Ok(count) => (0, count),
        Err(refusal) => (refusal.number(), 0),
    };
    untouched_from(&room, count).then_some(answer)
}

fn written(address: u32, first: u8, field: Field, number: Number, end: u8) -> Option<u8> {
    written_in(28, address, first, field, number, end)
}

fn usual() -> Number {
    number_of(7, 0)
}

fn with_number(number: Number) -> Option<u8> {
    written(2001234, 101, Field::Blank, number, 117)
}

fn on_channel(first: u8, channel: Channel) -> Option<u8> {
    written(2001234, first, Field::Channel(channel), usual(), 117)
}

fn try_alone(rt: &impl Print) -> io::Result<()> {
    let short = written_in(27, 2001234, 101, Field::Blank, usual(), 117);
    let ships = written(200056790, 101, Field::Blank, usual(), 117);
    let unknown = written(2001234, 110, Field::Blank, usual(), 117);
    let calling = on_channel(101, Channel(70));
    let ended = on_channel(105, Channel(26));
    let longer = with_number(number_of(7, 1));
    let past = with_number(number_of(17, 0));
    let open = written(2001234, 101, Field::Blank, usual(), 118);
    let cases = [
        (
            "the writer writes the sequence's own bytes",
            with_number(usual()),
            0,
        ),
        ("21 a room of 27 bytes", short, 21),
        ("15 two ships", ships, 15),
        ("17 first telecommand 110", unknown, 17),
        ("18 channel 70", calling, 18),
        ("18 a channel in an end of call", ended, 18),
        ("19 no digit", with_number(no_number()), 19),
        ("19 an unused digit that is not 0", longer, 19),
        ("19 seventeen digits", past, 19),
        ("20 end of sequence 118", open, 20u8),
    ];
    for (title, given, wanted) in cases {
        answered(rt, title, given, wanted)?;
    }
    Ok(())
}

// Each has channel 16 in its field, no number, and end of sequence 118.
fn refused(length: usize, address: u32, first: u8) -> Option<u8> {
    let field = Field::Channel(Channel(16));
    written_in(length, address, first, field, no_number(), 118)
}

fn try_order(rt: &impl Print) -> io::Result<()> {
    let last = written(2001234, 101, Field::Blank, no_number(), 118);
    let cases = [
        ("21 before 15 and the rest", refused(27, 200056790, 110), 21),
        ("15 before 17 and the rest", refused(28, 200056790, 110), 15),
        ("17 before 18 and the rest", refused(28, 2001234, 110), 17),
        ("18 before 19 and the rest", refused(28, 2001234, 101), 18),
        ("19 before 20", last, 19u8),
    ];
    for (title, given, wanted) in cases {
        answered(rt, title, given, wanted)?;
    }
    Ok(())
}

pub(crate) fn try_writer(rt: &impl Print) -> io::Result<()> {
    try_alone(rt)?;
    try_order(rt)
}
