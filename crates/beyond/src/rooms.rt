// 30: a room under 320 bytes; and which bytes of a room stay as they were. Refusals stand as document 01's numbers, which are expected.
use crate::answered;
use crate::stations::{busy, named};
use station::Station;
use std::io;
use units::Tenths;

// Whether a room of 165s, 320 of them at most, is still so from a place on; a place behind its end is none.
pub(crate) fn untouched_from(room: &[u8], from: usize) -> bool {
    match room.get(from..) {
        Some(rest) => room.len() <= 320 && rest.iter().all(|byte| *byte == 165),
        None => false,
    }
}

// The answer to a tick in a room of that length. A refusal has no action.
fn ticked_in(station: Station, time: Tenths, length: usize) -> Option<u8> {
    let mut room = [165u8; 320];
    let stepped = station.tick(time, &mut room[..length.min(320)]);
    untouched_from(&room, stepped.count as usize * 40).then_some(stepped.answer)
}

// The answer at the station's own clock, when nothing happens: refused, 29, where it is not sound.
pub(crate) fn judged(station: Station) -> Option<u8> {
    ticked_in(station, station.clock, 320)
}

fn busy_in(time: Tenths, length: usize) -> Option<u8> {
    ticked_in(busy(), time, length)
}

// The ship of the busy slot asks for a call, in simplex.
pub(crate) fn request() -> [u8; 24] {
    [
        123, 0, 20, 1, 23, 40, 100, 20, 0, 56, 78, 90, 100, 126, 126, 126, 126, 105, 5, 55, 12, 34,
        117, 105u8,
    ]
}

// How many actions rule c gives where a slot is free and a ship waits, which no run leads to.
fn most_actions() -> u8 {
    let mut room = [165u8; 320];
    let stepped = busy().heard_on_channel_70(Tenths(1100), &request(), &mut room);
    stepped.count
}

pub(crate) fn try_rooms(rt: &impl Print) -> io::Result<()> {
    let unsound = ticked_in(named(200056789), Tenths(1000), 319);
    let late = busy_in(Tenths(4000000001), 319);
    let cases = [
        ("30 a room of 319 bytes", busy_in(Tenths(1000), 319), 30),
        ("30 no room at all", busy_in(Tenths(1000), 0), 30),
        (
            "a room of 320 bytes is enough",
            busy_in(Tenths(1000), 320),
            0,
        ),
        (
            "six actions, and the bytes after them stay",
            busy_in(Tenths(1451), 320),
            0,
        ),
        (
            "eight actions are the most: rule c",
            Some(most_actions()),
            8,
        ),
        ("29 before 30", unsound, 29),
        ("30 before 31", late, 30),
        ("30 before 32", busy_in(Tenths(999), 319), 30u8),
    ];
    for (title, given, wanted) in cases {
        answered(rt, title, given, wanted)?;
    }
    Ok(())
}
