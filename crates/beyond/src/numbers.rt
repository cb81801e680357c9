// Document 02, no. 4: the last call number, and what is answered behind it.
use crate::answered;
use crate::rooms::request;
use crate::stations::busy_behind;
use station::Stepped;
use std::io;
use units::Tenths;

const LAST: u32 = 4294967295;

const ONE_LEFT: u32 = LAST - 1;

// A request heard where that number was given last.
fn heard(last: u32, room: &mut [u8]) -> Stepped {
    busy_behind(last).heard_on_channel_70(Tenths(1100), &request(), room)
}

// Rule c, with that number given last: how many actions.
fn redialled(last: u32) -> u8 {
    heard(last, &mut [165u8; 320]).count
}

// And what the action of that number tells its caller: the second telecommand of the sequence that it sends.
fn redialled_told(last: u32, block: u8) -> u8 {
    let mut room = [165u8; 320];
    let stepped = heard(last, &mut room);
    if block < stepped.count {
        return room[40 * (block as usize % 8) + 17];
    }
    0
}

// And whether the ship that waited has the last number then: 1, or 0.
fn last_rung_back(last: u32) -> u8 {
    let stepped = heard(last, &mut [165u8; 320]);
    u8::from(stepped.station.slots[0].call.0 == LAST)
}

// The carrier's loss: how many actions.
fn lost(last: u32) -> u8 {
    busy_behind(last)
        .tick(Tenths(1451), &mut [165u8; 320])
        .count
}

fn called_from_ashore(last: u32, ship: u32) -> u8 {
    let digits = [5u32, 5, 5];
    let mut room = [165u8; 320];
    let stepped = busy_behind(last).call_from_ashore(Tenths(1100), ship, 101, &digits, &mut room);
    stepped.answer
}

pub(crate) fn try_numbers(rt: &impl Print) -> io::Result<()> {
    let cases = [
        (
            "with one number left rule c gives seven actions",
            redialled(ONE_LEFT),
            7,
        ),
        (
            "the ring-back has the last number",
            last_rung_back(ONE_LEFT),
            1,
        ),
        ("its caller is told 107", redialled_told(ONE_LEFT, 6), 107),
        ("with none left rule c gives five", redialled(LAST), 5),
        ("and its caller is told 107", redialled_told(LAST, 4), 107),
        (
            "with one left a freed slot rings back: six",
            lost(ONE_LEFT),
            6,
        ),
        ("with none left nobody is rung back: four", lost(LAST), 4),
        (
            "a caller ashore takes the last number",
            called_from_ashore(ONE_LEFT, 200056791),
            0,
        ),
        (
            "37 a caller ashore with none left",
            called_from_ashore(LAST, 200056791),
            37,
        ),
        ("38 before that", called_from_ashore(LAST, 200056789), 38u8),
    ];
    for (title, given, wanted) in cases {
        answered(rt, title, Some(given), wanted)?;
    }
    Ok(())
}
