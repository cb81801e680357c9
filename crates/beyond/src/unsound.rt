// 29: stations that no event leads to, each sound but for one thing, judged at their own clock. 29 is the number expected.
use crate::answered;
use crate::rooms::judged;
use crate::stations::{
    at_clock, busy, in_phase, named, no_number, number_of, on_channel, storing, with_counts,
    with_waiting,
};
use sequence::Number;
use slots::{Carrier, Phase};
use station::Station;
use std::io;
use units::{Channel, Duration, Tenths};

fn sound(rt: &impl Print, title: &str, given: Station) -> io::Result<()> {
    answered(rt, title, judged(given), 0)
}

fn unsound(rt: &impl Print, title: &str, given: Station) -> io::Result<()> {
    answered(rt, title, judged(given), 29)
}

fn queueing(ship: u32) -> Station {
    with_waiting(ship, Tenths(2000))
}

fn try_records(rt: &impl Print) -> io::Result<()> {
    sound(rt, "a busy station made by hand is sound", busy())?;
    unsound(rt, "29 its identity is a ship's", named(200056789))?;
    unsound(rt, "29 it has no channel", with_counts(0, 1))?;
    unsound(rt, "29 it has 17 channels", with_counts(17, 1))?;
    unsound(rt, "29 it works on channel 16", on_channel(Channel(16)))?;
    unsound(rt, "29 it has a channel twice", on_channel(Channel(27)))?;
    unsound(rt, "29 33 ships wait", with_counts(2, 33))?;
    unsound(rt, "29 a ship talks and waits", queueing(200056789))?;
    unsound(rt, "29 a coast station waits", queueing(2001235))
}

fn stored(number: Number) -> Station {
    storing(2001234, number)
}

fn try_stored(rt: &impl Print) -> io::Result<()> {
    let elsewhere = number_of(7, 0);
    let sixty_minutes = Duration {
        hours: 0,
        minutes: 60,
        seconds: 0,
    };
    let told = Phase::Hold(Tenths(1041), Some(sixty_minutes));
    unsound(
        rt,
        "29 another station's request",
        storing(2001235, elsewhere),
    )?;
    unsound(rt, "29 a number without digits", stored(no_number()))?;
    unsound(rt, "29 an unused digit is not 0", stored(number_of(7, 1)))?;
    unsound(rt, "29 a hold tells of 60 minutes", in_phase(told))
}

fn try_times(rt: &impl Print) -> io::Result<()> {
    let limit = Tenths(4000000000);
    let past = Tenths(4000000001);
    let late = Phase::Answered(Tenths(1001), Carrier::Present);
    sound(rt, "a clock at the limit", at_clock(limit))?;
    unsound(rt, "29 its clock is past the limit", at_clock(past))?;
    let cases = [
        ("29 a call is answered after the clock", late, 29),
        (
            "an offer due at the clock is sound",
            Phase::Offered(Tenths(1000)),
            0,
        ),
        (
            "29 an offer due before the clock",
            Phase::Offered(Tenths(999)),
            29,
        ),
        (
            "an offer due 161 later is sound",
            Phase::Offered(Tenths(1161)),
            0,
        ),
        (
            "29 an offer due 162 later",
            Phase::Offered(Tenths(1162)),
            29,
        ),
    ];
    for (title, phase, wanted) in cases {
        answered(rt, title, judged(in_phase(phase)), wanted)?;
    }
    Ok(())
}

fn try_waits(rt: &impl Print) -> io::Result<()> {
    let silent = Phase::Answered(Tenths(900), Carrier::Lost(Tenths(1452)));
    let dialling = Phase::Dialling(Tenths(1602), Carrier::Present);
    let dialled_out = Phase::DialledOut(Tenths(1602), Carrier::Present);
    let hold = Phase::Hold(Tenths(1042), None);
    let cases = [
        ("29 a simplex ship's loss due 452 later", silent, 29),
        (
            "29 a ring-back due 52 later",
            Phase::RingBack(Tenths(1052)),
            29,
        ),
        (
            "29 a second ring-back due 52 later",
            Phase::RingBackAgain(Tenths(1052)),
            29,
        ),
        (
            "29 an acknowledged slot due 162 later",
            Phase::Acknowledged(Tenths(1162)),
            29,
        ),
        ("29 dialling due 602 later", dialling, 29),
        ("29 a reply due 602 later", dialled_out, 29),
        ("29 a hold due 42 later", hold, 29),
    ];
    for (title, phase, wanted) in cases {
        answered(rt, title, judged(in_phase(phase)), wanted)?;
    }
    let queued = with_waiting(200056790, Tenths(10001));
    let past = with_waiting(200056790, Tenths(10002));
    sound(rt, "a queue entry due 9001 later is sound", queued)?;
    unsound(rt, "29 a queue entry due 9002 later", past)
}

fn try_calls_from_ashore(rt: &impl Print) -> io::Result<()> {
    let cases = [
        (
            "a call from ashore due 51 later is sound",
            Phase::Called(Tenths(1051)),
            0,
        ),
        (
            "29 a call from ashore due 52 later",
            Phase::Called(Tenths(1052)),
            29,
        ),
        (
            "29 a second call from ashore due 52 later",
            Phase::CalledAgain(Tenths(1052)),
            29,
        ),
        (
            "ringing due 601 later is sound",
            Phase::Ringing(Tenths(1601)),
            0,
        ),
        ("29 ringing due 602 later", Phase::Ringing(Tenths(1602)), 29),
    ];
    for (title, phase, wanted) in cases {
        answered(rt, title, judged(in_phase(phase)), wanted)?;
    }
    Ok(())
}

pub(crate) fn try_soundness(rt: &impl Print) -> io::Result<()> {
    try_records(rt)?;
    try_stored(rt)?;
    try_times(rt)?;
    try_waits(rt)?;
    try_calls_from_ashore(rt)
}
