// Stations made by hand: one that is sound, and those that differ from it in one thing.
use requests::{Mode, Request};
use sequence::Number;
use slots::{Carrier, Phase, Slot, Waiting};
use station::Station;
use units::{CallNumber, Channel, Tenths};

// A number that begins with 5551234, and the digit behind it.
pub(crate) fn number_of(count: u8, eighth: u8) -> Number {
    Number {
        count,
        digits: [5, 5, 5, 1, 2, 3, 4, eighth, 0, 0, 0, 0, 0, 0, 0, 0],
    }
}

pub(crate) fn no_number() -> Number {
    Number {
        count: 0,
        digits: [0u8; 16],
    }
}

fn request_of(ship: u32, station: u32, number: Number) -> Request {
    Request {
        ship,
        station,
        mode: Mode::Simplex,
        second: 126,
        number,
    }
}

fn usual_request() -> Request {
    request_of(200056789, 2001234, number_of(7, 0))
}

// Answered since 900; silent, due at 1451.
fn usual_phase() -> Phase {
    Phase::Answered(Tenths(900), Carrier::Lost(Tenths(1451)))
}

fn usual_slot() -> Slot {
    Slot {
        phase: usual_phase(),
        channel: Channel(26),
        call: CallNumber(7),
        request: usual_request(),
    }
}

fn waiting(ship: u32, due: Tenths) -> Waiting {
    Waiting {
        due,
        request: request_of(ship, 2001234, number_of(7, 0)),
    }
}

fn usual_waiting() -> Waiting {
    waiting(200056790, Tenths(2000))
}

// Slots of channel 26, which is given, and 27, which is free; one ship given for the queue's first place.
fn made(
    clock: Tenths,
    identity: u32,
    count: u8,
    waiting: u8,
    slot: Slot,
    first: Waiting,
) -> Station {
    let mut channels = [Channel(0); 16];
    channels[0] = Channel(26);
    channels[1] = Channel(27);
    let mut station = Station::set_up(2001234, &channels, 2).unwrap_or(Station::blank());
    station.clock = clock;
    station.mast.identity = identity;
    station.count = count;
    station.waiting = waiting;
    station.slots[0] = slot;
    station.queue[0] = first;
    station
}

pub(crate) fn busy() -> Station {
    made(Tenths(1000), 2001234, 2, 1, usual_slot(), usual_waiting())
}

// With that call number given last.
pub(crate) fn busy_behind(last: u32) -> Station {
    let given = CallNumber(last);
    let mut station = busy();
    station.last = given;
    station
}

// With nobody in a slot or waiting.
fn idle(clock: Tenths, identity: u32) -> Station {
    let slot = Slot {
        phase: Phase::Free,
        channel: Channel(26),
        call: CallNumber(7),
        request: usual_request(),
    };
    made(clock, identity, 2, 0, slot, usual_waiting())
}

pub(crate) fn named(identity: u32) -> Station {
    idle(Tenths(1000), identity)
}

// From here on: a station that has another clock, other counts, another slot or another waiting ship.
pub(crate) fn at_clock(clock: Tenths) -> Station {
    idle(clock, 2001234)
}

pub(crate) fn with_counts(count: u8, waiting: u8) -> Station {
    made(
        Tenths(1000),
        2001234,
        count,
        waiting,
        usual_slot(),
        usual_waiting(),
    )
}

fn with_slot(phase: Phase, channel: Channel, request: Request) -> Station {
    let slot = Slot {
        phase,
        channel,
        call: CallNumber(7),
        request,
    };
    made(Tenths(1000), 2001234, 2, 1, slot, usual_waiting())
}

pub(crate) fn storing(station: u32, number: Number) -> Station {
    let request = request_of(200056789, station, number);
    with_slot(usual_phase(), Channel(26), request)
}

pub(crate) fn on_channel(channel: Channel) -> Station {
    with_slot(usual_phase(), channel, usual_request())
}

pub(crate) fn with_waiting(ship: u32, due: Tenths) -> Station {
    let first = waiting(ship, due);
    made(Tenths(1000), 2001234, 2, 1, usual_slot(), first)
}

pub(crate) fn in_phase(phase: Phase) -> Station {
    with_slot(phase, Channel(26), usual_request())
}
