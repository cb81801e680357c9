// What an event does to a station, as a value: an outcome names one slot and the queue, and holds no station.
#![tactic(auto)]

pub mod parts;

use slots::{Phase, QueuePlace};
use units::{Duration, Tenths};

// How far the call of a slot has come: nobody has answered, or somebody since then; `None` would not say which.
#[derive(Clone, Copy)]
pub enum Talk {
    Unanswered,
    Since(Tenths),
}

// What an event does. It holds no request: whose is meant is the slot's own, the one asked, or the oldest waiting ship's.
#[derive(Clone, Copy)]
pub enum Outcome {
    Ignored, // answered 1, all others 0
    Passes, // a tick with nothing due
    Turns(Phase), // another phase, and nothing said
    Dials, // working call
    RingsBackAgain, // the first ring-back due
    Frees, // the hold due, the operator gives back: the oldest is rung back
    Clears, // carrier off, and freed
    CoastEnds(Talk), // charge if answered, release, end of call, carrier off, freed
    ShipEnds(Talk), // the same, but held
    SaysAgain(Option<Duration>), // in the hold
    Repeats, // rule b, an identical request
    Renews, // rule b, offered afresh
    Redials(Talk), // rule c: the coast ends the call, then d to g apply
    Offers, // rule e
    Joins, // rule f
    Replaces(QueuePlace), // rule d
    Unable(u8), // rules a and g, and document 02, no. 4: no number is left; M.493's own symbol of the reason, which is sent
    Drops(QueuePlace), // a queue entry due
    Calls, // from ashore
    CallsAgain, // the first call from ashore due
    StartsRinging, // the ship agrees to it
    Transmits, // the ship answers it
    DropsCall(bool, bool), // it is dropped: whether it rings, and whether the caller gets the tone
}

// What becomes of the slot: another phase of its own call, or a new call for the one asked or the oldest waiting ship.
#[derive(Clone, Copy)]
pub enum Turn {
    Stays,
    Own(Phase),
    Asked(Phase),
    Oldest(Phase),
}

// What becomes of the queue: a ship leaves it, the one asked joins it with a due time, or asks for something else.
#[derive(Clone, Copy)]
pub enum QueueChange {
    Same,
    Leaves(QueuePlace),
    Joins(Tenths),
    Replaces(QueuePlace),
}
