// The station of the rack, by value: set-up, and one method for each kind of event.
#![tactic(auto)]

mod applying;
mod calling;
mod enacting;
mod look;
mod now;
mod operator;
mod places;
mod plain_events;
mod setting;
mod shore_calls;
mod signals;
mod tidying;
mod waits;
mod working;

use outcomes::Outcome;
use slots::mast::Mast;
use slots::{Hand, QUEUE_ROOM, SLOTS, Signal, Slot, Waiting};
use units::{CallNumber, SlotNumber, Tenths};

// One slot for each of `count` channels, and `waiting` ships, oldest first: arrays with their counts, since memory is fixed. As its fields
// stand here, the compiler copies a station less.
#[derive(Clone, Copy)]
pub struct Station {
    pub clock: Tenths,
    pub mast: Mast,
    pub last: CallNumber, // the last call number given, 0 before the first
    pub slots: [Slot; SLOTS],
    pub queue: [Waiting; QUEUE_ROOM],
    pub count: u8,
    pub waiting: u8,
}

// What an event hands back: the next station, the next due time, the answer's number, the count of actions. A number, as C's `packed` and the
// script hand it out.
#[derive(Clone, Copy)]
pub struct Stepped {
    pub station: Station,
    pub due: Option<Tenths>,
    pub answer: u8,
    pub count: u8,
}

// What happens on a slot and is no sequence.
#[derive(Clone, Copy)]
pub enum Plain {
    Signal(Signal),
    Hand(Hand),
}

// What an event hands back beside the next station.
#[derive(Clone, Copy)]
struct Told {
    due: Option<Tenths>,
    answer: u8,
    count: u8,
}

// What is done, and to which slot.
#[derive(Clone, Copy)]
struct Choice {
    slot: SlotNumber,
    outcome: Outcome,
}
