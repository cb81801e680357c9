// The actions that are handed out, each made with its payload.
#![tactic(auto)]

pub mod deeds;
mod numbers;
pub mod sequences;

use units::SlotNumber;

// "40 bytes each": "kind, slot .., payload length, 0", the payload and zeros.
pub const BLOCK: usize = 40;

pub const PAYLOAD: usize = BLOCK - 4;

// "At most 8 a step": so much room they need.
pub const ACTIONS: usize = 8;

pub const ROOM: usize = ACTIONS * BLOCK;

// "slot (255 for the 104 answers)"
pub const UNABLE_SLOT: SlotNumber = SlotNumber(255);

// "1 carrier on, 2 carrier off, 3 send on channel 70, 4 send on the working channel, 5 dial, 6 release line, 7 charge";
// document 02, no. 2: "8 ringing on, 9 ringing off, 10 five seconds of busy tone"
#[derive(Clone, Copy, PartialEq, Eq)]
pub enum Kind {
    CarrierOn = 1,
    CarrierOff,
    SendOnChannel70,
    SendOnWorking,
    Dial,
    ReleaseLine,
    Charge,
    RingingOn,
    RingingOff,
    BusyTone = 10,
}

// One action: its kind's number, which may be any byte, its slot, how much of its payload counts, and the payload. No heap: an array with
// its length beside it.
#[derive(Clone, Copy)]
pub struct Action {
    pub kind: u8,
    pub slot: SlotNumber,
    pub length: u8,
    pub payload: [u8; PAYLOAD],
}

// Who ends a call.
#[derive(Clone, Copy)]
pub enum Ender {
    Ship,
    Coast,
}
