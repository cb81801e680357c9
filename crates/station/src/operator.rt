// The operator's hand on a slot.
ghost use Rattle.std.specs.Prelude.{◌≡◌};
ghost use Rattle.rules.specs.Rules.Words.{takes, gives_back};
ghost use Rattle.station.specs.Step.{slot_at, stepped_by, room_after};

use crate::{Plain, Station, Stepped};
use slots::Hand;
use units::{SlotNumber, Tenths};

impl Station {
    // The operator takes a free slot.
    pub fn take(self, time: Tenths, slot: SlotNumber, room: &mut [u8]) -> Stepped
        ensures value { result ≡ stepped_by self (slot_at time.0 slot.0 takes room.old) }
        ensures room_written { room.new ≡ room_after self room.old (slot_at time.0 slot.0 takes room.old) }
    {
        self.plainly(Plain::Hand(Hand::Takes), time, slot, room)
    }

    // The operator gives back a taken slot.
    pub fn give_back(self, time: Tenths, slot: SlotNumber, room: &mut [u8]) -> Stepped
        ensures value { result ≡ stepped_by self (slot_at time.0 slot.0 gives_back room.old) }
        ensures room_written { room.new ≡ room_after self room.old (slot_at time.0 slot.0 gives_back room.old) }
    {
        self.plainly(Plain::Hand(Hand::GivesBack), time, slot, room)
    }
}
