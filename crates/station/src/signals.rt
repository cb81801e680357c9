// The signals of a call: dialling ended, off-hook and on-hook ashore, the ship's carrier up and down.
ghost use Rattle.std.specs.Prelude.{◌≡◌};
ghost use Rattle.rules.specs.Rules.Words.{dialling_ended, off_hook, on_hook, carrier_up, carrier_down};
ghost use Rattle.station.specs.Step.{slot_at, stepped_by, room_after};

use crate::{Plain, Station, Stepped};
use slots::Signal;
use units::{SlotNumber, Tenths};

impl Station {
    // Ashore the exchange has dialled the number.
    pub fn dialling_ended(self, time: Tenths, slot: SlotNumber, room: &mut [u8]) -> Stepped
        ensures value { result ≡ stepped_by self (slot_at time.0 slot.0 dialling_ended room.old) }
        ensures room_written { room.new ≡ room_after self room.old (slot_at time.0 slot.0 dialling_ended room.old) }
    {
        self.plainly(Plain::Signal(Signal::LineDialledOut), time, slot, room)
    }

    // Ashore the line is answered.
    pub fn off_hook(self, time: Tenths, slot: SlotNumber, room: &mut [u8]) -> Stepped
        ensures value { result ≡ stepped_by self (slot_at time.0 slot.0 off_hook room.old) }
        ensures room_written { room.new ≡ room_after self room.old (slot_at time.0 slot.0 off_hook room.old) }
    {
        self.plainly(Plain::Signal(Signal::LineLifted), time, slot, room)
    }

    // Ashore the line is put down.
    pub fn on_hook(self, time: Tenths, slot: SlotNumber, room: &mut [u8]) -> Stepped
        ensures value { result ≡ stepped_by self (slot_at time.0 slot.0 on_hook room.old) }
        ensures room_written { room.new ≡ room_after self room.old (slot_at time.0 slot.0 on_hook room.old) }
    {
        self.plainly(Plain::Signal(Signal::LineHung), time, slot, room)
    }

    // The ship's carrier is present again.
    pub fn carrier_up(self, time: Tenths, slot: SlotNumber, room: &mut [u8]) -> Stepped
        ensures value { result ≡ stepped_by self (slot_at time.0 slot.0 carrier_up room.old) }
        ensures room_written { room.new ≡ room_after self room.old (slot_at time.0 slot.0 carrier_up room.old) }
    {
        self.plainly(Plain::Signal(Signal::CarrierHeard), time, slot, room)
    }

    // The ship's carrier is lost.
    pub fn carrier_down(self, time: Tenths, slot: SlotNumber, room: &mut [u8]) -> Stepped
        ensures value { result ≡ stepped_by self (slot_at time.0 slot.0 carrier_down room.old) }
        ensures room_written { room.new ≡ room_after self room.old (slot_at time.0 slot.0 carrier_down room.old) }
    {
        self.plainly(Plain::Signal(Signal::CarrierLost), time, slot, room)
    }
}
