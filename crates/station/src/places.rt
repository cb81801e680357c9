// What a rule asks of a station: one slot, a slot that was looked for, how many wait.
ghost use Rattle.std.specs.Prelude.{◌≡◌, length};
ghost use Rattle.station.specs.Model.{model_of};
ghost use Rattle.station.specs.Pieces.{slot_of, slot_found};

use crate::Station;
use slots::laying::blank_slot;
use slots::{MOST_SLOTS, MOST_WAITING, Slot};
use units::SlotNumber;

// The slot that was found; the lowest where none was.
pub(crate) fn slot_found(found: Option<SlotNumber>) -> SlotNumber
    ensures { result ≡ slot_found found }
{
    found.unwrap_or(SlotNumber(0))
}

impl Station {
    // The record of a slot, where there is such a slot; else the blank one.
    pub(crate) fn slot_there(&self, number: SlotNumber) -> Slot
        ensures { result ≡ slot_of self.now number.0 }
    {
        if number.0 < self.count.min(MOST_SLOTS) as u32 {
            self.slots[number.0 as usize]
        } else {
            blank_slot()
        }
    }

    // How many wait.
    pub(crate) fn queue_length(&self) -> u8
        ensures { result ≡ length (model_of self.now).queue }
    {
        self.waiting.min(MOST_WAITING)
    }
}
