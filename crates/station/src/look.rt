// What is seen of a station before an event is judged, and when its next wait falls due.
ghost use Rattle.std.specs.Prelude.{◌≡◌, ◌≤◌, ◌&&◌, ◌++◌, map, length, eqb};
ghost use Rattle.rules.specs.Rules.Places.{all, distinct};
ghost use Rattle.rules.specs.Rules.Sound.{most_slots, queue_room, sound};
ghost use Rattle.rules.specs.Rules.Station.{slot_table, next_due, due_at};
ghost use Rattle.rules.specs.Rules.Waits.{earliest};
ghost use Rattle.slots.specs.Views.{slot_view, waiting_view, due_view, due_of};
ghost use Rattle.due_times.specs.Joins.{queue_joined};
ghost use Rattle.sound_records.specs.Kept.{slot_sound, waiting_sound};
ghost use Rattle.soundness.specs.Soundly.{number_of, ships_of, ship_at};
ghost use Rattle.station.specs.Model.{model_of, config_of};
ghost use Rattle.station.specs.Step.{records_keep, due_image};
ghost use Rattle.station.specs.Pieces.{Sees};

use crate::Station;
use distinct::all_apart;
use due_times::{loss_due, main_due, sooner_of};
use gate::Look;
use slots::mast::Mast;
use slots::{
    Due, MOST_SLOTS, MOST_WAITING, QUEUE_ROOM, QueuePlace, SLOTS, Slot, Wait, Waiting, has_ship,
};
use sound_records::{slot_sound, waiting_sound};
use soundness::head_sound;
use units::{SlotNumber, Tenths};

// Every slot and every place of the queue may be a ship's.
const SHIPS: usize = SLOTS + QUEUE_ROOM;

// When the wait falls due.
pub(crate) fn due_time(due: Option<Due>) -> Option<Tenths>
    ensures { result ≡ due_image (due_at (due_view due)) }
{
    due.map(|wait| wait.at)
}

// Whether each slot is sound, and the wait that falls due first. From the last to the first: of two waits due together the earlier stands.
fn slots_seen(slots: &[Slot], mast: Mast, clock: Tenths) -> (bool, Option<Due>)
    requires { length slots.now ≤ most_slots }
    ensures sound { result.0 ≡ all (slot_sound mast clock) slots.now }
    ensures first { due_view result.1 ≡ earliest (slot_table 0 (map slot_view slots.now)) }
{
    let mut sound = true;
    let mut first = None;
    for i in (0..slots.len()).rev() {
        let slot = slots[i];
        let number = SlotNumber(i as u32);
        sound &= slot_sound(slot, mast, clock);
        let with_main = main_due(slot, number, first);
        first = loss_due(slot, number, with_main);
    }
    (sound, first)
}

// The same of the queue, whose waits come before those in `first` that fall due with them; a loop of its own, as in tidying.
fn queue_seen(
    queue: &[Waiting],
    mast: Mast,
    clock: Tenths,
    mut first: Option<Due>,
) -> (bool, Option<Due>)
    requires { length queue.now ≤ queue_room }
    ensures sound { result.0 ≡ all (waiting_sound mast clock) queue.now }
    ensures first { due_view result.1 ≡ queue_joined 0 (map due_of (map waiting_view queue.now)) (due_view first) }
{
    let mut sound = true;
    for i in (0..queue.len()).rev() {
        let entry = queue[i];
        sound &= waiting_sound(entry, mast, clock);
        let due = Due {
            at: entry.due,
            wait: Wait::Entry(QueuePlace(i as u8)),
        };
        first = sooner_of(due, first);
    }
    (sound, first)
}

fn channels_apart(slots: &[Slot]) -> bool
    requires { length slots.now ≤ most_slots }
    ensures { result ≡ distinct eqb (map number_of slots.now) }
{
    let mut channels = [0u32; SLOTS];
    for (i, slot) in slots.iter().enumerate() {
        channels[i] = slot.channel.0;
    }
    all_apart(&channels[..slots.len()])
}

fn ships_apart(slots: &[Slot], queue: &[Waiting]) -> bool
    requires slots_fit { length slots.now ≤ most_slots }
    requires queue_fits { length queue.now ≤ queue_room }
    ensures { result ≡ distinct eqb (ships_of slots.now ++ map ship_at queue.now) }
{
    let mut ships = [0u32; SHIPS];
    let mut count = 0;
    for slot in slots {
        if has_ship(slot.phase) {
            ships[count] = slot.request.ship;
            count += 1;
        }
    }
    for entry in queue {
        ships[count] = entry.request.ship;
        count += 1;
    }
    all_apart(&ships[..count])
}

impl Station {
    // What the gate judges by.
    pub(crate) fn looked(&self) -> Look
        ensures { Sees self.now result }
    {
        let count = self.count.min(MOST_SLOTS);
        let waiting = self.waiting.min(MOST_WAITING);
        let slots = &self.slots[..count as usize];
        let queue = &self.queue[..waiting as usize];
        let (slots_sound, slots_first) = slots_seen(slots, self.mast, self.clock);
        let (queue_sound, first) = queue_seen(queue, self.mast, self.clock, slots_first);
        let head = head_sound(self.mast, self.clock, self.count, self.waiting);
        let apart = channels_apart(slots) & ships_apart(slots, queue);
        Look {
            sound: head & slots_sound & queue_sound & apart,
            clock: self.clock,
            count,
            due: first,
        }
    }

    // The test that 29 makes.
    pub fn is_sound(self) -> bool
        ensures { result ≡ (records_keep self && sound (config_of self) (model_of self)) }
    {
        self.looked().sound
    }

    // The next due time, if a wait runs.
    pub fn next_due(self) -> Option<Tenths>
        ensures { result ≡ due_image (next_due (model_of self)) }
    {
        due_time(self.looked().due)
    }
}
