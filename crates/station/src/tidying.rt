// A station's records laid out anew, from the last to the first: of two waits due together the earlier stands.
ghost use Rattle.std.specs.Prelude.{◌≡◌, ◌≤◌, map};
ghost use Rattle.rules.specs.Rules.Bytes.{padded};
ghost use Rattle.rules.specs.Rules.Sound.{most_slots, queue_room};
ghost use Rattle.rules.specs.Rules.Station.{slot_table};
ghost use Rattle.rules.specs.Rules.Waits.{earliest};
ghost use Rattle.requests.specs.Views.{viewed};
ghost use Rattle.slots.specs.Images.{tidy_slot, tidy_waiting, blank_slot, blank_waiting};
ghost use Rattle.slots.specs.Views.{slot_view, waiting_view, due_view, due_of};
ghost use Rattle.due_times.specs.Joins.{queue_joined};

use due_times::{loss_due, main_due, sooner_of};
use slots::laying::{blank_slot, blank_waiting, tidy_slot, tidy_waiting};
use slots::{Due, QUEUE_ROOM, QueuePlace, SLOTS, Slot, Wait, Waiting};
use units::SlotNumber;

// So many slots tidied and the others blank; the wait of a slot that falls due first.
pub(crate) fn slots_anew(slots: &mut [Slot; SLOTS], count: u8) -> Option<Due>
    requires { count ≤ most_slots }
    ensures laid { slots.new ≡ padded blank_slot most_slots (viewed tidy_slot count slots.old) }
    ensures first { due_view result ≡ earliest (slot_table 0 (viewed slot_view count slots.old)) }
{
    slots[count as usize..].fill(blank_slot());
    let mut first = None;
    for i in (0..count).rev() {
        let slot = slots[i as usize];
        let number = SlotNumber(i as u32);
        let with_main = main_due(slot, number, first);
        first = loss_due(slot, number, with_main);
        slots[i as usize] = tidy_slot(slot);
    }
    first
}

// The same of the queue, whose waits come before those in `first` that fall due with them. A loop of its own: a slot has two waits, another
// blank and another test, and one function would take four closures.
pub(crate) fn queue_anew(
    queue: &mut [Waiting; QUEUE_ROOM],
    waiting: u8,
    mut first: Option<Due>,
) -> Option<Due>
    requires { waiting ≤ queue_room }
    ensures laid { queue.new ≡ padded blank_waiting queue_room (viewed tidy_waiting waiting queue.old) }
    ensures joined { due_view result ≡ queue_joined 0 (map due_of (viewed waiting_view waiting queue.old)) (due_view first) }
{
    queue[waiting as usize..].fill(blank_waiting());
    for i in (0..waiting).rev() {
        let entry = queue[i as usize];
        let due = Due {
            at: entry.due,
            wait: Wait::Entry(QueuePlace(i)),
        };
        first = sooner_of(due, first);
        queue[i as usize] = tidy_waiting(entry);
    }
    first
}
