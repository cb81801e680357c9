// What an outcome makes of a slot's record, and of the queue.
ghost use Rattle.std.specs.Prelude.{◌≡◌, ◌≤◌, length};
ghost use Rattle.rules.specs.Rules.Places.{drop_at};
ghost use Rattle.rules.specs.Rules.Sound.{queue_room};
ghost use Rattle.requests.specs.Views.{viewed, request_of};
ghost use Rattle.slots.specs.Views.{waiting_view};
ghost use Rattle.station.specs.Changes.{slot_turned, queue_after};

use outcomes::parts::entered;
use outcomes::{QueueChange, Turn};
use requests::Request;
use slots::{QUEUE_ROOM, Slot, Waiting};
use telling::Scene;
use units::CallNumber;

// The slot as the outcome turns it, its channel kept; a new call has the last number then given.
pub(crate) fn slot_turned(slot: Slot, turn: Turn, scene: Scene, last: CallNumber) -> Slot
    ensures { result ≡ slot_turned scene last slot turn }
{
    let channel = slot.channel;
    match turn {
        Turn::Stays => slot,
        Turn::Own(phase) => Slot {
            phase,
            channel,
            call: scene.call,
            request: scene.own,
        },
        Turn::Asked(phase) => Slot {
            phase,
            channel,
            call: last,
            request: scene.asked,
        },
        Turn::Oldest(phase) => Slot {
            phase,
            channel,
            call: last,
            request: scene.oldest,
        },
    }
}

// Who waits behind the place that is given up moves up; how many wait then.
pub(crate) fn moved_up(queue: &mut [Waiting; QUEUE_ROOM], waiting: u8, gap: u8) -> u8
    requires { waiting ≤ queue_room }
    ensures left { viewed waiting_view result queue.new ≡ drop_at gap (viewed waiting_view waiting queue.old) }
    ensures fewer { result ≤ waiting }
{
    if waiting <= gap {
        return waiting;
    }
    let gap = gap as usize;
    queue.copy_within(gap + 1..waiting as usize, gap);
    waiting - 1
}

// So many wait; the queue is changed, where that request is asked for. How many wait then.
pub(crate) fn requeued(
    queue: &mut [Waiting; QUEUE_ROOM],
    waiting: u8,
    change: QueueChange,
    request: Request,
) -> u8
    requires within { waiting ≤ queue_room }
    requires fits { length (queue_after (request_of request) change (viewed waiting_view waiting queue.old)) ≤ queue_room }
    ensures queue { viewed waiting_view result queue.new ≡ queue_after (request_of request) change (viewed waiting_view waiting queue.old) }
    ensures room { result ≤ queue_room }
    ensures long { length queue.new ≡ queue_room }
{
    match change {
        QueueChange::Same => waiting,
        QueueChange::Leaves(place) => moved_up(queue, waiting, place.0),
        QueueChange::Joins(_) => {
            let entry = queue[waiting as usize];
            queue[waiting as usize] = entered(change, entry, request);
            waiting + 1
        }
        QueueChange::Replaces(place) => {
            if place.0 < waiting {
                let entry = queue[place.0 as usize];
                queue[place.0 as usize] = entered(change, entry, request);
            }
            waiting
        }
    }
}
