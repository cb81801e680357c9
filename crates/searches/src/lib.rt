// A slot or a place looked for: the lowest free, the one whose channel is named, the one where a ship stands or that keeps its request.
#![tactic(auto)]

ghost use Rattle.std.specs.Prelude.{◌≡◌};
ghost use Rattle.rules.specs.Rules.Places.{lowest};
ghost use Rattle.rules.specs.Rules.Heard.{same_channel};
ghost use Rattle.rules.specs.Rules.Station.{is_free};
ghost use Rattle.rules.specs.Rules.Requests.{owns, waits_for, stands_at};
ghost use Rattle.rules.specs.Rules.Ashore.{keeps_for};
ghost use Rattle.requests.specs.Views.{viewed, party_of};
ghost use Rattle.slots.specs.Views.{slot_view, waiting_view, channel_of, found_view, place_view, standing_view};

use requests::sameness::is_by;
use slots::{QUEUE_ROOM, QueuePlace, SLOTS, Slot, Standing, Waiting, has_ship, is_free, stores};
use units::{Channel, SlotNumber};

// The lowest free slot of so many. Each search is a chain of its own: through one closure that holds the test it stays open that this one is
// as it was.
pub fn first_free(slots: &[Slot; SLOTS], count: u8) -> Option<SlotNumber>
    ensures { found_view result ≡ lowest is_free (viewed slot_view count slots.now) }
{
    let place = slots
        .iter()
        .take(count as usize)
        .position(|slot| is_free(*slot));
    place.map(|i| SlotNumber(i as u32))
}

// The slot whose channel is named.
pub fn slot_named(slots: &[Slot; SLOTS], count: u8, wanted: Channel) -> Option<SlotNumber>
    ensures { found_view result ≡ lowest (same_channel wanted) (viewed channel_of count slots.now) }
{
    let place = slots
        .iter()
        .take(count as usize)
        .position(|slot| wanted == slot.channel);
    place.map(|i| SlotNumber(i as u32))
}

fn is_of(slot: Slot, ship: u32, station: u32) -> bool
    ensures { result ≡ owns (party_of ship station) (slot_view slot) }
{
    has_ship(slot.phase) && is_by(slot.request, ship, station)
}

fn keeps_for(slot: Slot, ship: u32, station: u32) -> bool
    ensures { result ≡ keeps_for (party_of ship station) (slot_view slot) }
{
    stores(slot.phase) && is_by(slot.request, ship, station)
}

// Document 02, no. 2: "that ship already has a slot (a hold included)": the lowest slot that keeps a request of the ship.
pub fn kept_for(slots: &[Slot; SLOTS], count: u8, ship: u32, station: u32) -> Option<SlotNumber>
    ensures { found_view result ≡ lowest (keeps_for (party_of ship station)) (viewed slot_view count slots.now) }
{
    let place = slots
        .iter()
        .take(count as usize)
        .position(|slot| keeps_for(*slot, ship, station));
    place.map(|i| SlotNumber(i as u32))
}

// The ship's place in the queue: the first, of so many, where it waits.
pub fn place_of(
    queue: &[Waiting; QUEUE_ROOM],
    waiting: u8,
    ship: u32,
    station: u32,
) -> Option<QueuePlace>
    ensures { place_view result ≡ lowest (waits_for (party_of ship station)) (viewed waiting_view waiting queue.now) }
{
    let place = queue
        .iter()
        .take(waiting as usize)
        .position(|entry| is_by(entry.request, ship, station));
    place.map(|k| QueuePlace(k as u8))
}

// The ship's slot.
fn slot_of(slots: &[Slot; SLOTS], count: u8, ship: u32, station: u32) -> Option<SlotNumber>
    ensures { found_view result ≡ lowest (owns (party_of ship station)) (viewed slot_view count slots.now) }
{
    let place = slots
        .iter()
        .take(count as usize)
        .position(|slot| is_of(*slot, ship, station));
    place.map(|i| SlotNumber(i as u32))
}

// Where a ship stands: its slot, or else its place in the queue.
pub fn standing(
    slots: &[Slot; SLOTS],
    count: u8,
    queue: &[Waiting; QUEUE_ROOM],
    waiting: u8,
    ship: u32,
    station: u32,
) -> Standing
    ensures { standing_view result ≡ stands_at
        (lowest (owns (party_of ship station)) (viewed slot_view count slots.now))
        (lowest (waits_for (party_of ship station)) (viewed waiting_view waiting queue.now)) }
{
    if let Some(slot) = slot_of(slots, count, ship, station) {
        return Standing::Holds(slot);
    }
    match place_of(queue, waiting, ship, station) {
        Some(place) => Standing::Waits(place),
        None => Standing::Nowhere,
    }
}
