// The events, each on a station in lent bytes.
ghost use Rattle.std.specs.Prelude.{◌≡◌, ◌≤◌};
ghost use Rattle.rules.specs.Rules.Words.{heard, carrier_up, carrier_down, dialling_ended, off_hook, on_hook, takes, gives_back, tick};
ghost use Rattle.rules.specs.Rules.Words.{on_channel70};
ghost use Rattle.station.specs.Step.{event_at, slot_at};
ghost use Rattle.station.specs.Pieces.{plain_view};
ghost use Rattle.coast.specs.Events.{due_number, packed, kept, returned, station_after, room_left};

use lent_layout::{lay_station, station_from};
use slots::{Hand, Signal};
use station::{Plain, Stepped};
use units::{SlotNumber, Tenths};

pub(crate) fn due_number(due: Option<Tenths>) -> u64
    ensures value { result ≡ due_number due }
    ensures upper_bound { result ≤ 18446744069414649856 }
{
    match due {
        Some(time) => 65536 + 4294967296 * u64::from(time.0),
        None => 0,
    }
}

// What an event came to, as one number; the next station is laid where it was accepted. It comes by value: a lent one stays beside its
// copy, 1,888 bytes more of stack in each entry.
#[tactic(auto, unfolding(crate::specs::Events::packed, crate::specs::Events::kept))]
pub(crate) fn hand_back(stepped: Stepped, station: &mut [u8]) -> u64
    ensures value { result ≡ packed stepped }
    ensures station_kept { station.new ≡ kept station.old stepped }
{
    let answer = stepped.answer;
    if answer <= 1 {
        lay_station(&stepped.station, station);
    }
    u64::from(stepped.answer) + 256 * u64::from(stepped.count) + due_number(stepped.due)
}

// The time has come.
#[tactic(auto, unfolding(crate::specs::Events::returned, crate::specs::Events::station_after, crate::specs::Events::room_left))]
pub fn coast_tick(station: &mut [u8], time: u32, room: &mut [u8]) -> u64
    ensures value { result ≡ returned station.old (event_at time tick room.old) }
    ensures station_kept { station.new ≡ station_after station.old (event_at time tick room.old) }
    ensures room_written { room.new ≡ room_left station.old room.old (event_at time tick room.old) }
{
    let by_value = station_from(station);
    let stepped = by_value.tick(Tenths(time), room);
    hand_back(stepped, station)
}

// A sequence was heard on channel 70.
#[tactic(auto, unfolding(crate::specs::Events::returned, crate::specs::Events::station_after, crate::specs::Events::room_left))]
pub fn coast_heard_on_channel_70(
    station: &mut [u8],
    time: u32,
    symbols: &[u8],
    room: &mut [u8],
) -> u64
    ensures value { result ≡ returned station.old (event_at time (on_channel70 symbols.now) room.old) }
    ensures station_kept { station.new
        ≡ station_after station.old (event_at time (on_channel70 symbols.now) room.old) }
    ensures room_written { room.new
        ≡ room_left station.old room.old (event_at time (on_channel70 symbols.now) room.old) }
{
    let by_value = station_from(station);
    let stepped = by_value.heard_on_channel_70(Tenths(time), symbols, room);
    hand_back(stepped, station)
}

// A sequence was heard on a slot's working channel.
#[tactic(auto, unfolding(crate::specs::Events::returned, crate::specs::Events::station_after, crate::specs::Events::room_left))]
pub fn coast_heard_on_slot(
    station: &mut [u8],
    time: u32,
    slot: u32,
    symbols: &[u8],
    room: &mut [u8],
) -> u64
    ensures value { result ≡ returned station.old (slot_at time slot (heard symbols.now) room.old) }
    ensures station_kept { station.new
        ≡ station_after station.old (slot_at time slot (heard symbols.now) room.old) }
    ensures room_written { room.new
        ≡ room_left station.old room.old (slot_at time slot (heard symbols.now) room.old) }
{
    let by_value = station_from(station);
    let stepped = by_value.heard_on_slot(Tenths(time), SlotNumber(slot), symbols, room);
    hand_back(stepped, station)
}

// Whatever happens on a slot and is no sequence.
#[tactic(auto, unfolding(crate::specs::Events::returned, crate::specs::Events::station_after, crate::specs::Events::room_left))]
fn plainly(what: Plain, station: &mut [u8], time: u32, slot: u32, room: &mut [u8]) -> u64
    ensures value { result ≡ returned station.old (slot_at time slot (plain_view what) room.old) }
    ensures station_kept { station.new ≡ station_after station.old (slot_at time slot (plain_view what) room.old) }
    ensures room_written { room.new ≡ room_left station.old room.old (slot_at time slot (plain_view what) room.old) }
{
    let by_value = station_from(station);
    let stepped = by_value.plainly(what, Tenths(time), SlotNumber(slot), room);
    hand_back(stepped, station)
}

// From here on one entry for each event, as include/coast.h declares them.

// The ship's carrier comes.
pub fn coast_carrier_up(station: &mut [u8], time: u32, slot: u32, room: &mut [u8]) -> u64
    ensures value { result ≡ returned station.old (slot_at time slot carrier_up room.old) }
    ensures station_kept { station.new ≡ station_after station.old (slot_at time slot carrier_up room.old) }
    ensures room_written { room.new ≡ room_left station.old room.old (slot_at time slot carrier_up room.old) }
{
    plainly(
        Plain::Signal(Signal::CarrierHeard),
        station,
        time,
        slot,
        room,
    )
}

// The ship's carrier goes.
pub fn coast_carrier_down(station: &mut [u8], time: u32, slot: u32, room: &mut [u8]) -> u64
    ensures value { result ≡ returned station.old (slot_at time slot carrier_down room.old) }
    ensures station_kept { station.new ≡ station_after station.old (slot_at time slot carrier_down room.old) }
    ensures room_written { room.new ≡ room_left station.old room.old (slot_at time slot carrier_down room.old) }
{
    plainly(
        Plain::Signal(Signal::CarrierLost),
        station,
        time,
        slot,
        room,
    )
}

// Ashore the exchange has dialled the number.
pub fn coast_dialling_ended(station: &mut [u8], time: u32, slot: u32, room: &mut [u8]) -> u64
    ensures value { result ≡ returned station.old (slot_at time slot dialling_ended room.old) }
    ensures station_kept { station.new ≡ station_after station.old (slot_at time slot dialling_ended room.old) }
    ensures room_written { room.new ≡ room_left station.old room.old (slot_at time slot dialling_ended room.old) }
{
    plainly(
        Plain::Signal(Signal::LineDialledOut),
        station,
        time,
        slot,
        room,
    )
}

// Ashore the handset is lifted.
pub fn coast_off_hook(station: &mut [u8], time: u32, slot: u32, room: &mut [u8]) -> u64
    ensures value { result ≡ returned station.old (slot_at time slot off_hook room.old) }
    ensures station_kept { station.new ≡ station_after station.old (slot_at time slot off_hook room.old) }
    ensures room_written { room.new ≡ room_left station.old room.old (slot_at time slot off_hook room.old) }
{
    plainly(Plain::Signal(Signal::LineLifted), station, time, slot, room)
}

// Ashore it is put down.
pub fn coast_on_hook(station: &mut [u8], time: u32, slot: u32, room: &mut [u8]) -> u64
    ensures value { result ≡ returned station.old (slot_at time slot on_hook room.old) }
    ensures station_kept { station.new ≡ station_after station.old (slot_at time slot on_hook room.old) }
    ensures room_written { room.new ≡ room_left station.old room.old (slot_at time slot on_hook room.old) }
{
    plainly(Plain::Signal(Signal::LineHung), station, time, slot, room)
}

// The operator takes a free slot.
pub fn coast_take(station: &mut [u8], time: u32, slot: u32, room: &mut [u8]) -> u64
    ensures value { result ≡ returned station.old (slot_at time slot takes room.old) }
    ensures station_kept { station.new ≡ station_after station.old (slot_at time slot takes room.old) }
    ensures room_written { room.new ≡ room_left station.old room.old (slot_at time slot takes room.old) }
{
    plainly(Plain::Hand(Hand::Takes), station, time, slot, room)
}

// The operator gives a taken slot back.
pub fn coast_give_back(station: &mut [u8], time: u32, slot: u32, room: &mut [u8]) -> u64
    ensures value { result ≡ returned station.old (slot_at time slot gives_back room.old) }
    ensures station_kept { station.new ≡ station_after station.old (slot_at time slot gives_back room.old) }
    ensures room_written { room.new ≡ room_left station.old room.old (slot_at time slot gives_back room.old) }
{
    plainly(Plain::Hand(Hand::GivesBack), station, time, slot, room)
}
