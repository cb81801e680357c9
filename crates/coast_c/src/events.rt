// The events, each on a station in lent bytes.
ghost use Rattle.std.specs.Prelude.{◌≡◌};
ghost use Rattle.rules.specs.Rules.Words.{tick, on_channel70, heard, carrier_up, carrier_down, dialling_ended, off_hook, on_hook, takes, gives_back};
ghost use Rattle.station.specs.Step.{event_at, slot_at};
ghost use Rattle.coast.specs.Events.{returned, station_after, room_left};

// The time has come.
#[unsafe(no_mangle)]
pub extern "C" fn coast_tick(station: &mut [u8], time: u32, room: &mut [u8]) -> u64
    ensures value { result ≡ returned station.old (event_at time tick room.old) }
    ensures station_kept { station.new ≡ station_after station.old (event_at time tick room.old) }
    ensures room_written { room.new ≡ room_left station.old room.old (event_at time tick room.old) }
{
    coast::events::coast_tick(station, time, room)
}

// A sequence was heard on channel 70.
#[unsafe(no_mangle)]
pub extern "C" fn coast_heard_on_channel_70(
    station: &mut [u8],
    time: u32,
    symbols: &[u8],
    room: &mut [u8],
) -> u64
    ensures value { result ≡ returned station.old (event_at time (on_channel70 symbols.now) room.old) }
    ensures station_kept { station.new
        ≡ station_after station.old (event_at time (on_channel70 symbols.now) room.old) }
    ensures room_written { room.new
        ≡ room_left station.old room.old (event_at time (on_channel70 symbols.now) room.old) }
{
    coast::events::coast_heard_on_channel_70(station, time, symbols, room)
}

// A sequence was heard on a slot's working channel.
#[unsafe(no_mangle)]
pub extern "C" fn coast_heard_on_slot(
    station: &mut [u8],
    time: u32,
    slot: u32,
    symbols: &[u8],
    room: &mut [u8],
) -> u64
    ensures value { result ≡ returned station.old (slot_at time slot (heard symbols.now) room.old) }
    ensures station_kept { station.new
        ≡ station_after station.old (slot_at time slot (heard symbols.now) room.old) }
    ensures room_written { room.new
        ≡ room_left station.old room.old (slot_at time slot (heard symbols.now) room.old) }
{
    coast::events::coast_heard_on_slot(station, time, slot, symbols, room)
}

// The ship's carrier comes.
#[unsafe(no_mangle)]
pub extern "C" fn coast_carrier_up(station: &mut [u8], time: u32, slot: u32, room: &mut [u8]) -> u64
    ensures value { result ≡ returned station.old (slot_at time slot carrier_up room.old) }
    ensures station_kept { station.new ≡ station_after station.old (slot_at time slot carrier_up room.old) }
    ensures room_written { room.new ≡ room_left station.old room.old (slot_at time slot carrier_up room.old) }
{
    coast::events::coast_carrier_up(station, time, slot, room)
}

// The ship's carrier goes.
#[unsafe(no_mangle)]
pub extern "C" fn coast_carrier_down(
    station: &mut [u8],
    time: u32,
    slot: u32,
    room: &mut [u8],
) -> u64
    ensures value { result ≡ returned station.old (slot_at time slot carrier_down room.old) }
    ensures station_kept { station.new ≡ station_after station.old (slot_at time slot carrier_down room.old) }
    ensures room_written { room.new ≡ room_left station.old room.old (slot_at time slot carrier_down room.old) }
{
    coast::events::coast_carrier_down(station, time, slot, room)
}

// Ashore the exchange has dialled the number.
#[unsafe(no_mangle)]
pub extern "C" fn coast_dialling_ended(
    station: &mut [u8],
    time: u32,
    slot: u32,
    room: &mut [u8],
) -> u64
    ensures value { result ≡ returned station.old (slot_at time slot dialling_ended room.old) }
    ensures station_kept { station.new ≡ station_after station.old (slot_at time slot dialling_ended room.old) }
    ensures room_written { room.new ≡ room_left station.old room.old (slot_at time slot dialling_ended room.old) }
{
    coast::events::coast_dialling_ended(station, time, slot, room)
}

// Ashore the handset is lifted.
#[unsafe(no_mangle)]
pub extern "C" fn coast_off_hook(station: &mut [u8], time: u32, slot: u32, room: &mut [u8]) -> u64
    ensures value { result ≡ returned station.old (slot_at time slot off_hook room.old) }
    ensures station_kept { station.new ≡ station_after station.old (slot_at time slot off_hook room.old) }
    ensures room_written { room.new ≡ room_left station.old room.old (slot_at time slot off_hook room.old) }
{
    coast::events::coast_off_hook(station, time, slot, room)
}

// Ashore it is put down.
#[unsafe(no_mangle)]
pub extern "C" fn coast_on_hook(station: &mut [u8], time: u32, slot: u32, room: &mut [u8]) -> u64
    ensures value { result ≡ returned station.old (slot_at time slot on_hook room.old) }
    ensures station_kept { station.new ≡ station_after station.old (slot_at time slot on_hook room.old) }
    ensures room_written { room.new ≡ room_left station.old room.old (slot_at time slot on_hook room.old) }
{
    coast::events::coast_on_hook(station, time, slot, room)
}

// The operator takes a free slot.
#[unsafe(no_mangle)]
pub extern "C" fn coast_take(station: &mut [u8], time: u32, slot: u32, room: &mut [u8]) -> u64
    ensures value { result ≡ returned station.old (slot_at time slot takes room.old) }
    ensures station_kept { station.new ≡ station_after station.old (slot_at time slot takes room.old) }
    ensures room_written { room.new ≡ room_left station.old room.old (slot_at time slot takes room.old) }
{
    coast::events::coast_take(station, time, slot, room)
}

// The operator gives a taken slot back.
#[unsafe(no_mangle)]
pub extern "C" fn coast_give_back(station: &mut [u8], time: u32, slot: u32, room: &mut [u8]) -> u64
    ensures value { result ≡ returned station.old (slot_at time slot gives_back room.old) }
    ensures station_kept { station.new ≡ station_after station.old (slot_at time slot gives_back room.old) }
    ensures room_written { room.new ≡ room_left station.old room.old (slot_at time slot gives_back room.old) }
{
    coast::events::coast_give_back(station, time, slot, room)
}
