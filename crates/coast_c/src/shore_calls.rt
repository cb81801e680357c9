// A call from ashore, on a station in lent bytes.
ghost use Rattle.std.specs.Prelude.{◌≡◌};
ghost use Rattle.station.specs.Step.{event_at, ashore_of};
ghost use Rattle.coast.specs.Events.{returned, station_after, room_left};

// Ashore somebody calls a ship, in a mode; the digits, one a byte, are the caller's own number.
#[unsafe(no_mangle)]
pub extern "C" fn coast_call_from_ashore(
    station: &mut [u8],
    time: u32,
    ship: u32,
    mode: u32,
    digits: &[u8],
    room: &mut [u8],
) -> u64
    ensures value { result ≡ returned station.old (event_at time (ashore_of ship mode digits.now) room.old) }
    ensures station_kept { station.new
        ≡ station_after station.old (event_at time (ashore_of ship mode digits.now) room.old) }
    ensures room_written { room.new
        ≡ room_left station.old room.old (event_at time (ashore_of ship mode digits.now) room.old) }
{
    coast::shore_calls::coast_call_from_ashore(station, time, ship, mode, digits, room)
}
