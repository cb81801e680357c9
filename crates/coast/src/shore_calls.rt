// A call from ashore, on a station in lent bytes.
ghost use Rattle.std.specs.Prelude.{◌≡◌};
ghost use Rattle.station.specs.Step.{event_at, ashore_of};
ghost use Rattle.coast.specs.Events.{returned, station_after, room_left};
ghost use Rattle.coast.specs.Digits.{digit_numbers};

use crate::events::hand_back;
use crate::rows::row_of;
use lent_layout::station_from;
use sequence::DIGITS;
use units::Tenths;

// One digit more than a number may have: enough to see that it is too long.
const LOOKED_AT: usize = DIGITS + 1;

#[tactic(auto, unfolding(crate::specs::Digits::digit_numbers))]
fn numbers_in(digits: &[u8]) -> [u32; LOOKED_AT]
    ensures { result ≡ digit_numbers digits.now }
{
    row_of(digits, 0, |digit| u32::from(digit))
}

// Ashore somebody calls a ship, in a mode; the digits, one a byte, are the caller's own number.
#[tactic(auto, unfolding(crate::specs::Events::returned, crate::specs::Events::station_after, crate::specs::Events::room_left))]
pub fn coast_call_from_ashore(
    station: &mut [u8],
    time: u32,
    ship: u32,
    mode: u32,
    digits: &[u8],
    room: &mut [u8],
) -> u64
    ensures value { result ≡ returned station.old (event_at time (ashore_of ship mode digits.now) room.old) }
    ensures station_kept { station.new
        ≡ station_after station.old (event_at time (ashore_of ship mode digits.now) room.old) }
    ensures room_written { room.new
        ≡ room_left station.old room.old (event_at time (ashore_of ship mode digits.now) room.old) }
{
    let by_value = station_from(station);
    let numbers = numbers_in(digits);
    let count = LOOKED_AT.min(digits.len());
    let stepped = by_value.call_from_ashore(Tenths(time), ship, mode, &numbers[..count], room);
    hand_back(stepped, station)
}
