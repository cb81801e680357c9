// Set-up in lent bytes, and the next due time and the clock of the station in them.
ghost use Rattle.std.specs.Prelude.{◌≡◌};
ghost use Rattle.station.specs.Step.{given, sixteen_of};
ghost use Rattle.lent_layout.specs.Stations.{station_from};
ghost use Rattle.coast.specs.Events.{set_up_returned, station_set_up, due_returned, clock_returned};

use crate::events::due_number;
use crate::rows::row_of;
use gate::Refusal;
use lent_layout::{STATION_SIZE, lay_station, station_from};
use slots::SLOTS;
use station::Station;
use units::Channel;

// The bytes to set a station up in are more or fewer than it takes.
const OTHER_SIZE: u64 = 23;

#[tactic(auto, unfolding(station::specs::Step::sixteen_of))]
fn channels_in(bytes: &[u8]) -> [Channel; SLOTS]
    ensures { result ≡ sixteen_of bytes.now }
{
    row_of(bytes, Channel(0), |number| Channel(u32::from(number)))
}

// Sets a station up in a station's lent bytes: a slot for each channel, one a byte, in the list's order.
#[tactic(auto, unfolding(crate::specs::Events::set_up_returned, crate::specs::Events::station_set_up))]
pub fn coast_set_up(identity: u32, channels: &[u8], station: &mut [u8]) -> u64
    ensures value { result ≡ set_up_returned (given identity channels.now) station.old }
    ensures station_kept { station.new ≡ station_set_up (given identity channels.now) station.old }
{
    if station.len() != STATION_SIZE {
        return OTHER_SIZE;
    }
    if SLOTS < channels.len() {
        return u64::from(Refusal::BadSetUp.number());
    }
    match Station::set_up(identity, &channels_in(channels), channels.len() as u8) {
        Ok(begun) => {
            lay_station(&begun, station);
            0
        }
        Err(refusal) => u64::from(refusal.number()),
    }
}

// When the station must be handed a tick at the latest.
#[tactic(auto, unfolding(crate::specs::Events::due_returned))]
pub fn coast_next_due(station: &[u8]) -> u64
    ensures { result ≡ due_returned (station_from station.now) }
{
    let by_value = station_from(station);
    if !by_value.is_sound() {
        return u64::from(Refusal::UnsoundStation.number());
    }
    due_number(by_value.next_due())
}

// The station's clock, from which a host goes on that comes back.
#[tactic(auto, unfolding(crate::specs::Events::clock_returned))]
pub fn coast_clock(station: &[u8]) -> u64
    ensures { result ≡ clock_returned (station_from station.now) }
{
    let by_value = station_from(station);
    if !by_value.is_sound() {
        return u64::from(Refusal::UnsoundStation.number());
    }
    4294967296 * u64::from(by_value.clock.0)
}
