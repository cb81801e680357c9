// Set-up in lent bytes, and the next due time and the clock of the station in them.
ghost use Rattle.std.specs.Prelude.{◌≡◌};
ghost use Rattle.station.specs.Step.{given};
ghost use Rattle.lent_layout.specs.Stations.{station_from};
ghost use Rattle.coast.specs.Events.{set_up_returned, station_set_up, due_returned, clock_returned};

// Sets a station up in a station's lent bytes: a slot for each channel, one a byte, in the list's order.
#[unsafe(no_mangle)]
pub extern "C" fn coast_set_up(identity: u32, channels: &[u8], station: &mut [u8]) -> u64
    ensures value { result ≡ set_up_returned (given identity channels.now) station.old }
    ensures station_kept { station.new ≡ station_set_up (given identity channels.now) station.old }
{
    coast::setting::coast_set_up(identity, channels, station)
}

// When the station must be handed a tick at the latest.
#[unsafe(no_mangle)]
pub extern "C" fn coast_next_due(station: &[u8]) -> u64
    ensures { result ≡ due_returned (station_from station.now) }
{
    coast::setting::coast_next_due(station)
}

// The station's clock, from which a host goes on that comes back.
#[unsafe(no_mangle)]
pub extern "C" fn coast_clock(station: &[u8]) -> u64
    ensures { result ≡ clock_returned (station_from station.now) }
{
    coast::setting::coast_clock(station)
}
