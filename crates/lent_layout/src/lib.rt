// The station in bytes that a host lends: laid out by one list of fields, and read back.
#![tactic(auto)]

ghost use Rattle.std.specs.Prelude.{◌≡◌, ◌≤◌, length};
ghost use Rattle.layouts.specs.Fields.{laid};
ghost use Rattle.lent_layout.specs.Layout.{slots_place};
ghost use Rattle.lent_layout.specs.Stations.{head_bytes, station_from, station_laid};

mod asked;
mod numbers;
mod records;
pub mod said;

use layouts::low_first;
use numbers::{four_at, lay};
use records::{SLOT_SIZE, WAITING_SIZE, lay_records, records_from};
use slots::mast::Mast;
use slots::{QUEUE_ROOM, SLOTS};
use station::Station;
use units::{CallNumber, Tenths};

// Moves whenever a field does, or what a number in one stands for; it stands in front.
const LAYOUT_VERSION: u8 = 4;

// Where each field stands: behind the one before it, from the version on.
const CLOCK: usize = 1;

const IDENTITY: usize = CLOCK + 4;

const SLOT_COUNT: usize = IDENTITY + 4;

const WAITING_COUNT: usize = SLOT_COUNT + 1;

const LAST_CALL: usize = WAITING_COUNT + 1;

const SLOTS_PLACE: usize = LAST_CALL + 4;

const QUEUE_PLACE: usize = SLOTS_PLACE + SLOTS * SLOT_SIZE;

pub const STATION_SIZE: usize = QUEUE_PLACE + QUEUE_ROOM * WAITING_SIZE;

// Bytes of another size or another version stand for the blank station, which is not sound.
#[tactic(auto, unfolding(crate::specs::Layout::head_fields, crate::specs::Layout::slot_fields, crate::specs::Layout::waiting_fields, crate::specs::Layout::request_fields))]
pub fn station_from(bytes: &[u8]) -> Station
    ensures { result ≡ station_from bytes.now }
{
    if bytes.len() != STATION_SIZE || bytes[0] != LAYOUT_VERSION {
        return Station::blank();
    }
    let count = bytes[SLOT_COUNT];
    let waiting = bytes[WAITING_COUNT];
    Station {
        clock: Tenths(four_at(bytes, CLOCK)),
        mast: Mast {
            identity: four_at(bytes, IDENTITY),
        },
        last: CallNumber(four_at(bytes, LAST_CALL)),
        count,
        waiting,
        slots: records_from(bytes, SLOTS_PLACE, count),
        queue: records_from(bytes, QUEUE_PLACE, waiting),
    }
}

#[tactic(auto, unfolding(crate::specs::Layout::head_fields, crate::specs::Layout::layout_version))]
fn lay_head(station: &Station, bytes: &mut [u8])
    requires { slots_place ≤ length bytes.old }
    ensures { bytes.new ≡ laid bytes.old 0 (head_bytes station.now.clock station.now.mast station.now.count station.now.waiting station.now.last) }
{
    lay(&[LAYOUT_VERSION], 0, bytes);
    lay(&low_first(station.clock.0), CLOCK, bytes);
    lay(&low_first(station.mast.identity), IDENTITY, bytes);
    lay(&[station.count, station.waiting], SLOT_COUNT, bytes);
    lay(&low_first(station.last.0), LAST_CALL, bytes);
}

// Lent bytes of another size stay as they are.
#[tactic(auto, unfolding(crate::specs::Layout::head_fields, crate::specs::Layout::slot_fields, crate::specs::Layout::waiting_fields, crate::specs::Layout::request_fields))]
pub fn lay_station(station: &Station, bytes: &mut [u8])
    ensures { bytes.new ≡ station_laid station.now bytes.old }
{
    if bytes.len() != STATION_SIZE {
        return;
    }
    lay_head(station, bytes);
    lay_records(&station.slots, station.count, SLOTS_PLACE, bytes);
    lay_records(&station.queue, station.waiting, QUEUE_PLACE, bytes);
}
