// What a station has many of, in lent bytes: slots, and waiting ships.
ghost use Rattle.std.specs.Prelude.{◌≡◌, ℕ, ◌+◌, ◌*◌, ◌≤◌, List, [], length, take, replicate};
ghost use mathlib.Core.List.{flat_map};
ghost use Rattle.layouts.specs.Fields.{encode, decode, laid};
ghost use Rattle.layouts.specs.Records.{records_at};
ghost use Rattle.slots.specs.Images.{blank_slot, blank_waiting};
ghost use Rattle.lent_layout.specs.Layout.{slot_fields, waiting_fields, slot_size, waiting_size};
ghost use Rattle.lent_layout.specs.Numbers.{in_use, phase_in, phase_numbers, slot_from, waiting_from};
ghost use Rattle.lent_layout.specs.Stations.{slot_bytes, waiting_bytes};
ghost use Rattle.lent_layout.specs.Sizes.{slot-sized, waiting-sized, slot-zeros, waiting-zeros};

use crate::asked::{REQUEST_SIZE, lay_request, request_at};
use crate::numbers::{four_at, lay, lay_zeros};
use layouts::low_first;
use phase_fields::{CarrierFields, LastedFields, PhaseFields, phase_fields, phase_from};
use slots::laying::{blank_slot, blank_waiting};
use slots::{Slot, Waiting};
use units::{CallNumber, Channel, Tenths};

pub(crate) trait Record: Copy {
    ghost SIZE: { ℕ };

    ghost blank: { Self };

    // What bytes tell from a place on, and what a record's bytes are.
    ghost told: { List ℕ → ℕ → Self };

    ghost bytes_of: { Self → List ℕ };

    const SIZE: usize;

    fn blank() -> Self
        ensures { result ≡ blank };

    fn read(bytes: &[u8], place: usize) -> Self
        requires { place + SIZE ≤ length bytes.now }
        ensures { result ≡ told bytes.now place };

    fn lay(&self, place: usize, room: &mut [u8])
        requires { place + SIZE ≤ length room.old }
        ensures { room.new ≡ laid room.old place (bytes_of self.now) };

    ghost sized: { (x : Self) → length (bytes_of x) ≡ SIZE };

    ghost zeros: { bytes_of blank ≡ replicate SIZE 0 };
}

// As many as the count says, and blank ones behind them.
pub(crate) fn records_from<T: Record, const N: usize>(
    bytes: &[u8],
    place: usize,
    count: u8,
) -> [T; N]
    requires { place + T.SIZE * N ≤ length bytes.now }
    ensures { result ≡ in_use T.blank N count (records_at (T.told bytes.now) N T.SIZE place) }
{
    let mut records = [T::blank(); N];
    for i in 0..N.min(count as usize) {
        records[i] = T::read(bytes, place + T::SIZE * i);
    }
    records
}

// As many as the count says, and zeros behind them, which a blank record is.
pub(crate) fn lay_records<T: Record, const N: usize>(
    records: &[T; N],
    count: u8,
    place: usize,
    room: &mut [u8],
)
    requires { place + T.SIZE * N ≤ length room.old }
    ensures { room.new ≡ laid room.old place (flat_map T.bytes_of (in_use T.blank N count records.now)) }
{
    let used = N.min(count as usize);
    for i in 0..used {
        records[i].lay(place + T::SIZE * i, room);
    }
    lay_zeros(T::SIZE * (N - used), place + T::SIZE * used, room);
}

// Where each field of a slot stands: behind the one before it, from the phase on.
const TIME: usize = 1;

const CARRIER: usize = TIME + 4;

const CARRIER_DUE: usize = CARRIER + 1;

const TOLD: usize = CARRIER_DUE + 4;

const HOURS: usize = TOLD + 1;

const MINUTES: usize = HOURS + 1;

const SECONDS: usize = MINUTES + 1;

const CHANNEL: usize = SECONDS + 1;

const CALL_NUMBER: usize = CHANNEL + 4;

const REQUEST: usize = CALL_NUMBER + 4;

pub(crate) const SLOT_SIZE: usize = REQUEST + REQUEST_SIZE;

// In a waiting ship: behind its due time.
const WAITING_REQUEST: usize = 4;

pub(crate) const WAITING_SIZE: usize = WAITING_REQUEST + REQUEST_SIZE;

#[tactic(auto, unfolding(crate::specs::Layout::slot_fields, crate::specs::Layout::request_fields))]
fn phase_at(bytes: &[u8], place: usize) -> PhaseFields
    requires { place + slot_size ≤ length bytes.now }
    ensures { result ≡ phase_in (decode slot_fields bytes.now place) }
{
    PhaseFields {
        kind: bytes[place],
        time: four_at(bytes, place + TIME),
        carrier: CarrierFields {
            mark: bytes[place + CARRIER],
            due: four_at(bytes, place + CARRIER_DUE),
        },
        lasted: LastedFields {
            mark: bytes[place + TOLD],
            hours: bytes[place + HOURS],
            minutes: bytes[place + MINUTES],
            seconds: bytes[place + SECONDS],
        },
    }
}

// The first eight fields of a slot.
#[tactic(auto, unfolding(crate::specs::Layout::slot_fields, crate::specs::Layout::request_fields))]
fn lay_phase(fields: PhaseFields, place: usize, room: &mut [u8])
    requires { place + slot_size ≤ length room.old }
    ensures { room.new ≡ laid room.old place (encode (take 8 slot_fields) (phase_numbers fields [])) }
{
    let carrier = fields.carrier;
    let lasted = fields.lasted;
    let duration = [lasted.mark, lasted.hours, lasted.minutes, lasted.seconds];
    lay(&[fields.kind], place, room);
    lay(&low_first(fields.time), place + TIME, room);
    lay(&[carrier.mark], place + CARRIER, room);
    lay(&low_first(carrier.due), place + CARRIER_DUE, room);
    lay(&duration, place + TOLD, room);
}

impl Record for Slot {
    ghost SIZE = { slot_size };

    ghost blank = { blank_slot };

    ghost told = { λ bytes place. slot_from (decode slot_fields bytes place) };

    ghost bytes_of = { slot_bytes };

    ghost sized = { slot-sized };

    ghost zeros = { slot-zeros };

    const SIZE: usize = SLOT_SIZE;

    fn blank() -> Slot {
        blank_slot()
    }

    #[tactic(auto, unfolding(crate::specs::Layout::slot_fields, crate::specs::Layout::request_fields))]
    fn read(bytes: &[u8], place: usize) -> Slot {
        Slot {
            phase: phase_from(phase_at(bytes, place)),
            channel: Channel(four_at(bytes, place + CHANNEL)),
            call: CallNumber(four_at(bytes, place + CALL_NUMBER)),
            request: request_at(bytes, place + REQUEST),
        }
    }

    #[tactic(auto, unfolding(crate::specs::Layout::slot_fields, crate::specs::Layout::request_fields))]
    fn lay(&self, place: usize, room: &mut [u8]) {
        lay_phase(phase_fields(self.phase), place, room);
        lay(&low_first(self.channel.0), place + CHANNEL, room);
        lay(&low_first(self.call.0), place + CALL_NUMBER, room);
        lay_request(&self.request, place + REQUEST, room);
    }
}

impl Record for Waiting {
    ghost SIZE = { waiting_size };

    ghost blank = { blank_waiting };

    ghost told = { λ bytes place. waiting_from (decode waiting_fields bytes place) };

    ghost bytes_of = { waiting_bytes };

    ghost sized = { waiting-sized };

    ghost zeros = { waiting-zeros };

    const SIZE: usize = WAITING_SIZE;

    fn blank() -> Waiting {
        blank_waiting()
    }

    #[tactic(auto, unfolding(crate::specs::Layout::waiting_fields, crate::specs::Layout::request_fields))]
    fn read(bytes: &[u8], place: usize) -> Waiting {
        Waiting {
            due: Tenths(four_at(bytes, place)),
            request: request_at(bytes, place + WAITING_REQUEST),
        }
    }

    #[tactic(auto, unfolding(crate::specs::Layout::waiting_fields, crate::specs::Layout::request_fields))]
    fn lay(&self, place: usize, room: &mut [u8]) {
        lay(&low_first(self.due.0), place, room);
        lay_request(&self.request, place + WAITING_REQUEST, room);
    }
}
