// A phase as the numbers that a lent slot holds of it, and the phase that such numbers stand for.
#![tactic(auto)]

ghost use Rattle.std.specs.Prelude.{◌≡◌, None};
ghost use Rattle.slots.specs.declared.Carrier.TheVariants.{Present};
ghost use Rattle.phase_fields.specs.Phases.{carrier_fields, lasted_fields, fields_of, phase_fields, carrier_from, lasted_from};
ghost use Rattle.phase_fields.specs.Phases.{phase_from};

use slots::{Carrier, Phase};
use units::{Duration, GREATEST, Tenths};

// A mark with a value beside it, and a phase by its number: a lent slot's bytes hold them so (include/coast.h), where no Option can stand.
#[derive(Clone, Copy)]
pub struct CarrierFields {
    pub mark: u8,
    pub due: u32,
}

#[derive(Clone, Copy)]
pub struct LastedFields {
    pub mark: u8,
    pub hours: u8,
    pub minutes: u8,
    pub seconds: u8,
}

#[derive(Clone, Copy)]
pub struct PhaseFields {
    pub kind: u8,
    pub time: u32,
    pub carrier: CarrierFields,
    pub lasted: LastedFields,
}

fn carrier_fields(carrier: Carrier) -> CarrierFields
    ensures { result ≡ carrier_fields carrier }
{
    match carrier {
        Carrier::Present => CarrierFields { mark: 0, due: 0 },
        Carrier::Lost(due) => CarrierFields {
            mark: 1,
            due: due.0,
        },
    }
}

fn lasted_fields(lasted: Option<Duration>) -> LastedFields
    ensures { result ≡ lasted_fields lasted }
{
    match lasted {
        None => LastedFields {
            mark: 0,
            hours: 0,
            minutes: 0,
            seconds: 0,
        },
        Some(duration) => LastedFields {
            mark: 1,
            hours: duration.hours,
            minutes: duration.minutes,
            seconds: duration.seconds,
        },
    }
}

fn fields_of(kind: u8, time: Tenths, carrier: Carrier, lasted: Option<Duration>) -> PhaseFields
    ensures { result ≡ fields_of kind time.0 carrier lasted }
{
    PhaseFields {
        kind,
        time: time.0,
        carrier: carrier_fields(carrier),
        lasted: lasted_fields(lasted),
    }
}

// A phase that has neither a carrier nor a duration.
fn plain(kind: u8, time: Tenths) -> PhaseFields
    ensures { result ≡ fields_of kind time.0 Present None }
{
    fields_of(kind, time, Carrier::Present, None)
}

pub fn phase_fields(phase: Phase) -> PhaseFields
    ensures { result ≡ phase_fields phase }
{
    match phase {
        Phase::Free => plain(0, Tenths(0)),
        Phase::Offered(due) => plain(1, due),
        Phase::RingBack(due) => plain(2, due),
        Phase::RingBackAgain(due) => plain(3, due),
        Phase::Acknowledged(due) => plain(4, due),
        Phase::Dialling(due, carrier) => fields_of(5, due, carrier, None),
        Phase::Answered(start, carrier) => fields_of(6, start, carrier, None),
        Phase::Hold(due, lasted) => fields_of(7, due, Carrier::Present, lasted),
        Phase::Taken => plain(8, Tenths(0)),
        Phase::DialledOut(due, carrier) => fields_of(9, due, carrier, None),
        Phase::Called(due) => plain(10, due),
        Phase::CalledAgain(due) => plain(11, due),
        Phase::Ringing(due) => plain(12, due),
    }
}

#[tactic(auto, unfolding(crate::specs::Phases::carrier_from))]
fn carrier_from(fields: CarrierFields) -> Carrier
    ensures { result ≡ carrier_from fields }
{
    match fields.mark {
        0 => Carrier::Present,
        1 => Carrier::Lost(Tenths(fields.due)),
        _ => Carrier::Lost(Tenths(GREATEST)),
    }
}

#[tactic(auto, unfolding(crate::specs::Phases::lasted_from))]
fn lasted_from(fields: LastedFields) -> Option<Duration>
    ensures { result ≡ lasted_from fields }
{
    match fields.mark {
        0 => None,
        1 => Some(Duration {
            hours: fields.hours,
            minutes: fields.minutes,
            seconds: fields.seconds,
        }),
        _ => Some(Duration {
            hours: 255,
            minutes: 255,
            seconds: 255,
        }),
    }
}

#[tactic(auto, unfolding(crate::specs::Phases::phase_from, crate::specs::Phases::ashore_from))]
pub fn phase_from(fields: PhaseFields) -> Phase
    ensures { result ≡ phase_from fields }
{
    let time = Tenths(fields.time);
    match fields.kind {
        0 => Phase::Free,
        1 => Phase::Offered(time),
        2 => Phase::RingBack(time),
        3 => Phase::RingBackAgain(time),
        4 => Phase::Acknowledged(time),
        5 => Phase::Dialling(time, carrier_from(fields.carrier)),
        6 => Phase::Answered(time, carrier_from(fields.carrier)),
        7 => Phase::Hold(time, lasted_from(fields.lasted)),
        8 => Phase::Taken,
        9 => Phase::DialledOut(time, carrier_from(fields.carrier)),
        10 => Phase::Called(time),
        11 => Phase::CalledAgain(time),
        12 => Phase::Ringing(time),
        _ => Phase::Offered(Tenths(GREATEST)),
    }
}
