// The due times and the answered starts, held to the clock.
ghost use Rattle.std.specs.Prelude.{◌≡◌, ◌+◌, ◌<◌};
ghost use Rattle.rules.specs.Rules.Sound.{fits, loss_fits, slot_fits};
ghost use Rattle.requests.specs.Views.{mode_of};
ghost use Rattle.slots.specs.Phases.{carrier_of, span_fits};
ghost use Rattle.slots.specs.Views.{slot_view};

use due_times::carrier_wait;
use requests::Mode;
use slots::{Carrier, Slot, Span, carrier_in, span_of};
use units::Tenths;

// "each due time lies from the clock to the clock plus its wait and 1"
pub(crate) fn fits_wait(clock: Tenths, wait: Tenths, due: Tenths) -> bool
    ensures { result ≡ fits clock.0 wait.0 due.0 }
{
    clock <= due && due.0 as u64 <= clock.0 as u64 + (wait.0 as u64 + 1)
}

fn loss_fits(clock: Tenths, mode: Mode, carrier: Carrier) -> bool
    ensures { result ≡ loss_fits clock.0 (mode_of mode) (carrier_of carrier) }
{
    match carrier {
        Carrier::Present => true,
        Carrier::Lost(due) => fits_wait(clock, carrier_wait(mode), due),
    }
}

// "no answered start is after the clock"
fn span_fits(clock: Tenths, span: Span) -> bool
    ensures { result ≡ span_fits clock.0 span }
{
    match span {
        Span::Untimed => true,
        Span::Until(due, wait) => fits_wait(clock, wait, due),
        Span::Since(start) => start <= clock,
    }
}

pub(crate) fn slot_fits(slot: Slot, clock: Tenths) -> bool
    ensures { result ≡ slot_fits clock.0 (slot_view slot) }
{
    let phase = slot.phase;
    loss_fits(clock, slot.request.mode, carrier_in(phase)) && span_fits(clock, span_of(phase))
}
