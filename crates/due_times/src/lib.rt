// When a wait falls due, and which of two falls due first.
#![tactic(auto)]

ghost use Rattle.std.specs.Prelude.{◌≡◌, min};
ghost use Rattle.units.specs.Units.{greatest};
ghost use Rattle.rules.specs.Rules.Places.{is_some};
ghost use Rattle.rules.specs.Rules.Waits.{loss, main, sooner, if_due};
ghost use Rattle.rules.specs.Rules.Station.{loss_due, main_due, carrier_wait, due_after};
ghost use Rattle.requests.specs.Views.{mode_of};
ghost use Rattle.slots.specs.Views.{slot_view, wait_view, when_view, due_view};
ghost use Rattle.due_times.specs.Joins.{join_due};

use requests::Mode;
use slots::{Due, Slot, Wait, loss_of, main_of};
use units::{SlotNumber, Tenths};

// "join it, wait 9000"
pub const QUEUE_WAIT: Tenths = Tenths(9000);

// "a wait of 50 duplex, 450 simplex"
pub fn carrier_wait(mode: Mode) -> Tenths
    ensures { result.0 ≡ carrier_wait (mode_of mode) }
{
    match mode {
        Mode::Simplex => Tenths(450),
        Mode::Duplex => Tenths(50),
    }
}

// When a wait falls due that begins at `start`; the greatest time stands for all that lie past it.
pub fn due_after(start: Tenths, wait: Tenths) -> Tenths
    ensures { result.0 ≡ min (due_after start.0 wait.0) greatest }
{
    Tenths(start.0.saturating_add(wait.0).saturating_add(1))
}

// The same wait, put together anew: handed on whole, it takes its unused bytes along, and an event takes longer.
fn anew(due: Option<Due>) -> Option<Due>
    ensures { result ≡ due }
{
    due.map(|wait| Due {
        at: wait.at,
        wait: wait.wait,
    })
}

// The wait, or `first` where that falls due before it.
pub fn sooner_of(due: Due, first: Option<Due>) -> Option<Due>
    ensures { due_view result ≡ sooner (record { what = wait_view due.wait; at = due.at.0 }) (due_view first) }
{
    match first {
        Some(earlier) if earlier.at < due.at => anew(first),
        _ => Some(due),
    }
}

// The same of a wait that may run.
fn sooner_when(when: Option<Tenths>, wait: Wait, first: Option<Due>) -> Option<Due>
    ensures { due_view result ≡ join_due (wait_view wait) (when_view when) (due_view first) }
{
    match when {
        None => anew(first),
        Some(at) => sooner_of(Due { at, wait }, first),
    }
}

// The same of the carrier's absence in a slot.
pub fn loss_due(slot: Slot, number: SlotNumber, first: Option<Due>) -> Option<Due>
    ensures { due_view result ≡ join_due (loss number.0) (loss_due (slot_view slot)) (due_view first) }
{
    let when = loss_of(slot);
    sooner_when(when, Wait::Loss(number), first)
}

// The same of a slot's other wait.
pub fn main_due(slot: Slot, number: SlotNumber, first: Option<Due>) -> Option<Due>
    ensures { due_view result ≡ join_due (main number.0) (main_due (slot_view slot)) (due_view first) }
{
    let when = main_of(slot);
    sooner_when(when, Wait::Main(number), first)
}

// The wait, where it falls due by that time.
pub fn due_by(due: Option<Due>, time: Tenths) -> Option<Due>
    ensures { due_view result ≡ if_due time.0 (due_view due) }
{
    due.filter(|wait| wait.at <= time)
}

pub fn falls_due(due: Option<Due>, time: Tenths) -> bool
    ensures { result ≡ is_some (if_due time.0 (due_view due)) }
{
    due_by(due, time).is_some()
}
