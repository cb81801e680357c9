// A wait falls due.
ghost use Rattle.std.specs.Prelude.{◌≡◌};
ghost use Rattle.rules.specs.Rules.Words.{tick};
ghost use Rattle.station.specs.Step.{event_at, stepped_by, room_after};
ghost use Rattle.station.specs.Pieces.{wait_slot, due_slot, moment, by_wait, by_due};

use crate::now::Now;
use crate::{Station, Stepped};
use due_times::due_by;
use outcomes::Outcome;
use slots::{Due, Phase, Wait};
use units::{SlotNumber, Tenths};

// The slot whose wait it is; a queue entry has none.
fn wait_slot(wait: Wait) -> SlotNumber
    ensures { result ≡ wait_slot wait }
{
    match wait {
        Wait::Entry(_) => SlotNumber(0),
        Wait::Loss(slot) | Wait::Main(slot) => slot,
    }
}

fn due_slot(due: Option<Due>) -> SlotNumber
    ensures { result ≡ due_slot due }
{
    match due {
        None => SlotNumber(0),
        Some(due) => wait_slot(due.wait),
    }
}

// "sets the clock to its due time; with none due the clock becomes t"
fn moment(due: Option<Due>, time: Tenths) -> Tenths
    ensures { result ≡ moment due time }
{
    match due {
        None => time,
        Some(due) => due.at,
    }
}

// "A queue entry due is dropped"; a carrier loss ends the call as the coast does.
fn by_wait(wait: Wait, phase: Phase) -> Outcome
    ensures { result ≡ by_wait wait phase }
{
    match wait {
        Wait::Entry(place) => Outcome::Drops(place),
        Wait::Loss(_) => deciding::coast_end(phase),
        Wait::Main(_) => deciding::main_due(phase),
    }
}

fn by_due(due: Option<Due>, phase: Phase) -> Outcome
    ensures { result ≡ by_due due phase }
{
    match due {
        None => Outcome::Passes,
        Some(due) => by_wait(due.wait, phase),
    }
}

impl Station {
    // Time passes: "the earliest wait due at or before t, one only".
    pub fn tick(mut self, time: Tenths, room: &mut [u8]) -> Stepped
        ensures value { result ≡ stepped_by self (event_at time.0 tick room.old) }
        ensures room_written { room.new ≡ room_after self room.old (event_at time.0 tick room.old) }
    {
        let look = self.looked();
        match look.judge(room.len(), time) {
            Err(refusal) => self.refused(refusal, look.due),
            Ok(()) => {
                let due = due_by(look.due, time);
                let now = Now {
                    time: moment(due, time),
                };
                let slot = due_slot(due);
                let the_slot = self.slot_there(slot);
                let outcome = by_due(due, the_slot.phase);
                let told = self.enact(now, slot, outcome, the_slot.request, 0, room);
                told.beside(self)
            }
        }
    }
}
