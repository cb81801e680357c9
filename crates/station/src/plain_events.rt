// The plain events on a slot: the signals of a call and the operator's hand have one body.
ghost use Rattle.std.specs.Prelude.{◌≡◌, not};
ghost use Rattle.rules.specs.Rules.Words.{on_slot};
ghost use Rattle.rules.specs.Rules.Calls.{barred_hand};
ghost use Rattle.slots.specs.Views.{slot_view, hand_view};
ghost use Rattle.station.specs.Step.{slot_at, refusal, stepped_by, room_after};
ghost use Rattle.station.specs.Pieces.{Sees, Judged, slot_of, plain_view, closed_to, by_plain};

use crate::now::Now;
use crate::{Plain, Station, Stepped};
use deciding::{by_hand, by_signal};
use gate::{Look, Refusal};
use outcomes::Outcome;
use requests::Mode;
use sequence::unless;
use slots::{Hand, Phase, Slot, is_free, is_taken};
use units::{SlotNumber, Tenths};

// The hand takes a free slot, and gives back a taken one.
fn is_open(hand: Hand, slot: Slot) -> bool
    ensures { result ≡ not (barred_hand (slot_view slot) (hand_view hand)) }
{
    match hand {
        Hand::Takes => is_free(slot),
        Hand::GivesBack => is_taken(slot),
    }
}

fn may_happen(what: Plain, slot: Slot) -> bool
    ensures { result ≡ not (closed_to (slot_view slot) what) }
{
    match what {
        Plain::Signal(_) => true,
        Plain::Hand(hand) => is_open(hand, slot),
    }
}

fn by_plain(what: Plain, time: Tenths, mode: Mode, phase: Phase) -> Outcome
    ensures { result ≡ by_plain what time mode phase }
{
    match what {
        Plain::Signal(signal) => by_signal(signal, time, mode, phase),
        Plain::Hand(hand) => by_hand(hand, phase),
    }
}

impl Station {
    // The slot, where the event is accepted.
    fn open_slot(
        &self,
        look: Look,
        size: usize,
        time: Tenths,
        slot: SlotNumber,
        what: Plain,
    ) -> Result<Slot, Refusal>
        requires { Sees self.now look }
        ensures { Judged (refusal self.now (record { time = time.0; room = size; what = on_slot slot.0 (plain_view what) })) (λ s. s ≡ slot_of self.now slot.0) result }
    {
        look.judge_slot(size, time, slot)?;
        let the_slot = self.slot_there(slot);
        unless(may_happen(what, the_slot), Refusal::BarredHand)?;
        Ok(the_slot)
    }

    // Any of them.
    pub fn plainly(
        mut self,
        what: Plain,
        time: Tenths,
        slot: SlotNumber,
        room: &mut [u8],
    ) -> Stepped
        ensures value { result ≡ stepped_by self (slot_at time.0 slot.0 (plain_view what) room.old) }
        ensures room_written { room.new ≡ room_after self room.old (slot_at time.0 slot.0 (plain_view what) room.old) }
    {
        let look = self.looked();
        match self.open_slot(look, room.len(), time, slot, what) {
            Err(refusal) => self.refused(refusal, look.due),
            Ok(the_slot) => {
                let request = the_slot.request;
                let outcome = by_plain(what, time, request.mode, the_slot.phase);
                let told = self.enact(Now { time }, slot, outcome, request, 0, room);
                told.beside(self)
            }
        }
    }
}
