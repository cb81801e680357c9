// Heard on a working channel: the working call, the ship's end of a call.
ghost use Rattle.std.specs.Prelude.{◌≡◌};
ghost use Rattle.rules.specs.Rules.Words.{on_slot, heard};
ghost use Rattle.station.specs.Step.{slot_at, refusal, stepped_by, room_after};
ghost use Rattle.station.specs.Pieces.{Sees, Judged, Hears, unread, by_kind};

use crate::now::Now;
use crate::{Station, Stepped};
use gate::{Look, Refusal};
use hearing::{Heard, HeardKind, heard_in};
use outcomes::Outcome;
use reading::read;
use requests::sameness::is_by;
use slots::Phase;
use units::{SlotNumber, Tenths};

fn by_kind(kind: HeardKind, own: bool, phase: Phase) -> Outcome
    ensures { result ≡ by_kind kind own phase }
{
    match kind {
        HeardKind::WorkingCall => deciding::working_call(own, phase),
        HeardKind::EndOfCall => deciding::ship_end(own, phase),
        HeardKind::CallRequest
        | HeardKind::DataRequest
        | HeardKind::Bq(_)
        | HeardKind::Declined
        | HeardKind::Nothing => Outcome::Ignored,
    }
}

impl Station {
    // What symbols say, once they are read.
    pub(crate) fn hears(&self, symbols: &[u8]) -> Result<Heard, Refusal>
        ensures { Judged (unread symbols.now) (Hears self.now symbols.now) result }
    {
        let meaning = read(symbols)?;
        Ok(heard_in(self.mast, &self.slots, self.count, meaning))
    }

    // What symbols on a slot's working channel say, where the event is accepted.
    fn heard_there(
        &self,
        look: Look,
        size: usize,
        time: Tenths,
        slot: SlotNumber,
        symbols: &[u8],
    ) -> Result<Heard, Refusal>
        requires { Sees self.now look }
        ensures { Judged (refusal self.now (record { time = time.0; room = size; what = on_slot slot.0 (heard symbols.now) })) (Hears self.now symbols.now) result }
    {
        look.judge_slot(size, time, slot)?;
        self.hears(symbols)
    }

    // Symbols heard on a slot's working channel.
    pub fn heard_on_slot(
        mut self,
        time: Tenths,
        slot: SlotNumber,
        symbols: &[u8],
        room: &mut [u8],
    ) -> Stepped
        ensures value { result ≡ stepped_by self (slot_at time.0 slot.0 (heard symbols.now) room.old) }
        ensures room_written { room.new
            ≡ room_after self room.old (slot_at time.0 slot.0 (heard symbols.now) room.old) }
    {
        let look = self.looked();
        match self.heard_there(look, room.len(), time, slot, symbols) {
            Err(refusal) => self.refused(refusal, look.due),
            Ok(heard) => {
                let request = heard.request;
                let the_slot = self.slot_there(slot);
                let own = is_by(the_slot.request, request.ship, request.station);
                let outcome = by_kind(heard.kind, own, the_slot.phase);
                let told = self.enact(Now { time }, slot, outcome, request, 0, room);
                told.beside(self)
            }
        }
    }
}
