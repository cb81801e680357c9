// A call from ashore to a ship.
ghost use Rattle.std.specs.Prelude.{◌≡◌};
ghost use Rattle.std.proofs.Math.Option.{some};
ghost use Rattle.rules.specs.Rules.Ashore.{engaged, slot_to_take};
ghost use Rattle.requests.specs.Views.{party_of};
ghost use Rattle.slots.specs.Views.{found_view};
ghost use Rattle.station.specs.Model.{model_of};
ghost use Rattle.station.specs.Step.{event_at, ashore_of, refusal, stepped_by, room_after};
ghost use Rattle.station.specs.Pieces.{Sees, Judged};

use crate::now::Now;
use crate::{Station, Stepped};
use ashore::{digits_keep, is_mode, request_from};
use gate::{Look, Refusal};
use outcomes::Outcome;
use searches::{first_free, kept_for, place_of};
use sequence::parts::is_ship;
use sequence::{Refusal as Unfit, unless};
use slots::numbers::none_left;
use units::{SlotNumber, Tenths};

impl Station {
    // "that ship already has a slot (a hold included) or waits"
    fn is_engaged(&self, ship: u32, station: u32) -> bool
        ensures { result ≡ engaged (model_of self.now) (party_of ship station) }
    {
        kept_for(&self.slots, self.count, ship, station).is_some()
            || place_of(&self.queue, self.waiting, ship, station).is_some()
    }

    // The slot that a call from ashore takes; document 02, no. 4: none once the last number has been given.
    fn slot_to_take(&self) -> Option<SlotNumber>
        ensures { found_view result ≡ slot_to_take (model_of self.now) }
    {
        if none_left(self.last) {
            None
        } else {
            first_free(&self.slots, self.count)
        }
    }

    // The slot that it takes, where the event is accepted.
    fn slot_for(
        &self,
        look: Look,
        size: usize,
        time: Tenths,
        ship: u32,
        mode: u32,
        digits: &[u32],
    ) -> Result<SlotNumber, Refusal>
        requires { Sees self.now look }
        ensures { Judged (refusal self.now (record { time = time.0; room = size; what = ashore_of ship mode digits.now })) (λ i. slot_to_take (model_of self.now) ≡ some i.0) result }
    {
        look.judge_now(size, time)?;
        unless(is_ship(ship), Refusal::Sequence(Unfit::BadIdentities))?;
        unless(is_mode(mode), Refusal::Sequence(Unfit::BadTelecommands))?;
        unless(digits_keep(digits), Refusal::Sequence(Unfit::BadNumber))?;
        let engaged = self.is_engaged(ship, self.mast.identity);
        unless(!engaged, Refusal::ShipEngaged)?;
        self.slot_to_take().ok_or(Refusal::NoFreeSlot)
    }

    // Ashore somebody calls a ship, in a mode; the digits are the caller's own number.
    pub fn call_from_ashore(
        mut self,
        time: Tenths,
        ship: u32,
        mode: u32,
        digits: &[u32],
        room: &mut [u8],
    ) -> Stepped
        ensures value { result ≡ stepped_by self (event_at time.0 (ashore_of ship mode digits.now) room.old) }
        ensures room_written { room.new
            ≡ room_after self room.old (event_at time.0 (ashore_of ship mode digits.now) room.old) }
    {
        let look = self.looked();
        match self.slot_for(look, room.len(), time, ship, mode, digits) {
            Err(refusal) => self.refused(refusal, look.due),
            Ok(slot) => {
                let request = request_from(self.mast, ship, mode, digits);
                let told = self.enact(Now { time }, slot, Outcome::Calls, request, 0, room);
                told.beside(self)
            }
        }
    }
}
