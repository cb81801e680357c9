// Heard on channel 70: a call request, rules a to g; a BQ, with which a ship agrees or declines.
ghost use Rattle.std.specs.Prelude.{true, false, ◌≡◌, ℕ, ◌≤◌, length};
ghost use Rattle.rules.specs.Rules.Sound.{queue_room, sound};
ghost use Rattle.rules.specs.Rules.Words as W;
ghost use Rattle.rules.specs.Rules.Words.{on_channel70};
ghost use Rattle.rules.specs.Rules.Heard.{declined};
ghost use Rattle.rules.specs.Rules.Station.{Dealing, the_slot, set_clock};
ghost use Rattle.rules.specs.Rules.Requests as Q;
ghost use Rattle.rules.specs.Rules.Requests.{standing, being_called, d_to_g, requested};
ghost use Rattle.rules.specs.Rules.Calls.{bq_for, heard_on70};
ghost use Rattle.requests.specs.Views.{request_of};
ghost use Rattle.slots.specs.Views.{place_view, standing_view};
ghost use Rattle.hearing.specs.Said.{heard_of};
ghost use Rattle.outcomes.specs.Does.{out_of, goes_on, without_slot};
ghost use Rattle.station.specs.Model.{model_of, config_of};
ghost use Rattle.station.specs.Step.{event_at, refusal, stepped_by, room_after};
ghost use Rattle.station.specs.Pieces.{Sees, Judged, Hears, model_at, chosen_at, stepped_with, handed_back, room_laid};

use crate::now::Now;
use crate::places::slot_found;
use crate::{Choice, Station, Stepped, Told};
use gate::{Look, Refusal};
use hearing::{Heard, HeardKind};
use outcomes::Outcome;
use outcomes::parts::goes_on;
use requests::Request;
use requests::sameness::{is_by, same_request};
use searches::{first_free, place_of, standing};
use slots::numbers::none_left;
use slots::{QueuePlace, Standing, is_called};
use units::{SlotNumber, Tenths};

impl Choice {
    // Of no slot; the lowest stands for it.
    fn of_none(outcome: Outcome) -> Choice
        ensures { result ≡ record { slot = record { 0 = 0 }; outcome = outcome } }
    {
        Choice {
            slot: SlotNumber(0),
            outcome,
        }
    }
}

impl Station {
    // d to g, for a ship that has no slot, by the place where it waits.
    fn d_to_g(&self, place: Option<QueuePlace>) -> Choice
        ensures by_index { (t : ℕ) (own : Dealing) (q : W.Request)
            → out_of result.slot.0 own q result.outcome (set_clock t (model_of self.now)) ≡ d_to_g (set_clock t (model_of self.now)) q (place_view place) }
        ensures outcome_value { goes_on result.outcome ≡ false }
    {
        let free = first_free(&self.slots, self.count);
        let waiting = self.queue_length();
        let spent = none_left(self.last);
        Choice {
            slot: slot_found(free),
            outcome: deciding::d_to_g(spent, place, free.is_some(), waiting),
        }
    }

    // d to g, for a ship that has no slot.
    // Called, not inlined: what it keeps on the stack is off it again when the outcome is enacted.
    #[inline(never)]
    fn without_slot(&self, request: Request) -> Choice
        ensures { (t : ℕ) (own : Dealing)
            → out_of result.slot.0 own (request_of request) result.outcome (set_clock t (model_of self.now))
            ≡ without_slot (request_of request) (set_clock t (model_of self.now)) }
    {
        let place = place_of(&self.queue, self.waiting, request.ship, request.station);
        self.d_to_g(place)
    }

    // b. or c.: the ship has that slot.
    fn asked_again(&self, time: Tenths, slot: SlotNumber, request: Request) -> Choice
        ensures { chosen_at self.now time result request ≡ requested (model_at self.now time) (request_of request) (Q.holds slot.0) }
    {
        let the_slot = self.slot_there(slot);
        let kept = the_slot.request;
        let same = same_request(request, kept);
        let spent = none_left(self.last);
        Choice {
            slot,
            outcome: deciding::asked_again(kept.mode, same, spent, the_slot.phase),
        }
    }

    // Where the ship of a request stands.
    fn stands(&self, request: Request) -> Standing
        ensures { (t : ℕ) → standing_view result ≡ standing (set_clock t (model_of self.now)) (request_of request).who }
    {
        standing(
            &self.slots,
            self.count,
            &self.queue,
            self.waiting,
            request.ship,
            request.station,
        )
    }

    // The first rule that fits, by where the ship stands.
    fn asked(&self, time: Tenths, request: Request) -> Choice
        ensures { chosen_at self.now time result request
            ≡ requested (model_at self.now time) (request_of request) (standing (model_at self.now time) (request_of request).who) }
    {
        match self.stands(request) {
            Standing::Nowhere => self.d_to_g(None),
            Standing::Holds(slot) => self.asked_again(time, slot, request),
            Standing::Waits(place) => self.d_to_g(Some(place)),
        }
    }

    // A BQ on that slot: a ring-back acknowledged, or a call from ashore agreed to.
    fn agreed(&self, now: Now, slot: SlotNumber, request: Request) -> Choice
        ensures { chosen_at self.now now.time result request
            ≡ bq_for slot.0 (request_of request).who (model_at self.now now.time) (the_slot (model_of self.now) slot.0) }
    {
        let the_slot = self.slot_there(slot);
        let own = is_by(the_slot.request, request.ship, request.station);
        Choice {
            slot,
            outcome: deciding::bq(own, now.time, the_slot.phase),
        }
    }

    // 02, no. 2: "a ship being called"
    fn is_being_called(&self, request: Request) -> bool
        ensures { (t : ℕ) → result ≡ being_called (set_clock t (model_of self.now)) (request_of request).who }
    {
        match self.stands(request) {
            Standing::Holds(slot) => is_called(self.slot_there(slot).phase),
            Standing::Nowhere | Standing::Waits(_) => false,
        }
    }

    // 02, no. 2: "its BQ with 104 .. drops the call".
    fn declined(&self, time: Tenths, request: Request) -> Choice
        ensures { chosen_at self.now time result request ≡ heard_on70 (model_at self.now time) (declined (request_of request).who) }
    {
        match self.stands(request) {
            Standing::Holds(slot) => Choice {
                slot,
                outcome: deciding::declined(self.slot_there(slot).phase),
            },
            Standing::Nowhere | Standing::Waits(_) => Choice::of_none(Outcome::Ignored),
        }
    }

    // What was heard, at the time t.
    // Called, not inlined, as `without_slot` is.
    #[inline(never)]
    fn choice(&self, now: Now, heard: Heard) -> Choice
        ensures { chosen_at self.now now.time result heard.request ≡ heard_on70 (model_at self.now now.time) (heard_of heard) }
    {
        let request = heard.request;
        match heard.kind {
            HeardKind::CallRequest => self.asked(now.time, request),
            HeardKind::DataRequest => {
                let called = self.is_being_called(request);
                Choice::of_none(deciding::data_asked(called))
            }
            HeardKind::Bq(slot) => self.agreed(now, slot, request),
            HeardKind::Declined => self.declined(now.time, request),
            HeardKind::WorkingCall | HeardKind::EndOfCall | HeardKind::Nothing => {
                Choice::of_none(Outcome::Ignored)
            }
        }
    }

    // What is decided, and with c. ".. then d to g apply", to the station that the coast's end leaves.
    fn enact_whole(&mut self, now: Now, choice: Choice, request: Request, room: &mut [u8]) -> Told
        requires self_value { sound (config_of self.old) (model_of self.old) ≡ true }
        requires request_len_bound { length (chosen_at self.old now.time choice request).next.queue ≤ queue_room }
        ensures value { stepped_with self.new result ≡ handed_back self.old (chosen_at self.old now.time choice request) 0 room.old }
        ensures room_written { room.new ≡ room_laid self.old (chosen_at self.old now.time choice request) 0 room.old }
    {
        let ended = self.enact(now, choice.slot, choice.outcome, request, 0, room);
        if !goes_on(choice.outcome) {
            return ended;
        }
        let further = self.without_slot(request);
        self.enact(
            now,
            further.slot,
            further.outcome,
            request,
            ended.count,
            room,
        )
    }

    // What symbols on channel 70 say, where the event is accepted.
    fn heard_now(
        &self,
        look: Look,
        size: usize,
        time: Tenths,
        symbols: &[u8],
    ) -> Result<Heard, Refusal>
        requires { Sees self.now look }
        ensures { Judged (refusal self.now (record { time = time.0; room = size; what = on_channel70 symbols.now })) (Hears self.now symbols.now) result }
    {
        look.judge_now(size, time)?;
        self.hears(symbols)
    }

    // Symbols heard on channel 70.
    pub fn heard_on_channel_70(mut self, time: Tenths, symbols: &[u8], room: &mut [u8]) -> Stepped
        ensures value { result ≡ stepped_by self (event_at time.0 (on_channel70 symbols.now) room.old) }
        ensures room_written { room.new
            ≡ room_after self room.old (event_at time.0 (on_channel70 symbols.now) room.old) }
    {
        let look = self.looked();
        match self.heard_now(look, room.len(), time, symbols) {
            Err(refusal) => self.refused(refusal, look.due),
            Ok(heard) => {
                let now = Now { time };
                let choice = self.choice(now, heard);
                let told = self.enact_whole(now, choice, heard.request, room);
                told.beside(self)
            }
        }
    }
}
