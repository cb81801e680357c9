// What an outcome tells: the blocks of its actions, laid straight into the lent room.
#![tactic(auto)]

ghost use Rattle.std.specs.Prelude.{◌≡◌};
ghost use Rattle.rules.specs.Rules.Words as W;
ghost use Rattle.rules.specs.Rules.Actions.{does};
ghost use Rattle.requests.specs.Views.{request_of};
ghost use Rattle.actions.specs.Blocks.{action_block};
ghost use Rattle.actions.specs.Sent.{ender_of, sent_on};
ghost use Rattle.outcomes.specs.Does.{free_acts, acts_of};
ghost use Rattle.telling.specs.Tells.{scene_view, telling, Lays, Tells, bill_acts, off_acts, ended_acts, again_acts, drop_call_acts};

use actions::deeds::{
    busy_tone, carrier_off, carrier_on, charge, dial, release_line, ringing_off, ringing_on,
};
use actions::sequences::{acknowledgement, call_ship, over, unable_to};
use actions::{Action, Ender};
use blocks::lay;
use outcomes::parts::lasted_of;
use outcomes::{Outcome, Talk};
use requests::Request;
use units::{CallNumber, Channel, Duration, SlotNumber, Tenths};

// All that is asked of a station to carry an outcome out.
#[derive(Clone, Copy)]
pub struct Scene {
    pub clock: Tenths,
    pub slot: SlotNumber,
    pub channel: Channel, // the slot's
    pub call: CallNumber, // the slot's
    pub own: Request, // the slot's
    pub asked: Request, // the event's
    pub oldest: Request, // the oldest waiting ship's, where one waits
    pub ringable: u8, // how many may be rung back
}

// The lent room, and the number of the next block.
#[derive(Drop)]
struct Told<'a> {
    room: &'a mut [u8],
    next: u8,
}

impl Told<'_> {
    fn lay(&mut self, action: Action)
        ensures { Lays action self.old self.new }
    {
        self.next = lay(action, self.next, self.room);
    }
}

impl Scene {
    // "charge if answered"
    fn bill(&self, talk: Talk, told: &mut Told)
        ensures { Tells self.now (bill_acts (scene_view self.now) talk) told.old told.new }
    {
        match talk {
            Talk::Unanswered => {}
            Talk::Since(start) => told.lay(charge(
                self.slot,
                self.own.ship,
                start,
                self.clock,
                self.call,
            )),
        }
    }

    // "send 105/126 .. and the duration, carrier off"
    fn sign_off(&self, by: Ender, lasted: Option<Duration>, told: &mut Told)
        ensures { Tells self.now (off_acts (scene_view self.now) (ender_of by) lasted) told.old told.new }
    {
        told.lay(over(self.slot, by, self.own, lasted));
        told.lay(carrier_off(self.slot));
    }

    // "charge if answered, release line, send .."
    fn end(&self, by: Ender, talk: Talk, told: &mut Told)
        ensures { Tells self.now (ended_acts (scene_view self.now) (ender_of by) talk) told.old told.new }
    {
        self.bill(talk, told);
        told.lay(release_line(self.slot));
        self.sign_off(by, lasted_of(talk, self.clock), told);
    }

    // "in the hold: carrier on, the same answer sent, carrier off"
    fn again(&self, lasted: Option<Duration>, told: &mut Told)
        ensures { Tells self.now (again_acts (scene_view self.now) lasted) told.old told.new }
    {
        told.lay(carrier_on(self.slot));
        self.sign_off(Ender::Ship, lasted, told);
    }

    // "ringing off if it rings, carrier off, the tone unless the caller hung up, release line"
    fn drop_call(&self, rings: bool, tone: bool, told: &mut Told)
        ensures { Tells self.now (drop_call_acts (scene_view self.now) rings tone) told.old told.new }
    {
        if rings {
            told.lay(ringing_off(self.slot));
        }
        told.lay(carrier_off(self.slot));
        if tone {
            told.lay(busy_tone(self.slot));
        }
        told.lay(release_line(self.slot));
    }

    fn call(&self, ship: Request) -> Action
        ensures { action_block result ≡ sent_on self.now.channel (does (W.call_ship self.now.slot.0 (request_of ship))) }
    {
        call_ship(self.slot, self.channel, ship)
    }

    fn acknowledge(&self) -> Action
        ensures { action_block result ≡ sent_on self.now.channel (does (W.acknowledge self.now.slot.0 (request_of self.now.asked))) }
    {
        acknowledgement(self.slot, self.channel, self.asked)
    }

    // A slot is freed: the oldest of those that may be is rung back.
    fn free(&self, told: &mut Told)
        ensures { Tells self.now (free_acts (scene_view self.now)) told.old told.new }
    {
        let ringable = self.ringable;
        if ringable != 0 {
            told.lay(carrier_on(self.slot));
            told.lay(self.call(self.oldest));
        }
    }

    // An outcome's actions, in order: an outcome is a value, so a `match` chooses them.
    fn say(&self, outcome: Outcome, told: &mut Told)
        ensures { Tells self.now (acts_of (scene_view self.now) outcome) told.old told.new }
    {
        match outcome {
            Outcome::Dials => told.lay(dial(self.slot, self.own.number)),
            Outcome::RingsBackAgain | Outcome::CallsAgain => told.lay(self.call(self.own)),
            Outcome::Frees => self.free(told),
            Outcome::Clears => {
                told.lay(carrier_off(self.slot));
                self.free(told);
            }
            Outcome::CoastEnds(talk) | Outcome::Redials(talk) => {
                self.end(Ender::Coast, talk, told);
                self.free(told);
            }
            Outcome::ShipEnds(talk) => self.end(Ender::Ship, talk, told),
            Outcome::SaysAgain(lasted) => self.again(lasted, told),
            Outcome::DropsCall(rings, tone) => {
                self.drop_call(rings, tone, told);
                self.free(told);
            }
            Outcome::Repeats | Outcome::Renews => told.lay(self.acknowledge()),
            Outcome::Offers => {
                told.lay(carrier_on(self.slot));
                told.lay(self.acknowledge());
            }
            Outcome::Calls => {
                told.lay(carrier_on(self.slot));
                told.lay(self.call(self.asked));
            }
            Outcome::Joins | Outcome::Replaces(_) => told.lay(unable_to(103, self.asked)),
            Outcome::Unable(second) => told.lay(unable_to(second, self.asked)),
            Outcome::StartsRinging => told.lay(ringing_on(self.slot)),
            Outcome::Transmits => told.lay(ringing_off(self.slot)),
            Outcome::Ignored | Outcome::Passes | Outcome::Turns(_) | Outcome::Drops(_) => {}
        }
    }

    // Lays the blocks of an outcome's actions from that block on, and returns the number of the next block.
    pub fn tell(self, outcome: Outcome, block: u8, room: &mut [u8]) -> u8
        ensures value { result ≡ (telling self (acts_of (scene_view self) outcome) block room.old).next }
        ensures room_written { room.new ≡ (telling self (acts_of (scene_view self) outcome) block room.old).room }
    {
        let mut told = Told { room, next: block };
        self.say(outcome, &mut told);
        told.next
    }
}
