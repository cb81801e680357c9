// What is decided is told, applied and handed back; or the event is refused.
ghost use Rattle.std.specs.Prelude.{◌≡◌, ◌≤◌, length};
ghost use Rattle.rules.specs.Rules.Sound.{queue_room};
ghost use Rattle.rules.specs.Rules.Station.{due_at};
ghost use Rattle.requests.specs.Views.{request_of};
ghost use Rattle.slots.specs.Views.{due_view};
ghost use Rattle.gate.specs.Asked.{refusal_number};
ghost use Rattle.station.specs.Step.{due_image};
ghost use Rattle.station.specs.Pieces.{Shows, stepped_with, out_at, handed_back, room_laid};

use crate::applying::{requeued, slot_turned};
use crate::look::due_time;
use crate::now::Now;
use crate::tidying::{queue_anew, slots_anew};
use crate::{Station, Stepped, Told};
use gate::Refusal;
use outcomes::Outcome;
use outcomes::parts::{answer_of, last_after, queue_change, ringable, turn_of};
use requests::Request;
use slots::laying::blank_waiting;
use slots::{Due, MOST_SLOTS};
use telling::Scene;
use units::SlotNumber;

impl Told {
    pub(crate) fn beside(self, station: Station) -> Stepped
        ensures { result ≡ stepped_with station self }
    {
        Stepped {
            station,
            due: self.due,
            answer: self.answer,
            count: self.count,
        }
    }
}

impl Station {
    // What an outcome of that slot is told and applied by.
    fn scene(&self, now: Now, number: SlotNumber, request: Request) -> Scene
        ensures { Shows self.now now.time number (request_of request) result }
    {
        let slot = self.slot_there(number);
        let waiting = self.queue_length();
        let oldest = if 0 < waiting {
            self.queue[0]
        } else {
            blank_waiting()
        };
        Scene {
            clock: now.time,
            slot: number,
            channel: slot.channel,
            call: slot.call,
            own: slot.request,
            asked: request,
            oldest: oldest.request,
            ringable: ringable(self.last, waiting),
        }
    }

    // An outcome of that slot, told from that block on.
    pub(crate) fn enact(
        &mut self,
        now: Now,
        number: SlotNumber,
        outcome: Outcome,
        request: Request,
        block: u8,
        room: &mut [u8],
    ) -> Told
        requires { length (out_at self.old now.time number (request_of request) outcome).next.queue ≤ queue_room }
        ensures value { stepped_with self.new result ≡ handed_back self.old (out_at self.old now.time number (request_of request) outcome) block room.old }
        ensures room_written { room.new ≡ room_laid self.old (out_at self.old now.time number (request_of request) outcome) block room.old }
    {
        let scene = self.scene(now, number, request);
        let told = scene.tell(outcome, block, room);
        let change = queue_change(outcome, now.time, scene.ringable);
        let before = self.queue_length();
        let waiting = requeued(&mut self.queue, before, change, request);
        let turn = turn_of(outcome, now.time, scene.ringable);
        let last = last_after(turn, self.last);
        let count = self.count.min(MOST_SLOTS);
        if number.0 < count as u32 {
            let slot = self.slots[number.0 as usize];
            self.slots[number.0 as usize] = slot_turned(slot, turn, scene, last);
        }
        let slots_first = slots_anew(&mut self.slots, count);
        let first = queue_anew(&mut self.queue, waiting, slots_first);
        self.clock = now.time;
        self.last = last;
        self.count = count;
        self.waiting = waiting;
        Told {
            due: due_time(first),
            answer: answer_of(outcome),
            count: told,
        }
    }

    // "hands back the station unchanged, clock included"
    pub(crate) fn refused(&self, refusal: Refusal, first: Option<Due>) -> Stepped
        ensures { result ≡ record { answer = refusal_number refusal; count = 0; due = due_image (due_at (due_view first)); station = self.now } }
    {
        Stepped {
            station: *self,
            due: due_time(first),
            answer: refusal.number(),
            count: 0,
        }
    }
}
