// What an outcome comes to: the answer, the slot, the queue, the last call number.
ghost use Rattle.std.specs.Prelude.{◌≡◌};
ghost use Rattle.outcomes.specs.Does.{answer_of, goes_on, lasted_of, free_turn, turn_of, free_change, queue_change, entered_of};
ghost use Rattle.outcomes.specs.Does.{ringable_of, last_after};

use crate::{Outcome, QueueChange, Talk, Turn};
use actions::deeds::lasted;
use due_times::{QUEUE_WAIT, due_after};
use requests::Request;
use slots::numbers::{none_left, number_after};
use slots::{
    CALL_WAIT, Carrier, DIALLING_WAIT, HOLD_WAIT, OFFER_WAIT, Phase, QueuePlace, RING_BACK_WAIT,
    RINGING_WAIT, Waiting,
};
use units::{CallNumber, Duration, Tenths};

// What an end of call at that time tells: of an unanswered one nothing.
pub fn lasted_of(talk: Talk, time: Tenths) -> Option<Duration>
    ensures { result ≡ lasted_of talk time }
{
    match talk {
        Talk::Unanswered => None,
        Talk::Since(since) => lasted(since, time),
    }
}

// "0 done", "1 ignored"; a number, as `Stepped` and C's functions hand it out.
pub fn answer_of(outcome: Outcome) -> u8
    ensures { result ≡ answer_of outcome }
{
    match outcome {
        Outcome::Ignored => 1,
        _ => 0,
    }
}

// Rule c: "then d to g apply".
pub fn goes_on(outcome: Outcome) -> bool
    ensures { result ≡ goes_on outcome }
{
    matches!(outcome, Outcome::Redials(_))
}

// How many of so many that wait may be rung back. Document 02, no. 4: once the last number has been given, "no waiting ship".
pub fn ringable(last: CallNumber, waiting: u8) -> u8
    ensures { result ≡ ringable_of last waiting }
{
    if none_left(last) { 0 } else { waiting }
}

// The last number given then: what is not the slot's own call takes the next.
pub fn last_after(turn: Turn, last: CallNumber) -> CallNumber
    ensures { result ≡ last_after last turn }
{
    match turn {
        Turn::Stays | Turn::Own(_) => last,
        Turn::Asked(_) => number_after(last),
        Turn::Oldest(_) => number_after(last),
    }
}

// A slot is freed where so many may be rung back: "the same event takes the oldest".
fn free_turn(time: Tenths, ringable: u8) -> Turn
    ensures { result ≡ free_turn time ringable }
{
    if ringable == 0 {
        Turn::Own(Phase::Free)
    } else {
        Turn::Oldest(Phase::RingBack(due_after(time, RING_BACK_WAIT)))
    }
}

// What becomes of the slot at that time, where so many may be rung back; `telling::Scene`, above this crate, holds the two.
pub fn turn_of(outcome: Outcome, time: Tenths, ringable: u8) -> Turn
    ensures { result ≡ turn_of time ringable outcome }
{
    match outcome {
        Outcome::Turns(phase) => Turn::Own(phase),
        Outcome::Dials => Turn::Own(Phase::Dialling(
            due_after(time, DIALLING_WAIT),
            Carrier::Present,
        )),
        Outcome::RingsBackAgain => Turn::Own(Phase::RingBackAgain(due_after(time, RING_BACK_WAIT))),
        Outcome::ShipEnds(talk) => Turn::Own(Phase::Hold(
            due_after(time, HOLD_WAIT),
            lasted_of(talk, time),
        )),
        Outcome::Calls => Turn::Asked(Phase::Called(due_after(time, CALL_WAIT))),
        Outcome::CallsAgain => Turn::Own(Phase::CalledAgain(due_after(time, CALL_WAIT))),
        Outcome::StartsRinging => Turn::Own(Phase::Ringing(due_after(time, RINGING_WAIT))),
        Outcome::Transmits => Turn::Own(Phase::Answered(time, Carrier::Present)),
        Outcome::Renews | Outcome::Offers => Turn::Asked(Phase::Offered(due_after(
            time, OFFER_WAIT,
        ))),
        Outcome::Frees
        | Outcome::Clears
        | Outcome::CoastEnds(_)
        | Outcome::Redials(_)
        | Outcome::DropsCall(_, _) => free_turn(time, ringable),
        _ => Turn::Stays,
    }
}

fn free_change(ringable: u8) -> QueueChange
    ensures { result ≡ free_change ringable }
{
    if ringable == 0 {
        QueueChange::Same
    } else {
        QueueChange::Leaves(QueuePlace(0))
    }
}

// What becomes of the queue.
pub fn queue_change(outcome: Outcome, time: Tenths, ringable: u8) -> QueueChange
    ensures { result ≡ queue_change time ringable outcome }
{
    match outcome {
        Outcome::Frees
        | Outcome::Clears
        | Outcome::CoastEnds(_)
        | Outcome::Redials(_)
        | Outcome::DropsCall(_, _) => free_change(ringable),
        Outcome::Joins => QueueChange::Joins(due_after(time, QUEUE_WAIT)),
        Outcome::Replaces(place) => QueueChange::Replaces(place),
        Outcome::Drops(place) => QueueChange::Leaves(place),
        _ => QueueChange::Same,
    }
}

// What is written over the entry of a waiting ship, where that request is asked for; rule d: its due time kept.
pub fn entered(change: QueueChange, entry: Waiting, request: Request) -> Waiting
    ensures { result ≡ entered_of request entry change }
{
    match change {
        QueueChange::Same | QueueChange::Leaves(_) => entry,
        QueueChange::Joins(due) => Waiting { due, request },
        QueueChange::Replaces(_) => {
            let due = entry.due;
            Waiting { due, request }
        }
    }
}
