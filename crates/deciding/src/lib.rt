// What each event does: by the slot's phase, and for a ship that stands nowhere; what the documents do not name is ignored. No rule
// holds a station. A rule is handed what its sentence names, and no struct of time, mode and phase, of which it would read a part.
#![tactic(auto)]

ghost use Rattle.std.specs.Prelude.{◌≡◌};
ghost use Rattle.deciding.specs.Decides.{dialled_out_by, off_hook_by, up_by, loss_from, down_by, coast_end_by, hung_by, working_by};
ghost use Rattle.deciding.specs.Decides.{ship_end_by, bq_by};
ghost use Rattle.deciding.specs.Decides.{declined_by, data_by};
ghost use Rattle.deciding.specs.Decides.{by_signal, by_hand, main_due_by, rule_c_by, asked_again_by};
ghost use Rattle.deciding.specs.Decides.{while_left, newcomer_by, d_to_g_by};

use due_times::{carrier_wait, due_after};
use outcomes::{Outcome, Talk};
use requests::Mode;
use slots::{Carrier, Hand, MOST_WAITING, OFFER_WAIT, Phase, QueuePlace, REPLY_WAIT, Signal};
use units::Tenths;

// Document 02, no. 1: "at it a new wait of 600 begins"; "A second P in a call, or one after the answer, is ignored".
fn dialling_ended(time: Tenths, phase: Phase) -> Outcome
    ensures { result ≡ dialled_out_by time phase }
{
    match phase {
        Phase::Dialling(_, carrier) => {
            let due = due_after(time, REPLY_WAIT);
            Outcome::Turns(Phase::DialledOut(due, carrier))
        }
        _ => Outcome::Ignored,
    }
}

// "while dialling: answered, the reply wait ends, a carrier wait runs on"; 02, no. 1: "in either wait"
fn off_hook(time: Tenths, phase: Phase) -> Outcome
    ensures { result ≡ off_hook_by time phase }
{
    match phase {
        Phase::Dialling(_, carrier) => Outcome::Turns(Phase::Answered(time, carrier)),
        Phase::DialledOut(_, carrier) => Outcome::Turns(Phase::Answered(time, carrier)),
        Phase::Answered(_, _) => Outcome::Ignored,
        _ => Outcome::Ignored,
    }
}

// "carrier up ends it"; 02, no. 2: "The first carrier up while it rings is the ship's transmission"
fn carrier_up(phase: Phase) -> Outcome
    ensures { result ≡ up_by phase }
{
    match phase {
        Phase::Dialling(due, _) => Outcome::Turns(Phase::Dialling(due, Carrier::Present)),
        Phase::DialledOut(due, _) => Outcome::Turns(Phase::DialledOut(due, Carrier::Present)),
        Phase::Answered(since, _) => Outcome::Turns(Phase::Answered(since, Carrier::Present)),
        Phase::Ringing(_) => Outcome::Transmits,
        _ => Outcome::Ignored,
    }
}

// The carrier's wait begins; "a second down doesn't restart it".
fn lost_from(time: Tenths, mode: Mode, carrier: Carrier) -> Carrier
    ensures { result ≡ loss_from time mode carrier }
{
    let due = due_after(time, carrier_wait(mode));
    match carrier {
        Carrier::Present => Carrier::Lost(due),
        Carrier::Lost(earlier) => Carrier::Lost(earlier),
    }
}

// "starts a wait of 50 duplex, 450 simplex"
fn carrier_down(time: Tenths, mode: Mode, phase: Phase) -> Outcome
    ensures { result ≡ down_by time mode phase }
{
    match phase {
        Phase::Dialling(due, carrier) => Outcome::Turns(Phase::Dialling(
            due,
            lost_from(time, mode, carrier),
        )),
        Phase::DialledOut(due, carrier) => Outcome::Turns(Phase::DialledOut(
            due,
            lost_from(time, mode, carrier),
        )),
        Phase::Answered(since, carrier) => Outcome::Turns(Phase::Answered(
            since,
            lost_from(time, mode, carrier),
        )),
        _ => Outcome::Ignored,
    }
}

// A carrier loss.
pub fn coast_end(phase: Phase) -> Outcome
    ensures { result ≡ coast_end_by phase }
{
    match phase {
        Phase::Dialling(_, _) | Phase::DialledOut(_, _) => Outcome::CoastEnds(Talk::Unanswered),
        Phase::Answered(since, _) => Outcome::CoastEnds(Talk::Since(since)),
        _ => Outcome::Ignored,
    }
}

// On-hook: a call that is dialled or answered ends; 02, no. 2: "The caller's on-hook before that drops the call too".
fn on_hook(phase: Phase) -> Outcome
    ensures { result ≡ hung_by phase }
{
    match phase {
        Phase::Called(_) | Phase::CalledAgain(_) => Outcome::DropsCall(false, false),
        Phase::Ringing(_) => Outcome::DropsCall(true, false),
        _ => coast_end(phase),
    }
}

// Which signal it was is told as a value, so a `match` chooses the rule.
pub fn by_signal(signal: Signal, time: Tenths, mode: Mode, phase: Phase) -> Outcome
    ensures { result ≡ by_signal signal time mode phase }
{
    match signal {
        Signal::LineDialledOut => dialling_ended(time, phase),
        Signal::LineLifted => off_hook(time, phase),
        Signal::LineHung => on_hook(phase),
        Signal::CarrierHeard => carrier_up(phase),
        Signal::CarrierLost => carrier_down(time, mode, phase),
    }
}

// "on an offered or acknowledged slot, same ship"
pub fn working_call(own: bool, phase: Phase) -> Outcome
    ensures { result ≡ working_by own phase }
{
    match phase {
        Phase::Offered(_) | Phase::Acknowledged(_) if own => Outcome::Dials,
        _ => Outcome::Ignored,
    }
}

// "while dialling or answered, same ship"; "in the hold: .. the same answer sent"
pub fn ship_end(own: bool, phase: Phase) -> Outcome
    ensures { result ≡ ship_end_by own phase }
{
    if !own {
        return Outcome::Ignored;
    }
    match phase {
        Phase::Dialling(_, _) | Phase::DialledOut(_, _) => Outcome::ShipEnds(Talk::Unanswered),
        Phase::Answered(since, _) => Outcome::ShipEnds(Talk::Since(since)),
        Phase::Hold(_, lasted) => Outcome::SaysAgain(lasted),
        _ => Outcome::Ignored,
    }
}

// Ring-back acknowledged: "wait 160"; 02, no. 2: "The ship's first BQ .. starts the ringing".
pub fn bq(own: bool, time: Tenths, phase: Phase) -> Outcome
    ensures { result ≡ bq_by own time phase }
{
    if !own {
        return Outcome::Ignored;
    }
    match phase {
        Phase::RingBack(_) | Phase::RingBackAgain(_) => {
            let due = due_after(time, OFFER_WAIT);
            Outcome::Turns(Phase::Acknowledged(due))
        }
        Phase::Called(_) | Phase::CalledAgain(_) => Outcome::StartsRinging,
        _ => Outcome::Ignored,
    }
}

// 02, no. 2: "its BQ with 104 before its transmission, ringing or not, drops the call"
pub fn declined(phase: Phase) -> Outcome
    ensures { result ≡ declined_by phase }
{
    match phase {
        Phase::Called(_) | Phase::CalledAgain(_) => Outcome::DropsCall(false, true),
        Phase::Ringing(_) => Outcome::DropsCall(true, true),
        _ => Outcome::Ignored,
    }
}

// a. "Data: answer 104/109", to a ship that is not being called.
pub fn data_asked(called: bool) -> Outcome
    ensures { result ≡ data_by called }
{
    if called {
        Outcome::Ignored
    } else {
        Outcome::Unable(109)
    }
}

// The operator "takes a free slot .. or gives it back (freed)".
pub fn by_hand(hand: Hand, phase: Phase) -> Outcome
    ensures { result ≡ by_hand hand phase }
{
    match (hand, phase) {
        (Hand::Takes, Phase::Free) => Outcome::Turns(Phase::Taken),
        (Hand::GivesBack, Phase::Taken) => Outcome::Frees,
        _ => Outcome::Ignored,
    }
}

// The wait of a slot other than its carrier's falls due.
pub fn main_due(phase: Phase) -> Outcome
    ensures { result ≡ main_due_by phase }
{
    match phase {
        Phase::Offered(_) | Phase::RingBackAgain(_) | Phase::Acknowledged(_) => Outcome::Clears,
        Phase::RingBack(_) => Outcome::RingsBackAgain,
        Phase::Called(_) => Outcome::CallsAgain,
        Phase::CalledAgain(_) => Outcome::DropsCall(false, true),
        Phase::Ringing(_) => Outcome::DropsCall(true, true),
        Phase::Dialling(_, _) | Phase::DialledOut(_, _) => Outcome::CoastEnds(Talk::Unanswered),
        Phase::Hold(_, _) => Outcome::Frees,
        _ => Outcome::Ignored,
    }
}

// c. "ignored if duplex or if its carrier is present. If simplex with carrier absent, .."
fn rule_c(mode: Mode, talk: Talk, carrier: Carrier) -> Outcome
    ensures { result ≡ rule_c_by mode talk carrier }
{
    match (mode, carrier) {
        (Mode::Simplex, Carrier::Lost(_)) => Outcome::Redials(talk),
        _ => Outcome::Ignored,
    }
}

// Document 02, no. 4: what is decided while a call number is left; then "answer 104/107 and change nothing else".
fn while_left(spent: bool, outcome: Outcome) -> Outcome
    ensures { result ≡ while_left spent outcome }
{
    if spent { Outcome::Unable(107) } else { outcome }
}

// b or c, by the mode of the slot's own request, whether the one asked is the same, and whether the numbers are used up. The phase is
// told as a value, so a `match` chooses.
pub fn asked_again(mode: Mode, same: bool, spent: bool, phase: Phase) -> Outcome
    ensures { result ≡ asked_again_by mode same spent phase }
{
    match phase {
        Phase::Offered(_) if same => Outcome::Repeats,
        Phase::Offered(_) => while_left(spent, Outcome::Renews),
        Phase::RingBack(_) | Phase::RingBackAgain(_) | Phase::Acknowledged(_) => while_left(
            spent,
            Outcome::Renews,
        ),
        Phase::Dialling(_, carrier) | Phase::DialledOut(_, carrier) => rule_c(
            mode,
            Talk::Unanswered,
            carrier,
        ),
        Phase::Answered(since, carrier) => rule_c(mode, Talk::Since(since), carrier),
        _ => Outcome::Ignored,
    }
}

// e, f or g, by whether a slot was found free, and how many wait.
fn newcomer(found: bool, waiting: u8) -> Outcome
    ensures { result ≡ newcomer_by found waiting }
{
    if found {
        Outcome::Offers
    } else if waiting < MOST_WAITING {
        Outcome::Joins
    } else {
        Outcome::Unable(102)
    }
}

// d, for a ship that waits at that place; e to g, for one that waits nowhere.
pub fn d_to_g(spent: bool, place: Option<QueuePlace>, found: bool, waiting: u8) -> Outcome
    ensures { result ≡ d_to_g_by spent place found waiting }
{
    match place {
        Some(number) => while_left(spent, Outcome::Replaces(number)),
        None => while_left(spent, newcomer(found, waiting)),
    }
}
