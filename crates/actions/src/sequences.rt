// The actions that send a sequence: the writer lays it into the payload.
ghost use Rattle.std.specs.Prelude.{◌≡◌};
ghost use Rattle.sequence.specs.Figures.{end_rq, end_bq};
ghost use Rattle.rules.specs.Rules.Words.{mode_number};
ghost use Rattle.rules.specs.Rules.Bytes.{block, number_of, able_said, unable_said, over_said, end_symbol, unable_slot};
ghost use Rattle.requests.specs.Views.{digits_of, request_of, mode_of};
ghost use Rattle.actions.specs.Blocks.{number_of_kind, action_of, action_block};
ghost use Rattle.actions.specs.Sent.{sent, party, ender_of};

use crate::numbers::front;
use crate::{Action, Ender, Kind, PAYLOAD, UNABLE_SLOT};
use requests::{Mode, Request};
use sequence::{
    END_BQ, END_LAST, END_RQ, FIRST_DUPLEX, FIRST_OVER, FIRST_SIMPLEX, FIRST_UNABLE, Field,
    MOST_DIGITS, Meaning, Number, UNTOLD,
};
use units::{Channel, Duration, SlotNumber};
use writing::write;

// A number laid out anew: its digits, and 0 in each place that is not used.
fn tidied(number: Number) -> Number
    ensures { result ≡ number_of (digits_of number) }
{
    Number {
        count: number.count.min(MOST_DIGITS),
        digits: front(number),
    }
}

// The sequence of a valid meaning; nothing for another.
fn send(kind: Kind, slot: SlotNumber, meaning: Meaning) -> Action
    ensures value { result ≡ action_of (number_of_kind kind) slot.0 (sent meaning) }
    ensures result_value { action_block result ≡ block (number_of_kind kind) slot.0 (sent meaning) }
{
    let mut payload = [0u8; PAYLOAD];
    let length = write(meaning, &mut payload).unwrap_or(0) as u8;
    Action {
        kind: kind as u8,
        slot,
        length,
        payload,
    }
}

fn first_of(mode: Mode) -> u8
    ensures { result ≡ mode_number (mode_of mode) }
{
    match mode {
        Mode::Simplex => FIRST_SIMPLEX,
        Mode::Duplex => FIRST_DUPLEX,
    }
}

// "Answers repeat the request with identities exchanged", here with the channel of its slot.
#[tactic(auto, unfolding(requests::specs::Views::request_of, rules::specs::Rules::Bytes::able_said, rules::specs::Rules::Bytes::answer_to))]
fn able(slot: SlotNumber, channel: Channel, end: u8, request: Request) -> Action
    ensures value { result ≡ action_of 3 slot.0 (sent (able_said channel end (request_of request))) }
    ensures result_value { action_block result ≡ block 3 slot.0 (sent (able_said channel end (request_of request))) }
{
    let meaning = Meaning {
        address: request.ship,
        sender: request.station,
        first: first_of(request.mode),
        second: request.second,
        field: Field::Channel(channel),
        number: tidied(request.number),
        end,
    };
    send(Kind::SendOnChannel70, slot, meaning)
}

// "acknowledgement with the channel and BQ"
pub fn acknowledgement(slot: SlotNumber, channel: Channel, request: Request) -> Action
    ensures value { result ≡ action_of 3 slot.0 (sent (able_said channel end_bq (request_of request))) }
    ensures result_value { action_block result ≡ block 3 slot.0 (sent (able_said channel end_bq (request_of request))) }
{
    able(slot, channel, END_BQ, request)
}

// "the able answer but with RQ": a ring-back, or a call from ashore
pub fn call_ship(slot: SlotNumber, channel: Channel, request: Request) -> Action
    ensures value { result ≡ action_of 3 slot.0 (sent (able_said channel end_rq (request_of request))) }
    ensures result_value { action_block result ≡ block 3 slot.0 (sent (able_said channel end_rq (request_of request))) }
{
    able(slot, channel, END_RQ, request)
}

// "for 104 the field 126s", and 255 in the slot's place
#[tactic(auto, unfolding(rules::specs::Rules::Bytes::unable_said, rules::specs::Rules::Bytes::answer_to))]
pub fn unable(second: u8, ship: u32, station: u32, number: Number) -> Action
    ensures value { result ≡ action_of 3 unable_slot (sent (unable_said second (party ship station) (digits_of number))) }
    ensures result_value { action_block result ≡ block 3 unable_slot (sent (unable_said second (party ship station) (digits_of number))) }
{
    let meaning = Meaning {
        address: ship,
        sender: station,
        first: FIRST_UNABLE,
        second,
        field: Field::Blank,
        number: tidied(number),
        end: END_BQ,
    };
    send(Kind::SendOnChannel70, UNABLE_SLOT, meaning)
}

// The same answer to a stored request.
#[tactic(auto, unfolding(requests::specs::Views::request_of))]
pub fn unable_to(second: u8, request: Request) -> Action
    ensures value { result ≡ action_of 3 unable_slot (sent (unable_said second (request_of request).who (request_of request).number)) }
    ensures result_value { action_block result ≡ block 3 unable_slot (sent (unable_said second (request_of request).who (request_of request).number)) }
{
    unable(second, request.ship, request.station, request.number)
}

// "with BQ" at the ship's end, "with 127" at the coast's
fn end_of(by: Ender) -> u8
    ensures { result ≡ end_symbol (ender_of by) }
{
    match by {
        Ender::Ship => END_BQ,
        Ender::Coast => END_LAST,
    }
}

// "send 105/126 .. and the duration"; "the number sent is the stored request's"
#[tactic(auto, unfolding(requests::specs::Views::request_of, rules::specs::Rules::Bytes::over_said, rules::specs::Rules::Bytes::answer_to))]
pub fn over(slot: SlotNumber, by: Ender, request: Request, lasted: Option<Duration>) -> Action
    ensures value { result ≡ action_of 4 slot.0 (sent (over_said (ender_of by) (request_of request).who (request_of request).number lasted)) }
    ensures result_value { action_block result
        ≡ block 4 slot.0 (sent (over_said (ender_of by) (request_of request).who (request_of request).number lasted)) }
{
    let meaning = Meaning {
        address: request.ship,
        sender: request.station,
        first: FIRST_OVER,
        second: UNTOLD,
        field: lasted.map_or(Field::Blank, Field::Duration),
        number: tidied(request.number),
        end: end_of(by),
    };
    send(Kind::SendOnWorking, slot, meaning)
}
