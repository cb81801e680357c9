// The actions that send no sequence: carrier, line, ringing, busy tone, dialling, charge.
ghost use Rattle.std.specs.Prelude.{◌≡◌, [], ◌-◌};
ghost use Rattle.units.specs.Units.{whole_seconds, duration_of};
ghost use Rattle.rules.specs.Rules.Bytes.{block};
ghost use Rattle.requests.specs.Views.{digits_of};
ghost use Rattle.actions.specs.Blocks.{number_of_kind, action_of, action_block, charge_bytes, span};

use crate::numbers::front;
use crate::{Action, Kind, PAYLOAD};
use sequence::{MOST_DIGITS, Number};
use units::{CallNumber, Duration, SlotNumber, Tenths};

#[tactic(auto, unfolding(crate::specs::Blocks::action_of, crate::specs::Blocks::action_block, rules::specs::Rules::Bytes::padded))]
fn plain(kind: Kind, slot: SlotNumber) -> Action
    ensures value { result ≡ action_of (number_of_kind kind) slot.0 [] }
    ensures result_value { action_block result ≡ block (number_of_kind kind) slot.0 [] }
{
    Action {
        kind: kind as u8,
        slot,
        length: 0,
        payload: [0u8; PAYLOAD],
    }
}

// Six makers of one body: each names its deed where it is called, and its contract has the number of its block.
pub fn carrier_on(slot: SlotNumber) -> Action
    ensures value { result ≡ action_of 1 slot.0 [] }
    ensures result_value { action_block result ≡ block 1 slot.0 [] }
{
    plain(Kind::CarrierOn, slot)
}

pub fn carrier_off(slot: SlotNumber) -> Action
    ensures value { result ≡ action_of 2 slot.0 [] }
    ensures result_value { action_block result ≡ block 2 slot.0 [] }
{
    plain(Kind::CarrierOff, slot)
}

pub fn release_line(slot: SlotNumber) -> Action
    ensures value { result ≡ action_of 6 slot.0 [] }
    ensures result_value { action_block result ≡ block 6 slot.0 [] }
{
    plain(Kind::ReleaseLine, slot)
}

// Document 02, no. 2: "8 ringing on"
pub fn ringing_on(slot: SlotNumber) -> Action
    ensures value { result ≡ action_of 8 slot.0 [] }
    ensures result_value { action_block result ≡ block 8 slot.0 [] }
{
    plain(Kind::RingingOn, slot)
}

// "9 ringing off"
pub fn ringing_off(slot: SlotNumber) -> Action
    ensures value { result ≡ action_of 9 slot.0 [] }
    ensures result_value { action_block result ≡ block 9 slot.0 [] }
{
    plain(Kind::RingingOff, slot)
}

// "10 five seconds of busy tone"
pub fn busy_tone(slot: SlotNumber) -> Action
    ensures value { result ≡ action_of 10 slot.0 [] }
    ensures result_value { action_block result ≡ block 10 slot.0 [] }
{
    plain(Kind::BusyTone, slot)
}

// "digits, one a byte"
pub fn dial(slot: SlotNumber, number: Number) -> Action
    ensures value { result ≡ action_of 5 slot.0 (digits_of number) }
    ensures result_value { action_block result ≡ block 5 slot.0 (digits_of number) }
{
    Action {
        kind: Kind::Dial as u8,
        slot,
        length: number.count.min(MOST_DIGITS),
        payload: front(number),
    }
}

// From a start to a stop; none where the stop stands before it.
fn span_of(start: Tenths, stop: Tenths) -> Tenths
    ensures { result ≡ span start stop }
{
    Tenths(stop.0.saturating_sub(start.0))
}

// "whole seconds, rounded down", as an end of call tells them
pub fn lasted(start: Tenths, stop: Tenths) -> Option<Duration>
    ensures { result ≡ duration_of (whole_seconds (span start stop)) }
{
    span_of(start, stop).whole_seconds().duration()
}

// "ship, start, stop, seconds; four bytes each, low first"; document 02, no. 4: the call number, "as a fifth field"
pub fn charge(slot: SlotNumber, ship: u32, start: Tenths, stop: Tenths, call: CallNumber) -> Action
    ensures value { result ≡ action_of 7 slot.0 (charge_bytes ship start stop call) }
    ensures result_value { action_block result ≡ block 7 slot.0 (charge_bytes ship start stop call) }
{
    let seconds = span_of(start, stop).whole_seconds().count();
    let mut payload = [0u8; PAYLOAD];
    payload[..4].copy_from_slice(&ship.to_le_bytes());
    payload[4..8].copy_from_slice(&start.0.to_le_bytes());
    payload[8..12].copy_from_slice(&stop.0.to_le_bytes());
    payload[12..16].copy_from_slice(&seconds.to_le_bytes());
    payload[16..20].copy_from_slice(&call.0.to_le_bytes());
    Action {
        kind: Kind::Charge as u8,
        slot,
        length: 20,
        payload,
    }
}
