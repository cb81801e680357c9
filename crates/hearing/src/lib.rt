// What a sequence says to a station: its kind, and who asks for what.
#![tactic(auto)]

ghost use Rattle.std.specs.Prelude.{◌≡◌, ◌||◌};
ghost use Rattle.sequence.specs.Figures.{first_simplex, first_duplex, end_last};
ghost use Rattle.rules.specs.Rules.Words as W;
ghost use Rattle.rules.specs.Rules.Words.{Config};
ghost use Rattle.rules.specs.Rules.Heard.{is_blank, says, slot_named, bq_on, agrees, kind_of, addressed};
ghost use Rattle.requests.specs.Views.{request_of};
ghost use Rattle.slots.specs.declared.mast.Mast.{Mast};
ghost use Rattle.slots.specs.Views.{found_view, config_for};
ghost use Rattle.hearing.specs.Said.{heard_as, heard_of, mode_in, asked_in};

use requests::{Mode, Request};
use searches::slot_named;
use sequence::{
    END_BQ, END_LAST, END_RQ, FIRST_DATA, FIRST_DUPLEX, FIRST_OVER, FIRST_SIMPLEX, FIRST_UNABLE,
    Field, Meaning,
};
use slots::mast::{Mast, is_ours};
use slots::{SLOTS, Slot};
use units::SlotNumber;

// Document 01's kinds of sequences, and 02's "BQ with 104"; another BQ names the channel of a slot.
#[derive(Clone, Copy)]
pub enum HeardKind {
    CallRequest,
    DataRequest,
    Bq(SlotNumber),
    Declined,
    WorkingCall,
    EndOfCall,
    Nothing,
}

// The request of a kind that asks for nothing tells who sent it.
#[derive(Clone, Copy)]
pub struct Heard {
    pub kind: HeardKind,
    pub request: Request,
}

fn is_blank(field: Field) -> bool
    ensures { result ≡ is_blank field }
{
    match field {
        Field::Blank => true,
        Field::Channel(_) | Field::Duration(_) => false,
    }
}

// An end of sequence and a first telecommand, with the field 126s.
fn says(meaning: Meaning, end: u8, first: u8) -> bool
    ensures { result ≡ says end first meaning }
{
    meaning.end == end && meaning.first == first && is_blank(meaning.field)
}

// "BQ .. telecommand 100 or 101"
fn agrees(meaning: Meaning) -> bool
    ensures { result ≡ agrees meaning }
{
    let first = meaning.first;
    meaning.end == END_BQ && (first == FIRST_SIMPLEX || first == FIRST_DUPLEX)
}

// "Working call (127; 100 or 101; field 126s)"
fn works(meaning: Meaning) -> bool
    ensures { result ≡ (says end_last first_simplex meaning || says end_last first_duplex meaning) }
{
    says(meaning, END_LAST, FIRST_SIMPLEX) || says(meaning, END_LAST, FIRST_DUPLEX)
}

fn mode_in(first: u8) -> Mode
    ensures { result ≡ mode_in first }
{
    if first == FIRST_DUPLEX {
        return Mode::Duplex;
    }
    Mode::Simplex
}

// Who asks for what, whatever kind of sequence it is.
fn asked_in(meaning: Meaning) -> Request
    ensures { result ≡ asked_in meaning }
{
    Request {
        ship: meaning.sender,
        station: meaning.address,
        mode: mode_in(meaning.first),
        second: meaning.second,
        number: meaning.number,
    }
}

// The slot whose channel is named.
fn named(slots: &[Slot; SLOTS], count: u8, field: Field) -> Option<SlotNumber>
    ensures { (mast : Mast) → found_view result ≡ slot_named (config_for mast count slots.now) field }
{
    match field {
        Field::Channel(channel) => slot_named(slots, count, channel),
        Field::Blank | Field::Duration(_) => None,
    }
}

// A BQ that names the channel of a slot.
fn bq_on(found: Option<SlotNumber>) -> HeardKind
    ensures { (x : W.Request) → heard_as result x ≡ bq_on x.who (found_view found) }
{
    match found {
        Some(slot) => HeardKind::Bq(slot),
        None => HeardKind::Nothing,
    }
}

// Which of the documents' kinds it is, where its field names the slot.
#[tactic(auto, using(crate::proofs::SaidLaws::asked_is, crate::proofs::SaidLaws::simplex_asked, crate::proofs::SaidLaws::duplex_asked), unfolding(rules::specs::Rules::Heard::kind_of))]
fn kind_of(meaning: Meaning, found: Option<SlotNumber>) -> HeardKind
    ensures { (c : Config) → found_view found ≡ slot_named c meaning.field → heard_as result (request_of (asked_in meaning)) ≡ kind_of c meaning }
{
    if says(meaning, END_RQ, FIRST_SIMPLEX) || says(meaning, END_RQ, FIRST_DUPLEX) {
        return HeardKind::CallRequest;
    }
    if says(meaning, END_RQ, FIRST_DATA) {
        return HeardKind::DataRequest;
    }
    if works(meaning) {
        return HeardKind::WorkingCall;
    }
    if says(meaning, END_RQ, FIRST_OVER) {
        return HeardKind::EndOfCall;
    }
    if agrees(meaning) {
        return bq_on(found);
    }
    if says(meaning, END_BQ, FIRST_UNABLE) {
        return HeardKind::Declined;
    }
    HeardKind::Nothing
}

// "a sequence not addressed to this station" says nothing.
pub fn heard_in(mast: Mast, slots: &[Slot; SLOTS], count: u8, meaning: Meaning) -> Heard
    ensures request_value { result.request ≡ asked_in meaning }
    ensures result_value { heard_of result ≡ addressed (config_for mast count slots.now) meaning }
{
    let request = asked_in(meaning);
    if !is_ours(mast, meaning.address) {
        return Heard {
            kind: HeardKind::Nothing,
            request,
        };
    }
    let kind = kind_of(meaning, named(slots, count, meaning.field));
    Heard { kind, request }
}
