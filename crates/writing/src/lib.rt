// The writer: a valid meaning to its one sequence in a lent room, or a refusal and the room as it was.
#![tactic(auto)]

ghost use Rattle.std.specs.Prelude.{◌≡◌, true, false, ◌++◌, ◌≤◌, length, drop, MatchResult};
ghost use Rattle.sequence.specs.Figures.{longest};
ghost use Rattle.sequence.specs.Symbols.{exclusive_or};
ghost use Rattle.sequence.specs.Answers.{done};
ghost use Rattle.sequence.specs.Layout.{valid, front, layout};
ghost use Rattle.sequence.specs.Writing.{writing_answer, written_of, room_after};

mod fields;
mod identities;
mod pairs;
mod symbols;

use crate::fields::{field_first, field_ok, field_second, field_third};
use crate::identities::identity_symbols;
use crate::pairs::{lay_pairs, parity_of};
use crate::symbols::lay_symbol;
use sequence::parts::{end_ok, identities_ok, number_ok, telecommands_ok};
use sequence::{CATEGORY, FORMAT, LONGEST, Meaning, Refusal, unless};

// The tests of the room and of the meaning, in document 01's order.
#[tactic(auto, unfolding(sequence::specs::Writing::writing_answer, sequence::specs::Writing::meaning_refusals))]
fn tested(meaning: Meaning, room: usize) -> Result<(), Refusal>
    ensures { MatchResult result (λ _. writing_answer meaning room ≡ done) (λ r. writing_answer meaning room ≡ Some r) }
{
    unless(LONGEST <= room, Refusal::ShortRoom)?;
    unless(
        identities_ok(meaning.address, meaning.sender),
        Refusal::BadIdentities,
    )?;
    unless(
        telecommands_ok(meaning.first, meaning.second),
        Refusal::BadTelecommands,
    )?;
    unless(field_ok(meaning.first, meaning.field), Refusal::BadField)?;
    unless(number_ok(meaning.number), Refusal::BadNumber)?;
    unless(end_ok(meaning.end), Refusal::BadEnd)
}

// The eighteen symbols before the digit pairs.
#[tactic(auto, using(crate::proofs::Asked::of_valid), unfolding(sequence::specs::Layout::front))]
fn front_of(meaning: Meaning) -> [u8; 18]
    requires { valid meaning ≡ true }
    ensures { result ≡ front meaning }
{
    let address = identity_symbols(meaning.address);
    let sender = identity_symbols(meaning.sender);
    let field = meaning.field;
    [
        FORMAT,
        address[0],
        address[1],
        address[2],
        address[3],
        address[4],
        CATEGORY,
        sender[0],
        sender[1],
        sender[2],
        sender[3],
        sender[4],
        meaning.first,
        meaning.second,
        field_first(field),
        field_second(field),
        field_third(field),
        parity_of(meaning.number.count),
    ]
}

// Lays those eighteen at the front of the room, and returns their check.
fn lay_front(meaning: Meaning, room: &mut [u8]) -> u8
    requires { (valid meaning ≡ true) × (longest ≤ length room.old) }
    ensures value { result ≡ exclusive_or 0 (front meaning) }
    ensures room_written { room.new ≡ front meaning ++ drop 18 room.old }
{
    let symbols = front_of(meaning);
    let mut check: u8 = 0;
    for i in 0..18 {
        check = lay_symbol(symbols[i], i, check, room);
    }
    check
}

// Lays the sequence of a valid meaning at the front of the room, and returns its length.
#[tactic(auto, using(crate::proofs::Asked::of_valid))]
fn lay(meaning: Meaning, room: &mut [u8]) -> usize
    requires { (valid meaning ≡ true) × (longest ≤ length room.old) }
    ensures value { result ≡ length (layout meaning) }
    ensures room_written { room.new ≡ layout meaning ++ drop (length (layout meaning)) room.old }
{
    let end = 18 + (meaning.number.count as usize + 1) / 2;
    let before_pairs = lay_front(meaning, room);
    let before_end = lay_pairs(&meaning.number, before_pairs, room);
    let check = lay_symbol(meaning.end, end, before_end, room);
    room[end + 1] = check;
    end + 2
}

// Writes one sequence and gives its length, or gives the first refusal with nothing written.
#[tactic(auto, using(crate::proofs::Valid::accepted), unfolding(sequence::specs::Writing::written_of, sequence::specs::Writing::room_after))]
pub fn write(meaning: Meaning, room: &mut [u8]) -> Result<usize, Refusal>
    ensures value { result ≡ written_of meaning (length room.old) }
    ensures room_written { room.new ≡ room_after meaning room.old }
{
    tested(meaning, room.len())?;
    Ok(lay(meaning, room))
}
