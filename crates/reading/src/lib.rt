// The reader: any symbols to their meaning, or to the first refusal in document 01's order.
#![tactic(auto)]

ghost use Rattle.std.specs.Prelude.{◌≡◌, true, false, MatchResult};
ghost use Rattle.sequence.specs.Answers.{done};
ghost use Rattle.sequence.specs.Reading.{answer_of, meaning_of, blank_meaning, reading_of};

mod digits;
mod places;

use crate::digits::number_of;
use crate::places::{
    category_in, check_in, end_in, field_in, field_of, format_in, identities_in, identity_at,
    length_in, number_in, telecommands_in,
};
use sequence::symbols::{all_at_most, at};
use sequence::{DIGITS, Field, LAST_SYMBOL, Meaning, Number, Refusal, unless};

// The tests, in document 01's order.
#[tactic(auto, using(crate::proofs::Passed::lengths), unfolding(sequence::specs::Reading::answer_of, sequence::specs::Reading::refusals))]
fn tested(symbols: &[u8]) -> Result<(), Refusal>
    ensures { MatchResult result (λ _. answer_of symbols.now ≡ done) (λ r. answer_of symbols.now ≡ Some r) }
{
    unless(length_in(symbols), Refusal::BadLength)?;
    unless(all_at_most(symbols, LAST_SYMBOL), Refusal::BadSymbol)?;
    unless(check_in(symbols), Refusal::BadCheck)?;
    unless(format_in(symbols), Refusal::BadFormat)?;
    unless(identities_in(symbols), Refusal::BadIdentities)?;
    unless(category_in(symbols), Refusal::BadCategory)?;
    unless(telecommands_in(symbols), Refusal::BadTelecommands)?;
    unless(field_in(symbols), Refusal::BadField)?;
    unless(number_in(symbols), Refusal::BadNumber)?;
    unless(end_in(symbols), Refusal::BadEnd)
}

// What symbols that pass every test mean.
#[tactic(auto, using(crate::proofs::Passed::lengths), unfolding(sequence::specs::Reading::meaning_of, sequence::specs::Reading::pairs_in))]
fn meaning_of(symbols: &[u8]) -> Meaning
    requires { answer_of symbols.now ≡ done }
    ensures { result ≡ meaning_of symbols.now }
{
    let last = symbols.len() - 2;
    let first = at(symbols, 12);
    Meaning {
        address: identity_at(symbols, 1),
        sender: identity_at(symbols, 7),
        first,
        second: at(symbols, 13),
        field: field_of(first, at(symbols, 14), at(symbols, 15), at(symbols, 16)),
        number: number_of(at(symbols, 17), &symbols[18..last]),
        end: at(symbols, last),
    }
}

// The meaning of lent bytes that are too short.
#[tactic(auto, unfolding(sequence::specs::Reading::blank_meaning))]
pub fn blank_meaning() -> Meaning
    ensures { result ≡ blank_meaning }
{
    Meaning {
        address: 0,
        sender: 0,
        first: 0,
        second: 0,
        field: Field::Blank,
        number: Number {
            count: 0,
            digits: [0u8; DIGITS],
        },
        end: 0,
    }
}

// Reads one sequence: its meaning, or the first refusal.
#[tactic(auto, unfolding(sequence::specs::Reading::reading_of))]
pub fn read(symbols: &[u8]) -> Result<Meaning, Refusal>
    ensures { result ≡ reading_of symbols.now }
{
    tested(symbols)?;
    Ok(meaning_of(symbols))
}
