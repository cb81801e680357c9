// The tests of a sequence's places, in document 01's order of refusals.
#![tactic(auto, unfolding(sequence::specs::Identity::identity_of, sequence::specs::Identity::identity_pairs, sequence::specs::Reading::length_in, sequence::specs::Reading::check_in, sequence::specs::Reading::format_in, sequence::specs::Reading::identity_at, sequence::specs::Reading::identity_pairs_at, sequence::specs::Reading::identities_in, sequence::specs::Reading::category_in, sequence::specs::Reading::telecommands_in, sequence::specs::Reading::blank_symbols, sequence::specs::Reading::channel_symbols, sequence::specs::Reading::duration_symbols, sequence::specs::Reading::field_symbols, sequence::specs::Reading::field_of, sequence::specs::Reading::field_in, sequence::specs::Reading::pairs_in, sequence::specs::Reading::parity_ok, sequence::specs::Reading::pairs_ok, sequence::specs::Reading::number_in, sequence::specs::Reading::end_in))]

ghost use Rattle.std.specs.Prelude.{◌≡◌, ◌≤◌, ◌+◌, length};
ghost use Rattle.sequence.specs.Reading.{length_in, check_in, format_in, identity_at, identity_pairs_at, identities_in, category_in, telecommands_in};
ghost use Rattle.sequence.specs.Reading.{blank_symbols, channel_symbols, field_symbols, field_of, field_in, parity_ok, pairs_ok, number_in, end_in};

use sequence::parts::{channel_ok, duration_ok, end_ok, identities_ok, is_call, telecommands_ok};
use sequence::symbols::{all_at_most, at, exclusive_or};
use sequence::{
    CATEGORY, CHANNEL_TOLD, EVEN_COUNT, FIRST_OVER, FORMAT, Field, LAST_PAIR, LONGEST, ODD_COUNT,
    SHORTEST, UNTOLD,
};
use units::{Channel, Duration};

pub(crate) fn length_in(symbols: &[u8]) -> bool
    ensures { result ≡ length_in symbols.now }
{
    let count = symbols.len();
    SHORTEST <= count && count <= LONGEST
}

// The last symbol is the exclusive-or of those before it.
pub(crate) fn check_in(symbols: &[u8]) -> bool
    ensures { result ≡ check_in symbols.now }
{
    if let Some((last, before)) = symbols.split_last() {
        exclusive_or(before) == *last
    } else {
        false
    }
}

pub(crate) fn format_in(symbols: &[u8]) -> bool
    ensures { result ≡ format_in symbols.now }
{
    at(symbols, 0) == FORMAT
}

// Whether the five symbols from a place on are the pairs of an identity, and which.
fn identity_pairs_at(symbols: &[u8], place: usize) -> bool
    requires { place + 5 ≤ length symbols.now }
    ensures { result ≡ identity_pairs_at symbols.now place }
{
    all_at_most(&symbols[place..place + 5], LAST_PAIR) && symbols[place + 4] % 10 == 0
}

pub(crate) fn identity_at(symbols: &[u8], place: usize) -> u32
    requires { place + 5 ≤ length symbols.now }
    ensures { result ≡ identity_at symbols.now place }
{
    (symbols[place] as u32) * 10000000
        + (symbols[place + 1] as u32) * 100000
        + (symbols[place + 2] as u32) * 1000
        + (symbols[place + 3] as u32) * 10
        + (symbols[place + 4] as u32) / 10
}

pub(crate) fn identities_in(symbols: &[u8]) -> bool
    requires { 20 ≤ length symbols.now }
    ensures { result ≡ identities_in symbols.now }
{
    identity_pairs_at(symbols, 1)
        && identity_pairs_at(symbols, 7)
        && identities_ok(identity_at(symbols, 1), identity_at(symbols, 7))
}

pub(crate) fn category_in(symbols: &[u8]) -> bool
    ensures { result ≡ category_in symbols.now }
{
    at(symbols, 6) == CATEGORY
}

pub(crate) fn telecommands_in(symbols: &[u8]) -> bool
    ensures { result ≡ telecommands_in symbols.now }
{
    telecommands_ok(at(symbols, 12), at(symbols, 13))
}

// The three symbols of a field go one by one, as in the definitions: an array of them would only be taken apart again.
fn blank_symbols(x: u8, y: u8, z: u8) -> bool
    ensures { result ≡ blank_symbols x y z }
{
    x == UNTOLD && y == UNTOLD && z == UNTOLD
}

fn channel_symbols(x: u8, y: u8, z: u8) -> bool
    ensures { result ≡ channel_symbols x y z }
{
    x == CHANNEL_TOLD && y == 0 && channel_ok(Channel(z as u32))
}

// Whether three symbols are a field behind a first telecommand.
fn field_symbols(first: u8, x: u8, y: u8, z: u8) -> bool
    ensures { result ≡ field_symbols first x y z }
{
    if blank_symbols(x, y, z) {
        true
    } else if is_call(first) {
        channel_symbols(x, y, z)
    } else {
        let duration = Duration {
            hours: x,
            minutes: y,
            seconds: z,
        };
        first == FIRST_OVER && duration_ok(duration)
    }
}

// The field that three symbols are, behind a first telecommand.
pub(crate) fn field_of(first: u8, x: u8, y: u8, z: u8) -> Field
    ensures { result ≡ field_of first x y z }
{
    if blank_symbols(x, y, z) {
        Field::Blank
    } else if is_call(first) {
        Field::Channel(Channel(z as u32))
    } else {
        Field::Duration(Duration {
            hours: x,
            minutes: y,
            seconds: z,
        })
    }
}

pub(crate) fn field_in(symbols: &[u8]) -> bool
    ensures { result ≡ field_in symbols.now }
{
    field_symbols(
        at(symbols, 12),
        at(symbols, 14),
        at(symbols, 15),
        at(symbols, 16),
    )
}

// 105 behind which the first digit is 0, or 106.
fn parity_ok(parity: u8, pair: u8) -> bool
    ensures { result ≡ parity_ok parity pair }
{
    if parity == ODD_COUNT {
        pair <= 9
    } else {
        parity == EVEN_COUNT
    }
}

fn pairs_ok(parity: u8, pairs: &[u8]) -> bool
    ensures { result ≡ pairs_ok parity pairs.now }
{
    parity_ok(parity, at(pairs, 0)) && all_at_most(pairs, LAST_PAIR)
}

pub(crate) fn number_in(symbols: &[u8]) -> bool
    requires { 20 ≤ length symbols.now }
    ensures { result ≡ number_in symbols.now }
{
    let last = symbols.len() - 2;
    pairs_ok(at(symbols, 17), &symbols[18..last])
}

pub(crate) fn end_in(symbols: &[u8]) -> bool
    requires { 20 ≤ length symbols.now }
    ensures { result ≡ end_in symbols.now }
{
    let last = symbols.len() - 2;
    end_ok(at(symbols, last))
}
