// The digits of a number, out of its pairs.
ghost use Rattle.std.specs.Prelude.{◌≡◌, ◌≤◌, length, drop};
ghost use Rattle.sequence.specs.Reading.{digits_of, sixteen, number_of};

use sequence::{DIGITS, Number, ODD_COUNT};

// Sixteen digits of one pair or more, from the second on where the first is the 0 put before an odd count: the first pair's
// last digit is then laid over it.
fn sixteen_digits(pairs: &[u8], start: usize) -> [u8; DIGITS]
    requires { (start ≤ 1) × (1 ≤ length pairs.now) × (length pairs.now ≤ 8) }
    ensures { result ≡ sixteen (drop start (digits_of pairs.now)) }
{
    let first = pairs[0];
    let mut digits = [0u8; DIGITS];
    digits[0] = first / 10;
    digits[1 - start] = first % 10;
    for i in 1..pairs.len() {
        let pair = pairs[i];
        digits[2 * i - start] = pair / 10;
        digits[2 * i + 1 - start] = pair % 10;
    }
    digits
}

#[tactic(auto, unfolding(sequence::specs::Reading::number_of, sequence::specs::Reading::zero_before))]
pub(crate) fn number_of(parity: u8, pairs: &[u8]) -> Number
    requires { (1 ≤ length pairs.now) × (length pairs.now ≤ 8) }
    ensures { result ≡ number_of parity pairs.now }
{
    let start = usize::from(parity == ODD_COUNT);
    Number {
        count: (2 * pairs.len() - start) as u8,
        digits: sixteen_digits(pairs, start),
    }
}
