// The digit pairs of a number, and the symbol that tells whether its count is odd.
ghost use Rattle.std.specs.Prelude.{◌≡◌, true, ◌<◌, ◌≤◌, ◌+◌, ◌/◌, length, get_or};
ghost use Rattle.std.proofs.Math.Seq.{paste};
ghost use Rattle.sequence.specs.Figures.{longest};
ghost use Rattle.sequence.specs.Symbols.{exclusive_or};
ghost use Rattle.sequence.specs.Number.{number_ok, parity, evened, pairs_of};

use crate::symbols::lay_symbol;
use sequence::{EVEN_COUNT, Number, ODD_COUNT};

#[tactic(auto, unfolding(sequence::specs::Number::parity))]
pub(crate) fn parity_of(count: u8) -> u8
    ensures { result ≡ parity count }
{
    if count % 2 == 1 {
        ODD_COUNT
    } else {
        EVEN_COUNT
    }
}

// A pair of digits. With a 0 put before an odd count of them, the first pair is the first digit.
#[tactic(auto, using(crate::proofs::EvenedLaws::of_pairs))]
fn pair_at(number: &Number, j: usize) -> u8
    requires { (number_ok number.now ≡ true) × (j < (number.now.count + 1) / 2) }
    ensures { result ≡ get_or (pairs_of (evened number.now)) j 0 }
{
    let odd = number.count as usize % 2;
    let low = number.digits[2 * j + 1 - odd];
    if j < odd {
        return low;
    }
    number.digits[2 * j - odd] * 10 + low
}

// Lays the digit pairs from place 18 on, and returns the check of what stands before them with them joined.
#[tactic(auto, using(crate::proofs::EvenedLaws::of_pairs))]
pub(crate) fn lay_pairs(number: &Number, before: u8, room: &mut [u8]) -> u8
    requires { (number_ok number.now ≡ true) × (longest ≤ length room.old) }
    ensures value { result ≡ exclusive_or before (pairs_of (evened number.now)) }
    ensures room_written { room.new ≡ paste room.old 18 (pairs_of (evened number.now)) (length (pairs_of (evened number.now))) }
{
    let count = number.count as usize;
    let mut check = before;
    for j in 0..(count + 1) / 2 {
        let pair = pair_at(number, j);
        check = lay_symbol(pair, 18 + j, check, room);
    }
    check
}
