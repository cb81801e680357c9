// The first valid sequence in two receivers' bytes.
ghost use Rattle.std.specs.Prelude.{◌≡◌, ◌≤◌, ◌<◌};
ghost use Rattle.sequence.specs.Figures.{longest};
ghost use Rattle.receivers.specs.Finding.{found_in};
ghost use Rattle.coast.specs.Finding.{reach, in_reach, found_number, found_returned};

use receivers::{Found, find};

// As many bytes as the number that is returned has places for.
const REACH: usize = 281474976710656;

// Nothing found is told as the second receiver's first zero bytes.
const NOTHING_FOUND: u64 = 256;

fn in_reach(bytes: &[u8]) -> &[u8]
    ensures { result.now ≡ in_reach bytes.now }
{
    &bytes[..REACH.min(bytes.len())]
}

// C takes the number apart again (include/coast.h).
#[tactic(auto, unfolding(crate::specs::Finding::reach))]
fn in_one_number(found: Found) -> u64
    requires { (found.stretch.count ≤ longest) × (found.stretch.place < reach) }
    ensures { result ≡ found_number found }
{
    let stretch = found.stretch;
    stretch.count as u64 + 256 * (found.receiver as u64) + 65536 * (stretch.place as u64)
}

// Returns the length of the stretch that was found, its receiver and its place, in one number; the length 0 says 54.
#[tactic(auto, unfolding(crate::specs::Finding::found_returned))]
pub fn coast_find_sequence(first: &[u8], second: &[u8]) -> u64
    ensures { result ≡ found_returned (found_in (in_reach first.now) (in_reach second.now)) }
{
    match find(in_reach(first), in_reach(second)) {
        Some(found) => in_one_number(found),
        None => NOTHING_FOUND,
    }
}
