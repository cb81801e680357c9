// The first valid sequence in two receivers' bytes.
ghost use Rattle.std.specs.Prelude.{◌≡◌};
ghost use Rattle.receivers.specs.Finding.{found_in};
ghost use Rattle.coast.specs.Finding.{in_reach, found_returned};

// Returns the length of the stretch that was found, its receiver and its place, in one number; the length 0 says 54.
#[unsafe(no_mangle)]
pub extern "C" fn coast_find_sequence(first: &[u8], second: &[u8]) -> u64
    ensures { result ≡ found_returned (found_in (in_reach first.now) (in_reach second.now)) }
{
    coast::finding::coast_find_sequence(first, second)
}
