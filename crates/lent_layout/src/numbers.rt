// Numbers in lent bytes, low byte first.
ghost use Rattle.std.specs.Prelude.{◌≡◌, ◌+◌, ◌≤◌, length, replicate};
ghost use Rattle.sequence.specs.Figures.{most_digits};
ghost use Rattle.layouts.specs.Fields.{number_at, laid};
ghost use Rattle.lent_layout.specs.Numbers.{numbers_from};

use sequence::DIGITS;

pub(crate) fn four_at(bytes: &[u8], place: usize) -> u32
    requires { place + 4 ≤ length bytes.now }
    ensures { result ≡ number_at bytes.now place 4 }
{
    u32::from_le_bytes([
        bytes[place],
        bytes[place + 1],
        bytes[place + 2],
        bytes[place + 3],
    ])
}

// Sixteen digits, one a byte.
pub(crate) fn digits_at(bytes: &[u8], place: usize) -> [u8; DIGITS]
    requires { place + most_digits ≤ length bytes.now }
    ensures { result ≡ numbers_from most_digits place bytes.now }
{
    let mut digits = [0u8; DIGITS];
    digits.copy_from_slice(&bytes[place..place + DIGITS]);
    digits
}

pub(crate) fn lay(bytes: &[u8], place: usize, room: &mut [u8])
    requires { place + length bytes.now ≤ length room.old }
    ensures { room.new ≡ laid room.old place bytes.now }
{
    room[place..place + bytes.len()].copy_from_slice(bytes);
}

pub(crate) fn lay_zeros(count: usize, place: usize, room: &mut [u8])
    requires { place + count ≤ length room.old }
    ensures { room.new ≡ laid room.old place (replicate count 0) }
{
    room[place..place + count].fill(0);
}
