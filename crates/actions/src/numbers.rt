// The digits of a number in a room of their own.
ghost use Rattle.std.specs.Prelude.{◌≡◌, ◌≤◌};
ghost use Rattle.rules.specs.Rules.Bytes.{padded};
ghost use Rattle.requests.specs.Views.{digits_of};

use sequence::{MOST_DIGITS, Number};

// Those in use, and 0 in each place behind them.
pub(crate) fn front<const N: usize>(number: Number) -> [u8; N]
    requires { 16 ≤ N }
    ensures { result ≡ padded 0 N (digits_of number) }
{
    let used = number.count.min(MOST_DIGITS) as usize;
    let mut digits = [0u8; N];
    digits[..used].copy_from_slice(&number.digits[..used]);
    digits
}
