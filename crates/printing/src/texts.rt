// Bytes and numbers, one behind the other.
ghost use Rattle.std.specs.Prelude.{◌≡◌, [], ◌∷◌, ◌+◌, ◌*◌, ◌≤◌, length, drop};
ghost use Rattle.printing.specs.Texts.{ten_digits, shortened, decimal, numbers_text, Put};

pub(crate) fn put_byte(byte: u8, out: &mut [u8], at: usize) -> usize
    requires { at + 1 ≤ length out.old }
    ensures { Put out.old out.new at result (byte ∷ []) }
{
    out[at] = byte;
    at + 1
}

fn put_bytes(bytes: &[u8], out: &mut [u8], at: usize) -> usize
    requires { at + length bytes.now ≤ length out.old }
    ensures { Put out.old out.new at result bytes.now }
{
    let end = at + bytes.len();
    out[at..end].copy_from_slice(bytes);
    end
}

// A row for each, as the definition has them: to map the places to digits, each place would have to be shown not to be 0.
#[tactic(auto, unfolding(crate::specs::Texts::ten_digits))]
fn ten_digits(number: u32) -> [u8; 10]
    ensures { result ≡ ten_digits number }
{
    [
        (48 + number / 1000000000 % 10) as u8,
        (48 + number / 100000000 % 10) as u8,
        (48 + number / 10000000 % 10) as u8,
        (48 + number / 1000000 % 10) as u8,
        (48 + number / 100000 % 10) as u8,
        (48 + number / 10000 % 10) as u8,
        (48 + number / 1000 % 10) as u8,
        (48 + number / 100 % 10) as u8,
        (48 + number / 10 % 10) as u8,
        (48 + number % 10) as u8,
    ]
}

// How many zeros lead.
fn zeros(digits: &[u8]) -> usize
    requires { 1 ≤ length digits.now }
    ensures digits_value { shortened digits.now ≡ drop result digits.now }
    ensures upper_bound { result ≤ length digits.now }
{
    let last = digits.len() - 1;
    digits[..last].iter().position(|d| *d != 48).unwrap_or(last)
}

pub(crate) fn put_number(number: u32, out: &mut [u8], at: usize) -> usize
    requires { at + 10 ≤ length out.old }
    ensures { Put out.old out.new at result (decimal number) }
{
    let digits = ten_digits(number);
    let leading = zeros(&digits);
    put_bytes(&digits[leading..], out, at)
}

// A number behind a space.
pub(crate) fn put_field(number: u32, out: &mut [u8], at: usize) -> usize
    requires { at + 11 ≤ length out.old }
    ensures { Put out.old out.new at result (32 ∷ decimal number) }
{
    let next = put_byte(32, out, at);
    put_number(number, out, next)
}

pub(crate) fn put_fields(numbers: &[u8], out: &mut [u8], at: usize) -> usize
    requires { at + 11 * length numbers.now ≤ length out.old }
    ensures { Put out.old out.new at result (numbers_text numbers.now) }
{
    let mut next = at;
    for number in numbers {
        next = put_field(*number as u32, out, next);
    }
    next
}
