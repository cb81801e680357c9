// "Fields are decimal, one space apart".
ghost use Rattle.std.specs.Prelude.{◌≡◌, ◌+◌, ◌≤◌, length, drop, IfSome};
ghost use Rattle.lines.specs.Decimal.{is_digit};
ghost use Rattle.lines.specs.Readable.{between, opened, inside, scan, numbers_image};
ghost use Rattle.lines.specs.Found.{means, Within};

use crate::Numbers;

// "another number over 4,294,967,295 .. : 40"
const LARGEST_NUMBER: u64 = 4294967295;

#[tactic(auto, unfolding(crate::specs::Decimal::is_digit))]
fn is_digit(byte: u8) -> bool
    ensures { result ≡ is_digit byte }
{
    byte.is_ascii_digit()
}

// The field whose digits before a place say so much: its number, and the place behind it.
fn digits_from(text: &[u8], start: usize, before: u32) -> Option<(u32, usize)>
    requires { start ≤ length text.now }
    ensures text_value { scan (inside before) (drop start text.now) ≡ means result text.now }
    ensures within { Within result start (length text.now) }
{
    let mut value = before;
    for i in start..text.len() {
        let byte = text[i];
        if !is_digit(byte) {
            return Some((value, i));
        }
        let more = value as u64 * 10 + (byte - 48) as u64;
        if LARGEST_NUMBER < more {
            return None;
        }
        value = more as u32;
    }
    Some((value, text.len()))
}

// The field that begins at a place, behind its space.
fn field_at(text: &[u8], start: usize) -> Option<(u32, usize)>
    requires { start ≤ length text.now }
    ensures text_value { scan opened (drop start text.now) ≡ means result text.now }
    ensures within { Within result (start + 1) (length text.now) }
{
    if text.len() <= start {
        return None;
    }
    let byte = text[start];
    if !is_digit(byte) {
        return None;
    }
    digits_from(text, start + 1, (byte - 48) as u32)
}

pub(crate) fn numbers_in(text: &[u8]) -> Option<Numbers>
    requires { length text.now ≤ 199 }
    ensures value { result ≡ numbers_image (scan between text.now) }
    ensures count_bound { IfSome result (λ n. n.count ≤ 99) }
{
    let mut all = [0u32; 100];
    let mut count: usize = 0;
    let mut i = 0;
    // a turn takes a whole field, so the place moves by its length
    while i < text.len() {
        if text[i] != 32 {
            return None;
        }
        let (value, next) = field_at(text, i + 1)?;
        all[count] = value;
        count += 1;
        i = next;
    }
    Some(Numbers { count, all })
}
