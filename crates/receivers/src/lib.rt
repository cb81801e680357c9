// Two receivers on the mast: the first valid sequence in the bytes of the one or, failing that, of the other.
#![tactic(auto)]

ghost use Rattle.std.specs.Prelude.{◌≡◌, ◌+◌, ◌≤◌, ◌==◌, length, position, take, drop};
ghost use Rattle.sequence.specs.Figures.{shortest, format};
ghost use Rattle.receivers.specs.Finding.{begins_with, length_at, found_from, first_in, found_in};
ghost use Rattle.receivers.specs.Finding.{bytes_of, stretch_found, placed_at, place_found};

use reading::read;
use sequence::parts::end_ok;
use sequence::{CATEGORY, FORMAT, LONGEST, SHORTEST};

// Where a stretch of bytes begins, and how many it has.
#[derive(Clone, Copy)]
pub struct Stretch {
    pub place: usize,
    pub count: usize,
}

#[derive(Clone, Copy)]
pub enum Receiver {
    First,
    Second,
}

// The stretch that was found, and in whose bytes.
#[derive(Clone, Copy)]
pub struct Found {
    pub receiver: Receiver,
    pub stretch: Stretch,
}

// Whether the first so many bytes are a valid sequence. They are read only where an end stands in its place.
fn begins_with(bytes: &[u8], count: usize) -> bool
    requires { 2 ≤ count }
    ensures { result ≡ begins_with count bytes.now }
{
    if bytes.len() < count || !end_ok(bytes[count - 2]) {
        return false;
    }
    read(&bytes[..count]).is_ok()
}

// "at one place the shortest": the count of the valid sequence that these bytes begin with. Noise seldom has the category too.
fn length_at(bytes: &[u8]) -> Option<usize>
    requires { shortest ≤ length bytes.now }
    ensures { result ≡ length_at bytes.now }
{
    if bytes[6] != CATEGORY {
        return None;
    }
    for count in SHORTEST..=LONGEST {
        if begins_with(bytes, count) {
            return Some(count);
        }
    }
    None
}

// Of the next four places, how many stand before the first that holds the format.
fn format_among(bytes: &[u8], place: usize) -> Option<usize>
    requires { place + 4 ≤ length bytes.now }
    ensures { result ≡ position (λ byte. byte == format) (take 4 (drop place bytes.now)) }
{
    bytes[place..place + 4]
        .iter()
        .position(|byte| *byte == FORMAT)
}

// The next place, from one on, that holds the format, or one that is not before the end. The end is asked for once in four places: a loop by
// while and not over a range, since it hands back where it stands.
fn format_from(bytes: &[u8], from: usize, end: usize) -> usize
    requires { end + 3 ≤ length bytes.now }
    ensures { (found_from result bytes.now ≡ found_from from bytes.now) × (from ≤ result) }
{
    let mut place = from;
    while place < end {
        if let Some(passed) = format_among(bytes, place) {
            return place + passed;
        }
        place += 4;
    }
    place
}

// "the earliest starting place", of those before the end: from there on too few bytes are left.
fn first_before(bytes: &[u8], end: usize) -> Option<Stretch>
    requires { length bytes.now + 1 ≡ end + shortest }
    ensures { result ≡ first_in bytes.now }
{
    let mut place = format_from(bytes, 0, end);
    // Each turn goes on at the next format, and not at the next place.
    while place < end {
        if let Some(count) = length_at(&bytes[place..]) {
            return Some(Stretch { place, count });
        }
        place = format_from(bytes, place + 1, end);
    }
    None
}

pub fn first_in(bytes: &[u8]) -> Option<Stretch>
    ensures { result ≡ first_in bytes.now }
{
    if bytes.len() < SHORTEST {
        return None;
    }
    first_before(bytes, bytes.len() - SHORTEST + 1)
}

// "found in the first receiver's bytes or, failing that, in the second's"
pub fn find(first: &[u8], second: &[u8]) -> Option<Found>
    ensures { result ≡ found_in first.now second.now }
{
    if let Some(stretch) = first_in(first) {
        return Some(Found {
            receiver: Receiver::First,
            stretch,
        });
    }
    let stretch = first_in(second)?;
    Some(Found {
        receiver: Receiver::Second,
        stretch,
    })
}

// The bytes of a stretch, as a part of those in which it was found.
fn part(bytes: &[u8], stretch: Stretch) -> &[u8]
    requires { stretch.place + stretch.count ≤ length bytes.now }
    ensures contents { result.now ≡ bytes_of stretch bytes.now }
    ensures location { result.ref_ptr ≡ placed_at stretch bytes.entry.ref_ptr }
{
    let start = stretch.place;
    let end = start + stretch.count;
    &bytes[start..end]
}

// The stretch that holds the first valid sequence, not as a copy; where neither receiver's bytes hold one, 54, the empty one.
pub fn find_sequence<'a>(first: &'a [u8], second: &'a [u8]) -> &'a [u8]
    ensures contents { result.now ≡ stretch_found first.now second.now }
    ensures location { result.ref_ptr ≡ place_found (found_in first.now second.now) first.entry.ref_ptr second.entry.ref_ptr }
{
    let Some(Found { receiver, stretch }) = find(first, second) else {
        return &second[..0];
    };
    match receiver {
        Receiver::First => part(first, stretch),
        Receiver::Second => part(second, stretch),
    }
}
