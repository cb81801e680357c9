// Where a transmission starts in what was handed in: two bytes a character, behind eleven characters that may have been lost.
#![tactic(auto)]

ghost use Rattle.std.specs.Prelude.{◌≡◌, ◌+◌, ◌/◌, ◌≤◌, ◌<◌, Option as Optional, length};
ghost use Rattle.transmission.specs.Phasing.{most_lost, characters_of, heard, is_phasing, start_at, best_start, found_start};
ghost use Rattle.phasing.specs.Characters.{character_at, standing};
ghost use Rattle.phasing.specs.Starts.{better_of, better_found, BestBefore};

use characters::NO_CHARACTER;
use transmission::{DX_PHASING, FIRST_RX_PHASING_SYMBOL, MOST_LOST, RX_PHASING, Start};

// The characters of 125, and of 111, 110, .., 104.
const DX_CHARACTERS: [u16; DX_PHASING] = [637u16; DX_PHASING];

const RX_CHARACTERS: [u16; RX_PHASING] = [623, 366, 365, 876, 363, 874, 873, 232];

const LAST_RX_PHASING_SYMBOL: u8 = 104;

const WHOLE_PHASING: usize = DX_PHASING + RX_PHASING;

// The character at a place, and no character before the first and past the last that was handed in.
pub fn character_at(characters: &[u8], place: usize) -> u16
    ensures { result ≡ character_at characters.now place }
{
    if place < MOST_LOST {
        return NO_CHARACTER;
    }
    let i = place - MOST_LOST;
    if i < characters.len() / 2 {
        return characters[2 * i] as u16 + 256 * (characters[2 * i + 1] as u16);
    }
    NO_CHARACTER
}

// How many of the characters wanted stand in their places, every second one from a place on.
fn standing_in(characters: &[u8], wanted: &[u16], place: usize) -> usize
    requires { (length wanted.now ≤ 8) × (place ≤ 12 + length characters.now / 2) }
    ensures { result ≡ standing characters.now wanted.now place }
{
    let mut count = 0;
    for (i, character) in wanted.iter().enumerate() {
        if character_at(characters, place + 2 * i) == *character {
            count += 1;
        }
    }
    count
}

// "two DX and one RX, or one DX and two RX, or three RX"
fn is_phasing(dx: usize, rx: usize) -> bool
    ensures { result ≡ is_phasing dx rx }
{
    match rx {
        0 => false,
        1 => 2 <= dx,
        2 => 1 <= dx,
        _ => true,
    }
}

// The start at a place, where that is phasing.
fn start_at(characters: &[u8], place: usize) -> Option<Start>
    requires { place ≤ most_lost + length characters.now / 2 }
    ensures { result ≡ found_start (start_at (heard (characters_of characters.now)) place) }
{
    let rx = standing_in(characters, &RX_CHARACTERS, place + 1);
    let dx = standing_in(characters, &DX_CHARACTERS, place);
    if is_phasing(dx, rx) {
        let phasing = dx + rx;
        return Some(Start { place, phasing });
    }
    None
}

// Of two starts the one with more phasing characters, of equals the earlier.
fn better_of(one: Start, other: Start) -> Start
    ensures { result ≡ better_of one other }
{
    if one.phasing < other.phasing {
        return other;
    }
    if other.phasing < one.phasing {
        return one;
    }
    if other.place < one.place {
        return other;
    }
    one
}

// The start that a character can be an RX character of, where that is phasing: the low seven units tell which of the eight it can be.
fn start_with(characters: &[u8], i: usize) -> Option<Start>
    requires { i < length characters.now / 2 }
    ensures { (best : Optional Start) → BestBefore characters.now (most_lost + i) best
        → BestBefore characters.now (most_lost + (i + 1)) (better_found best result) }
{
    let symbol = characters[2 * i] % 128;
    if symbol < LAST_RX_PHASING_SYMBOL || FIRST_RX_PHASING_SYMBOL < symbol {
        return None;
    }
    let behind = 1 + 2 * ((FIRST_RX_PHASING_SYMBOL - symbol) as usize);
    if MOST_LOST + i < behind {
        return None;
    }
    start_at(characters, MOST_LOST + i - behind)
}

// "the one with the most phasing characters counts, of equals the earliest": behind a whole phasing none is better. Where no RX character
// stands there is no phasing, so that one start is looked at for each character that can be one, and none for the others.
pub fn best_start(characters: &[u8]) -> Option<Start>
    ensures { result ≡ found_start (best_start (heard (characters_of characters.now))) }
{
    let mut best: Option<Start> = None;
    for i in 0..characters.len() / 2 {
        let Some(found) = start_with(characters, i) else {
            continue;
        };
        let better = match best {
            Some(before) => better_of(before, found),
            None => found,
        };
        if better.phasing == WHOLE_PHASING {
            return Some(better);
        }
        best = Some(better);
    }
    best
}
