// The reader of a transmission: what a modem hands in to its symbols in a lent room, or a refusal and the room as it was.
#![tactic(auto)]

ghost use Rattle.std.specs.Prelude.{◌≡◌, ◌++◌, ◌≤◌, length, take, drop};
ghost use Rattle.transmission.specs.Phasing.{characters_of, heard};
ghost use Rattle.transmission.specs.Answers.{answered};
ghost use Rattle.transmission.specs.Reading.{start_in, symbols_in, transmission_read, room_after_reading};
ghost use Rattle.receiving.specs.Copies.{answer_to_copies};

mod copies;

use crate::copies::{REPEAT, count_of, first_unread, read_symbols};
use phasing::best_start;
use sequence::LONGEST;
use transmission::{MOST_LOST, Refusal};

// 52 or 53, by the first symbol with no good copy: the copies of a later one stand later.
fn judge_copies(characters: &[u8], start: usize, symbols: &[u8]) -> Result<(), Refusal>
    requires { (start ≡ start_in (heard (characters_of characters.now)))
        × (symbols.now ≡ symbols_in (heard (characters_of characters.now))) }
    ensures { result ≡ answered (answer_to_copies (heard (characters_of characters.now))) tt }
{
    let Some(k) = first_unread(symbols) else {
        return Ok(());
    };
    if start + REPEAT + 2 * k < MOST_LOST + characters.len() / 2 {
        return Err(Refusal::CopiesBad);
    }
    Err(Refusal::EndsEarly)
}

// Reads one transmission, and returns the count of its symbols; or the first refusal, with nothing written.
pub fn read_transmission(characters: &[u8], room: &mut [u8]) -> Result<usize, Refusal>
    ensures value { result ≡ transmission_read characters.now (length room.old) }
    ensures room_written { room.new ≡ room_after_reading characters.now room.old }
{
    if room.len() < LONGEST {
        return Err(Refusal::ShortRoom);
    }
    let Some(best) = best_start(characters) else {
        return Err(Refusal::NoPhasing);
    };
    let mut all = [0u8; LONGEST];
    read_symbols(characters, best.place, &mut all);
    let count = count_of(&all);
    let symbols = &all[..count];
    judge_copies(characters, best.place, symbols)?;
    room[..count].copy_from_slice(symbols);
    Ok(count)
}
