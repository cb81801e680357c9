// The reader and the writer of one sequence.
ghost use Rattle.std.specs.Prelude.{◌≡◌, length};
ghost use Rattle.coast.specs.Sequences.{read_answer, meaning_after, write_answer, room_after_writing};

use lent_layout::said::{MEANING_SIZE, lay_meaning, meaning_from};
use reading::read;
use sequence::{LONGEST, Refusal};
use writing::write;

// The bytes of a meaning are fewer than it takes.
const SHORT_MEANING: u32 = 22;

// Reads a sequence into a meaning's lent bytes.
#[tactic(auto, unfolding(crate::specs::Sequences::read_answer, crate::specs::Sequences::meaning_after))]
pub fn coast_read_sequence(symbols: &[u8], meaning: &mut [u8]) -> u32
    ensures value { result ≡ read_answer symbols.now (length meaning.old) }
    ensures meaning_written { meaning.new ≡ meaning_after symbols.now meaning.old }
{
    if meaning.len() < MEANING_SIZE {
        return SHORT_MEANING;
    }
    match read(symbols) {
        Ok(by_value) => {
            lay_meaning(by_value, meaning);
            0
        }
        Err(refusal) => u32::from(refusal.number()),
    }
}

// Writes the sequence of a meaning in bytes, and returns the answer and 256 times the count of bytes written.
#[tactic(auto, unfolding(crate::specs::Sequences::write_answer, crate::specs::Sequences::room_after_writing))]
pub fn coast_write_sequence(meaning: &[u8], room: &mut [u8]) -> u32
    ensures value { result ≡ write_answer meaning.now (length room.old) }
    ensures room_written { room.new ≡ room_after_writing meaning.now room.old }
{
    if room.len() < LONGEST {
        return u32::from(Refusal::ShortRoom.number());
    }
    if meaning.len() < MEANING_SIZE {
        return SHORT_MEANING;
    }
    let by_value = meaning_from(meaning);
    match write(by_value, room) {
        Ok(count) => 256 * (count as u32),
        Err(refusal) => u32::from(refusal.number()),
    }
}
