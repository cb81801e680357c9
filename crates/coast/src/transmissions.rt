// Characters and transmissions, as a modem takes them and hands them over.
ghost use Rattle.std.specs.Prelude.{◌≡◌, ◌<◌, IfOk, length};
ghost use Rattle.characters.specs.Code.{character_of, symbol_of};
ghost use Rattle.transmission.specs.Writing.{transmission_written, room_after_writing};
ghost use Rattle.transmission.specs.Reading.{transmission_read, room_after_reading};
ghost use Rattle.coast.specs.Transmissions.{answer_with_count};

use characters::{NO_CHARACTER, NONE, character_of, symbol_of};
use receiving::read_transmission;
use sending::write_transmission;
use sequence::LAST_SYMBOL;
use transmission::Refusal;

// The character of a symbol; of a number over 127 the first that is no character.
pub fn coast_write_character(symbol: u32) -> u32
    ensures { result ≡ character_of symbol }
{
    if (LAST_SYMBOL as u32) < symbol {
        return NO_CHARACTER as u32;
    }
    character_of(symbol as u8) as u32
}

// The symbol of a character, or none.
pub fn coast_read_character(character: u32) -> u32
    ensures { result ≡ symbol_of character }
{
    if (NO_CHARACTER as u32) <= character {
        return NONE as u32;
    }
    symbol_of(character as u16) as u32
}

// C takes the number apart again (include/coast.h).
fn in_one_number(told: Result<usize, Refusal>) -> u32
    requires { IfOk told (λ count. count < 256) }
    ensures { result ≡ answer_with_count told }
{
    match told {
        Ok(count) => 256 * (count as u32),
        Err(refusal) => u32::from(refusal.number()),
    }
}

// Writes the transmission of a sequence, and returns the answer and 256 times the count of characters written.
pub fn coast_write_transmission(symbols: &[u8], room: &mut [u8]) -> u32
    ensures value { result ≡ answer_with_count (transmission_written symbols.now (length room.old)) }
    ensures room_written { room.new ≡ room_after_writing symbols.now room.old }
{
    in_one_number(write_transmission(symbols, room))
}

// Reads a transmission, and returns the answer and 256 times the count of symbols read.
pub fn coast_read_transmission(characters: &[u8], room: &mut [u8]) -> u32
    ensures value { result ≡ answer_with_count (transmission_read characters.now (length room.old)) }
    ensures room_written { room.new ≡ room_after_reading characters.now room.old }
{
    in_one_number(read_transmission(characters, room))
}
