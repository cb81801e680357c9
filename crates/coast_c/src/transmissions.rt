// Characters and transmissions, as a modem takes them and hands them over.
ghost use Rattle.std.specs.Prelude.{◌≡◌, length};
ghost use Rattle.characters.specs.Code.{character_of, symbol_of};
ghost use Rattle.transmission.specs.Writing.{transmission_written, room_after_writing};
ghost use Rattle.transmission.specs.Reading.{transmission_read, room_after_reading};
ghost use Rattle.coast.specs.Transmissions.{answer_with_count};

// The character of a symbol; of a number over 127 the first that is no character.
#[unsafe(no_mangle)]
pub extern "C" fn coast_write_character(symbol: u32) -> u32
    ensures { result ≡ character_of symbol }
{
    coast::transmissions::coast_write_character(symbol)
}

// The symbol of a character, or none.
#[unsafe(no_mangle)]
pub extern "C" fn coast_read_character(character: u32) -> u32
    ensures { result ≡ symbol_of character }
{
    coast::transmissions::coast_read_character(character)
}

// Writes the transmission of a sequence, and returns the answer and 256 times the count of characters written.
#[unsafe(no_mangle)]
pub extern "C" fn coast_write_transmission(symbols: &[u8], room: &mut [u8]) -> u32
    ensures value { result ≡ answer_with_count (transmission_written symbols.now (length room.old)) }
    ensures room_written { room.new ≡ room_after_writing symbols.now room.old }
{
    coast::transmissions::coast_write_transmission(symbols, room)
}

// Reads a transmission, and returns the answer and 256 times the count of symbols read.
#[unsafe(no_mangle)]
pub extern "C" fn coast_read_transmission(characters: &[u8], room: &mut [u8]) -> u32
    ensures value { result ≡ answer_with_count (transmission_read characters.now (length room.old)) }
    ensures room_written { room.new ≡ room_after_reading characters.now room.old }
{
    coast::transmissions::coast_read_transmission(characters, room)
}
