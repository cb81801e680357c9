// The reader and the writer of one sequence.
ghost use Rattle.std.specs.Prelude.{◌≡◌, length};
ghost use Rattle.coast.specs.Sequences.{read_answer, meaning_after, write_answer, room_after_writing};

// Reads a sequence into a meaning's lent bytes.
#[unsafe(no_mangle)]
pub extern "C" fn coast_read_sequence(symbols: &[u8], meaning: &mut [u8]) -> u32
    ensures value { result ≡ read_answer symbols.now (length meaning.old) }
    ensures meaning_written { meaning.new ≡ meaning_after symbols.now meaning.old }
{
    coast::sequences::coast_read_sequence(symbols, meaning)
}

// Writes the sequence of a meaning in bytes, and returns the answer and 256 times the count of bytes written.
#[unsafe(no_mangle)]
pub extern "C" fn coast_write_sequence(meaning: &[u8], room: &mut [u8]) -> u32
    ensures value { result ≡ write_answer meaning.now (length room.old) }
    ensures room_written { room.new ≡ room_after_writing meaning.now room.old }
{
    coast::sequences::coast_write_sequence(meaning, room)
}
