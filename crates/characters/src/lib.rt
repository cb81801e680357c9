// The ten-unit code: the character of a symbol, and the symbol of a character.
#![tactic(auto)]

ghost use Rattle.std.specs.Prelude.{◌≡◌};
ghost use Rattle.characters.specs.Rows.{in_row};
ghost use Rattle.characters.specs.Code.{character_of, symbol_of, no_character};

mod table;

use crate::table::SYMBOLS;
use sequence::LAST_SYMBOL;

// What is no character's symbol, and no symbol's character: numbers, since C is handed them and the table has a byte for each.
pub const NONE: u8 = 128;

pub const NO_CHARACTER: u16 = 1024;

// The three units that give a count of zeros, high bit first.
const COUNTS: [u16; 8] = [0, 512, 256, 768, 128, 640, 384, 896];

// The character of a symbol, its first unit the lowest bit.
pub fn character_of(symbol: u8) -> u16
    ensures { result ≡ character_of symbol }
{
    if LAST_SYMBOL < symbol {
        return NO_CHARACTER;
    }
    let zeros = 7 - u8::count_ones(symbol);
    symbol as u16 + COUNTS[zeros as usize]
}

// The table by value, for who looks at many characters: a constant is laid out anew wherever it is named.
pub fn symbol_table() -> [u8; 1024]
    ensures { result ≡ in_row symbol_of 0 no_character }
{
    SYMBOLS
}

// The symbol of a character, or none.
pub fn symbol_of(character: u16) -> u8
    ensures { result ≡ symbol_of character }
{
    if character < NO_CHARACTER {
        let table = symbol_table();
        return table[character as usize];
    }
    NONE
}
