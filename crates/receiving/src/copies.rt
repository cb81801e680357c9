// The symbols of a transmission that starts at a place of what was heard.
ghost use Rattle.std.specs.Prelude.{◌≡◌, [], ◌∷◌, ◌+◌, ◌/◌, ◌≤◌, ◌<◌, ◌==◌, length, position};
ghost use Rattle.sequence.specs.Figures.{longest};
ghost use Rattle.characters.specs.Rows.{in_row};
ghost use Rattle.characters.specs.Code.{none, no_character, symbol_of};
ghost use Rattle.transmission.specs.Phasing.{most_lost, characters_of, heard, heard_at};
ghost use Rattle.transmission.specs.Copies.{first_good, symbol_at, symbols_from, count_of};

use characters::{NO_CHARACTER, NONE, symbol_table};
use phasing::character_at;
use sequence::LONGEST;
use sequence::parts::end_ok;

// "at a place from 19 on, and at place 27 at the latest": where no end stands up to place 25, there are 28 symbols.
const FIRST_END: usize = 19;

const LAST_END: usize = 25;

// Where symbol k stands, with twice k to add: its first copy, and its repeat "after four other characters".
const FIRST_COPY: usize = 14;

pub(crate) const REPEAT: usize = 19;

// "The format specifier stands twice": both copies once more, a place before.
const FIRST_FORMAT: usize = FIRST_COPY - 2;

const FORMAT_REPEAT: usize = REPEAT - 2;

// What was heard, and the table of all characters by which it is read.
#[derive(Clone, Copy)]
struct Heard<'a> {
    characters: &'a [u8],
    table: &'a [u8; NO_CHARACTER as usize],
    ghost is_table: { table.now ≡ in_row symbol_of 0 no_character },
}

impl Heard<'_> {
    // The symbol, or none, at a place.
    fn at(&self, place: usize) -> u8
        ensures { result ≡ heard_at (heard (characters_of self.now.characters.now)) place }
    {
        let character = character_at(self.characters, place);
        if character < NO_CHARACTER {
            return self.table[character as usize];
        }
        NONE
    }

    // "the repeat used where the first copy is none"
    fn first_good(&self, first: usize, repeat: usize) -> u8
        ensures { result ≡ first_good (heard (characters_of self.now.characters.now)) (first ∷ repeat ∷ []) }
    {
        let symbol = self.at(first);
        if symbol == NONE {
            return self.at(repeat);
        }
        symbol
    }

    // The format stands twice, so that it has "four places in the order sent".
    fn format(&self, start: usize) -> u8
        requires { start ≤ most_lost + length self.now.characters.now / 2 }
        ensures { result ≡ symbol_at (heard (characters_of self.now.characters.now)) start 0 }
    {
        let symbol = self.first_good(start + FIRST_FORMAT, start + FIRST_COPY);
        if symbol == NONE {
            return self.first_good(start + FORMAT_REPEAT, start + REPEAT);
        }
        symbol
    }

    // "each symbol sent again after four other characters"
    fn symbol(&self, start: usize, k: usize) -> u8
        requires { (start ≤ most_lost + length self.now.characters.now / 2) × (k < longest) }
        ensures { result ≡ symbol_at (heard (characters_of self.now.characters.now)) start k }
    {
        if k == 0 {
            return self.format(start);
        }
        self.first_good(start + FIRST_COPY + 2 * k, start + REPEAT + 2 * k)
    }
}

// Reads as many symbols as the longest sequence has.
pub(crate) fn read_symbols(characters: &[u8], start: usize, symbols: &mut [u8; LONGEST])
    requires { start ≤ most_lost + length characters.now / 2 }
    ensures { symbols.new ≡ symbols_from (heard (characters_of characters.now)) start }
{
    let table = symbol_table();
    let heard = Heard {
        characters,
        table: &table,
    };
    for k in 0..LONGEST {
        symbols[k] = heard.symbol(start, k);
    }
}

// "ends with the symbol after the first 117, 122 or 127"
pub(crate) fn count_of(symbols: &[u8; LONGEST]) -> usize
    ensures { result ≡ count_of symbols.now }
{
    for place in FIRST_END..=LAST_END {
        if end_ok(symbols[place]) {
            return place + 2;
        }
    }
    LONGEST
}

// The first symbol that has no good copy.
pub(crate) fn first_unread(symbols: &[u8]) -> Option<usize>
    ensures { result ≡ position (λ symbol. symbol == none) symbols.now }
{
    symbols.iter().position(|symbol| *symbol == NONE)
}
