// The writer of a transmission: symbols to their characters in a lent room, or a refusal and the room as it was.
#![tactic(auto)]

ghost use Rattle.std.specs.Prelude.{◌≡◌, ◌∷◌, [], ◌+◌, ◌*◌, ◌≤◌, ◌<◌, length, get_or};
ghost use Rattle.std.proofs.lemmas.List.Edits.{sets};
ghost use Rattle.transmission.specs.Answers.{answered};
ghost use Rattle.transmission.specs.Layout.{dx, transmission, bytes_of};
ghost use Rattle.transmission.specs.Writing.{writing_answer, transmission_written, transmission_laid, room_after_writing};
ghost use Rattle.sending.specs.Laid.{Fit, places_laid};

use characters::character_of;
use sequence::symbols::all_at_most;
use sequence::{LAST_SYMBOL, LONGEST, SHORTEST};
use transmission::{
    DX_PHASING, DX_PHASING_SYMBOL, FIRST_RX_PHASING_SYMBOL, LONGEST_TRANSMISSION, RX_PHASING,
    Refusal,
};

fn judge(symbols: &[u8], room: usize) -> Result<(), Refusal>
    ensures { result ≡ answered (writing_answer symbols.now room) tt }
{
    if room < 2 * LONGEST_TRANSMISSION {
        return Err(Refusal::ShortRoom);
    }
    if symbols.len() < SHORTEST || LONGEST < symbols.len() {
        return Err(Refusal::BadLength);
    }
    if !all_at_most(symbols, LAST_SYMBOL) {
        return Err(Refusal::BadSymbol);
    }
    Ok(())
}

// Lays the two characters of a place, each low byte first.
fn lay_place(dx: u16, rx: u16, place: usize, room: &mut [u8])
    requires { 4 * place + 3 < length room.old }
    ensures { room.new ≡ sets room.old (4 * place) (bytes_of (dx ∷ rx ∷ [])) }
{
    let at = 4 * place;
    room[at] = (dx % 256) as u8;
    room[at + 1] = (dx / 256) as u8;
    room[at + 2] = (rx % 256) as u8;
    room[at + 3] = (rx / 256) as u8;
}

// The symbol in one of the first eight DX places: phasing, then the format twice.
fn first_dx(symbols: &[u8], place: usize) -> u8
    requires { (1 ≤ length symbols.now) × (place < 8) }
    ensures { result ≡ get_or (dx symbols.now) place 0 }
{
    if place < DX_PHASING {
        DX_PHASING_SYMBOL
    } else {
        symbols[0]
    }
}

// Lays the first eight places, in which RX has its phasing. It is asked here and below that symbols and room fit: a struct that holds both
// would lend the room through a field, and each contract would speak of it by one step more.
fn lay_phasing(symbols: &[u8], room: &mut [u8])
    requires { Fit symbols.now room.old }
    ensures { room.new ≡ places_laid symbols.now 0 8 room.old }
{
    for place in 0..RX_PHASING {
        let dx = character_of(first_dx(symbols, place));
        let rx = character_of(FIRST_RX_PHASING_SYMBOL - place as u8);
        lay_place(dx, rx, place, room);
    }
}

// Lays the other places: each symbol in DX, with the symbol of two places before in RX, and the end of sequence twice more.
fn lay_symbols(symbols: &[u8], room: &mut [u8])
    requires { Fit symbols.now room.old }
    ensures { room.new ≡ places_laid symbols.now 8 (length symbols.now + 9) room.old }
{
    let mut before = character_of(symbols[0]);
    let mut last = before;
    for k in 1..symbols.len() {
        let character = character_of(symbols[k]);
        lay_place(character, before, 7 + k, room);
        before = last;
        last = character;
    }
    let end = 7 + symbols.len();
    lay_place(before, before, end, room);
    lay_place(before, last, end + 1, room);
}

// Lays the transmission at the front of the room, and returns the count of its characters.
fn lay(symbols: &[u8], room: &mut [u8]) -> usize
    requires { Fit symbols.now room.old }
    ensures value { result ≡ length (transmission symbols.now) }
    ensures room_written { room.new ≡ transmission_laid symbols.now room.old }
{
    lay_phasing(symbols, room);
    lay_symbols(symbols, room);
    2 * (symbols.len() + 9)
}

// Writes one transmission, and returns its count of characters; or the first refusal, with nothing written.
pub fn write_transmission(symbols: &[u8], room: &mut [u8]) -> Result<usize, Refusal>
    ensures value { result ≡ transmission_written symbols.now (length room.old) }
    ensures room_written { room.new ≡ room_after_writing symbols.now room.old }
{
    judge(symbols, room.len())?;
    Ok(lay(symbols, room))
}
