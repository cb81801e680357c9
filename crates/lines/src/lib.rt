// The lines of a script: what one says.
#![tactic(auto)]

ghost use Rattle.lines.specs.Readable.{reads_as, ReadAs};

mod commands;
mod fields;
mod line;

use crate::commands::{command_of, fits};
use crate::fields::numbers_in;
pub use crate::line::Line;
use slots::{Hand, Signal};

// "one over 200 characters .. : 40"
pub const LONGEST_LINE: usize = 200;

// What the letter of a line names; `None` would not say that it sets a station up.
#[derive(Clone, Copy)]
pub enum Command {
    SetUp,
    Happens(Form),
}

// What happens at its time, by the fields behind that: symbols, a slot with symbols, a slot, a ship with mode and digits, or nothing.
#[derive(Clone, Copy)]
pub enum Form {
    Symbols,
    SlotSymbols,
    Signalled(Signal),
    Operated(Hand),
    Called,
    Alone,
}

// Numbers one space apart: an array with a count, since memory is fixed.
#[derive(Clone, Copy)]
struct Numbers {
    count: usize,
    all: [u32; 100],
}

// What a line says, without its line feed; none where it is unreadable.
pub fn read(text: &[u8]) -> Option<Line>
    ensures { ReadAs result (reads_as text.now) }
{
    if LONGEST_LINE < text.len() {
        return None;
    }
    let (letter, fields) = text.split_first()?;
    let command = command_of(*letter)?;
    let found = numbers_in(fields)?;
    let count = found.count;
    let numbers = found.all;
    if !fits(command, &numbers[..count]) {
        return None;
    }
    Some(Line {
        command,
        count,
        numbers,
    })
}
