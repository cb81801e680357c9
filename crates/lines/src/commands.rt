// The letter of a line, and the fields that it takes.
ghost use Rattle.std.specs.Prelude.{◌≡◌, ◌&&◌, leb, length, drop};
ghost use Rattle.rules.specs.Rules.Places.{all, is_some};
ghost use Rattle.lines.specs.Lines.{command_of, is_symbol};
ghost use Rattle.lines.specs.Readable.{says_form, says};

use crate::{Command, Form};
use slots::{Hand, Signal};

// "a symbol over 255 .. : 40"
const LARGEST_SYMBOL: u32 = 255;

#[tactic(auto, unfolding(crate::specs::Lines::command_of))]
pub(crate) fn command_of(letter: u8) -> Option<Command>
    ensures { result ≡ command_of letter }
{
    let form = match letter {
        b'S' => return Some(Command::SetUp),
        b'Q' => Form::Symbols,
        b'W' => Form::SlotSymbols,
        b'U' => Form::Signalled(Signal::CarrierHeard),
        b'D' => Form::Signalled(Signal::CarrierLost),
        b'P' => Form::Signalled(Signal::LineDialledOut),
        b'O' => Form::Signalled(Signal::LineLifted),
        b'H' => Form::Signalled(Signal::LineHung),
        b'M' => Form::Operated(Hand::Takes),
        b'F' => Form::Operated(Hand::GivesBack),
        b'C' => Form::Called,
        b'T' => Form::Alone,
        _ => return None,
    };
    Some(Command::Happens(form))
}

fn are_symbols(numbers: &[u32]) -> bool
    ensures { result ≡ all is_symbol numbers.now }
{
    numbers.iter().all(|n| *n <= LARGEST_SYMBOL)
}

// Whether so many numbers stand, and symbols behind them.
fn then_symbols(numbers: &[u32], first: usize) -> bool
    ensures { result ≡ (leb first (length numbers.now) && all is_symbol (drop first numbers.now)) }
{
    if numbers.len() < first {
        return false;
    }
    are_symbols(&numbers[first..])
}

fn form_fits(form: Form, numbers: &[u32]) -> bool
    ensures { result ≡ is_some (says_form form numbers.now) }
{
    let count = numbers.len();
    match form {
        Form::Symbols => then_symbols(numbers, 1),
        Form::SlotSymbols => then_symbols(numbers, 2),
        Form::Signalled(_) => count == 2,
        Form::Operated(_) => count == 2,
        Form::Called => 3 <= count,
        Form::Alone => count == 1,
    }
}

// Whether the numbers are those that a command takes.
pub(crate) fn fits(command: Command, numbers: &[u32]) -> bool
    ensures { result ≡ is_some (says command numbers.now) }
{
    match command {
        Command::SetUp => 1 <= numbers.len(),
        Command::Happens(form) => form_fits(form, numbers),
    }
}
