// A line is handled: 40, 41, a set-up or an event.
ghost use Rattle.std.specs.Prelude.{None, ◌≡◌, map};
ghost use Rattle.lines.specs.declared.Form.TheVariants.{Symbols, SlotSymbols, Called};
ghost use Rattle.station.specs.Step.{sixteen_of, stepped_by, room_after, set_up_of};
ghost use Rattle.script.specs.Answering.{unchanged, after_set_up, handled_for, blocks_for, clock_of, due_of};
ghost use Rattle.script.specs.Lining.{byte_of, part, line_event, line_asks, line_said};

use crate::Handled;
use lines::{Command, Form, Line};
use slots::SLOTS;
use station::{Plain, Station, Stepped};
use units::{Channel, SlotNumber, Tenths};

fn symbols_of(numbers: &[u32; 100]) -> [u8; 100]
    ensures { result ≡ map byte_of numbers.now }
{
    numbers.map(|number| (number % 256) as u8)
}

// The numbers of a line from a place on.
fn numbers_from(line: &Line, first: usize) -> &[u32]
    ensures { result.now ≡ part first line.now.count line.now.numbers }
{
    &line.numbers[first.min(line.count)..line.count]
}

// A time and symbols.
fn with_symbols(station: Station, line: &Line, room: &mut [u8]) -> Stepped
    ensures value { result ≡ stepped_by station (line_event Symbols line.now room.old) }
    ensures room_written { room.new ≡ room_after station room.old (line_event Symbols line.now room.old) }
{
    let symbols = symbols_of(&line.numbers);
    let from = 1usize.min(line.count);
    station.heard_on_channel_70(Tenths(line.numbers[0]), &symbols[from..line.count], room)
}

// A time, a slot and symbols.
fn with_slot_symbols(station: Station, line: &Line, room: &mut [u8]) -> Stepped
    ensures value { result ≡ stepped_by station (line_event SlotSymbols line.now room.old) }
    ensures room_written { room.new ≡ room_after station room.old (line_event SlotSymbols line.now room.old) }
{
    let symbols = symbols_of(&line.numbers);
    let from = 2usize.min(line.count);
    station.heard_on_slot(
        Tenths(line.numbers[0]),
        SlotNumber(line.numbers[1]),
        &symbols[from..line.count],
        room,
    )
}

// A time, a ship, a mode and digits.
fn with_digits(station: Station, line: &Line, room: &mut [u8]) -> Stepped
    ensures value { result ≡ stepped_by station (line_event Called line.now room.old) }
    ensures room_written { room.new ≡ room_after station room.old (line_event Called line.now room.old) }
{
    station.call_from_ashore(
        Tenths(line.numbers[0]),
        line.numbers[1],
        line.numbers[2],
        numbers_from(line, 3),
        room,
    )
}

// The form is told as a value, so a `match` chooses the event.
fn happening(station: Station, form: Form, line: &Line, room: &mut [u8]) -> Stepped
    ensures value { result ≡ stepped_by station (line_event form line.now room.old) }
    ensures room_written { room.new ≡ room_after station room.old (line_event form line.now room.old) }
{
    let time = Tenths(line.numbers[0]);
    let slot = SlotNumber(line.numbers[1]);
    match form {
        Form::Symbols => with_symbols(station, line, room),
        Form::SlotSymbols => with_slot_symbols(station, line, room),
        Form::Signalled(signal) => station.plainly(Plain::Signal(signal), time, slot, room),
        Form::Operated(hand) => station.plainly(Plain::Hand(hand), time, slot, room),
        Form::Called => with_digits(station, line, room),
        Form::Alone => station.tick(time, room),
    }
}

fn kept(desk: Option<Station>, answer: u8) -> Handled
    ensures { result ≡ unchanged desk answer }
{
    Handled {
        answer,
        count: 0,
        desk,
    }
}

// The first sixteen of them.
fn channels_of(numbers: &[u32]) -> [Channel; SLOTS]
    ensures { result ≡ sixteen_of numbers.now }
{
    let mut channels = [Channel(0); SLOTS];
    for i in 0..SLOTS.min(numbers.len()) {
        channels[i] = Channel(numbers[i]);
    }
    channels
}

// "set-up": where no station stands.
fn setting(line: &Line) -> Handled
    ensures { result ≡ after_set_up (set_up_of (line_asks line.now)) }
{
    let listed = numbers_from(line, 1);
    let channels = channels_of(listed);
    match Station::set_up(line.numbers[0], &channels, listed.len() as u8) {
        Ok(station) => kept(Some(station), 0),
        Err(refusal) => kept(None, refusal.number()),
    }
}

// "40, tested first", then 41.
#[tactic(auto, unfolding(crate::specs::Lining::line_said))]
pub(crate) fn handle(desk: Option<Station>, line: Option<Line>, room: &mut [u8]) -> Handled
    ensures value { result ≡ handled_for desk room.old (line_said line) }
    ensures room_written { room.new ≡ blocks_for desk room.old (line_said line) }
{
    let Some(line) = line else {
        return kept(desk, 40);
    };
    match (line.command, desk) {
        (Command::SetUp, None) => setting(&line),
        (Command::SetUp, Some(_)) => kept(desk, 41),
        (Command::Happens(_), None) => kept(desk, 41),
        (Command::Happens(form), Some(station)) => {
            let stepped = happening(station, form, &line, room);
            Handled {
                answer: stepped.answer,
                count: stepped.count,
                desk: Some(stepped.station),
            }
        }
    }
}

pub(crate) fn clock_of(desk: Option<Station>) -> Tenths
    ensures { result ≡ clock_of desk }
{
    match desk {
        Some(station) => station.clock,
        None => Tenths(0),
    }
}

pub(crate) fn due_of(desk: Option<Station>) -> Option<Tenths>
    ensures { result ≡ due_of desk }
{
    match desk {
        Some(station) => station.next_due(),
        None => None,
    }
}
