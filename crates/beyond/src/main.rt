// Calls what no script can reach, and compares: stations made by hand, rooms, the last call numbers, and the writer's refusals.
#![tactic(auto)]

mod numbers;
mod rooms;
mod stations;
mod unsound;
mod writer;

use crate::numbers::try_numbers;
use crate::rooms::try_rooms;
use crate::unsound::try_soundness;
use crate::writer::try_writer;
use std::io;

// A case: its title, and the number given beside the number wanted; none where a byte was written that should have stayed.
fn answered(rt: &impl Print, title: &str, given: Option<u8>, wanted: u8) -> io::Result<()> {
    match given {
        Some(number) if number == wanted => println!(rt; "{title}: ok"),
        Some(number) => println!(rt; "{title}: WRONG, the answer was {number}"),
        None => println!(rt; "{title}: WRONG, a byte was written that should have stayed"),
    }
}

fn main(rt: HostRuntime) -> io::Result<()> {
    println!(rt; "stations made by hand")?;
    try_soundness(&rt)?;
    println!(rt; "rooms")?;
    try_rooms(&rt)?;
    println!(rt; "the last call numbers")?;
    try_numbers(&rt)?;
    println!(rt; "the writer")?;
    try_writer(&rt)
}
