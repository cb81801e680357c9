// Runs the documents' cases that are not marked P and that a script can reach, tables of script lines, and compares.
#![tactic(auto)]

mod tables;
mod tallies;
mod trials;

use crate::tables::run_table;
use crate::tallies::Tally;
use std::rt::Files;
use std::{fs, io};

// A table has fewer bytes.
const TABLE_ROOM: usize = 65536;

fn run_file(rt: &(impl Files + Alloc + Print), tally: &mut Tally, path: &str) -> io::Result<()> {
    let Ok(table) = fs::read(rt, path) else {
        return tally.missing(rt, path);
    };
    if TABLE_ROOM <= table.len() {
        return tally.missing(rt, path);
    }
    println!(rt; "{path}")?;
    run_table(rt, tally, table.as_slice())
}

fn main(rt: HostRuntime) -> io::Result<()> {
    let tables = [
        "refusals",
        "requests",
        "calls",
        "dialling",
        "ends",
        "operator",
        "ring-back",
        "ashore",
        "numbers",
        "waits",
        "queue",
        "published",
        "script",
    ];
    let mut tally = Tally { cases: 0, wrong: 0 };
    for path in tables {
        run_file(&rt, &mut tally, path)?;
    }
    tally.print(&rt)
}
