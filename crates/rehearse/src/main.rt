// Standard input to standard output: each line's answer is written before more input is asked for.
#![tactic(auto)]

use script::Session;
use std::io;
use std::io::Read;

// The bytes that are read at once, and the room for an answer.
const ROOM: usize = 4096;

fn show(rt: &impl Print, text: &[u8], count: usize) -> io::Result<()> {
    rt.write_all(&text[..count.min(text.len())])
}

// Each turn uses a byte at least, so as many turns as bytes are enough; it feeds bytes up to the end of a line, and writes what the
// session answers.
fn feed_all(rt: &impl Print, mut session: Session, bytes: &[u8]) -> io::Result<Session> {
    let mut rest = bytes;
    for _ in bytes {
        if rest.is_empty() {
            break;
        }
        let mut out = [0u8; ROOM];
        let fed = session.feed(rest, &mut out);
        show(rt, &out, fed.count)?;
        session = fed.session;
        rest = &rest[fed.used.min(rest.len())..];
    }
    Ok(session)
}

// None at the end of the input.
fn one_turn(rt: &(impl Input + Print), session: Session) -> io::Result<Option<Session>> {
    let mut input = [0u8; ROOM];
    let count = rt.reader().read(&mut input)?;
    if count == 0 {
        return Ok(None);
    }
    Ok(Some(feed_all(rt, session, &input[..count])?))
}

// Nothing says that the input ends, so the turns are counted up to a number that no run reaches.
fn run(rt: &(impl Input + Print), mut session: Session) -> io::Result<Session> {
    for _ in 0..u64::MAX {
        let Some(next) = one_turn(rt, session)? else {
            break;
        };
        session = next;
    }
    Ok(session)
}

fn main(rt: HostRuntime) -> io::Result<()> {
    let last = run(&rt, Session::begin())?;
    let mut out = [0u8; ROOM];
    let fed = last.finish(&mut out);
    show(&rt, &out, fed.count)
}
