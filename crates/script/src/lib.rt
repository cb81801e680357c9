// The script: lines in, answers out, with no station or one.
#![tactic(auto)]

mod desks;
mod sessions;
mod texts;

use lines::LONGEST_LINE;
use station::Station;

// "one over 200 characters": so many bytes of a line tell whether it is, and no further one is kept.
pub const KEPT_BYTES: usize = LONGEST_LINE + 1;

// The line so far, as much of it as is kept: an array with a length, since memory is fixed.
#[derive(Clone, Copy)]
pub struct Text {
    pub length: usize,
    pub bytes: [u8; KEPT_BYTES],
}

// With no station, or one that stands.
#[derive(Clone, Copy)]
pub struct Session {
    pub desk: Option<Station>,
    pub text: Text,
}

// What feeding hands back: how many bytes were used, how many bytes of answer stand in the room, and the next session.
#[derive(Clone, Copy)]
pub struct Fed {
    pub used: usize,
    pub count: usize,
    pub session: Session,
}

// What became of a line; the answer's number is printed.
#[derive(Clone, Copy)]
struct Handled {
    answer: u8,
    count: u8,
    desk: Option<Station>,
}
