// What a line says.
ghost use Rattle.std.specs.Prelude.{◌≤◌};

use crate::Command;

// Its command, and so many numbers behind the letter: an array with a count, since memory is fixed.
#[derive(Clone, Copy)]
pub struct Line {
    pub command: Command,
    pub count: usize,
    pub numbers: [u32; 100],
    pub ghost few: { count ≤ 99 },
}
