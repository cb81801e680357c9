// What a script prints.
#![tactic(auto)]

ghost use Rattle.std.specs.Prelude.{◌≡◌};
ghost use Rattle.printing.specs.Replies.{reply_text, put_text, put_length};

mod rows;
mod texts;

use crate::rows::{put_actions, put_head};
use actions::{ACTIONS, ROOM};
use units::Tenths;

const MOST_ACTIONS: u8 = ACTIONS as u8;

// The longest answer fits in it.
pub const ANSWER_ROOM: usize = 4096;

// The reply to a line at the front of a room for answers, and its length; a shorter room is left as it is.
pub fn put_reply(
    answer: u8,
    clock: Tenths,
    count: u8,
    due: Option<Tenths>,
    blocks: &[u8; ROOM],
    out: &mut [u8],
) -> usize
    ensures value { result ≡ put_length out.old (reply_text answer clock.0 count due blocks.now) }
    ensures out_after { out.new ≡ put_text out.old (reply_text answer clock.0 count due blocks.now) }
{
    if out.len() < ANSWER_ROOM {
        return 0;
    }
    let shown = count.min(MOST_ACTIONS);
    let next = put_head(answer, clock, count, due, out);
    put_actions(blocks, shown as usize, out, next)
}
