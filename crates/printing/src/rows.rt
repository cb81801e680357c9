// The head of a reply, and a row for each action.
ghost use Rattle.std.specs.Prelude.{◌≡◌, ◌+◌, ◌*◌, ◌≤◌, length};
ghost use Rattle.rules.specs.Rules.Bytes.{most_actions, block_size};
ghost use Rattle.rules.specs.Rules.Verdict.{room_needed};
ghost use Rattle.printing.specs.Texts.{Put};
ghost use Rattle.printing.specs.Replies.{due_text, head_text, action_text, action_texts};

use crate::texts::{put_byte, put_field, put_fields, put_number};
use actions::{BLOCK, PAYLOAD};
use units::Tenths;

// "`-` if none"
fn put_due(due: Option<Tenths>, out: &mut [u8], at: usize) -> usize
    requires { at + 11 ≤ length out.old }
    ensures { Put out.old out.new at result (due_text due) }
{
    match due {
        None => {
            let next = put_byte(32, out, at);
            put_byte(45, out, next)
        }
        Some(time) => put_field(time.0, out, at),
    }
}

// "answer, clock, action count, next due time"
#[tactic(auto, using(crate::proofs::ReplyLaws::lengths))]
pub(crate) fn put_head(
    answer: u8,
    clock: Tenths,
    count: u8,
    due: Option<Tenths>,
    out: &mut [u8],
) -> usize
    requires { 44 ≤ length out.old }
    ensures { Put out.old out.new 0 result (head_text answer clock.0 count due) }
{
    let next = put_number(answer as u32, out, 0);
    let next = put_field(clock.0, out, next);
    let next = put_field(count as u32, out, next);
    let next = put_due(due, out, next);
    put_byte(10, out, next)
}

const MOST_BYTES: u8 = PAYLOAD as u8;

// "kind, slot, payload bytes in decimal"
#[tactic(auto, using(crate::proofs::ReplyLaws::lengths))]
fn put_action(block: &[u8], out: &mut [u8], at: usize) -> usize
    requires { (length block.now ≡ block_size) × (at + 418 ≤ length out.old) }
    ensures { Put out.old out.new at result (action_text block.now) }
{
    let length = block[2].min(MOST_BYTES) as usize;
    let next = put_number(block[0] as u32, out, at);
    let next = put_field(block[1] as u32, out, next);
    let next = put_fields(&block[4..4 + length], out, next);
    put_byte(10, out, next)
}

pub(crate) fn put_actions(blocks: &[u8], count: usize, out: &mut [u8], at: usize) -> usize
    requires { (length blocks.now ≡ room_needed) × (count ≤ most_actions) × (at + 3344 ≤ length out.old) }
    ensures { Put out.old out.new at result (action_texts count blocks.now) }
{
    let mut next = at;
    for i in 0..count {
        let start = BLOCK * i;
        next = put_action(&blocks[start..start + BLOCK], out, next);
    }
    next
}
