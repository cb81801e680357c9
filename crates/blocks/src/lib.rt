// The block of an action, laid into the room that is lent.
#![tactic(auto)]

ghost use Rattle.std.specs.Prelude.{◌≡◌, length};
ghost use Rattle.actions.specs.Blocks.{action_block, in_bytes};
ghost use Rattle.blocks.specs.Laid.{lay_count, lay_room};

use actions::{Action, BLOCK, PAYLOAD};

const MOST_BYTES: u8 = PAYLOAD as u8;

// "kind, slot .., payload length, 0, payload, zeros"; 255, which no slot has, for a slot's number past a byte.
fn bytes_of(action: Action) -> [u8; BLOCK]
    ensures { result ≡ in_bytes (action_block action) }
{
    let length = action.length.min(MOST_BYTES);
    let used = length as usize;
    let mut bytes = [0u8; BLOCK];
    bytes[0] = action.kind;
    bytes[1] = u8::try_from(action.slot.0).unwrap_or(255);
    bytes[2] = length;
    bytes[4..4 + used].copy_from_slice(&action.payload[..used]);
    bytes
}

// Lays an action as the block of that number where the room holds it, and returns the number of the next block.
// The number stays beside the room: a cursor over both would say `lay_count` and `lay_room` of its fields, and no less.
pub fn lay(action: Action, block: u8, room: &mut [u8]) -> u8
    ensures value { result ≡ lay_count block (length room.old) }
    ensures room_written { room.new ≡ lay_room (action_block action) block room.old }
{
    if block == 255 {
        return block;
    }
    let place = BLOCK * block as usize;
    if room.len() < place + BLOCK {
        return block;
    }
    room[place..place + BLOCK].copy_from_slice(&bytes_of(action));
    block + 1
}
