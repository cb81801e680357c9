// A symbol is laid and joins the check at once, so that no byte of the room is read.
ghost use Rattle.std.specs.Prelude.{◌≡◌, ◌<◌, length, set};
ghost use Rattle.std.specs.Int.Bits.{bit_xor};

pub(crate) fn lay_symbol(symbol: u8, place: usize, before: u8, room: &mut [u8]) -> u8
    requires { place < length room.old }
    ensures value { result ≡ bit_xor before symbol }
    ensures room_written { room.new ≡ set room.old place symbol }
{
    room[place] = symbol;
    before ^ symbol
}
