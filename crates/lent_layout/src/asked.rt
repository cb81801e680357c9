// A stored request in lent bytes.
ghost use Rattle.std.specs.Prelude.{◌≡◌, ◌+◌, ◌≤◌, length};
ghost use Rattle.layouts.specs.Fields.{encode, decode, laid};
ghost use Rattle.lent_layout.specs.Layout.{request_fields, request_size};
ghost use Rattle.lent_layout.specs.Numbers.{mode_mark, request_numbers, request_from};

use crate::numbers::{digits_at, four_at, lay};
use layouts::low_first;
use requests::{Mode, Request, blank_request};
use sequence::{DIGITS, Number};

// Where each field stands: behind the one before it, from the ship on.
const STATION: usize = 4;

const MODE: usize = STATION + 4;

const SECOND: usize = MODE + 1;

const COUNT: usize = SECOND + 1;

const DIGITS_PLACE: usize = COUNT + 1;

pub(crate) const REQUEST_SIZE: usize = DIGITS_PLACE + DIGITS;

fn mode_mark(mode: Mode) -> u8
    ensures { result ≡ mode_mark mode }
{
    mode as u8
}

#[tactic(auto, unfolding(crate::specs::Layout::request_fields))]
pub(crate) fn request_at(bytes: &[u8], place: usize) -> Request
    requires { place + request_size ≤ length bytes.now }
    ensures { result ≡ request_from (decode request_fields bytes.now place) }
{
    let mode = match bytes[place + MODE] {
        0 => Mode::Simplex,
        1 => Mode::Duplex,
        _ => return blank_request(),
    };
    Request {
        ship: four_at(bytes, place),
        station: four_at(bytes, place + STATION),
        mode,
        second: bytes[place + SECOND],
        number: Number {
            count: bytes[place + COUNT],
            digits: digits_at(bytes, place + DIGITS_PLACE),
        },
    }
}

#[tactic(auto, unfolding(crate::specs::Layout::request_fields))]
pub(crate) fn lay_request(request: &Request, place: usize, room: &mut [u8])
    requires { place + request_size ≤ length room.old }
    ensures { room.new ≡ laid room.old place (encode request_fields (request_numbers request.now)) }
{
    let marks = [
        mode_mark(request.mode),
        request.second,
        request.number.count,
    ];
    lay(&low_first(request.ship), place, room);
    lay(&low_first(request.station), place + STATION, room);
    lay(&marks, place + MODE, room);
    lay(&request.number.digits, place + DIGITS_PLACE, room);
}
