// Whether a request is by a ship; rule b: whether it is identical to the one stored.
ghost use Rattle.std.specs.Prelude.{◌≡◌, ◌<◌};
ghost use Rattle.rules.specs.Rules.Words.{is};
ghost use Rattle.rules.specs.Rules.Requests.{same, same_number};
ghost use Rattle.requests.specs.Views.{request_of, party_of, digits_of};

use crate::Request;
use sequence::{MOST_DIGITS, Number};

// The request is of this ship, at this station.
#[tactic(auto, unfolding(rules::specs::Rules::Words::is, crate::specs::Views::request_of))]
pub fn is_by(request: Request, ship: u32, station: u32) -> bool
    ensures { result ≡ is (party_of ship station) (request_of request).who }
{
    ship == request.ship && station == request.station
}

fn same_number(asked: Number, stored: Number) -> bool
    ensures { result ≡ same_number (digits_of asked) (digits_of stored) }
{
    let count = asked.count.min(MOST_DIGITS) as usize;
    let stored_count = stored.count.min(MOST_DIGITS) as usize;
    asked.digits[..count] == stored.digits[..stored_count]
}

#[tactic(auto, using(crate::proofs::NumberLaws::modes), unfolding(rules::specs::Rules::Requests::same, crate::specs::Views::request_of))]
pub fn same_request(asked: Request, stored: Request) -> bool
    ensures { result ≡ same (request_of asked) (request_of stored) }
{
    is_by(stored, asked.ship, asked.station)
        && asked.mode == stored.mode
        && asked.second == stored.second
        && same_number(asked.number, stored.number)
}
