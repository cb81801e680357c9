// The five symbols of an identity: its nine digits and a 0, two by two.
ghost use Rattle.std.specs.Prelude.{◌≡◌, [], ◌<◌};
ghost use Rattle.sequence.specs.Identity.{identity_symbols};

// A pair is the digits up to it less a hundred times those before it: no quotient is worked out twice.
pub(crate) fn identity_symbols(identity: u32) -> [u8; 5]
    requires { identity < 1000000000 }
    ensures { result ≡ identity_symbols identity [] }
{
    let first_two = identity / 10000000;
    let first_four = identity / 100000;
    let first_six = identity / 1000;
    let first_eight = identity / 10;
    [
        first_two as u8,
        (first_four - first_two * 100) as u8,
        (first_six - first_four * 100) as u8,
        (first_eight - first_six * 100) as u8,
        (identity % 10 * 10) as u8,
    ]
}
