// A layout in bytes is one list of fields, and what is laid out so is read back. Here a number's own bytes.
#![tactic(auto)]

ghost use Rattle.std.specs.Prelude.{◌≡◌};
ghost use Rattle.layouts.specs.Fields.{low_first};

pub fn low_first(n: u32) -> [u8; 4]
    ensures { result ≡ low_first 4 n }
{
    n.to_le_bytes()
}
