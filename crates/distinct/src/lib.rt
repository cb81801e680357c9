// Whether no number stands twice.
#![tactic(auto)]

ghost use Rattle.std.specs.Prelude.{◌≡◌, eqb};
ghost use Rattle.rules.specs.Rules.Places.{elem, distinct};

// Looks at every number, also past the first that is the same: so the compiler compares several at once, which `any` would not let it.
fn is_among(number: u32, numbers: &[u32]) -> bool
    ensures { result ≡ elem eqb number numbers.now }
{
    numbers
        .iter()
        .fold(false, |found, other| found | (number == *other))
}

pub fn all_apart(numbers: &[u32]) -> bool
    ensures { result ≡ distinct eqb numbers.now }
{
    for (i, number) in numbers.iter().enumerate() {
        if is_among(*number, &numbers[i + 1..]) {
            return false;
        }
    }
    true
}
