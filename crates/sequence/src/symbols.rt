// Symbols, one after the other.
ghost use Rattle.std.specs.Prelude.{◌≡◌, get_or};
ghost use Rattle.sequence.specs.Symbols.{all_at_most, exclusive_or};

// The symbol at a place, and 0 past the end.
pub fn at(symbols: &[u8], place: usize) -> u8
    ensures { result ≡ get_or symbols.now place 0 }
{
    symbols.get(place).copied().unwrap_or(0)
}

// Looks at every symbol, also past the first that is over it: so the compiler compares several at once.
pub fn all_at_most(symbols: &[u8], most: u8) -> bool
    ensures { result ≡ all_at_most most symbols.now }
{
    symbols
        .iter()
        .fold(true, |within, symbol| within & (*symbol <= most))
}

pub fn exclusive_or(symbols: &[u8]) -> u8
    ensures { result ≡ exclusive_or 0 symbols.now }
{
    symbols.iter().fold(0, |check, symbol| check ^ symbol)
}
