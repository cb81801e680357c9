// Bytes laid out as an array of what each stands for.
ghost use Rattle.std.specs.Prelude.{◌≡◌, ℕ, ◌<◌};
ghost use Rattle.rules.specs.Rules.Bytes.{padded};
ghost use Rattle.requests.specs.Views.{viewed};

// As many bytes as there are places, and blank behind them.
pub(crate) fn row_of<T: Copy, const N: usize, F: Fn(u8) -> T>(
    bytes: &[u8],
    blank: T,
    what: F,
) -> [T; N]
    requires { F.IsAlwaysCallable what }
    ensures { (view : ℕ → T) → ((byte : ℕ) (value : T) → byte < 256 → F.post what byte value → value ≡ view byte)
        → result ≡ padded blank N (viewed view N bytes.now) }
{
    let mut row = [blank; N];
    for i in 0..N.min(bytes.len()) {
        row[i] = what(bytes[i]);
    }
    row
}
