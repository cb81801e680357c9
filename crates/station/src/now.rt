// The time of an event that was accepted.
ghost use Rattle.std.specs.Prelude.{◌≤◌};
ghost use Rattle.rules.specs.Rules.Sound.{limit};

use units::Tenths;

#[derive(Clone, Copy)]
pub(crate) struct Now {
    pub(crate) time: Tenths,
    ghost within: { time.0 ≤ limit },
}
