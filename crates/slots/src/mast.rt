// Whose calls a station answers.
ghost use Rattle.std.specs.Prelude.{◌≡◌};
ghost use Rattle.rules.specs.Rules.Words.{ours};
ghost use Rattle.rules.specs.Rules.Sound.{identity_keeps};
ghost use Rattle.slots.specs.Views.{named};

use sequence::parts::is_coast;

#[derive(Clone, Copy)]
pub struct Mast {
    pub identity: u32,
}

// Whether calls to that identity are the station's.
pub fn is_ours(mast: Mast, identity: u32) -> bool
    ensures { result ≡ ours (named mast) identity }
{
    identity == mast.identity
}

// Whether it is a coast station's.
#[tactic(auto, unfolding(rules::specs::Rules::Sound::identity_keeps))]
pub fn mast_keeps(mast: Mast) -> bool
    ensures { result ≡ identity_keeps (named mast) }
{
    is_coast(mast.identity)
}
