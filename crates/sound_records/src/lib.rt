// Whether one record of a station keeps document 01's rules: its channel, what it stores, its times, its unused digits.
#![tactic(auto)]

ghost use Rattle.std.specs.Prelude.{◌≡◌};
ghost use Rattle.sound_records.specs.Kept.{slot_sound, waiting_sound};

pub mod stored;
pub mod times;

use due_times::QUEUE_WAIT;
use sequence::parts::channel_ok;
use slots::mast::Mast;
use slots::{Slot, Waiting};
use stored::{request_stored, slot_stored};
use times::{fits_wait, slot_fits};
use units::Tenths;

#[tactic(auto, unfolding(crate::specs::Kept::slot_sound))]
pub fn slot_sound(slot: Slot, mast: Mast, clock: Tenths) -> bool
    ensures { result ≡ slot_sound mast clock slot }
{
    channel_ok(slot.channel) && slot_fits(slot, clock) && slot_stored(slot, mast)
}

#[tactic(auto, unfolding(crate::specs::Kept::waiting_sound, crate::specs::Kept::waiting_exact))]
pub fn waiting_sound(entry: Waiting, mast: Mast, clock: Tenths) -> bool
    ensures { result ≡ waiting_sound mast clock entry }
{
    fits_wait(clock, QUEUE_WAIT, entry.due) && request_stored(entry.request, mast)
}
