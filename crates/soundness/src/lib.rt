// What a station is held to beside its single records: identity, clock, counts, and channels of which none stands twice.
#![tactic(auto)]

ghost use Rattle.std.specs.Prelude.{◌≡◌, ◌<◌, map};
ghost use Rattle.std.specs.List.{list_all};
ghost use Rattle.sequence.specs.Field.{channel_ok};
ghost use Rattle.rules.specs.Rules.Sound.{channels_keep, config_keeps};
ghost use Rattle.requests.specs.Views.{viewed};
ghost use Rattle.slots.specs.Views.{channel_of, config_for};
ghost use Rattle.soundness.specs.Soundly.{head_sound, number_of};

use distinct::all_apart;
use sequence::parts::channel_ok;
use slots::mast::{Mast, mast_keeps};
use slots::{MOST_SLOTS, MOST_WAITING, SLOTS, Slot};
use units::{LIMIT, Tenths};

// The number of each slot's channel.
fn channel_numbers(slots: &[Slot; SLOTS]) -> [u32; SLOTS]
    ensures { result ≡ map number_of slots.now }
{
    std::array::from_fn(|i| slots[i].channel.0)
}

// Whether the channels of these slots are of the kind above.
fn channels_good(slots: &[Slot]) -> bool
    ensures { result ≡ list_all (λ s. channel_ok (channel_of s)) slots.now }
{
    slots.iter().all(|slot| channel_ok(slot.channel))
}

// "1 to 16 distinct channels of the kind above"
#[tactic(auto, using(crate::proofs::GatherLaws::channel_parts))]
fn channels_keep(slots: &[Slot; SLOTS], count: u8) -> bool
    ensures { result ≡ channels_keep (viewed channel_of count slots.now) }
{
    let used = count.min(MOST_SLOTS) as usize;
    let numbers = channel_numbers(slots);
    1 <= count && channels_good(&slots[..used]) && all_apart(&numbers[..used])
}

// The identity and the channels: what set-up asks, and every event after it.
#[tactic(auto, unfolding(rules::specs::Rules::Sound::config_keeps, rules::specs::Rules::Sound::identity_keeps))]
pub fn config_keeps(mast: Mast, slots: &[Slot; SLOTS], count: u8) -> bool
    ensures { result ≡ config_keeps (config_for mast count slots.now) }
{
    mast_keeps(mast) && channels_keep(slots, count)
}

// The counts are within the arrays, there is a slot, the identity is a coast station's, the clock within the limit.
#[tactic(auto, unfolding(crate::specs::Soundly::head_sound))]
pub fn head_sound(mast: Mast, clock: Tenths, count: u8, waiting: u8) -> bool
    ensures { result ≡ head_sound mast clock count waiting }
{
    count <= MOST_SLOTS
        && waiting <= MOST_WAITING
        && 1 <= count
        && mast_keeps(mast)
        && clock.0 <= LIMIT
}
