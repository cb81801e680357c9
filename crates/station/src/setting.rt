// Set-up from an identity and a channel list.
ghost use Rattle.std.specs.Prelude.{◌≡◌, ◌≤◌};
ghost use Rattle.rules.specs.Rules.Sound.{most_slots};
ghost use Rattle.rules.specs.Rules.Bytes.{padded};
ghost use Rattle.requests.specs.Views.{viewed};
ghost use Rattle.slots.specs.Images.{free_on, blank_slot};
ghost use Rattle.station.specs.Step.{blank_station, chosen, set_up_of};

use crate::Station;
use gate::Refusal;
use slots::laying::{blank_slot, blank_waiting, free_on};
use slots::mast::Mast;
use slots::{MOST_SLOTS, QUEUE_ROOM, SLOTS, Slot};
use soundness::config_keeps;
use units::{CallNumber, Channel, Tenths};

// "one slot each", in the list's order.
fn listed(channels: &[Channel; SLOTS], count: u8) -> [Slot; SLOTS]
    requires { count ≤ most_slots }
    ensures { result ≡ padded blank_slot most_slots (viewed free_on count channels.now) }
{
    let mut slots = [blank_slot(); SLOTS];
    for i in 0..count as usize {
        slots[i] = free_on(channels[i]);
    }
    slots
}

impl Station {
    // No value: the station of lent bytes that are of another size or version. It is not sound.
    pub fn blank() -> Station
        ensures { result ≡ blank_station }
    {
        Station {
            clock: Tenths(0),
            mast: Mast { identity: 0 },
            last: CallNumber(0),
            count: 0,
            waiting: 0,
            slots: [blank_slot(); SLOTS],
            queue: [blank_waiting(); QUEUE_ROOM],
        }
    }

    // The first `count` channels. "All slots begin free at clock 0."
    pub fn set_up(identity: u32, channels: &[Channel; SLOTS], count: u8) -> Result<Station, Refusal>
        ensures { result ≡ set_up_of (chosen identity channels.now count) }
    {
        if MOST_SLOTS < count {
            return Err(Refusal::BadSetUp);
        }
        let slots = listed(channels, count);
        let mast = Mast { identity };
        if !config_keeps(mast, &slots, count) {
            return Err(Refusal::BadSetUp);
        }
        Ok(Station {
            clock: Tenths(0),
            mast,
            last: CallNumber(0),
            count,
            waiting: 0,
            slots,
            queue: [blank_waiting(); QUEUE_ROOM],
        })
    }
}
