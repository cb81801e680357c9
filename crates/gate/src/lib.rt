// Which event is refused: the tests, in document 01's order, by what is seen of the station.
#![tactic(auto)]

ghost use Rattle.std.specs.Prelude.{◌≡◌};
ghost use Rattle.std.proofs.Math.Option.{none};
ghost use Rattle.sequence.specs.Refusals.{first_refusal};
ghost use Rattle.gate.specs.declared.Refusal.TheVariants.{Sequence};
ghost use Rattle.gate.specs.Asked.{refusal_number, verdict_of, asked_always, asked_now, asked_on_slot};

use actions::ROOM;
use due_times::falls_due;
use sequence::unless;
use slots::Due;
use units::{LIMIT, SlotNumber, Tenths};

// Of a station: whether it is sound, its clock, how many slots it has, the wait that falls due first, told of an unsound one too.
#[derive(Clone, Copy)]
pub struct Look {
    pub sound: bool,
    pub clock: Tenths,
    pub count: u8,
    pub due: Option<Due>,
}

// Why an event is refused, or a station is not set up.
#[derive(Clone, Copy, PartialEq, Eq)]
pub enum Refusal {
    Sequence(sequence::Refusal), // the reader's; of a call from ashore a bad identity, mode or number
    UnsoundStation,
    ShortRoom,
    OverLimit,
    BeforeClock,
    WaitDue,
    NoSuchSlot,
    BarredHand,
    BadSetUp,
    NoFreeSlot,
    ShipEngaged,
}

impl Refusal {
    // Document 01's number, or document 02's; not a discriminant, since a sequence's refusal has its own.
    pub fn number(self) -> u8
        ensures { result ≡ refusal_number self }
    {
        match self {
            Refusal::Sequence(refusal) => refusal.number(),
            Refusal::UnsoundStation => 29,
            Refusal::ShortRoom => 30,
            Refusal::OverLimit => 31,
            Refusal::BeforeClock => 32,
            Refusal::WaitDue => 33,
            Refusal::NoSuchSlot => 34,
            Refusal::BarredHand => 35,
            Refusal::BadSetUp => 36,
            Refusal::NoFreeSlot => 37,
            Refusal::ShipEngaged => 38,
        }
    }
}

impl From<sequence::Refusal> for Refusal {
    ghost from_gives = { λ read refused. refused ≡ Sequence read };

    fn from(refusal: sequence::Refusal) -> Refusal {
        Refusal::Sequence(refusal)
    }
}

// The room's size and the time are the event's, each with a test of its own: a struct of the two would be made to be taken apart.
impl Look {
    // The refusals of every event: 29 to 32.
    pub fn judge(self, size: usize, time: Tenths) -> Result<(), Refusal>
        ensures { verdict_of result ≡ first_refusal (asked_always self size time.0) none }
    {
        unless(self.sound, Refusal::UnsoundStation)?;
        unless(ROOM <= size, Refusal::ShortRoom)?;
        unless(time.0 <= LIMIT, Refusal::OverLimit)?;
        unless(self.clock <= time, Refusal::BeforeClock)
    }

    // Those of every event but a tick: 33 besides.
    pub fn judge_now(self, size: usize, time: Tenths) -> Result<(), Refusal>
        ensures { verdict_of result ≡ first_refusal (asked_now self size time.0) none }
    {
        self.judge(size, time)?;
        unless(!falls_due(self.due, time), Refusal::WaitDue)
    }

    // Those of an event on a slot: 34 besides.
    pub fn judge_slot(self, size: usize, time: Tenths, slot: SlotNumber) -> Result<(), Refusal>
        ensures { verdict_of result ≡ first_refusal (asked_on_slot self size time.0 slot.0) none }
    {
        self.judge_now(size, time)?;
        unless(slot.0 < self.count as u32, Refusal::NoSuchSlot)
    }
}
