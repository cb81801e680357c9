// The slots and the waiting ships of a station, and what of a phase decides, in one place, where a new phase is thought of.
#![tactic(auto)]

pub mod laying;
pub mod mast;
pub mod numbers;

ghost use Rattle.std.specs.Prelude.{◌≡◌};
ghost use Rattle.rules.specs.Rules.Station.{is_free, is_taken, loss_due, main_due};
ghost use Rattle.slots.specs.Phases.{carrier_of, stored, owned, called_in, lasted_in, span_of, due_in, carrier_in};
ghost use Rattle.slots.specs.Views.{slot_view, when_view};

use requests::Request;
use units::{CallNumber, Channel, Duration, SlotNumber, Tenths};

// "1 to 16 distinct channels .., one slot each"
pub const SLOTS: usize = 16;

pub const MOST_SLOTS: u8 = SLOTS as u8;

// "a queue of 32 waiting ships"
pub const QUEUE_ROOM: usize = 32;

pub const MOST_WAITING: u8 = QUEUE_ROOM as u8;

// Rules b and e, and a ring-back acknowledged: "wait 160".
pub const OFFER_WAIT: Tenths = Tenths(160);

// "wait 50, send once more, wait 50"
pub const RING_BACK_WAIT: Tenths = Tenths(50);

// Document 02, no. 1: "the wait is 600 for dialling itself"
pub const DIALLING_WAIT: Tenths = Tenths(600);

// "at it a new wait of 600 begins"
pub const REPLY_WAIT: Tenths = Tenths(600);

// Document 02, no. 2: "one repeat after 5 s, dropped after another 5 s"
pub const CALL_WAIT: Tenths = Tenths(50);

// "a wait of one minute"
pub const RINGING_WAIT: Tenths = Tenths(600);

// "hold for 40"
pub const HOLD_WAIT: Tenths = Tenths(40);

// The carrier of a call, and when its absence falls due; `None` would not say that it is present.
#[derive(Clone, Copy)]
pub enum Carrier {
    Present,
    Lost(Tenths),
}

// Each with its due time; an answered call with the time since when. They stand in the order of their numbers in the lent layout.
#[derive(Clone, Copy)]
pub enum Phase {
    Free,
    Offered(Tenths),
    RingBack(Tenths),
    RingBackAgain(Tenths),
    Acknowledged(Tenths),
    Dialling(Tenths, Carrier),
    Answered(Tenths, Carrier),
    Hold(Tenths, Option<Duration>),
    Taken,
    DialledOut(Tenths, Carrier),
    Called(Tenths),
    CalledAgain(Tenths),
    Ringing(Tenths),
}

// The time of a phase: none; the due time of a wait, and how long that is; since when a call is answered.
#[derive(Clone, Copy)]
pub enum Span {
    Untimed,
    Until(Tenths, Tenths),
    Since(Tenths),
}

// What is told of a slot's line ashore, and of the ship's carrier.
#[derive(Clone, Copy)]
pub enum Signal {
    LineDialledOut,
    LineLifted,
    LineHung,
    CarrierHeard,
    CarrierLost,
}

// What the operator's hand does with a slot.
#[derive(Clone, Copy)]
pub enum Hand {
    Takes,
    GivesBack,
}

#[derive(Clone, Copy)]
pub struct Slot {
    pub request: Request,
    pub channel: Channel,
    pub call: CallNumber, // 0 where no request is stored
    pub phase: Phase,
}

#[derive(Clone, Copy)]
pub struct Waiting {
    pub request: Request,
    pub due: Tenths,
}

// A place in the queue, 0 the oldest's.
#[derive(Clone, Copy)]
pub struct QueuePlace(pub u8);

// Which wait falls due: a place in the queue, a slot's carrier loss, a slot's other wait.
#[derive(Clone, Copy)]
pub enum Wait {
    Entry(QueuePlace),
    Loss(SlotNumber),
    Main(SlotNumber),
}

// A wait, and when it falls due.
#[derive(Clone, Copy)]
pub struct Due {
    pub at: Tenths,
    pub wait: Wait,
}

// Where a ship stands: in a slot, or at a place in the queue.
#[derive(Clone, Copy)]
pub enum Standing {
    Nowhere,
    Holds(SlotNumber),
    Waits(QueuePlace),
}

// A phase that stores a request.
pub fn stores(phase: Phase) -> bool
    ensures { result ≡ stored phase }
{
    match phase {
        Phase::Free | Phase::Taken => false,
        Phase::Offered(_)
        | Phase::RingBack(_)
        | Phase::RingBackAgain(_)
        | Phase::Acknowledged(_)
        | Phase::Dialling(_, _)
        | Phase::Answered(_, _)
        | Phase::Hold(_, _)
        | Phase::DialledOut(_, _)
        | Phase::Called(_)
        | Phase::CalledAgain(_)
        | Phase::Ringing(_) => true,
    }
}

// A phase in which a slot is its ship's: in a hold it is nobody's.
pub fn has_ship(phase: Phase) -> bool
    ensures { result ≡ owned phase }
{
    match phase {
        Phase::Free | Phase::Hold(_, _) | Phase::Taken => false,
        Phase::Offered(_)
        | Phase::RingBack(_)
        | Phase::RingBackAgain(_)
        | Phase::Acknowledged(_)
        | Phase::Dialling(_, _)
        | Phase::Answered(_, _)
        | Phase::DialledOut(_, _)
        | Phase::Called(_)
        | Phase::CalledAgain(_)
        | Phase::Ringing(_) => true,
    }
}

// Document 02, no. 2, "a ship being called": a phase before the ship's transmission in a call from ashore.
pub fn is_called(phase: Phase) -> bool
    ensures { result ≡ called_in phase }
{
    match phase {
        Phase::Called(_) | Phase::CalledAgain(_) | Phase::Ringing(_) => true,
        Phase::Free
        | Phase::Offered(_)
        | Phase::RingBack(_)
        | Phase::RingBackAgain(_)
        | Phase::Acknowledged(_)
        | Phase::Dialling(_, _)
        | Phase::Answered(_, _)
        | Phase::Hold(_, _)
        | Phase::Taken
        | Phase::DialledOut(_, _) => false,
    }
}

pub fn is_free(slot: Slot) -> bool
    ensures { result ≡ is_free (slot_view slot) }
{
    matches!(slot.phase, Phase::Free)
}

pub fn is_taken(slot: Slot) -> bool
    ensures { result ≡ is_taken (slot_view slot) }
{
    matches!(slot.phase, Phase::Taken)
}

// The duration that a hold tells.
pub fn lasted_in(phase: Phase) -> Option<Duration>
    ensures { result ≡ lasted_in phase }
{
    match phase {
        Phase::Hold(_, lasted) => lasted,
        _ => None,
    }
}

pub fn span_of(phase: Phase) -> Span
    ensures { result ≡ span_of phase }
{
    match phase {
        Phase::Free | Phase::Taken => Span::Untimed,
        Phase::Offered(due) | Phase::Acknowledged(due) => Span::Until(due, OFFER_WAIT),
        Phase::RingBack(due) | Phase::RingBackAgain(due) => Span::Until(due, RING_BACK_WAIT),
        Phase::Dialling(due, _) => Span::Until(due, DIALLING_WAIT),
        Phase::DialledOut(due, _) => Span::Until(due, REPLY_WAIT),
        Phase::Answered(start, _) => Span::Since(start),
        Phase::Hold(due, _) => Span::Until(due, HOLD_WAIT),
        Phase::Called(due) | Phase::CalledAgain(due) => Span::Until(due, CALL_WAIT),
        Phase::Ringing(due) => Span::Until(due, RINGING_WAIT),
    }
}

// The carrier of a phase's call, present where there is none.
pub fn carrier_in(phase: Phase) -> Carrier
    ensures { result ≡ carrier_in phase }
{
    match phase {
        Phase::Dialling(_, carrier) | Phase::DialledOut(_, carrier) | Phase::Answered(_, carrier) =>
            carrier,
        Phase::Free
        | Phase::Offered(_)
        | Phase::RingBack(_)
        | Phase::RingBackAgain(_)
        | Phase::Acknowledged(_)
        | Phase::Hold(_, _)
        | Phase::Taken
        | Phase::Called(_)
        | Phase::CalledAgain(_)
        | Phase::Ringing(_) => Carrier::Present,
    }
}

fn loss_when(carrier: Carrier) -> Option<Tenths>
    ensures { when_view result ≡ carrier_of carrier }
{
    match carrier {
        Carrier::Present => None,
        Carrier::Lost(due) => Some(due),
    }
}

// When the carrier's absence in a slot falls due.
pub fn loss_of(slot: Slot) -> Option<Tenths>
    ensures { when_view result ≡ loss_due (slot_view slot) }
{
    loss_when(carrier_in(slot.phase))
}

fn main_when(span: Span) -> Option<Tenths>
    ensures { when_view result ≡ due_in span }
{
    match span {
        Span::Until(due, _) => Some(due),
        Span::Untimed | Span::Since(_) => None,
    }
}

// When the other wait of a slot falls due.
pub fn main_of(slot: Slot) -> Option<Tenths>
    ensures { when_view result ≡ main_due (slot_view slot) }
{
    main_when(span_of(slot.phase))
}
