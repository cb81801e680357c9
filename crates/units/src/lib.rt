// The five numbers that are never taken for one another, and the two ways between them.
// Each holds any number a script may hold, so that a wrong one is judged and never cut.
#![tactic(auto)]

ghost use Rattle.std.specs.Prelude.{◌≡◌};
ghost use Rattle.units.specs.Units.{whole_seconds, duration_of};

// "Times are tenths of a second from 0 to 4,000,000,000."
pub const LIMIT: u32 = 4_000_000_000;

// The greatest number that a script or a host in C can hand in.
pub const GREATEST: u32 = 4_294_967_295;

// A time, or a stretch of it, in tenths of a second.
#[derive(Clone, Copy, PartialEq, Eq, PartialOrd, Ord)]
pub struct Tenths(pub u32);

// Charged seconds. The field is private: whole_seconds alone makes them.
#[derive(Clone, Copy, PartialEq, Eq, PartialOrd, Ord)]
pub struct Seconds(u32);

// A slot's number.
#[derive(Clone, Copy, PartialEq, Eq, PartialOrd, Ord)]
pub struct SlotNumber(pub u32);

// A call's number. Document 02, no. 4: "the next call number from 1"; 0 before the first.
#[derive(Clone, Copy, PartialEq, Eq, PartialOrd, Ord)]
pub struct CallNumber(pub u32);

// A working channel's number.
#[derive(Clone, Copy, PartialEq, Eq, PartialOrd, Ord)]
pub struct Channel(pub u32);

// A duration as an end of call tells it.
#[derive(Clone, Copy, PartialEq, Eq)]
pub struct Duration {
    pub hours: u8,
    pub minutes: u8,
    pub seconds: u8,
}

impl Tenths {
    // Whole seconds, rounded down.
    pub fn whole_seconds(self) -> Seconds
        ensures { result ≡ whole_seconds self }
    {
        Seconds(self.0 / 10)
    }
}

impl Seconds {
    // The number itself, for the charge's bytes.
    pub fn count(self) -> u32
        ensures { result ≡ self.0 }
    {
        self.0
    }

    // Hours, minutes and seconds; from 100 hours on there is no place for them.
    pub fn duration(self) -> Option<Duration>
        ensures { result ≡ duration_of self }
    {
        let whole = self.0;
        if whole <= 359999 {
            let hours = (whole / 3600) as u8;
            let minutes = (whole / 60 % 60) as u8;
            let seconds = (whole % 60) as u8;
            return Some(Duration {
                hours,
                minutes,
                seconds,
            });
        }
        None
    }
}
