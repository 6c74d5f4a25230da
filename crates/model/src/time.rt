// Slots count from zero and days from one; a function that wants one is never handed the other.
ghost use Rattle.std.specs.Prelude.{◌≡◌, ◌+◌, Some, decimal};

use std::fmt;

/// A slot, counted from zero. Everything but printed reports and the screen speaks of slots.
#[derive(Clone, Copy, PartialEq, Eq, PartialOrd, Ord, Debug)]
pub struct Slot(pub u16);

/// A day, counted from one, as people read it. It comes only from a slot.
#[derive(Clone, Copy, PartialEq, Eq, PartialOrd, Ord, Debug)]
pub struct Day(u32);

impl Slot {
    /// The day of this slot: one more. This is the only way from one count to the other.
    pub fn day(self) -> Day
        ensures { result.0 ≡ self.0 + 1 }
    {
        Day(self.0 as u32 + 1)
    }
}

impl Day {
    /// The number that is printed for this day.
    pub fn number(self) -> u32
        ensures { result ≡ self.0 }
    {
        self.0
    }
}

impl fmt::Display for Day {
    ghost output = { λ d. Some (decimal d.0) };

    fn fmt<W: fmt::Write>(&self, f: &mut fmt::Formatter<W>) -> fmt::Result {
        write!(f, "{}", self.0)
    }
}
