// Chains of reasons: why no start list meets a project.
ghost use Rattle.std.specs.Prelude.{◌≡◌};
ghost use Rattle.earliest.specs.Chain.{as_numbers, ChainsRefute};

use model::time::Slot;

/// How an entry of a chain follows from the entry before it.
#[derive(Clone, Copy, PartialEq, Eq, Debug)]
pub enum How {
    /// 0: the first entry. Every start is at slot 0 or later.
    Start,
    /// 1: the same activity, one slot later, because the earlier slot is closed, at this height.
    PastClosed(u8),
    /// 2: the lag of this number leads from the activity of the entry before, to the earlier slot
    /// plus the gap, cut to 0 to the horizon.
    ByLag(u16),
}

impl How {
    /// The number of the case.
    pub fn code(self) -> u8
        ensures { result ≡ (as_numbers self).0 }
    {
        // A case that carries a value has no number by `as`.
        match self {
            How::Start => 0,
            How::PastClosed(_) => 1,
            How::ByLag(_) => 2,
        }
    }

    /// What the case carries: 0, the closing height, or the number of the lag.
    pub fn number(self) -> u16
        ensures { result ≡ (as_numbers self).1 }
    {
        match self {
            How::Start => 0,
            How::PastClosed(height) => u16::from(height),
            How::ByLag(number) => number,
        }
    }
}

/// An entry of a chain: the activity starts at the slot or later. In the last entry the slot is the
/// horizon, so that the activity cannot start at all.
#[derive(Clone, Copy, PartialEq, Eq, Debug)]
pub struct Entry {
    pub activity: u16,
    pub slot: Slot,
    pub how: How,
}

/// A chain refutes every start list: whoever has a chain needs nothing else to see that no list
/// meets the project.
pub fn chains_refute()
    ensures { ChainsRefute }
{}
