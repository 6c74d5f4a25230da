// What a project is: whatever answers these seven questions within their bounds.
ghost use Rattle.std.specs.Prelude.{◌≡◌};
ghost use Rattle.model.specs.Meaning.{Meaning, Bounds, duration_of, price_of, lag_of};

use crate::lag::Lag;
use crate::price::Price;
use crate::time::Slot;

/// A project, by what it answers. A question about an activity, a slot or a lag that does not exist
/// answers `None`. Questions change nothing and answer the same when asked again.
pub trait Project {
    /// All answers together.
    ghost meaning: { Self → Meaning };

    /// How many activities there are, 1 to 64; they are numbered from 0.
    fn count(&self) -> u16
        ensures { result ≡ (meaning self.now).n };

    /// How many slots there are, 1 to 128: activities start in slots 0 to one less.
    fn horizon(&self) -> u16
        ensures { result ≡ (meaning self.now).horizon };

    /// How many slots an activity lasts, 0 to 128.
    fn duration(&self, activity: u16) -> Option<u16>
        ensures { result ≡ duration_of (meaning self.now) activity };

    /// What it costs to start an activity in a slot, or what closed that slot.
    fn price(&self, activity: u16, slot: Slot) -> Option<Price>
        ensures { result ≡ price_of (meaning self.now) activity slot.0 };

    /// How many lags there are, 0 to 256; they are numbered from 0.
    fn lag_count(&self) -> u16
        ensures { result ≡ (meaning self.now).lags };

    /// A lag between two of the activities, its gap from −256 to 256.
    fn lag(&self, number: u16) -> Option<Lag>
        ensures { result ≡ lag_of (meaning self.now) number };

    /// How many layers lie below, 0 to 255: 0 on nothing.
    fn height(&self) -> u8
        ensures { result ≡ (meaning self.now).height };

    /// The answers lie within the limits of a project.
    ghost bounded: { (x : Self) → Bounds (meaning x) };
}
