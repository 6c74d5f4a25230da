// What it costs to start an activity in a slot.

/// The price of an activity at a slot.
// Both cases tell something and neither is a failure, so a `Result` would say less.
#[derive(Clone, Copy, PartialEq, Eq, Debug)]
pub enum Price {
    /// The activity may start there, at this price, from −1,000,000,000 to 1,000,000,000.
    Open(i32),
    /// It may not; the number is the height, 0 to 255, of the layer that closed the slot.
    Closed(u8),
}
