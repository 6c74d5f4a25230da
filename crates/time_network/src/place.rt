// A node of the time network, taken apart.

/// A point that is neither source nor sink: the activity, and the slot just before its own.
#[derive(Clone, Copy)]
pub struct Point {
    pub activity: u8,
    pub before: u8,
}

/// A node taken apart.
#[derive(Clone, Copy)]
pub enum Place {
    /// Every activity starts at slot 0 or later.
    Source,
    /// No activity starts at the horizon or later.
    Sink,
    /// "The activity starts at the slot after `before`, or later."
    Inner(Point),
}

/// The arcs of an activity: one on from each slot to the next, and one back.
#[derive(Clone, Copy)]
pub enum Row {
    On,
    Back,
}

/// An end of the network, where slots before the first and past the last are cut off.
#[derive(Clone, Copy)]
pub enum Side {
    /// Slots before the first.
    AtSource,
    /// Slots past the last.
    AtSink,
}
