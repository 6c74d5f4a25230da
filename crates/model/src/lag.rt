// A time lag between the starts of two activities.

/// `to` starts at least `gap` slots after `from` does. A gap below zero lets it start that much earlier.
#[derive(Clone, Copy, PartialEq, Eq, Debug)]
pub struct Lag {
    pub from: u8,
    pub to: u8,
    /// From −256 to 256.
    pub gap: i16,
}
