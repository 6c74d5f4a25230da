// Which of the cheapest start lists is wanted.

/// Lists of least cost are many; these two are singled out.
#[derive(Clone, Copy, PartialEq, Eq, Debug)]
pub enum Side {
    /// The one that starts no activity later than any other: the cheapest list.
    Early,
    /// The one that starts no activity earlier than any other: the latest list.
    Late,
}
