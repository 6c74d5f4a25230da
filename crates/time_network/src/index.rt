// The index of lags: by activity, the lags that lead from it or to it, in the order of their numbers.

/// An end of a lag.
#[derive(Clone, Copy)]
pub enum End {
    /// The activity that it leads from.
    From,
    /// The activity that it leads to.
    To,
}

/// For one end: the first lag with each activity there, and after each lag the next with the same activity
/// there. The count of lags stands for none.
// A number for none, and no `Option`, so that the cursor after the last lag is worked out like any other.
#[derive(Clone, Copy)]
pub struct Index {
    /// By activity.
    pub first: [u16; 256],
    /// By lag.
    pub next: [u16; 256],
}
