// What opening a file tells of it.

/// The size of an opened table file.
#[derive(Clone, Copy, PartialEq, Eq, Debug)]
pub struct Shape {
    /// How many slots there are, 1 to 128.
    pub horizon: u8,
    /// How many activities there are, 1 to 64.
    pub activities: u8,
    /// How many relations there are, 0 to 256.
    pub relations: u16,
}
