// The sections of a file, each as a part of it.
ghost use Rattle.std.specs.Prelude.{◌≡◌};
ghost use Rattle.table_file.specs.Sections.{bytes_in};

/// A section of a table file: the bytes after its count, as they lie in the file.
#[derive(Clone, Copy)]
pub enum Section<'a> {
    /// A byte for each activity.
    Durations(&'a [u8]),
    /// Four bytes for each activity and slot.
    Prices(&'a [u8]),
    /// Seven bytes for each relation.
    Relations(&'a [u8]),
}

/// A section with the offset of its first byte in the file.
#[derive(Clone, Copy)]
pub struct Placed<'a> {
    pub place: u16,
    pub section: Section<'a>,
}

impl<'a> Section<'a> {
    /// The bytes of a section of any kind.
    pub fn bytes(self) -> &'a [u8]
        ensures { result.now ≡ bytes_in self.entry }
    {
        match self {
            Section::Durations(bytes) | Section::Prices(bytes) | Section::Relations(bytes) => bytes,
        }
    }
}
