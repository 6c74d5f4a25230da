// The table that an opened file states, held as the file itself.
ghost use Rattle.std.specs.Prelude.{◌≡◌, true};
ghost use Rattle.table_file.specs.Format.{faultless};

/// An opened table file. It borrows the bytes and decodes them when asked.
#[derive(Clone, Copy)]
pub struct Table<'a> {
    pub(crate) file: &'a [u8],
    ghost sound: { faultless file.now ≡ true },
}
