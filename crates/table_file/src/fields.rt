// One field of a file, refused where its bytes run past the end.
ghost use Rattle.std.specs.Prelude.{◌≡◌, ◌+◌, ◌*◌, ◌<◌, ◌≤◌, length, slice_range};
ghost use Rattle.table_file.specs.Numbers.{four_bytes, signed};
ghost use Rattle.table_file.specs.Format.{prices_place};
ghost use Rattle.table_file.specs.Reading.{there, bytes_read};

use crate::head::Headed;
use model::refusal::{Fault, Refusal};

// A field of a file, near enough to its front for a refusal to name the place.
#[derive(Clone, Copy)]
pub(crate) struct Field<'a> {
    pub(crate) file: Headed<'a>,
    pub(crate) at: u16,
    ghost near: { at < 65000 },
}

impl<'a> Field<'a> {
    // Refused where the file ends before the last of so many bytes.
    fn check_there(self, bytes: usize) -> Result<(), Refusal>
        requires { bytes ≤ 4 }
        ensures { result ≡ there self.entry.file.bytes.now self.entry.at bytes (Ok tt) }
    {
        let length = self.file.bytes.len();
        if length < usize::from(self.at) + bytes {
            return Err(Fault::Short.at(length as u16));
        }
        Ok(())
    }

    // Its bytes where they lie, in a file that has them.
    fn part<const N: usize>(self) -> &'a [u8; N]
        requires few { N ≤ 4 }
        requires long { self.at + N ≤ length self.file.bytes.now }
        ensures { let at = self.entry.at in result.now ≡ slice_range self.entry.file.bytes.now at (at + N) }
    {
        let at = usize::from(self.at);
        self.file.bytes[at..at + N].try_into().unwrap()
    }

    // Its bytes, if the file does not end before the last of them.
    pub(crate) fn read<const N: usize>(self) -> Result<[u8; N], Refusal>
        requires { N ≤ 4 }
        ensures { let file = self.entry.file.bytes.now in let at = self.entry.at in result ≡ bytes_read file at N }
    {
        self.check_there(N)?;
        Ok(*self.part())
    }

    // Its four bytes as a price, in a file that has them. They are read where they lie: handed on as `read` does it
    // they would be stored one by one, and nothing in a file is asked for as often as prices.
    pub(crate) fn price_there(self) -> i32
        requires { self.at + 4 ≤ length self.file.bytes.now }
        ensures { result ≡ signed 32 (four_bytes self.entry.file.bytes.now self.entry.at) }
    {
        i32::from_le_bytes(*self.part())
    }

    // Its four bytes as a price.
    pub(crate) fn price(self) -> Result<i32, Refusal>
        ensures { let file = self.entry.file.bytes.now in let at = self.entry.at in result ≡ there file at 4 (Ok (signed 32 (four_bytes file at))) }
    {
        self.check_there(4)?;
        Ok(self.price_there())
    }
}

impl<'a> Headed<'a> {
    pub(crate) fn field(self, at: u16) -> Field<'a>
        requires { at < 65000 }
        ensures file { result.file.bytes.now ≡ self.entry.bytes.now }
        ensures place { result.at ≡ at }
    {
        Field { file: self, at }
    }

    // The field of a price, by its number in the order of the file.
    pub(crate) fn cell(self, number: u16) -> Field<'a>
        requires { number < 8192 }
        ensures file { result.file.bytes.now ≡ self.entry.bytes.now }
        ensures place { result.at ≡ prices_place self.entry.bytes.now + 4 * number }
    {
        self.field(self.prices_place() + 4 * number)
    }
}
