// One relation of a file: seven bytes, six fields.
ghost use Rattle.std.specs.Prelude.{◌≡◌, ◌+◌, ◌<◌, ◌≤◌, length};
ghost use Rattle.table_file.specs.Numbers.{byte};
ghost use Rattle.table_file.specs.Format.{unless, activity_fault, activities_in, relation_fault, relation_at};
ghost use Rattle.table_file.specs.Reading.{there};

use crate::fields::Field;
use model::refusal::{Fault, Refusal};
use relations::relation::{Letter, Relation};

impl Field<'_> {
    // The field so many bytes on.
    fn after(self, bytes: u16) -> Self
        requires { self.at + bytes < 65000 }
        ensures file { result.file.bytes.now ≡ self.entry.file.bytes.now }
        ensures place { result.at ≡ self.entry.at + bytes }
    {
        self.file.field(self.at + bytes)
    }

    fn letter<T: Letter>(self) -> Result<T, Refusal>
        ensures { let file = self.entry.file.bytes.now in let at = self.entry.at in result ≡ there file at 1 (T.answer (byte file at) at) }
    {
        let [letter] = self.read::<1>()?;
        T::of_letter(char::from(letter), self.at)
    }

    fn activity(self) -> Result<u8, Refusal>
        ensures { let file = self.entry.file.bytes.now in let at = self.entry.at in result ≡ unless (activity_fault file at) (byte file at) }
    {
        let [activity] = self.read::<1>()?;
        if activity >= self.file.activities() {
            return Err(Fault::Range.at(self.at));
        }
        Ok(activity)
    }

    // The relation whose record begins here, in a file whose durations are there.
    pub(crate) fn relation(self) -> Result<Relation, Refusal>
        requires near { self.at < 64000 }
        requires durations { 3 + activities_in self.file.bytes.now ≤ length self.file.bytes.now }
        ensures { let file = self.entry.file.bytes.now in let at = self.entry.at in result ≡ unless (relation_fault file at) (relation_at file at) }
    {
        let relation = Relation {
            from_end: self.letter()?,
            to_end: self.after(1).letter()?,
            sense: self.after(2).letter()?,
            from: self.after(3).activity()?,
            to: self.after(4).activity()?,
            interval: i16::from_le_bytes(self.after(5).read()?),
        };
        let from_duration = self.file.duration(relation.from);
        let to_duration = self.file.duration(relation.to);
        match relation.lag(from_duration, to_duration) {
            None => Err(Fault::Range.at(self.at + 5)),
            Some(_) => Ok(relation),
        }
    }
}
