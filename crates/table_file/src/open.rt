// Opening a table file: every field from front to back, and the first fault counts.
ghost use Rattle.std.specs.Prelude.{◌≡◌, ◌+◌, ◌<◌, ◌≤◌, length, is_ok, Some, IfOk};
ghost use Rattle.std.specs.Result.{result_err};
ghost use Rattle.table_file.specs.Format.{unless, head_fault, duration_fault, durations_fault, price_count_fault, price_fault, prices_fault, relation_count_fault, relations_fault, end_fault, activities_in, relations_in, file_fault, opening, faultless};

use crate::head::Headed;
use crate::held::Table;
use crate::shape::Shape;
use model::refusal::{Fault, Refusal};

impl<'a> Headed<'a> {
    // Kind letter, horizon and number of activities.
    fn of(file: &'a [u8]) -> Result<Headed<'a>, Refusal>
        ensures bytes { IfOk result (λ h. h.bytes.now ≡ file.now) }
        ensures fault { result_err result ≡ head_fault file.now }
    {
        let [kind, horizon, rest @ ..] = file else {
            return Err(short_head(file));
        };
        if *kind != b'T' {
            return Err(Fault::Kind.at(0));
        }
        if !(1..=128).contains(horizon) {
            return Err(Fault::Horizon.at(1));
        }
        match rest {
            [] => Err(Fault::Short.at(2)),
            [1..=64, ..] => Ok(Headed { bytes: file }),
            _ => Err(Fault::Count.at(2)),
        }
    }

    fn check_duration(self, activity: u16) -> Result<(), Refusal>
        requires { activity < 64 }
        ensures { result ≡ unless (duration_fault self.entry.bytes.now activity) tt }
    {
        let field = self.field(3 + activity);
        let [duration] = field.read::<1>()?;
        if duration > 128 {
            return Err(Fault::Range.at(field.at));
        }
        Ok(())
    }

    fn check_durations(self) -> Result<(), Refusal>
        ensures { result ≡ unless (durations_fault self.entry.bytes.now) tt }
    {
        for activity in 0..u16::from(self.activities()) {
            self.check_duration(activity)?;
        }
        Ok(())
    }

    fn check_price_count(self) -> Result<(), Refusal>
        ensures { result ≡ unless (price_count_fault self.entry.bytes.now) tt }
    {
        let field = self.field(3 + u16::from(self.activities()));
        if u16::from_le_bytes(field.read()?) != self.cells() {
            return Err(Fault::Count.at(field.at));
        }
        Ok(())
    }

    fn check_price(self, number: u16) -> Result<(), Refusal>
        requires { number < 8192 }
        ensures { result ≡ unless (price_fault self.entry.bytes.now number) tt }
    {
        let field = self.cell(number);
        let price = field.price()?;
        if price != i32::MIN && !(-1_000_000_000..=1_000_000_000).contains(&price) {
            return Err(Fault::Range.at(field.at));
        }
        Ok(())
    }

    // A loop with `?` for each kind of field: one text for all would take what is checked as a closure, with its contract.
    fn check_prices(self) -> Result<(), Refusal>
        ensures { result ≡ unless (prices_fault self.entry.bytes.now) tt }
    {
        for number in 0..self.cells() {
            self.check_price(number)?;
        }
        Ok(())
    }

    fn read_relation_count(self) -> Result<u16, Refusal>
        ensures { result ≡ unless (relation_count_fault self.entry.bytes.now) (relations_in self.entry.bytes.now) }
    {
        let field = self.field(self.relation_count_place());
        let relations = u16::from_le_bytes(field.read()?);
        if relations > 256 {
            return Err(Fault::Count.at(field.at));
        }
        Ok(relations)
    }

    fn check_relations(self, relations: u16) -> Result<(), Refusal>
        requires durations { 3 + activities_in self.bytes.now ≤ length self.bytes.now }
        requires count { relations ≡ relations_in self.bytes.now }
        requires few { relations ≤ 256 }
        ensures { result ≡ unless (relations_fault self.entry.bytes.now) tt }
    {
        let first = self.relations_place();
        for number in 0..relations {
            self.field(first + 7 * number).relation()?;
        }
        Ok(())
    }

    fn check_end(self, relations: u16) -> Result<(), Refusal>
        requires count { relations ≡ relations_in self.bytes.now }
        requires few { relations ≤ 256 }
        ensures { result ≡ unless (end_fault self.entry.bytes.now) tt }
    {
        let end = self.relations_place() + 7 * relations;
        if self.bytes.len() > usize::from(end) {
            return Err(Fault::Trailing.at(end));
        }
        Ok(())
    }
}

// A file of fewer than two bytes: its letter is wrong, or it is too short.
fn short_head(file: &[u8]) -> Refusal
    requires { length file.now < 2 }
    ensures { head_fault file.now ≡ Some result }
{
    match file {
        [kind, ..] if *kind != b'T' => Fault::Kind.at(0),
        _ => Fault::Short.at(file.len() as u16),
    }
}

fn check(file: &[u8]) -> Result<(), Refusal>
    ensures { result ≡ unless (file_fault file.now) tt }
{
    let headed = Headed::of(file)?;
    headed.check_durations()?;
    headed.check_price_count()?;
    headed.check_prices()?;
    let relations = headed.read_relation_count()?;
    headed.check_relations(relations)?;
    headed.check_end(relations)
}

impl<'a> Table<'a> {
    /// Opens a table file: the table that it states, or its first fault with the place.
    ///
    /// Every field is looked at, from front to back. A field is one number or one letter. One that is only
    /// partly there makes the file too short, at the place where it ends; one that is whole and out of range
    /// is refused at its own place.
    pub fn open(file: &'a [u8]) -> Result<Table<'a>, Refusal>
        ensures opens { is_ok result ≡ faultless file.now }
        ensures table { IfOk result (λ t. t.file.now ≡ file.now) }
        ensures fault { result_err result ≡ file_fault file.now }
    {
        check(file)?;
        Ok(Table::of_inspected(file))
    }
}

/// The shape of a table file, or its first fault with the place: what opening it tells, without the table.
pub fn inspect(file: &[u8]) -> Result<Shape, Refusal>
    ensures answer { result ≡ opening file.now }
    ensures opens { is_ok result ≡ faultless file.now }
{
    Ok(Table::open(file)?.shape())
}
