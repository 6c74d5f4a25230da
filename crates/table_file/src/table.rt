// An opened table file as a project.
ghost use Rattle.std.specs.Prelude.{◌≡◌, ◌+◌, ◌*◌, ◌<◌, ◌≤◌, true};
ghost use Rattle.model.specs.Meaning.{Meaning, Bounds};
ghost use Rattle.table_file.specs.Format.{faultless, shape_of};
ghost use Rattle.table_file.specs.Sections.{shown, durations_of, prices_of, relations_of};
ghost use Rattle.table_file.specs.Stated.{stated, relation_of};
ghost use Rattle.table_file.specs.Bounded.{stated_bounds};
ghost use Rattle.table_file.specs.Lengths.{Lengths};

use crate::head::Headed;
use crate::held::Table;
use crate::section::{Placed, Section};
use crate::shape::Shape;
use model::lag::Lag;
use model::price::Price;
use model::project::Project;
use model::time::Slot;
use relations::relation::Relation;

// The height of a project that lies on nothing.
const NOTHING_BELOW: u8 = 0;

impl<'a> Table<'a> {
    /// The table of a file that is known to be without a fault; no field is looked at again.
    pub fn of_inspected(file: &'a [u8]) -> Table<'a>
        requires { faultless file.now ≡ true }
        ensures { result.file.now ≡ file.now }
    {
        Table { file }
    }

    fn headed(&self) -> Headed<'a>
        ensures bytes { result.bytes.now ≡ self.now.file.now }
        ensures lengths { Lengths self.now.file.now }
    {
        Headed { bytes: self.file }
    }

    /// How many slots, activities and relations it has.
    pub fn shape(&self) -> Shape
        ensures { result ≡ shape_of self.now.file.now }
    {
        let headed = self.headed();
        Shape {
            horizon: headed.horizon(),
            activities: headed.activities(),
            relations: self.lag_count(),
        }
    }

    /// A relation as it stands in the file; `None` where there is none of that number.
    pub fn relation(&self, number: u16) -> Option<Relation>
        ensures { result ≡ relation_of self.now.file.now number }
    {
        if number >= self.lag_count() {
            return None;
        }
        let headed = self.headed();
        headed
            .field(headed.relations_place() + 7 * number)
            .relation()
            .ok()
    }

    /// The durations of the activities, as they lie in the file.
    pub fn durations(&self) -> Placed<'a>
        ensures { shown result ≡ durations_of self.now.file.now }
    {
        let end = 3 + usize::from(self.headed().activities());
        Placed {
            place: 3,
            section: Section::Durations(&self.file[3..end]),
        }
    }

    /// The prices, activity by activity and slot by slot, as they lie in the file.
    pub fn prices(&self) -> Placed<'a>
        ensures { shown result ≡ prices_of self.now.file.now }
    {
        let headed = self.headed();
        let place = headed.prices_place();
        let end = headed.relation_count_place();
        Placed {
            place,
            section: Section::Prices(&self.file[usize::from(place)..usize::from(end)]),
        }
    }

    /// The relations, as they lie in the file.
    pub fn relations(&self) -> Placed<'a>
        ensures { shown result ≡ relations_of self.now.file.now }
    {
        let place = self.headed().relations_place();
        Placed {
            place,
            section: Section::Relations(&self.file[usize::from(place)..]),
        }
    }
}

impl<'a> Project for Table<'a> {
    ghost meaning = { λ x. stated x.file.now };

    ghost bounded = { λ x. stated_bounds x.file.now x.sound };

    fn count(&self) -> u16 {
        u16::from(self.headed().activities())
    }

    fn horizon(&self) -> u16 {
        u16::from(self.headed().horizon())
    }

    fn duration(&self, activity: u16) -> Option<u16> {
        if activity >= self.count() {
            return None;
        }
        Some(u16::from(self.file[3 + usize::from(activity)]))
    }

    fn price(&self, activity: u16, slot: Slot) -> Option<Price> {
        let headed = self.headed();
        if activity >= self.count() || slot.0 >= self.horizon() {
            return None;
        }
        let number = activity * u16::from(headed.horizon()) + slot.0;
        let price = headed.cell(number).price_there();
        if price == i32::MIN {
            Some(Price::Closed(0))
        } else {
            Some(Price::Open(price))
        }
    }

    fn lag_count(&self) -> u16 {
        let headed = self.headed();
        let count = headed.field(headed.relation_count_place());
        u16::from_le_bytes(count.read().unwrap())
    }

    fn lag(&self, number: u16) -> Option<Lag> {
        let relation = self.relation(number)?;
        let headed = self.headed();
        relation.lag(headed.duration(relation.from), headed.duration(relation.to))
    }

    fn height(&self) -> u8 {
        NOTHING_BELOW
    }
}
