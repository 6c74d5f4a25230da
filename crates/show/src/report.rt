// What is in a table file, printed for people: slots are shown as days.
use crate::wording::InWords;
use model::floors::{floor_of, open_slots_of};
use model::price::Price;
use model::project::Project;
use model::time::Slot;
use std::io;
use table_file::held::Table;
use table_file::shape::Shape;

/// A project, and where the report of it goes.
#[derive_where(Clone, Copy)]
pub struct Report<'a, P> {
    pub rt: &'a HostRuntime,
    pub project: &'a P,
}

/// Prints the report of a file, or the line that tells why it is refused.
pub fn print_file(rt: &HostRuntime, file: &[u8]) -> io::Result<()> {
    match Table::open(file) {
        Err(refusal) => println!(rt; "{}", InWords(refusal)),
        Ok(table) => {
            let project = &table;
            Report { rt, project }.print()
        }
    }
}

impl Report<'_, Table<'_>> {
    fn print(&self) -> io::Result<()> {
        let Shape {
            horizon,
            activities,
            relations,
        } = self.project.shape();
        println!(self.rt; "{activities} activities, {horizon} days, {relations} relations")?;
        println!(self.rt;
            "durations at byte {}, prices at byte {}, relations at byte {}",
            self.project.durations().place,
            self.project.prices().place,
            self.project.relations().place
        )?;
        self.print_activities()?;
        self.print_relations()?;
        self.print_closed()?;
        self.print_plans()
    }

    fn print_activities(&self) -> io::Result<()> {
        println!(self.rt; "")?;
        println!(self.rt; "activity  duration       floor  open days")?;
        for a in 0..self.project.count() {
            let duration = self.project.duration(a).unwrap_or(0);
            let floor = floor_of(self.project, a);
            let open = open_slots_of(self.project, a);
            println!(self.rt; "{a:>8}  {duration:>8}  {floor:>10}  {open:>9}")?;
        }
        Ok(())
    }

    fn print_relations(&self) -> io::Result<()> {
        println!(self.rt; "")?;
        println!(self.rt; "relations")?;
        for number in 0..self.project.lag_count() {
            self.print_relation(number)?;
        }
        Ok(())
    }

    fn print_relation(&self, number: u16) -> io::Result<()> {
        let (Some(relation), Some(lag)) = (self.project.relation(number), self.project.lag(number))
        else {
            return Ok(());
        };
        println!(self.rt;
            "{number}: {} (gap {} from {} to {})",
            InWords(relation),
            lag.gap,
            lag.from,
            lag.to
        )
    }

    // A heading and lines, as other parts of the report, but of some activities alone.
    fn print_closed(&self) -> io::Result<()> {
        println!(self.rt; "")?;
        println!(self.rt; "closed days")?;
        for a in 0..self.project.count() {
            if open_slots_of(self.project, a) < self.project.horizon() {
                self.print_closed_of(a)?;
            }
        }
        Ok(())
    }

    fn print_closed_of(&self, activity: u16) -> io::Result<()> {
        print!(self.rt; "activity {activity}:")?;
        for slot in (0..self.project.horizon()).map(Slot) {
            if matches!(self.project.price(activity, slot), Some(Price::Closed(_))) {
                print!(self.rt; " {}", slot.day())?;
            }
        }
        println!(self.rt; "")
    }
}
