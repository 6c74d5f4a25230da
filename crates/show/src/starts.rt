// The earliest days and those of least cost, or the chain of reasons why there are none.
use crate::report::Report;
use crate::wording::InWords;
use certificate::check::check;
use earliest::chain::{Entry, How};
use earliest::earliest::{chain_entries, earliest, node_words};
use least_cost::plans::{cheapest, flow_words, latest};
use model::floors::sum_of_floors;
use model::project::Project;
use model::time::Slot;
use std::io;

impl<P: Project> Report<'_, P> {
    /// Prints the earliest starts and those of least cost, or why no start list meets the project.
    pub fn print_plans(&self) -> io::Result<()> {
        let mut starts = [0u8; 64];
        let mut nodes = vec![in self.rt.alloc(); 0u32; node_words(self.project)]?;
        let blank = Entry {
            activity: 0,
            slot: Slot(0),
            how: How::Start,
        };
        let mut chain = vec![in self.rt.alloc(); blank; chain_entries(self.project)]?;
        println!(self.rt; "")?;
        match earliest(
            self.project,
            &mut starts,
            nodes.as_mut_slice(),
            chain.as_mut_slice(),
        ) {
            Ok(()) => {
                println!(self.rt; "earliest starts")?;
                self.print_starts(&starts)?;
                self.print_cheapest()
            }
            Err(refusal) => self.print_chain(chain.as_slice(), refusal.place),
        }
    }

    fn print_cheapest(&self) -> io::Result<()> {
        let mut starts = [0u8; 64];
        let mut flow = vec![in self.rt.alloc(); 0u64; flow_words(self.project)]?;
        let mut nodes = vec![in self.rt.alloc(); 0u32; node_words(self.project)]?;
        if let Ok(value) = cheapest(
            self.project,
            &mut starts,
            flow.as_mut_slice(),
            nodes.as_mut_slice(),
        ) {
            let cost = sum_of_floors(self.project) as i128 + value as i128;
            println!(self.rt; "")?;
            println!(self.rt; "cheapest starts, cost {cost}")?;
            self.print_checked(&starts, flow.as_slice())?;
        }
        if latest(
            self.project,
            &mut starts,
            flow.as_mut_slice(),
            nodes.as_mut_slice(),
        )
        .is_ok()
        {
            println!(self.rt; "")?;
            println!(self.rt; "latest starts of that cost")?;
            self.print_checked(&starts, flow.as_slice())?;
        }
        Ok(())
    }

    // A plan, and what the check says to it.
    fn print_checked(&self, starts: &[u8; 64], flow: &[u64]) -> io::Result<()> {
        self.print_starts(starts)?;
        match check(self.project, starts, flow) {
            Ok(()) => println!(self.rt;
                "checked: no start list that meets this campaign costs less"
            ),
            Err(refusal) => println!(self.rt;
                "the check refuses this: {} {}",
                refusal.fault.number(),
                refusal.place
            ),
        }
    }

    fn print_starts(&self, starts: &[u8; 64]) -> io::Result<()> {
        let count = self.project.count() as usize;
        for (a, start) in starts.iter().take(count).enumerate() {
            let day = Slot(*start as u16).day();
            println!(self.rt; "activity {a}: day {day}")?;
        }
        Ok(())
    }

    fn print_chain(&self, chain: &[Entry], length: u16) -> io::Result<()> {
        println!(self.rt; "no start list meets this campaign")?;
        for entry in chain.iter().take(length as usize) {
            println!(self.rt; "{}", InWords(*entry))?;
        }
        let days = self.project.horizon();
        println!(self.rt; "but there are {days} days")
    }
}
