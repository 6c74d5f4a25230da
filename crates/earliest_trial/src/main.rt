#![tactic(auto)]
// Tries the earliest starts on some hundred small projects, bare and under layers, against a search of
// every start list, and prints what came out.
mod brute;
mod compare;
mod worked;

use compare::{Verdict, compare, memory_is_tested};
use model::project::Project;
use std::io;
use trial_projects::drawn::Spread;
use trial_projects::stacks::{Trial, try_projects};

/// How many trials ended in which way.
#[derive(Clone, Copy, Default)]
struct Tally {
    starts: u32,
    impossible: u32,
    longest: u16,
    differ: u32,
    tested: u32,
}

impl Tally {
    fn note(&mut self, verdict: Verdict) {
        match verdict {
            Verdict::Starts => self.starts = self.starts.saturating_add(1),
            Verdict::Impossible(length) => {
                self.impossible = self.impossible.saturating_add(1);
                self.longest = self.longest.max(length);
            }
            Verdict::Differs => self.differ = self.differ.saturating_add(1),
        }
    }
}

impl Trial for Tally {
    fn on<P: Project>(&mut self, project: &P) {
        self.note(compare(project));
        let is_bare = project.height() == 0;
        if is_bare && memory_is_tested(project) {
            self.tested = self.tested.saturating_add(1);
        }
    }
}

fn main(rt: HostRuntime) -> io::Result<()> {
    worked::print_examples(&rt)?;
    let mut tally = Tally::default();
    try_projects::<Tally, 64>(&mut tally, Spread::Even);
    let Tally {
        starts,
        impossible,
        longest,
        differ,
        tested,
    } = tally;
    println!(rt; "projects with earliest starts: {starts}")?;
    println!(rt; "projects with a chain: {impossible}, the longest of {longest} entries")?;
    println!(rt; "projects whose memory is tested: {tested}")?;
    println!(rt; "differences: {differ}")
}
