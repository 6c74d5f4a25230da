// What is measured by the floors of a project: the most that each flow word may be, and what starts cost.
ghost use Rattle.std.specs.Prelude.{◌≡◌, ◌*◌, ◌^◌, ◌<◌, ◌≤◌, length};
ghost use Rattle.std.specs.Option.{unwrap_or};
ghost use Rattle.model.specs.Meaning.{price_of};
ghost use Rattle.model.specs.Starts.{floor};
ghost use Rattle.model.specs.Chosen.{Meets};
ghost use Rattle.flow.specs.Sums.{sum_to};
ghost use Rattle.certificate.specs.Faults.{unless, arcs_of, most, words_fault};
ghost use Rattle.certificate.specs.Sums.{FloorsOf, most_terms, above_floors, above_if_open};

use model::floors::floor_of;
use model::price::Price;
use model::project::Project;
use model::refusal::{Fault, Refusal};
use model::time::Slot;
use plan_theory::sizes::flow_words;

// No word may be above this: 64 activities whose prices differ by at most 2,000,000,000.
const WORD_LIMIT: u64 = 128_000_000_000;

/// The floors of all activities of a project; 0 past the last of them.
#[derive(Drop)]
pub struct Floors<'a, P: Project> {
    project: &'a P,
    floors: [i32; 64],
    ghost floored: { FloorsOf (P.meaning project.now) floors },
}

impl<'a, P: Project> Floors<'a, P> {
    /// The floors of a project.
    pub fn of(project: &'a P) -> Self
        ensures { result.project.now ≡ project.now }
    {
        let count = project.count() as usize;
        let mut floors = [0; 64];
        for (a, floor) in floors[..count].iter_mut().enumerate() {
            *floor = floor_of(project, a as u16);
        }
        Floors { project, floors }
    }

    // What an open price lies above the floor; nothing where the slot is not open.
    fn above(&self, activity: u16, slot: u16) -> Option<u64>
        requires { activity < (P.meaning self.now.project.now).n }
        ensures value { let m = P.meaning self.now.project.now in
            result ≡ above_if_open (floor m activity) (price_of m activity slot) }
        ensures low { unwrap_or result 0 ≤ 2 ^ 32 }
    {
        match self.project.price(activity, Slot(slot)) {
            Some(Price::Open(price)) => Some(price.abs_diff(self.floors[activity as usize]) as u64),
            _ => None,
        }
    }

    // The most that the word of an arc may be: what its price lies above the floor, if it has one.
    fn most(&self, arc: usize) -> u64
        ensures { result ≡ most (P.meaning self.now.project.now) arc }
    {
        let horizon = self.project.horizon() as usize;
        if arc >= self.project.count() as usize * horizon {
            return WORD_LIMIT;
        }
        self.above((arc / horizon) as u16, (arc % horizon) as u16)
            .unwrap_or(WORD_LIMIT)
    }

    /// No word lies above what its arc can carry, or the least arc whose word does.
    pub fn check_words(&self, flow: &[u64]) -> Result<(), Refusal>
        requires { arcs_of (P.meaning self.now.project.now) ≤ length flow.now }
        ensures { result ≡ unless (words_fault (P.meaning self.now.project.now) flow.now) }
    {
        for (arc, word) in flow[..flow_words(self.project)].iter().enumerate() {
            if *word > self.most(arc) {
                return Err(Fault::WordAbove.at(arc as u16));
            }
        }
        Ok(())
    }

    /// What starts that meet the project cost above the floors.
    pub fn cost_above(&self, starts: &[u8]) -> u64
        requires { Meets (P.meaning self.now.project.now) starts.now }
        ensures value { let m = P.meaning self.now.project.now in
            result ≡ sum_to (above_floors m starts.now) m.n }
        ensures low { result ≤ most_terms * 2 ^ 32 }
    {
        (0..self.project.count())
            .map(|a| self.above(a, starts[a as usize] as u16).unwrap_or(0))
            .sum()
    }
}
