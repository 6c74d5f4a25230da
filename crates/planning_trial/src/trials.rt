// The trials of a project, and how often each thing was seen in them.
use crate::calls::{SPACIOUS, Task};
use crate::checker::{defined_answer, list_of};
use crate::damage::{Proposal, drawn_damage};
use crate::least::{Least, cost_of, lists_of_least_cost};
use crate::network::time_network;
use certificate::check::check;
use least_cost::side::Side;
use model::project::Project;
use model::refusal::{Fault, Refusal};
use trial_projects::drawn::Source;
use trial_projects::stacks::Trial;

const DAMAGES: u8 = 100;

// What the check may refuse of these plans.
const FAULTS: [Fault; 7] = [
    Fault::StartBytes,
    Fault::FlowWords,
    Fault::StartClosed,
    Fault::LagBroken,
    Fault::WordAbove,
    Fault::Unbalanced,
    Fault::ValueDiffers,
];

/// How often a fault was answered.
#[derive(Clone, Copy)]
pub struct Seen {
    pub fault: Fault,
    pub times: u32,
}

/// How often each thing was seen.
#[derive(Clone, Copy)]
pub struct Tally {
    /// Lists found.
    pub plans: u32,
    /// Calls refused as no list meets.
    pub refused: u32,
    /// Damaged plans that the check passes.
    pub passed: u32,
    /// Those that it refuses.
    pub rejected: [Seen; 7],
    /// What is not as it should be.
    pub differ: u32,
    /// Draws the damages.
    source: Source,
}

impl Tally {
    // No `Default`: the damages are drawn from a seed.
    pub fn fresh() -> Tally {
        Tally {
            plans: 0,
            refused: 0,
            passed: 0,
            rejected: FAULTS.map(|fault| Seen { fault, times: 0 }),
            differ: 0,
            source: Source(1736),
        }
    }

    fn expect(&mut self, fact: bool) {
        if !fact {
            self.differ = self.differ.saturating_add(1);
        }
    }

    fn note_answer(&mut self, answer: Result<(), Refusal>) {
        match answer {
            Ok(()) => self.passed = self.passed.saturating_add(1),
            Err(refusal) => {
                for seen in self.rejected.iter_mut() {
                    if seen.fault == refusal.fault {
                        seen.times = seen.times.saturating_add(1);
                    }
                }
            }
        }
    }

    // The check answers as defined, and what passes costs no more than the cheapest list.
    fn try_check<P: Project>(
        &mut self,
        project: &P,
        least: &Least,
        proposal: &Proposal,
    ) -> Result<(), Refusal> {
        let starts = proposal.starts();
        let flow = proposal.flow();
        let answer = check(project, starts, flow);
        self.expect(answer == defined_answer(project, starts, flow));
        self.expect(answer.is_err() || cost_of(project, &list_of(starts)) == least.cost);
        answer
    }

    // Each time a plan is damaged once or twice; twice shows which fault is answered first.
    fn try_damages<P: Project>(&mut self, project: &P, least: &Least, found: &Proposal) {
        let network = time_network(project);
        for _ in 0..DAMAGES {
            let mut damaged = *found;
            damaged.apply(drawn_damage(&mut self.source, project, &network, &damaged));
            if self.source.byte() % 2 == 0 {
                damaged.apply(drawn_damage(&mut self.source, project, &network, &damaged));
            }
            let answer = self.try_check(project, least, &damaged);
            self.note_answer(answer);
        }
    }

    fn try_task<P: Project>(&mut self, task: &Task<'_, P>) {
        let called = task.call(SPACIOUS);
        self.expect(task.is_as_promised(&called));
        self.expect(task.memory_is_tested());
        match task.least {
            None => self.refused = self.refused.saturating_add(1),
            Some(least) => {
                let found = Proposal::of(&called);
                let answer = self.try_check(task.project, &least, &found);
                self.expect(answer.is_ok());
                self.plans = self.plans.saturating_add(1);
                self.try_damages(task.project, &least, &found);
            }
        }
    }
}

impl Trial for Tally {
    fn on<P: Project>(&mut self, project: &P) {
        let least = lists_of_least_cost(project);
        for side in [Side::Early, Side::Late] {
            self.try_task(&Task {
                side,
                project,
                least,
            });
        }
    }
}
