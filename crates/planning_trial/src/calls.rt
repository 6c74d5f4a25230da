// The calls for the cheapest and the latest list, held to the lists of least cost and to what they promise of
// the memory lent.
use crate::least::{Least, floors_of};
use crate::network::time_network;
use least_cost::plans::{cheapest, latest};
use least_cost::side::Side;
use model::floors::sum_of_floors;
use model::project::Project;
use model::refusal::{Fault, Refusal};
use trial_projects::memory::{FILLER, cleared, untouched, written};

// Whether a value is what a list of this cost costs above these floors.
fn is_above(value: u64, cost: i64, floors: i64) -> bool {
    floors as i128 + value as i128 == cost as i128
}

/// How much memory of each kind there is.
#[derive(Clone, Copy)]
pub struct Lengths {
    pub bytes: u16,
    pub words: u16,
    pub nodes: u16,
}

/// Enough for any project of four activities, six slots and four lags, and some to spare.
pub const SPACIOUS: Lengths = Lengths {
    bytes: 6,
    words: 80,
    nodes: 96,
};

/// The memory of a call after it, and what the call answered.
#[derive(Clone, Copy)]
pub struct Called {
    pub starts: [u8; 6],
    pub flow: [u64; 80],
    nodes: [u32; 96],
    answer: Result<u64, Refusal>,
}

impl Called {
    // Whether the call was refused in this way, with all memory as it was.
    fn is_refused(&self, refusal: Refusal) -> bool {
        self.answer == Err(refusal)
            && untouched(&self.starts, 0)
            && untouched(&self.flow, 0)
            && untouched(&self.nodes, 0)
    }
}

/// A side of a project, and the lists of least cost that it is held to; none if no list meets the project.
#[derive_where(Clone, Copy)]
pub struct Task<'a, P> {
    pub side: Side,
    pub project: &'a P,
    pub least: Option<Least>,
}

impl<P: Project> Task<'_, P> {
    // The library has a call for each side, and the list that is wanted goes by the side, too: a closure in its
    // place would have to come with that list.
    fn plan(&self, starts: &mut [u8], flow: &mut [u64], nodes: &mut [u32]) -> Result<u64, Refusal> {
        match self.side {
            Side::Early => cheapest(self.project, starts, flow, nodes),
            Side::Late => latest(self.project, starts, flow, nodes),
        }
    }

    fn lengths_needed(&self) -> Lengths {
        let network = time_network(self.project);
        Lengths {
            bytes: self.project.count(),
            words: network.arc_count(),
            nodes: network.nodes.saturating_mul(4),
        }
    }

    /// Fills memory and lends so much of it to the call.
    pub fn call(&self, lengths: Lengths) -> Called {
        let mut starts = [FILLER; 6];
        let mut flow = [FILLER as u64; 80];
        let mut nodes = [FILLER as u32; 96];
        let answer = self.plan(
            &mut starts[..(lengths.bytes as usize).min(6)],
            &mut flow[..(lengths.words as usize).min(80)],
            &mut nodes[..(lengths.nodes as usize).min(96)],
        );
        Called {
            starts,
            flow,
            nodes,
            answer,
        }
    }

    /// Whether answer and memory are as promised.
    pub fn is_as_promised(&self, called: &Called) -> bool {
        let taken = self.lengths_needed();
        if !cleared(&called.nodes, taken.nodes as usize) {
            return false;
        }
        match (called.answer, self.least) {
            (Ok(value), Some(least)) => {
                let floors = floors_of(self.project);
                is_above(value, least.cost, floors)
                    && sum_of_floors(self.project) == floors
                    && written(&called.starts, &least.list(self.side), taken.bytes)
                    && untouched(&called.flow, taken.words as usize)
            }
            (Err(refusal), None) => {
                refusal == Fault::Unbounded.at(0)
                    && untouched(&called.starts, 0)
                    && untouched(&called.flow, 0)
            }
            _ => false,
        }
    }

    /// Whether each memory that is one short is refused with the length needed, in order, and exactly enough
    /// is enough.
    pub fn memory_is_tested(&self) -> bool {
        let enough = self.lengths_needed();
        let all_short = Lengths {
            bytes: enough.bytes.saturating_sub(1),
            words: enough.words.saturating_sub(1),
            nodes: enough.nodes.saturating_sub(1),
        };
        let words_short = Lengths {
            bytes: enough.bytes,
            ..all_short
        };
        let nodes_short = Lengths {
            words: enough.words,
            ..words_short
        };
        self.call(all_short)
            .is_refused(Fault::StartBytes.at(enough.bytes))
            && self
                .call(words_short)
                .is_refused(Fault::FlowWords.at(enough.words))
            && self
                .call(nodes_short)
                .is_refused(Fault::NodeWords.at(enough.nodes))
            && self.is_as_promised(&self.call(enough))
    }
}
