// The time network of a small project as a plain list of arcs, and sums over all of them.
use crate::least::floor_of;
use arrayvec::ArrayVec;
use model::lag::Lag;
use model::project::Project;
use trial_projects::lists::open_price;

/// No flow word may be above this.
pub const WORD_LIMIT: u64 = 128_000_000_000;

/// An arc from its tail to its head. Without a capacity it is unbounded.
#[derive(Clone, Copy, Default)]
struct Arc {
    tail: u16,
    head: u16,
    capacity: Option<u64>,
}

/// How many nodes there are, and the arcs: a project of four activities, six slots and four lags has 72. Node 0
/// is the source, node 1 the sink.
#[derive(Drop)]
pub struct Network {
    pub nodes: u16,
    arcs: ArrayVec<Arc, 72>,
}

/// What leaves a node, and what enters it.
#[derive(Clone, Copy)]
pub struct Passing {
    pub out: u64,
    pub into: u64,
}

fn word_at(flow: &[u64], arc: u16) -> u64 {
    flow.get(arc as usize).copied().unwrap_or(0)
}

impl Network {
    fn add(&mut self, arc: Arc) {
        let _ = self.arcs.try_push(arc);
    }

    /// How many arcs there are.
    pub fn arc_count(&self) -> u16 {
        self.arcs.len() as u16
    }

    /// The most that the word of an arc may be.
    pub fn most(&self, arc: u16) -> u64 {
        self.arcs
            .as_slice()
            .get(arc as usize)
            .and_then(|arc| arc.capacity)
            .map_or(WORD_LIMIT, |capacity| capacity.min(WORD_LIMIT))
    }

    /// The least arc whose word is more than it may be.
    pub fn first_above(&self, flow: &[u64]) -> Option<u16> {
        (0..self.arc_count()).find(|arc| word_at(flow, *arc) > self.most(*arc))
    }

    /// What passes a node, summed over all arcs.
    pub fn passing(&self, flow: &[u64], node: u16) -> Passing {
        let mut out = 0u64;
        let mut into = 0u64;
        for (arc, word) in self.arcs.as_slice().iter().zip(flow) {
            if arc.tail == node {
                out = out.saturating_add(*word);
            }
            if arc.head == node {
                into = into.saturating_add(*word);
            }
        }
        Passing { out, into }
    }

    /// The least node, but for source and sink, that more or less leaves than enters.
    pub fn first_unbalanced(&self, flow: &[u64]) -> Option<u16> {
        (2..self.nodes).find(|node| {
            let Passing { out, into } = self.passing(flow, *node);
            out != into
        })
    }
}

// The node which says that an activity starts at a slot or later: the source at slot 0, the sink from the
// horizon on.
fn node_at(horizon: u16, activity: u16, slot: u16) -> u16 {
    if slot == 0 {
        0
    } else if slot >= horizon {
        1
    } else {
        let before = activity.saturating_mul(horizon - 1);
        before.saturating_add(slot - 1).saturating_add(2)
    }
}

fn arc_on<P: Project>(project: &P, activity: u16, slot: u16) -> Arc {
    let horizon = project.horizon();
    let floor = floor_of(project, activity);
    Arc {
        tail: node_at(horizon, activity, slot),
        head: node_at(horizon, activity, slot.saturating_add(1)),
        capacity: open_price(project, activity, slot).map(|price| price.abs_diff(floor)),
    }
}

fn arc_back(horizon: u16, activity: u16, slot: u16) -> Arc {
    Arc {
        tail: node_at(horizon, activity, slot.saturating_add(1)),
        head: node_at(horizon, activity, slot),
        capacity: None,
    }
}

fn arc_of_lag(horizon: u16, lag: Lag, slot: u16) -> Arc {
    let moved = (slot as i32 + lag.gap as i32).clamp(0, horizon as i32);
    Arc {
        tail: node_at(horizon, lag.from as u16, slot),
        head: node_at(horizon, lag.to as u16, moved as u16),
        capacity: None,
    }
}

/// The time network of a project of at most four activities, six slots and four lags. Its arcs stand in rows of
/// one for each slot: a row on for each activity, then a row back for each, then a row for each lag.
pub fn time_network<P: Project>(project: &P) -> Network {
    let count = project.count();
    let horizon = project.horizon();
    let mut network = Network {
        nodes: count
            .saturating_mul(horizon.saturating_sub(1))
            .saturating_add(2),
        arcs: ArrayVec::new(),
    };
    for activity in 0..count {
        for slot in 0..horizon {
            network.add(arc_on(project, activity, slot));
        }
    }
    for activity in 0..count {
        for slot in 0..horizon {
            network.add(arc_back(horizon, activity, slot));
        }
    }
    for lag in (0..project.lag_count()).filter_map(|number| project.lag(number)) {
        for slot in 0..horizon {
            network.add(arc_of_lag(horizon, lag, slot));
        }
    }
    network
}
