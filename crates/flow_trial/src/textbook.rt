// Networks as textbooks have them: one arc and none, arcs side by side, a way that must be taken back,
// unbounded arcs, loops, a matching.
use crate::table::Table;
use flow::network::Capacity;
use flow::network::Capacity::{Bounded, Unbounded};

/// A textbook's network.
pub struct Example {
    nodes: usize,
    /// Tail, head and capacity of each.
    arcs: &'static [(usize, usize, Capacity)],
}

pub static EXAMPLES: [Example; 12] = [
    Example {
        nodes: 6,
        arcs: &[
            (0, 2, Bounded(16)),
            (0, 3, Bounded(13)),
            (2, 4, Bounded(12)),
            (3, 2, Bounded(4)),
            (3, 5, Bounded(14)),
            (4, 3, Bounded(9)),
            (4, 1, Bounded(20)),
            (5, 4, Bounded(7)),
            (5, 1, Bounded(4)),
        ],
    },
    Example {
        nodes: 2,
        arcs: &[(0, 1, Bounded(5))],
    },
    Example {
        nodes: 2,
        arcs: &[(0, 1, Bounded(3)), (0, 1, Bounded(4)), (1, 0, Bounded(9))],
    },
    Example {
        nodes: 4,
        arcs: &[
            (0, 2, Bounded(1)),
            (0, 3, Bounded(1)),
            (2, 3, Bounded(1)),
            (2, 1, Bounded(1)),
            (3, 1, Bounded(1)),
        ],
    },
    Example {
        nodes: 4,
        arcs: &[
            (0, 2, Bounded(1000)),
            (0, 3, Bounded(1000)),
            (2, 3, Bounded(1)),
            (2, 1, Bounded(1000)),
            (3, 1, Bounded(1000)),
        ],
    },
    Example {
        nodes: 3,
        arcs: &[(0, 2, Unbounded), (2, 1, Unbounded)],
    },
    Example {
        nodes: 3,
        arcs: &[(2, 1, Bounded(7)), (0, 2, Unbounded)],
    },
    Example {
        nodes: 3,
        arcs: &[
            (2, 2, Bounded(5)),
            (2, 0, Bounded(3)),
            (0, 2, Bounded(4)),
            (2, 1, Bounded(9)),
        ],
    },
    Example {
        nodes: 2,
        arcs: &[
            (0, 1, Bounded(2_000_000_000)),
            (0, 1, Bounded(2_000_000_000)),
            (0, 1, Bounded(2_000_000_000)),
        ],
    },
    Example {
        nodes: 8,
        arcs: &[
            (0, 2, Bounded(1)),
            (0, 3, Bounded(1)),
            (0, 4, Bounded(1)),
            (2, 5, Bounded(1)),
            (2, 6, Bounded(1)),
            (3, 5, Bounded(1)),
            (4, 6, Bounded(1)),
            (4, 7, Bounded(1)),
            (5, 1, Bounded(1)),
            (6, 1, Bounded(1)),
            (7, 1, Bounded(1)),
        ],
    },
    Example {
        nodes: 4,
        arcs: &[(0, 2, Bounded(5)), (3, 1, Bounded(5))],
    },
    Example {
        nodes: 2,
        arcs: &[],
    },
];

impl Example {
    pub fn table(&self) -> Table {
        let mut table = Table::new(self.nodes);
        for (tail, head, capacity) in self.arcs.iter().copied() {
            table.add(tail, head, capacity);
        }
        table
    }
}
