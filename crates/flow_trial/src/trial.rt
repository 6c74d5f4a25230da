// One network, run through the engine and held to the least of all its cuts.
use crate::brute::{cut_capacity, least_cut};
use crate::table::Table;
use flow::network::Network;
use flow::turned::Turned;
use max_flow::engine::max_flow;

/// What a trial found.
#[derive(Drop)]
pub enum Verdict {
    /// Value, marks and the value of the turned network are as the least cut has them.
    Agrees(u64),
    /// Refused, and every cut is unbounded.
    Refused,
    /// The engine and the cuts differ.
    Differs,
}

/// What the engine finds.
#[derive(Clone, Copy)]
struct Found {
    value: u64,
    /// The set of the marked nodes, as `cut_capacity` takes it.
    marked: u32,
}

fn marked_set(nodes: &[u32; 32]) -> u32 {
    (0..6u32)
        .filter(|v| nodes[*v as usize + 2] == 1)
        .fold(0, |set, v| set | (1 << v))
}

/// Runs a network of at most 8 nodes and 16 arcs; none if it is refused.
fn run<N: Network>(network: &N) -> Option<Found> {
    let mut flow = [0; 16];
    let mut nodes = [0; 32];
    let value = max_flow(network, &mut flow, &mut nodes).ok()?;
    Some(Found {
        value,
        marked: marked_set(&nodes),
    })
}

/// Runs a network and its turned network.
pub fn tried(table: &Table) -> Verdict {
    match (least_cut(table), run(table), run(&Turned(table))) {
        (Some(least), Some(on), Some(turned))
            if on.value == least
                && turned.value == least
                && cut_capacity(table, on.marked) == Some(least) => Verdict::Agrees(least),
        (None, None, None) => Verdict::Refused,
        _ => Verdict::Differs,
    }
}
