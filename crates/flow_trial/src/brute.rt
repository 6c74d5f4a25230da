// The least capacity of all cuts, by trying every set of nodes.
use crate::table::Table;
use flow::network::Capacity;

/// Whether a node lies on the side of the source: bit v − 2 of the set says it of node v.
// A number for a set, so that counting goes through all sets.
fn on_source_side(set: u32, node: usize) -> bool {
    match node {
        0 => true,
        1 => false,
        _ => (set >> ((node - 2) % 32) as u32) % 2 == 1,
    }
}

/// The capacity of a cut; none if an unbounded arc leaves it.
pub fn cut_capacity(table: &Table, set: u32) -> Option<u64> {
    let mut sum = 0u64;
    for arc in table.rows.iter().map(|row| row.arc) {
        if on_source_side(set, arc.tail) && !on_source_side(set, arc.head) {
            let Capacity::Bounded(most) = arc.capacity else {
                return None;
            };
            sum = sum.saturating_add(most as u64);
        }
    }
    Some(sum)
}

/// The least capacity of all cuts; none if an unbounded arc leaves each of them.
pub fn least_cut(table: &Table) -> Option<u64> {
    (0..64).filter_map(|set| cut_capacity(table, set)).min()
}
