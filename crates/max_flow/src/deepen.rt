// Deepening: after a search, more ways are looked for in depth, from the sink back over arcs that come from
// nodes of smaller rank. Each node keeps its place among its arcs, so that no arc is tried twice.
ghost use Rattle.std.specs.Prelude.{◌≡◌, ℕ, ◌+◌, ◌<◌, ◌≤◌, ◌≢◌};
ghost use Rattle.max_flow.specs.Layout.{net_of, Kept, KeptAll};
ghost use Rattle.max_flow.specs.Stages.{WayIn, Stepped, Tried, Hits};

use crate::nodes::Nodes;
use crate::raising::Raising;
use flow::network::Network;
use flow::visit::{Visit, Way};

/// An arc that leads to a node, the node that it comes from, its own cursor and the next.
#[derive(Clone, Copy)]
pub struct Hit {
    pub arc: usize,
    pub node: usize,
    pub cursor: usize,
    pub next: usize,
}

// The node of a search in depth is another after each step, so the way from it is a clause and no ghost field.
impl<N: Network> Nodes<'_, N> {
    /// The first arc from a cursor on over which a node is come to one way, from a node of smaller rank.
    #[inline(always)]
    fn hit(&self, flow: &[u64], node: usize, way: Way, cursor: usize) -> Option<Hit>
        requires inside { node < (net_of self.now).nodes }
        requires low { cursor < 2147483648 }
        ensures { Hits flow.now self.now node result }
    {
        let visit = Visit::new(self.network, node);
        let rank = self.rank[node];
        let mut cursor = cursor;
        for step in visit.steps(way.turned(), cursor, None) {
            let from = self.rank[step.node];
            if from > 0 && from < rank && visit.passes(way, flow, step.arc) {
                return Some(Hit {
                    arc: step.arc,
                    node: step.node,
                    cursor,
                    next: step.next,
                });
            }
            cursor = step.next;
        }
        None
    }

    /// Tries to go down from a node, over an arc that is passed one way.
    #[inline(always)]
    fn descend(&mut self, flow: &[u64], node: usize, way: Way) -> Option<usize>
        requires inside { node < (net_of self.old).nodes }
        requires way { WayIn flow.now self.old 0 node }
        ensures kept { Kept self.old self.new }
        ensures tried { Tried flow.now self.new node result }
    {
        let hit = self.hit(flow, node, way, self.place[node] as usize / 2)?;
        let place = (2 * hit.cursor) as u32;
        match way {
            Way::Along => {
                self.place[node] = place;
                self.far[node] = self.far[node].max(hit.next as u32);
            }
            Way::Back => self.place[node] = place + 1,
        }
        self.link[hit.node] = hit.arc as u32;
        Some(hit.node)
    }

    /// Goes back from a node that leads nowhere to the node that its way goes on to; it has no rank from now on.
    fn retreat(&mut self, flow: &[u64], node: usize) -> usize
        requires inside { node < (net_of self.old).nodes }
        requires passed { node ≢ 1 }
        requires way { WayIn flow.now self.old 0 node }
        ensures kept { Kept self.old self.new }
        ensures inside { result < (net_of self.new).nodes }
        ensures way { WayIn flow.now self.new 0 result }
    {
        let _ = flow;
        let link = self.link_from(node);
        self.rank[node] = 0;
        link.node
    }

    /// One step of the search in depth, down or back; none when the sink leads nowhere. A node's place is twice a
    /// cursor among the arcs that enter it, and once none of them leads on, twice a cursor among those that leave it
    /// and one more.
    fn step(&mut self, flow: &[u64], node: usize) -> Option<usize>
        requires inside { node < (net_of self.old).nodes }
        requires way { WayIn flow.now self.old 0 node }
        ensures kept { Kept self.old self.new }
        ensures stepped { Stepped flow.now self.new result }
    {
        // Two numbers in one word: four words a node is all that is lent.
        if self.place[node] % 2 == 0 {
            if let Some(from) = self.descend(flow, node, Way::Along) {
                return Some(from);
            }
            self.place[node] = 1;
        }
        if let Some(from) = self.descend(flow, node, Way::Back) {
            return Some(from);
        }
        if node == 1 {
            return None;
        }
        Some(self.retreat(flow, node))
    }
}

impl<N: Network> Raising<'_, '_, N> {
    /// Looks for ways in depth and augments along each, until the sink leads nowhere.
    pub fn deepen(&mut self)
        ensures kept { KeptAll self.old self.new }
        ensures more { self.old.value ≤ self.new.value }
    {
        let nodes = &mut *self.nodes;
        nodes.place.fill(0);
        let mut node = 1;
        for _ in 0..most_steps(self.nodes.network) {
            if node == 0 {
                node = self.augment();
                continue;
            }
            let flow = &mut *self.flow;
            let Some(next) = self.nodes.step(flow, node) else {
                break;
            };
            node = next;
        }
    }
}

/// More steps than a search in depth takes: each way has fewer nodes than there are, and each way but the
/// last fills an arc, one way or the other. Should they not suffice, the next search goes on from there.
fn most_steps<N: Network>(network: &N) -> usize {
    network
        .node_count()
        .saturating_add(1)
        .saturating_mul(network.arc_count().saturating_add(1))
        .saturating_mul(4)
}
