// The driver: searches and augmentations until the sink is not found, then the marks.
ghost use Rattle.std.specs.Prelude.{◌≡◌, ℕ, ◌+◌, ◌*◌, ◌<◌, ◌≤◌, min, length, if◌then◌else◌, nat_lt, slice_index};
ghost use Rattle.flow.specs.Nets.{Net};
ghost use Rattle.flow.specs.Cuts.{Finite};
ghost use Rattle.max_flow.specs.Layout.{Parts, net_of, Kept, KeptAll};
ghost use Rattle.max_flow.specs.Stages.{Reaches, Climbed};
ghost use Rattle.max_flow.specs.Outcome.{Solved, Outcome};

use crate::nodes::Nodes;
use crate::raising::Raising;
use crate::start::Start;
use flow::network::Network;
use flow::unhindered::UnboundedOnly;
use model::refusal::{Fault, Refusal};

/// Marks the ranked among the first nodes with 1, and leaves 0 everywhere else.
fn mark(nodes: &mut [u32], count: usize)
    requires { count ≤ length nodes.old }
    ensures { (i : ℕ) → i < length nodes.old
        → slice_index nodes.new i ≡ (if nat_lt i count then min (slice_index nodes.old i) 1 else 0) }
{
    let (ranks, rest) = nodes.split_at_mut(count);
    for rank in ranks.iter_mut() {
        *rank = (*rank).min(1);
    }
    rest.fill(0);
}

impl<N: Network> Raising<'_, '_, N> {
    /// Raises the flow until the sink is not found. Quick rounds do nearly all of it, and the whole search shows
    /// that nothing is left to do.
    fn climb(&mut self, start: &Start)
        ensures kept { KeptAll self.old self.new }
        ensures climbed { Climbed (net_of self.new.nodes.now) self.new.flow.now self.new.nodes.now.rank.now self.new.value }
    {
        self.quick_rounds(start);
        loop {
            let flow = &mut *self.flow;
            if !self.nodes.search(flow) {
                return;
            }
            self.nodes.lay_way(flow);
            self.augment();
            self.deepen();
        }
    }
}

impl<N: Network> Nodes<'_, N> {
    /// Raises a flow from none until the sink is not found; its value. The ranks are those that a search over
    /// unbounded arcs alone has left.
    fn raise(&mut self, flow: &mut [u64]) -> u64
        requires flows { length flow.old ≡ (net_of self.old).arcs }
        requires finite { Finite (net_of self.old) }
        ensures kept { Kept self.old self.new }
        ensures climbed { Climbed (net_of self.new) flow.new self.new.rank.now result }
    {
        // Filled where it stands: to hand on so large a table takes longer than the flow of a small network.
        let mut start = Start::new();
        start.take_ranks(self.rank);
        self.add_roots(&mut start);
        flow.fill(0);
        let mut raising = Raising {
            nodes: self,
            flow,
            value: 0,
        };
        raising.climb(&start);
        raising.value
    }
}

// Here and in `raise_in` the parts come one by one: proofs follow what a struct is lent back to parameters alone.
/// Searches a network without flow, over these parts of the node words; whether the sink is found.
fn search_in<N: Network>(
    network: &N,
    rank: &mut [u32],
    link: &mut [u32],
    place: &mut [u32],
    far: &mut [u32],
) -> bool
    requires { Parts (N.net network.now).nodes rank.old link.old place.old far.old }
    ensures { Reaches (N.net network.now) rank.new result }
{
    let mut nodes = Nodes {
        network,
        rank,
        link,
        place,
        far,
    };
    nodes.search(&[])
}

/// Raises a flow from none over these parts of the node words, until the sink is not found; its value.
fn raise_in<N: Network>(
    network: &N,
    flow: &mut [u64],
    rank: &mut [u32],
    link: &mut [u32],
    place: &mut [u32],
    far: &mut [u32],
) -> u64
    requires flows { length flow.old ≡ (N.net network.now).arcs }
    requires parts { Parts (N.net network.now).nodes rank.old link.old place.old far.old }
    requires finite { Finite (N.net network.now) }
    ensures { Climbed (N.net network.now) flow.new rank.new result }
{
    let mut nodes = Nodes {
        network,
        rank,
        link,
        place,
        far,
    };
    nodes.raise(flow)
}

/// The maximum flow in words that are just enough; none where unbounded arcs alone lead to the sink.
fn solve<N: Network>(network: &N, flow: &mut [u64], nodes: &mut [u32]) -> Option<u64>
    requires flows { length flow.old ≡ (N.net network.now).arcs }
    requires four { length nodes.old ≡ 4 * (N.net network.now).nodes }
    ensures { Solved (N.net network.now) flow.old flow.new
        nodes.new result }
{
    let count = network.node_count();
    nodes.fill(0);
    let (rank, rest) = nodes.split_at_mut(count);
    let (link, rest) = rest.split_at_mut(count);
    let (place, far) = rest.split_at_mut(count);
    if search_in(&UnboundedOnly(network), rank, link, place, far) {
        nodes.fill(0);
        return None;
    }
    let value = raise_in(network, flow, rank, link, place, far);
    mark(nodes, count);
    Some(value)
}

/// A maximum flow of any network, its value, and the marks of a minimum cut.
///
/// `flow` needs a word for each arc, `nodes` four for each node; fewer are refused, with how many are
/// needed, and nothing is changed. The network is refused when unbounded arcs alone lead from its source
/// to its sink: then the flow words are as they were and the node words that are needed are 0. Otherwise
/// the flow words hold a maximum flow, the first node words are 1 at the nodes that are reached from the
/// source over arcs with capacity left or backwards over flow and 0 at the others, and the next three for
/// each node are 0. Words past those needed are never changed.
pub fn max_flow<N: Network>(
    network: &N,
    flow: &mut [u64],
    nodes: &mut [u32],
) -> Result<u64, Refusal>
    ensures { Outcome (N.net network.now) flow.old flow.new
        nodes.old nodes.new result }
{
    let arcs = network.arc_count();
    let words = 4 * network.node_count();
    if flow.len() < arcs {
        return Err(Fault::FlowWords.at(arcs as u16));
    }
    if nodes.len() < words {
        return Err(Fault::NodeWords.at(words as u16));
    }
    solve(network, &mut flow[..arcs], &mut nodes[..words]).ok_or(Fault::Unbounded.at(0))
}
