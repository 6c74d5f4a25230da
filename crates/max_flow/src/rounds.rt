// Quick rounds: the flow is raised by ways in depth over ranks that are given anew each time, in fewer steps
// than a whole search takes. Nothing rests on these ranks but speed, so nothing is promised of them: a flow
// stays a flow whatever they are, and the whole search that follows goes on from wherever the rounds stop.
//
// Nodes that unbounded arcs alone lead to are reached whatever the flow is. They keep the ranks of the first
// search for good, and of them only those are asked again from which some arc leads to other nodes.
ghost use Rattle.std.specs.Prelude.{◌≡◌, ◌+◌, ◌<◌, ◌≤◌};
ghost use Rattle.max_flow.specs.Layout.{net_of, Kept, KeptAll};

use crate::nodes::Nodes;
use crate::raising::Raising;
use crate::start::Start;
use flow::network::Network;
use flow::visit::{Visit, Way};

/// More rounds than there are in practice; the whole search goes on where they end.
const MOST_ROUNDS: usize = 100_000;

impl<N: Network> Nodes<'_, N> {
    /// Whether an arc leaves a node for a node without a rank.
    fn leads_on(&self, node: usize) -> bool
        requires { node < (net_of self.now).nodes }
    {
        let visit = Visit::new(self.network, node);
        for step in visit.steps(Way::Along, 0, None) {
            if self.rank[step.node] == 0 {
                return true;
            }
        }
        false
    }

    /// Adds the roots to a start with the ranks that a search over unbounded arcs alone has left.
    pub fn add_roots(&self, start: &mut Start) {
        for (v, rank) in self.rank.iter().enumerate() {
            if *rank > 0 && self.leads_on(v) {
                start.add_root(v as u32);
            }
        }
    }

    // Apart from `find`: that writes the arc too, counts ranks from 1 and has always room in the queue.
    /// Gives a node the next rank and puts it at the end of the queue; how many wait then. The sink gets the
    /// last of all ranks and does not wait.
    fn rank_node(&mut self, waiting: usize, v: usize) -> usize
        requires { v < (net_of self.old).nodes }
        ensures kept { Kept self.old self.new }
        ensures most { result ≤ waiting + 1 }
    {
        if v == 1 || waiting >= self.place.len() {
            self.rank[v] = u32::MAX;
            return waiting;
        }
        self.rank[v] = (self.network.node_count() + waiting) as u32 + 1;
        self.place[waiting] = v as u32;
        waiting + 1
    }

    // Apart from `find_on`: shared lines would take the find as a closure with the contract of both, and be no fewer.
    /// Ranks the nodes that are reached over the arcs that lead on from a node, one way; how many wait then.
    fn rank_on(&mut self, flow: &[u64], visit: &Visit<N>, way: Way, waiting: usize) -> usize
        requires { visit.now.network ≡ self.old.network }
        ensures { Kept self.old self.new }
    {
        let end = self.cursor_end(visit.node, way);
        let mut waiting = waiting;
        for step in visit.steps(way, 0, end) {
            if self.rank[step.node] == 0 && visit.passes(way, flow, step.arc) {
                waiting = self.rank_node(waiting, step.node);
            }
        }
        waiting
    }

    /// Ranks nodes in the order in which they are reached from the roots, until the sink is among them; whether
    /// it is.
    fn rank_anew(&mut self, start: &Start, flow: &[u64]) -> bool
        ensures { Kept self.old self.new }
    {
        let count = self.network.node_count();
        self.rank.copy_from_slice(start.ranks(count));
        let roots = start.roots(count);
        self.place[..roots.len()].copy_from_slice(roots);
        let mut waiting = roots.len();
        // A queue: it grows while it is read, so no iterator runs over it.
        for done in 0..count {
            let node = self.place[done] as usize;
            if done >= waiting || self.rank[1] > 0 || node >= count {
                break;
            }
            let visit = Visit::new(self.network, node);
            waiting = self.rank_on(flow, &visit, Way::Along, waiting);
            waiting = self.rank_on(flow, &visit, Way::Back, waiting);
        }
        self.rank[1] > 0
    }
}

impl<N: Network> Raising<'_, '_, N> {
    /// Raises the flow round by round, until the sink is not reached or no way is found.
    pub fn quick_rounds(&mut self, start: &Start)
        ensures { KeptAll self.old self.new }
    {
        for _ in 0..MOST_ROUNDS {
            let flow = &mut *self.flow;
            if !self.nodes.rank_anew(start, flow) {
                break;
            }
            let before = self.value;
            self.deepen();
            if self.value == before {
                break;
            }
        }
    }
}
