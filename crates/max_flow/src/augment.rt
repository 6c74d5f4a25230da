// Augmentation: a way from the source to the sink is laid over links, and as much as it carries is pushed
// along it. Ranks rise along a way, so no arc stands on it twice.
ghost use Rattle.std.specs.Prelude.{◌≡◌, ℕ, ◌+◌, ◌<◌, ◌≤◌, ◌≢◌};
ghost use Rattle.flow.specs.Nets.{Net, word};
ghost use Rattle.flow.specs.Answers.{room_left};
ghost use Rattle.flow.specs.Searches.{Found};
ghost use Rattle.max_flow.specs.Layout.{net_of, rank_in, link_in, Kept, KeptAll, SameWays, far_end};
ghost use Rattle.max_flow.specs.Raised.{Raised};
ghost use Rattle.max_flow.specs.Stages.{WayIn, Stepped, left, opens, moved, Moves, link_at, Carried, Pushed};

use crate::nodes::Nodes;
use crate::raising::Raising;
use flow::network::{Arc, Capacity, Network};
use flow::questions::{has_room, look};
use flow::visit::{Visit, Way};

/// At most what one push moves: no arc with a bound takes more, and not every arc of a way is unbounded.
const MOST: u64 = 2_000_000_000;

/// How much more fits beside a flow, `MOST` at most.
fn room_left(capacity: Capacity, flow: u64) -> u64
    ensures { result ≡ room_left capacity flow }
{
    match capacity {
        Capacity::Bounded(most) => (most as u64).saturating_sub(flow),
        Capacity::Unbounded => MOST,
    }
}

/// How much more can pass an arc one way beside its flow, `MOST` at most over a capacity.
// Three questions of a way, each a match of two lines: one text for all would be no shorter.
fn left(way: Way, capacity: Capacity, flow: u64) -> u64
    ensures { result ≡ left way capacity flow }
{
    match way {
        Way::Along => room_left(capacity, flow),
        Way::Back => flow,
    }
}

/// Whether more can pass an arc one way beside its flow.
fn opens(way: Way, capacity: Capacity, flow: u64) -> bool
    ensures { result ≡ opens way capacity flow }
{
    match way {
        Way::Along => has_room(capacity, flow),
        Way::Back => flow > 0,
    }
}

/// The flow of an arc after an amount has passed it one way.
fn moved(way: Way, flow: u64, amount: u64) -> u64
    requires { Moves way flow amount }
    ensures { result ≡ moved way flow amount }
{
    match way {
        Way::Along => flow + amount,
        Way::Back => flow - amount,
    }
}

/// The end of an arc that is not the given one.
fn other_end(arc: Arc, node: usize) -> usize
    ensures { result ≡ far_end arc node }
{
    if arc.head == node { arc.tail } else { arc.head }
}

/// The arc by which a way goes on: how it is passed, and the node that it leads to.
#[derive(Clone, Copy)]
pub struct Link {
    pub arc: usize,
    pub way: Way,
    pub capacity: Capacity,
    pub node: usize,
}

impl<N: Network> Nodes<'_, N> {
    /// The arc by which the way goes on from a node.
    pub fn link_from(&self, node: usize) -> Link
        requires inside { node < (net_of self.now).nodes }
        requires exists { link_in self.now node < (net_of self.now).arcs }
        ensures link { result ≡ link_at (net_of self.now) (link_in self.now node) node }
        ensures exists { result.arc < (net_of self.now).arcs }
    {
        let k = self.link[node] as usize;
        let Some(arc) = look(self.network, k) else {
            unreachable();
        };
        let (way, node) = if arc.tail == node {
            (Way::Along, arc.head)
        } else {
            (Way::Back, arc.tail)
        };
        Link {
            arc: k,
            way,
            capacity: arc.capacity,
            node,
        }
    }

    /// Pushes an amount along the way from the source. Answers the node nearest to the sink from which the
    /// way still stands: the arc before it is full now, if any is.
    fn push(&self, flow: &mut [u64], value: u64, amount: u64) -> usize
        requires way { WayIn flow.old self.now amount 0 }
        requires raised { Raised (net_of self.now) flow.old value }
        requires fits { value + amount < 9000000000000000000 }
        ensures { Pushed flow.new self.now (value + amount) result }
    {
        let mut node = 0;
        let mut stop = 0;
        // From link to link: each is read at the node before, so no range or iterator goes over them.
        while node != 1 {
            let link = self.link_from(node);
            let carried = moved(link.way, flow[link.arc], amount);
            flow[link.arc] = carried;
            node = link.node;
            if !opens(link.way, link.capacity, carried) {
                stop = node;
            }
        }
        stop
    }

    /// The cursor past an arc among those that enter a node, if it is one of them.
    fn cursor_past(&self, node: usize, k: usize) -> Option<u32>
        requires { node < (net_of self.now).nodes }
    {
        let visit = Visit::new(self.network, node);
        for step in visit.steps(Way::Back, 0, None) {
            if step.arc == k {
                return Some(step.next as u32);
            }
        }
        None
    }

    /// Raises the far cursor of a node past an arc that may carry flow from now on, if the arc enters it.
    fn raise_far(&mut self, node: usize, k: usize)
        requires { node < (net_of self.old).nodes }
        ensures { SameWays self.old self.new }
    {
        if let Some(next) = self.cursor_past(node, k) {
            self.far[node] = self.far[node].max(next);
        }
    }

    /// Lays the way over the arcs by which the search found the sink: back from the sink, each node found on
    /// it hands its arc down to the node that it was found from.
    pub fn lay_way(&mut self, flow: &[u64])
        requires found { Found (net_of self.old) (word flow.now) (rank_in self.old) (link_in self.old) }
        requires sink { 0 < rank_in self.old 1 }
        ensures kept { Kept self.old self.new }
        ensures way { WayIn flow.now self.new 0 0 }
    {
        let _ = flow;
        let mut node = 1;
        let mut k = self.link[1] as usize;
        // From link to link, as above.
        while node != 0 {
            let Some(arc) = look(self.network, k) else {
                unreachable();
            };
            self.raise_far(node, k);
            let from = other_end(arc, node);
            let found = self.link[from] as usize;
            self.link[from] = k as u32;
            k = found;
            node = from;
        }
    }
}

impl<N: Network> Raising<'_, '_, N> {
    /// The most that the way from the source carries, `MOST` at most.
    fn narrowest(&self) -> u64
        requires { WayIn self.now.flow.now self.now.nodes.now 0 0 }
        ensures { Carried self.now.flow.now self.now.nodes.now result }
    {
        let mut node = 0;
        let mut least = MOST;
        // From link to link, as above.
        while node != 1 {
            let link = self.nodes.link_from(node);
            least = least.min(left(link.way, link.capacity, self.flow[link.arc]));
            node = link.node;
        }
        least
    }

    /// Pushes as much as it carries along the way from the source. Answers the node from which the way still stands.
    pub fn augment(&mut self) -> usize
        requires { WayIn self.old.flow.now self.old.nodes.now 0 0 }
        ensures kept { KeptAll self.old self.new }
        ensures more { self.old.value < self.new.value }
        ensures stop { Stepped self.new.flow.now self.new.nodes.now (Some result) }
    {
        let amount = self.narrowest();
        let flow = &mut *self.flow;
        let stop = self.nodes.push(flow, self.value, amount);
        self.value += amount;
        stop
    }
}
