// The search from the source: it ranks the nodes in the order of finding, over leaving arcs with capacity
// left and backwards over entering arcs with flow.
ghost use Rattle.std.specs.Prelude.{◌≡◌, ℕ, ◌+◌, ◌<◌, ◌≤◌, length, ◌≢◌, nat_lt};
ghost use Rattle.flow.specs.Nets.{Net, word};
ghost use Rattle.flow.specs.Searches.{Searched, Shut};
ghost use Rattle.max_flow.specs.Layout.{net_of, rank_in, link_in, Kept, FoundAt};
ghost use Rattle.max_flow.specs.Stages.{SearchingIn, Grown, Idle, Begun};

use crate::nodes::Nodes;
use flow::network::Network;
use flow::questions::{has_room, look, word_at};
use flow::visit::{Visit, Way};

// The queue is lent words with its length beside them, since nothing is allocated. That a search is under way is a
// clause of the four that go on with it: a type with that fact would owe it at each find once more, beside the growth.
impl<N: Network> Nodes<'_, N> {
    /// Writes down that a node was found over an arc; how many nodes wait then.
    fn find(&mut self, waiting: usize, v: usize, k: usize) -> usize
        requires inside { v < (net_of self.old).nodes }
        requires space { waiting < (net_of self.old).nodes }
        requires arc { k ≤ 50000 }
        ensures { FoundAt self.old self.new waiting v k result }
    {
        self.link[v] = k as u32;
        if v == 1 {
            self.rank[v] = self.network.node_count() as u32 + 1;
            return waiting;
        }
        self.rank[v] = waiting as u32 + 1;
        self.place[waiting] = v as u32;
        waiting + 1
    }

    /// Finds on from a node of the queue, one way; how many nodes wait then. Of the entering arcs none from the
    /// node's far cursor on has flow, so they are not asked for backwards.
    fn find_on(&mut self, flow: &[u64], visit: &Visit<N>, way: Way, waiting: usize) -> usize
        requires visits { visit.now.network ≡ self.old.network }
        requires found { 0 < rank_in self.old visit.now.node }
        requires waits { visit.now.node ≢ 1 }
        requires searching { SearchingIn (word flow.now) self.old waiting }
        ensures { Grown (word flow.now) self.old self.new waiting result }
    {
        let end = self.cursor_end(visit.node, way);
        let mut waiting = waiting;
        for step in visit.steps(way, 0, end) {
            if self.rank[step.node] == 0 && visit.passes(way, flow, step.arc) {
                waiting = self.find(waiting, step.node, step.arc);
            }
        }
        waiting
    }

    /// The cursor from which on no arc leads on from a node, one way, if it is known.
    pub fn cursor_end(&self, node: usize, way: Way) -> Option<usize>
        requires { node < (net_of self.now).nodes }
    {
        match way {
            Way::Along => None,
            Way::Back => Some(self.far[node] as usize),
        }
    }

    /// Finds on from the nodes that wait in the queue from a place on; how many nodes wait in all then.
    fn spread(&mut self, flow: &[u64], done: usize, waiting: usize) -> usize
        requires searching { SearchingIn (word flow.now) self.old waiting }
        requires within { done ≤ waiting }
        ensures { Grown (word flow.now) self.old self.new waiting result }
    {
        let mut done = done;
        let mut waiting = waiting;
        // A queue: it grows while it is read, so no iterator runs over it.
        while done < waiting {
            let visit = Visit::new(self.network, self.place[done] as usize);
            waiting = self.find_on(flow, &visit, Way::Along, waiting);
            waiting = self.find_on(flow, &visit, Way::Back, waiting);
            done += 1;
        }
        waiting
    }

    /// Finds over one arc, one way or the other; how many nodes wait then. Nothing is found from the sink.
    fn find_over(&mut self, flow: &[u64], k: usize, waiting: usize) -> usize
        requires searching { SearchingIn (word flow.now) self.old waiting }
        requires exists { k < (net_of self.old).arcs }
        ensures grown { Grown (word flow.now) self.old self.new waiting result }
        ensures idle { result ≡ waiting → rank_in self.new 1 ≡ 0
            → (self.new.rank.now ≡ self.old.rank.now) × Shut (net_of self.old) (word flow.now) (rank_in self.old) k }
    {
        let Some(arc) = look(self.network, k) else {
            unreachable();
        };
        let from = self.rank[arc.tail];
        let to = self.rank[arc.head];
        if from > 0 && to == 0 && arc.tail != 1 && has_room(arc.capacity, word_at(flow, k)) {
            return self.find(waiting, arc.head, k);
        }
        if to > 0 && from == 0 && arc.head != 1 && word_at(flow, k) > 0 {
            return self.find(waiting, arc.tail, k);
        }
        waiting
    }

    /// Finds over every arc once; how many nodes wait then. Where nothing is found, no arc leads on.
    fn sweep(&mut self, flow: &[u64], waiting: usize) -> usize
        requires searching { SearchingIn (word flow.now) self.old waiting }
        ensures grown { Grown (word flow.now) self.old self.new waiting result }
        ensures idle { Idle (word flow.now) self.new waiting result (net_of self.old).arcs }
    {
        let mut waiting = waiting;
        for k in 0..self.network.arc_count() {
            waiting = self.find_over(flow, k, waiting);
        }
        waiting
    }

    /// No node found but the source, which waits.
    fn begin(&mut self)
        ensures kept { Kept self.old self.new }
        ensures begun { Begun self.new }
    {
        self.rank.fill(0);
        self.rank[0] = 1;
        self.place[0] = 0;
    }

    /// Ranks the nodes that are reached from the source, all of them if the sink is not among them; whether
    /// it is. The questions about single nodes do the work; the sweep only shows that none was left out.
    pub fn search(&mut self, flow: &[u64]) -> bool
        ensures kept { Kept self.old self.new }
        ensures searched { Searched (net_of self.new) (word flow.now) (rank_in self.new) (link_in self.new) }
        ensures sink { result ≡ nat_lt 0 (rank_in self.new 1) }
    {
        self.begin();
        let mut done = 0;
        let mut waiting = 1;
        loop {
            let found = self.spread(flow, done, waiting);
            if self.rank[1] > 0 {
                return true;
            }
            waiting = self.sweep(flow, found);
            if self.rank[1] > 0 {
                return true;
            }
            if waiting == found {
                return false;
            }
            done = found;
        }
    }
}
