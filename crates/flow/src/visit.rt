// Visits to the nodes of any network, to ask about their arcs: an arc that is told of exists, and its ends are
// nodes.
ghost use Rattle.std.specs.Prelude.{◌≡◌, ℕ, ◌-◌, ◌<◌, if◌then◌else◌, None, IfSome};
ghost use Rattle.std.specs.Iterator.{at_most};

use crate::network::{Network, Step};
use crate::questions::{room_on, word_at};

/// How an arc is passed: along it over capacity left, or back over its flow.
#[derive(Clone, Copy, PartialEq, Eq, Debug)]
pub enum Way {
    Along,
    Back,
}

impl Way {
    ghost use Rattle.flow.specs.Passing.{turned_way};

    /// The other way.
    pub fn turned(self) -> Way
        ensures { result ≡ turned_way self }
    {
        match self {
            Way::Along => Way::Back,
            Way::Back => Way::Along,
        }
    }
}

/// A visit to a node: it is taken apart once, and asked about its arcs many times.
#[derive(Drop)]
pub struct Visit<'a, N: Network> {
    pub network: &'a N,
    pub node: usize,
    at: N::At,
    ghost inside: { node < (N.net network.now).nodes },
    ghost decoded: { at ≡ N.decoded network.now node },
}

impl<'a, N: Network> Visit<'a, N> {
    ghost use Rattle.flow.specs.Nets.{word};
    ghost use Rattle.flow.specs.Passing.{near, far, passes, by_way};
    ghost use Rattle.flow.specs.Answers.{Asked};

    /// Begins a visit.
    pub fn new(network: &'a N, node: usize) -> Visit<'a, N>
        requires { node < (N.net network.now).nodes }
        ensures network { result.network ≡ network.entry }
        ensures node { result.node ≡ node }
    {
        Visit {
            network,
            node,
            at: network.at(node),
        }
    }

    /// The steps over the arcs that lead on from the node one way, from a cursor on, and before the end if one is
    /// given.
    pub fn steps<'v>(&'v self, way: Way, cursor: usize, end: Option<usize>) -> Steps<'v, 'a, N>
        ensures visit { result.visit.now ≡ self.now }
        ensures way { result.way ≡ way }
        ensures cursor { result.cursor ≡ cursor }
        ensures end { result.end ≡ end }
    {
        Steps {
            visit: self,
            way,
            cursor,
            end,
        }
    }

    /// The next arc that leads on from the node one way, from a cursor on.
    fn next(&self, way: Way, cursor: usize) -> Option<Step>
        ensures value { result ≡ by_way way (N.outward self.now.network.now self.now.at cursor)
            (N.inward self.now.network.now self.now.at cursor) }
        ensures asked { Asked (N.net self.now.network.now)
            (near (N.net self.now.network.now) way) (far (N.net self.now.network.now) way)
            self.now.node cursor result }
    {
        match way {
            Way::Along => self.network.leaving(self.at, cursor),
            Way::Back => self.network.entering(self.at, cursor),
        }
    }

    /// Whether an arc can be passed one way.
    pub fn passes(&self, way: Way, flow: &[u64], k: usize) -> bool
        ensures { k < (N.net self.now.network.now).arcs
            → result ≡ passes (N.net self.now.network.now) (word flow.now) way k }
    {
        match way {
            Way::Along => room_on(self.network, flow, k),
            Way::Back => word_at(flow, k) > 0,
        }
    }
}

/// Steps over the arcs at a node, from a cursor on.
#[derive(Drop)]
pub struct Steps<'v, 'a, N: Network> {
    visit: &'v Visit<'a, N>,
    way: Way,
    cursor: usize,
    end: Option<usize>,
}

impl<N: Network> Iterator for Steps<'_, '_, N> {
    ghost use Rattle.flow.specs.Passing.{near, far, by_way, is_before};
    ghost use Rattle.flow.specs.Answers.{Asked};

    type Item = Step;

    ghost next_gives = { λ s r t. Asked (N.net s.visit.now.network.now)
        (near (N.net s.visit.now.network.now) s.way) (far (N.net s.visit.now.network.now) s.way)
        s.visit.now.node s.cursor r × (t.visit ≡ s.visit) × (t.way ≡ s.way) × (t.end ≡ s.end)
        × (r ≡ (if is_before s.cursor s.end then by_way s.way (N.outward s.visit.now.network.now s.visit.now.at s.cursor)
        (N.inward s.visit.now.network.now s.visit.now.at s.cursor) else None))
        × IfSome r (λ x. t.cursor ≡ x.next) };

    ghost remaining = { λ s. at_most (1000000 - s.cursor) };

    fn next(&mut self) -> Option<Step> {
        if self.end.is_some_and(|end| self.cursor >= end) {
            return None;
        }
        let step = self.visit.next(self.way, self.cursor)?;
        self.cursor = step.next;
        Some(step)
    }
}
