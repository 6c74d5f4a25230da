// A network that is a list of arcs, small enough to be tried against all its cuts. Numbers out of range are
// cut down to the nearest that is allowed, so that every table is a network.
ghost use Rattle.std.specs.Prelude.{◌≡◌, ◌<◌};
ghost use Rattle.flow.specs.Answers.{arc_at};
ghost use Rattle.flow_trial.specs.Tables as tables;

use arrayvec::ArrayVec;
use flow::network::{Arc, Capacity, Network, Step};

/// A place for an arc in a table. Where it holds none, an unbounded arc from the source to itself stands for it.
#[derive(Clone, Copy)]
pub struct Row {
    pub arc: Arc,
}

impl Default for Row {
    fn default() -> Row {
        Row {
            arc: Arc {
                tail: 0,
                head: 0,
                capacity: Capacity::Unbounded,
            },
        }
    }
}

/// A node count, and 16 arcs at most, for which nothing is allocated.
#[derive(Drop)]
pub struct Table {
    pub nodes: usize,
    pub rows: ArrayVec<Row, 16>,
}

/// An end of an arc.
#[derive(Clone, Copy)]
pub enum End {
    Tail,
    Head,
}

fn limit(capacity: Capacity) -> Capacity
    ensures { result ≡ tables.limited capacity }
{
    match capacity {
        Capacity::Bounded(most) => Capacity::Bounded(most.min(2_000_000_000)),
        Capacity::Unbounded => Capacity::Unbounded,
    }
}

/// What is told of an arc: the next cursor is past it.
fn told(arc: usize, node: usize) -> Step
    requires { arc < 16 }
    ensures { result ≡ tables.step_at arc node }
{
    Step {
        arc,
        node,
        next: arc + 1,
    }
}

impl Table {
    /// A table without arcs.
    pub fn new(nodes: usize) -> Table {
        Table {
            nodes,
            rows: ArrayVec::new(),
        }
    }

    /// Adds an arc, if there is room for one.
    pub fn add(&mut self, tail: usize, head: usize, capacity: Capacity) {
        let arc = Arc {
            tail,
            head,
            capacity,
        };
        let _ = self.rows.try_push(Row { arc });
    }

    fn node(&self, v: usize) -> usize
        ensures { result ≡ tables.node_in self.now v }
    {
        v.min(self.node_count() - 1)
    }

    // An arc within what is allowed.
    fn within(&self, k: usize) -> Arc
        requires { k < (tables.table_net self.now).arcs }
        ensures { result ≡ arc_at (tables.table_net self.now) k }
    {
        let arc = self.rows.as_slice()[k].arc;
        Arc {
            tail: self.node(arc.tail),
            head: self.node(arc.head),
            capacity: limit(arc.capacity),
        }
    }

    fn end(&self, end: End, k: usize) -> usize
        requires { k < (tables.table_net self.now).arcs }
        ensures { result ≡ tables.end_of end (tables.table_net self.now) k }
    {
        match end {
            End::Tail => self.within(k).tail,
            End::Head => self.within(k).head,
        }
    }

    // The first arc, from a cursor on, with this node at an end.
    fn first_at(&self, end: End, node: usize, cursor: usize) -> Option<usize>
        ensures { tables.IsFirstAt (tables.end_of end (tables.table_net self.now)) (tables.table_net self.now).arcs node cursor result }
    {
        (cursor..self.arc_count()).find(|k| self.end(end, *k) == node)
    }

    fn listed(&self, near: End, far: End, at: usize, cursor: usize) -> Option<Step>
        ensures { result ≡ tables.listed_at near far self.now at cursor }
    {
        let k = self.first_at(near, at, cursor)?;
        Some(told(k, self.end(far, k)))
    }
}

impl Network for Table {
    type At = usize;

    ghost net = { tables.table_net };

    ghost bounded = { tables.table_bounds };

    ghost decoded = { λ _ v. v };

    ghost outward = { tables.leaving_of };

    ghost inward = { tables.entering_of };

    ghost adjacent = { tables.table_adjacent };

    fn node_count(&self) -> usize {
        self.nodes.max(2).min(8)
    }

    fn arc_count(&self) -> usize {
        self.rows.len().min(16)
    }

    fn arc(&self, k: usize) -> Option<Arc> {
        if k < self.arc_count() {
            Some(self.within(k))
        } else {
            None
        }
    }

    fn capacity(&self, k: usize) -> Option<Capacity> {
        Some(self.arc(k)?.capacity)
    }

    fn at(&self, v: usize) -> usize {
        v
    }

    fn leaving(&self, at: usize, cursor: usize) -> Option<Step> {
        self.listed(End::Tail, End::Head, at, cursor)
    }

    fn entering(&self, at: usize, cursor: usize) -> Option<Step> {
        self.listed(End::Head, End::Tail, at, cursor)
    }
}
