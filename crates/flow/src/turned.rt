// Any network turned round: source and sink change names, each arc runs the other way.
ghost use Rattle.std.specs.Prelude.{◌≡◌};
ghost use Rattle.flow.specs.Turning.{other, turned, renamed, turned_bounds, turned_adjacent};

use crate::network::{Arc, Capacity, Network, Step};

/// The turned network of any network. Arcs keep their numbers and capacities.
#[derive(Clone, Copy)]
pub struct Turned<'a, N>(pub &'a N);

/// The name in the turned network of a node, and back.
pub fn renamed_node(v: usize) -> usize
    ensures { result ≡ other v }
{
    match v {
        0 => 1,
        1 => 0,
        _ => v,
    }
}

fn renamed_step(step: Option<Step>) -> Option<Step>
    ensures { result ≡ renamed step }
{
    step.map(|s| Step {
        node: renamed_node(s.node),
        ..s
    })
}

impl<N: Network> Network for Turned<'_, N> {
    type At = N::At;

    ghost net = { λ s. turned (N.net s.0.now) };

    ghost bounded = { λ s. turned_bounds (N.net s.0.now) (N.bounded s.0.now) };

    ghost decoded = { λ s v. N.decoded s.0.now (other v) };

    ghost outward = { λ s at c. renamed (N.inward s.0.now at c) };

    ghost inward = { λ s at c. renamed (N.outward s.0.now at c) };

    ghost adjacent = { λ s. turned_adjacent (N.net s.0.now) (N.bounded s.0.now).sound
        (λ v. N.outward s.0.now (N.decoded s.0.now v))
        (λ v. N.inward s.0.now (N.decoded s.0.now v))
        (N.adjacent s.0.now) };

    fn node_count(&self) -> usize {
        self.0.node_count()
    }

    fn arc_count(&self) -> usize {
        self.0.arc_count()
    }

    fn arc(&self, k: usize) -> Option<Arc> {
        self.0.arc(k).map(|a| Arc {
            tail: renamed_node(a.head),
            head: renamed_node(a.tail),
            ..a
        })
    }

    fn capacity(&self, k: usize) -> Option<Capacity> {
        self.0.capacity(k)
    }

    fn at(&self, v: usize) -> N::At {
        self.0.at(renamed_node(v))
    }

    fn leaving(&self, at: N::At, cursor: usize) -> Option<Step> {
        renamed_step(self.0.entering(at, cursor))
    }

    fn entering(&self, at: N::At, cursor: usize) -> Option<Step> {
        renamed_step(self.0.leaving(at, cursor))
    }
}
