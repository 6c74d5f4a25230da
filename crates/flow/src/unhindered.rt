// Any network with its unbounded arcs alone. A search in it shows whether they lead to the sink.
ghost use Rattle.std.specs.Prelude.{◌≡◌};
ghost use Rattle.flow.specs.Unhindering.{unbounded_only, emptied, unbounded_only_bounds, unbounded_only_adjacent};

use crate::network::{Arc, Capacity, Network, Step};

/// The network in which every bounded arc has capacity 0, and all else is as below.
#[derive(Clone, Copy)]
pub struct UnboundedOnly<'a, N>(pub &'a N);

fn without_bounded(capacity: Capacity) -> Capacity
    ensures { result ≡ emptied capacity }
{
    match capacity {
        Capacity::Bounded(_) => Capacity::Bounded(0),
        Capacity::Unbounded => Capacity::Unbounded,
    }
}

// Apart from `Turned`: one wrapper for both would need a trait of what becomes of nodes and capacities, with its
// laws, and that is longer than the calls that are passed on in both.
impl<N: Network> Network for UnboundedOnly<'_, N> {
    type At = N::At;

    ghost net = { λ s. unbounded_only (N.net s.0.now) };

    ghost bounded = { λ s. unbounded_only_bounds (N.net s.0.now) (N.bounded s.0.now) };

    ghost decoded = { λ s v. N.decoded s.0.now v };

    ghost outward = { λ s at c. N.outward s.0.now at c };

    ghost inward = { λ s at c. N.inward s.0.now at c };

    ghost adjacent = { λ s. unbounded_only_adjacent (N.net s.0.now)
        (λ v. N.outward s.0.now (N.decoded s.0.now v))
        (λ v. N.inward s.0.now (N.decoded s.0.now v))
        (N.adjacent s.0.now) };

    fn node_count(&self) -> usize {
        self.0.node_count()
    }

    fn arc_count(&self) -> usize {
        self.0.arc_count()
    }

    fn arc(&self, k: usize) -> Option<Arc> {
        self.0.arc(k).map(|a| Arc {
            capacity: without_bounded(a.capacity),
            ..a
        })
    }

    fn capacity(&self, k: usize) -> Option<Capacity> {
        self.0.capacity(k).map(without_bounded)
    }

    fn at(&self, v: usize) -> N::At {
        self.0.at(v)
    }

    fn leaving(&self, at: N::At, cursor: usize) -> Option<Step> {
        self.0.leaving(at, cursor)
    }

    fn entering(&self, at: N::At, cursor: usize) -> Option<Step> {
        self.0.entering(at, cursor)
    }
}
