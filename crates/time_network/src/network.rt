// The time network as a network.
ghost use Rattle.std.specs.Prelude.{◌≡◌};
ghost use Rattle.time_network.specs.Meant.{meant, net_of, net_bounds};
ghost use Rattle.time_network.specs.Listing as lists;
ghost use Rattle.time_network.specs.Answered.{net_adjacent};

use crate::held::TimeNetwork;
use crate::place::{Place, Side};
use flow::network::{Arc, Capacity, Network, Step};

/// Each answer takes a fixed number of steps, but that an entering arc passes over lags that have none there.
impl Network for TimeNetwork {
    type At = Place;

    ghost net = { net_of };

    ghost bounded = { net_bounds };

    ghost decoded = { λ x v. lists.decode (meant x) v };

    ghost outward = { λ x at c. lists.outward (meant x) at c };

    ghost inward = { λ x at c. lists.inward (meant x) at c };

    ghost adjacent = { net_adjacent };

    fn node_count(&self) -> usize {
        self.nodes()
    }

    fn arc_count(&self) -> usize {
        self.arcs()
    }

    fn arc(&self, k: usize) -> Option<Arc> {
        let capacity = self.capacity(k)?;
        let ends = self.ends_of(k);
        Some(Arc {
            tail: ends.tail,
            head: ends.head,
            capacity,
        })
    }

    fn capacity(&self, k: usize) -> Option<Capacity> {
        if k < self.size() {
            Some(self.capacities[k])
        } else if k < self.arcs() {
            Some(Capacity::Unbounded)
        } else {
            None
        }
    }

    fn at(&self, v: usize) -> Place {
        self.place_of(v)
    }

    // Other functions leave and enter a place, so each question has a `match` of its own.
    fn leaving(&self, at: Place, cursor: usize) -> Option<Step> {
        match at {
            Place::Source => self.leaving_source(cursor),
            Place::Sink => self.leaving_sink(cursor),
            Place::Inner(point) => self.leaving_point(point, cursor),
        }
    }

    fn entering(&self, at: Place, cursor: usize) -> Option<Step> {
        match at {
            Place::Source => self.entering_end(Side::AtSource, cursor),
            Place::Sink => self.entering_end(Side::AtSink, cursor),
            Place::Inner(point) => self.entering_point(point, cursor),
        }
    }
}
