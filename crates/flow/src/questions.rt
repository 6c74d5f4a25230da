// Questions to any network, with what is known of the answers: an arc that is told of exists, and its ends
// are nodes.
ghost use Rattle.std.specs.Prelude.{◌≡◌, ℕ, ◌<◌};
ghost use Rattle.flow.specs.Nets.{room, word};
ghost use Rattle.flow.specs.Answers.{has_room, Looked};

use crate::network::{Arc, Capacity, Network};

/// Whether capacity is left beside a flow.
pub fn has_room(capacity: Capacity, flow: u64) -> bool
    ensures { result ≡ has_room capacity flow }
{
    match capacity {
        Capacity::Bounded(most) => flow < most as u64,
        Capacity::Unbounded => true,
    }
}

/// The flow word of an arc, 0 past the end of the words.
pub fn word_at(flow: &[u64], k: usize) -> u64
    ensures { result ≡ word flow.now k }
{
    flow.get(k).copied().unwrap_or(0)
}

/// An arc, with its ends known to be nodes.
pub fn look<N: Network>(network: &N, k: usize) -> Option<Arc>
    ensures { Looked (N.net network.now) k result }
{
    network.arc(k)
}

/// Whether capacity is left on an arc.
pub fn room_on<N: Network>(network: &N, flow: &[u64], k: usize) -> bool
    ensures { k < (N.net network.now).arcs → result ≡ room (N.net network.now) (word flow.now) k }
{
    network
        .capacity(k)
        .is_some_and(|capacity| has_room(capacity, word_at(flow, k)))
}
