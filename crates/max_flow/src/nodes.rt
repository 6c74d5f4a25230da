// The words of the nodes of a network.
ghost use Rattle.std.specs.Prelude.{◌≡◌, length};

use flow::network::Network;

/// The node words of a network: one a node in each of four parts.
// Four parts and no slice of records: the words are lent, in C too, as one slice of numbers.
// A node is a number, as a network names it: a type for it would be made at each step, to be taken apart below.
#[derive(Drop)]
pub struct Nodes<'a, N: Network> {
    pub network: &'a N,
    pub rank: &'a mut [u32],
    pub link: &'a mut [u32],
    pub place: &'a mut [u32],
    pub far: &'a mut [u32],
    ghost ranks: { length rank.now ≡ (N.net network.now).nodes },
    ghost links: { length link.now ≡ (N.net network.now).nodes },
    ghost places: { length place.now ≡ (N.net network.now).nodes },
    ghost fars: { length far.now ≡ (N.net network.now).nodes },
}
