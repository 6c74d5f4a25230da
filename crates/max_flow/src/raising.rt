// A flow that is being raised.
ghost use Rattle.max_flow.specs.Raised.{Raised};

use crate::nodes::Nodes;
use flow::network::Network;

/// A flow, its value, and the node words of its network, in which no flow grows for ever.
#[derive(Drop)]
pub struct Raising<'s, 'a, N: Network> {
    pub nodes: &'s mut Nodes<'a, N>,
    pub flow: &'s mut [u64],
    pub value: u64,
    ghost raised: { Raised (N.net nodes.now.network.now) flow.now value },
}
