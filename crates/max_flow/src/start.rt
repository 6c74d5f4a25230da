// What each quick round begins with, in a table of 20,000 words on the stack: nothing is allocated.
ghost use Rattle.std.specs.Prelude.{◌≡◌, ◌≤◌, length};

/// The nodes that are reached whatever the flow is.
#[derive(Drop)]
pub struct Start {
    /// The ranks of the nodes that are always reached; 0 for the others.
    ranks: [u32; 10_000],
    /// Those of them from which an arc leads to another node.
    roots: [u32; 10_000],
    /// How many such roots there are; no list grows here, since nothing is allocated.
    count: usize,
    ghost fits: { count ≤ 10000 },
}

impl Start {
    /// No node is reached, and there are no roots.
    pub fn new() -> Start {
        Start {
            ranks: [0; 10_000],
            roots: [0; 10_000],
            count: 0,
        }
    }

    /// Takes the ranks of the first nodes.
    pub fn take_ranks(&mut self, given: &[u32])
        requires { length given.now ≤ 10000 }
    {
        for (v, rank) in given.iter().enumerate() {
            self.ranks[v] = *rank;
        }
    }

    /// Takes a node as a root; a full table takes no more.
    pub fn add_root(&mut self, node: u32) {
        if self.count < 10_000 {
            self.roots[self.count] = node;
            self.count += 1;
        }
    }

    /// The ranks of the first nodes.
    pub fn ranks(&self, nodes: usize) -> &[u32]
        requires { nodes ≤ 10000 }
        ensures { length result.now ≡ nodes }
    {
        &self.ranks[..nodes]
    }

    /// The roots, of which at most a number is given.
    pub fn roots(&self, most: usize) -> &[u32]
        ensures { length result.now ≤ most }
    {
        &self.roots[..self.count.min(most)]
    }
}
