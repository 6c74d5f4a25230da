// What a network is: whatever answers these questions within their bounds.
ghost use Rattle.std.specs.Prelude.{◌≡◌, ℕ, Option};
ghost use Rattle.flow.specs.declared.network.Step.{Step};
ghost use Rattle.flow.specs.Nets.{Net, Bounds};
ghost use Rattle.flow.specs.Answers.{arc_of, capacity_of, Adjacent};

/// How much an arc can carry.
// Cases with names, since `None` stands for an arc that does not exist.
#[derive(Clone, Copy, PartialEq, Eq, Debug)]
pub enum Capacity {
    /// At most this, 0 to 2,000,000,000.
    Bounded(u32),
    /// Any amount.
    Unbounded,
}

/// An arc: it runs from its tail to its head.
#[derive(Clone, Copy, PartialEq, Eq, Debug)]
pub struct Arc {
    pub tail: usize,
    pub head: usize,
    pub capacity: Capacity,
}

/// An arc at a node, as the node lists it: its number, its other end, and the cursor to ask on from.
#[derive(Clone, Copy, PartialEq, Eq, Debug)]
pub struct Step {
    pub arc: usize,
    pub node: usize,
    pub next: usize,
}

/// A network, by what it answers: node 0 is the source, node 1 the sink. Questions change nothing and
/// answer the same when asked again.
pub trait Network {
    /// A node taken apart once, to be asked about many times.
    type At: Copy;

    /// All answers about nodes and arcs together.
    ghost net: { Self → Net };

    /// The answers lie within the limits of a network.
    ghost bounded: { (x : Self) → Bounds (net x) };

    /// What `at` answers.
    ghost decoded: { Self → ℕ → Self.At };

    /// What `leaving` and `entering` answer.
    ghost outward: { Self → Self.At → ℕ → Option Step };

    ghost inward: { Self → Self.At → ℕ → Option Step };

    /// They list the arcs that leave a node, and those that enter it, each with its other end.
    ghost adjacent: { (x : Self) → Adjacent (net x) (λ v. outward x (decoded x v)) (λ v. inward x (decoded x v)) };

    /// How many nodes there are, 2 to 10,000.
    fn node_count(&self) -> usize
        ensures { result ≡ (net self.now).nodes };

    /// How many arcs there are, 0 to 50,000.
    fn arc_count(&self) -> usize
        ensures { result ≡ (net self.now).arcs };

    /// An arc; absent if it does not exist.
    fn arc(&self, k: usize) -> Option<Arc>
        ensures { result ≡ arc_of (net self.now) k };

    /// The capacity of an arc alone, which may be quicker than the whole arc.
    fn capacity(&self, k: usize) -> Option<Capacity>
        ensures { result ≡ capacity_of (net self.now) k };

    /// A node, taken apart for the two questions below.
    fn at(&self, v: usize) -> Self::At
        ensures { result ≡ decoded self.now v };

    /// The next arc that leaves a node, from a cursor on; the first is asked for at cursor 0.
    fn leaving(&self, at: Self::At, cursor: usize) -> Option<Step>
        ensures { result ≡ outward self.now at cursor };

    /// The next arc that enters a node, from a cursor on; the first is asked for at cursor 0.
    fn entering(&self, at: Self::At, cursor: usize) -> Option<Step>
        ensures { result ≡ inward self.now at cursor };
}
