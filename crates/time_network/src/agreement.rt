// Networks that are the same, arc by arc, as theorems: each the contract of a function that does nothing.
ghost use Rattle.time_network.specs.Agreement.{SameBack, SameTurned, SameFlows, SameReached, SameMarks, SameUnhindered, SameCuts};

/// To be the same holds both ways, and of the turned networks too.
pub fn same_networks()
    ensures back { SameBack }
    ensures turned { SameTurned }
{}

/// The same networks have the same flows, with the same values.
pub fn same_flows()
    ensures { SameFlows }
{}

/// The same networks have the same nodes reached, and the same marks.
pub fn same_marks()
    ensures reached { SameReached }
    ensures marks { SameMarks }
{}

/// The same networks have the same nodes that unbounded arcs alone lead to.
pub fn same_unhindered()
    ensures { SameUnhindered }
{}

/// The same networks have the same finite cuts, with the same capacities.
pub fn same_cuts()
    ensures { SameCuts }
{}
