#![tactic(auto)]
// The theory of plans: a minimum cut of the time network of a project is a cheapest plan. Each theorem
// is the contract of a function that does nothing.
ghost use Rattle.plan_theory.specs.Plans.{TimeNetworkIsWithinBounds, MinimumCutIsCheapest, TurnedMinimumCutIsLatest, UnhinderedWhenNoneMeets, FlowVouchesForCost};

pub mod sizes;

/// The time network of a project that keeps its limits is a network that keeps those of networks.
pub fn the_time_network_is_within_bounds()
    ensures { TimeNetworkIsWithinBounds }
{}

/// From what a flow reaches in the time network, the sink not among it, the starts read are the cheapest
/// list, and the value of the flow is its cost above the floors.
pub fn a_minimum_cut_is_a_cheapest_plan()
    ensures { MinimumCutIsCheapest }
{}

/// Over the turned network the starts read are the latest of the cheapest lists, at the same cost.
pub fn a_turned_minimum_cut_is_the_latest_plan()
    ensures { TurnedMinimumCutIsLatest }
{}

/// Unbounded arcs alone lead from source to sink exactly when no list meets the project.
pub fn unbounded_arcs_lead_across_exactly_when_none_meets()
    ensures { UnhinderedWhenNoneMeets }
{}

/// A list that meets the project is a cheapest one if some flow has the value of its cost above the floors.
pub fn a_flow_vouches_for_a_cost()
    ensures { FlowVouchesForCost }
{}
