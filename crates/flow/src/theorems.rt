// The theorems on flows and cuts, each the contract of a function that does nothing.
ghost use Rattle.flow.specs.Cuts.{ValueCrossesEveryCut, NoFlowExceedsACut, ClosedCutHasTheValue, ReachedLiesInside, MarksAgree};
ghost use Rattle.flow.specs.Pushes.{PushBegins, PushAlong, PushAgainst, PushEnds};
ghost use Rattle.flow.specs.Turning.{TurnedFlowIsAFlow, TurnedCutIsACut};

/// Over every cut, what leaves it is what enters it and the value.
pub fn value_crosses_every_cut()
    ensures { ValueCrossesEveryCut }
{}

/// No flow has a value above the capacity of a cut.
pub fn no_flow_exceeds_a_cut()
    ensures { NoFlowExceedsACut }
{}

/// A cut from which nothing leads on has the capacity of the value.
pub fn closed_cut_has_the_value()
    ensures { ClosedCutHasTheValue }
{}

/// The nodes reached lie inside every cut whose capacity is the value.
pub fn reached_lies_inside()
    ensures { ReachedLiesInside }
{}

/// The marks do not depend on which maximum flow was found.
pub fn marks_agree()
    ensures { MarksAgree }
{}

/// Flow pushed along a way, arc by arc from the source, keeps a flow and adds to its value.
pub fn pushing_keeps_a_flow()
    ensures begins { PushBegins }
    ensures along { PushAlong }
    ensures against { PushAgainst }
    ensures ends { PushEnds }
{}

/// A flow of the turned network is a flow of the network, with the same value.
pub fn turned_flow_is_a_flow()
    ensures { TurnedFlowIsAFlow }
{}

/// The far side of a cut is a cut of the turned network, of the same capacity.
pub fn turned_cut_is_a_cut()
    ensures { TurnedCutIsACut }
{}
