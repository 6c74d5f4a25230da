// What is proved of the start lists that planning is to find: each of the defined lists is the one
// that the subject's own words single out, and there is none exactly when nothing meets the project.
ghost use Rattle.model.specs.Chosen.{TestIsMeeting, EarliestIsTheFirst, CheapestIsTheFirst, LatestIsTheLast, DefinedOnesMeet, NoneDefinedExactly};

/// A list passes the test `meets` exactly when it has one open slot for each activity and keeps all lags.
pub fn meeting_is_decided()
    ensures { TestIsMeeting }
{}

/// A list that fits the description of the earliest, cheapest or latest starts is the defined one.
pub fn described_lists_are_the_defined_ones()
    ensures earliest { EarliestIsTheFirst }
    ensures cheapest { CheapestIsTheFirst }
    ensures latest { LatestIsTheLast }
{}

/// The defined lists meet the project, and no list that meets it costs less than the last two.
pub fn defined_lists_meet()
    ensures { DefinedOnesMeet }
{}

/// There is no earliest, no cheapest and no latest list exactly when no list meets the project.
pub fn none_is_defined_exactly_when_none_meets()
    ensures { NoneDefinedExactly }
{}
