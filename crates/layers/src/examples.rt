// Layers at work: a stack of three, and a calendar that moves the cheapest start.
ghost use Rattle.std.specs.Prelude.{◌≡◌, true, [], ◌∷◌, Some};
ghost use Rattle.model.specs.Meaning.{price_of};
ghost use Rattle.model.specs.Starts.{cheapest};
ghost use Rattle.layers.specs.Layers.{over, shut_by, late_by};
ghost use Rattle.layers.specs.Terms.{all_open, marked};
ghost use Rattle.layers.specs.Examples.{one_of_three};

use crate::calendar::Calendar;
use crate::lateness::Lateness;
use crate::layered::Layered;
use model::price::Price;
use model::project::Project;
use model::time::Slot;

/// The price of an activity at a slot of any project under a calendar, lateness on that, and
/// another calendar on top.
pub fn price_under_three<P: Project + Drop>(
    below: P,
    shut: Calendar,
    late: Lateness,
    shut_too: Calendar,
    activity: u16,
    slot: Slot,
) -> Option<Price>
    ensures { result ≡ price_of
        (over (shut_by shut_too.shut) (over (late_by late.terms) (over (shut_by shut.shut) (P.meaning below))))
        activity slot.0 }
{
    let first = Layered { below, rule: shut };
    let second = Layered {
        below: first,
        rule: late,
    };
    let third = Layered {
        below: second,
        rule: shut_too,
    };
    third.price(activity, slot)
}

/// One activity of duration 0 that costs 4 in each of three slots starts at slot 1 once a calendar
/// shuts slot 0.
pub fn first_slot_shut()
    ensures { cheapest (over (shut_by (marked all_open 0 true)) one_of_three) ≡ Some (1 ∷ []) }
{}
