// Small files worked out by hand: what they state, and the start lists that planning is to find there.
ghost use Rattle.std.specs.Prelude.{◌≡◌, true, [], ◌∷◌, pos, Some, None};
ghost use Rattle.model.specs.Starts.{cheapest, latest, earliest, cost, floors};
ghost use Rattle.table_file.specs.Format.{faultless};
ghost use Rattle.table_file.specs.Stated.{stated};
ghost use Rattle.table_file.specs.Examples.{two_in_turn, two_in_a_row, one_at_will, after_itself};

/// Two activities in turn start in slots 0 and 2, at cost 7 over floors of 5.
pub fn two_activities_in_turn()
    ensures opens { faultless two_in_turn ≡ true }
    ensures cheapest { cheapest (stated two_in_turn) ≡ Some (0 ∷ 2 ∷ []) }
    ensures cost { cost (stated two_in_turn) (0 ∷ 2 ∷ []) ≡ pos 7 }
    ensures floors { floors (stated two_in_turn) ≡ pos 5 }
{}

/// That the second starts right when the first is finished changes nothing here.
pub fn two_activities_in_a_row()
    ensures opens { faultless two_in_a_row ≡ true }
    ensures cheapest { cheapest (stated two_in_a_row) ≡ Some (0 ∷ 2 ∷ []) }
    ensures cost { cost (stated two_in_a_row) (0 ∷ 2 ∷ []) ≡ pos 7 }
    ensures floors { floors (stated two_in_a_row) ≡ pos 5 }
{}

/// Where every slot costs the same, the cheapest start is the first and the latest is the last.
pub fn one_activity_at_will()
    ensures opens { faultless one_at_will ≡ true }
    ensures cheapest { cheapest (stated one_at_will) ≡ Some (0 ∷ []) }
    ensures latest { latest (stated one_at_will) ≡ Some (2 ∷ []) }
{}

/// An activity that is to start after itself has no start.
pub fn one_activity_after_itself()
    ensures opens { faultless after_itself ≡ true }
    ensures earliest { earliest (stated after_itself) ≡ None }
    ensures cheapest { cheapest (stated after_itself) ≡ None }
    ensures latest { latest (stated after_itself) ≡ None }
{}
