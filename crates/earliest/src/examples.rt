// Worked examples: earliest starts, and chains where there are none.
ghost use Rattle.std.specs.Prelude.{◌≡◌, ℕ, [], ◌∷◌, map, Some, None};
ghost use Rattle.model.specs.Starts.{earliest as first_to_meet};
ghost use Rattle.earliest.specs.Chain.{Chain, entry_numbers};
ghost use Rattle.earliest.specs.Examples.{two_in_four, closed_before, too_late, after_itself, round_and_round};

/// Two activities in four slots, the second at least 2 slots after the first: starts 0 and 2. With
/// slots 0 and 1 closed at any height no list meets, and the chain is start; activity 0 past slot 0;
/// past slot 1; so activity 1 by lag 0 at slot 4, which is the horizon.
pub fn second_activity_too_late()
    ensures open { first_to_meet two_in_four ≡ Some (0 ∷ 2 ∷ []) }
    ensures closed { (h : ℕ) → first_to_meet (closed_before 2 h two_in_four) ≡ None }
    ensures chain { (h : ℕ) → Chain (closed_before 2 h two_in_four) (too_late h) }
    ensures numbers { (h : ℕ) → map entry_numbers (too_late h) ≡ (0, 0, 0, 0) ∷ (1, 0, 1, h) ∷ (1, 0, 2, h) ∷ (2, 1, 4, 0) ∷ [] }
{}

/// One activity in two open slots with a lag of 1 to itself: the lag pushes it to slot 1 and then to
/// slot 2, the horizon.
pub fn activity_after_itself()
    ensures closed { first_to_meet after_itself ≡ None }
    ensures chain { Chain after_itself round_and_round }
    ensures numbers { map entry_numbers round_and_round ≡ (0, 0, 0, 0) ∷ (2, 0, 1, 0) ∷ (2, 0, 2, 0) ∷ [] }
{}
