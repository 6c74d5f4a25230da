// What a relation says, and that the lag which it gives says the same.
ghost use Rattle.relations.specs.Sayings.{RelationIsItsLag};

/// Starts keep the lag of a relation exactly when the to-end lies at least, or at most, the interval
/// after the from-end: for both letters of either end and both senses.
pub fn relation_is_its_lag()
    ensures { RelationIsItsLag }
{}
