//! Laws of the truths that are wanted of predicates: what lets a mask of a predicate be made of
//! masks of its parts, with no truth of three values for any row.
ghost use Rattle.vortex_stats_mask.specs.Laws.{AndJoins, OrJoins, NotTurns, FalseIsNegated, SidesSwap};

/// AND has the wanted truth where its parts have it: both at true, one at false.
pub fn and_joins_wanted_truths()
    ensures { AndJoins }
{}

/// OR has the wanted truth where its parts have it: one at true, both at false.
pub fn or_joins_wanted_truths()
    ensures { OrJoins }
{}

/// NOT has the wanted truth where its part has the other one.
pub fn not_turns_wanted_truths()
    ensures { NotTurns }
{}

/// A comparison is false exactly where the negated one is true.
pub fn false_comparisons_are_negated()
    ensures { FalseIsNegated }
{}

/// The sides of a comparison may be swapped.
pub fn sides_of_comparisons_swap()
    ensures { SidesSwap }
{}
