//! Laws of the first bytes of views. Each function's clause is a law.
ghost use Rattle.vortex_stats_match.specs.HeadLaws.{HeadsMissNoMatch, HeadsTellOrder, ViewsHaveHeads};

/// A view that has its value has the first bytes of it.
pub fn views_have_heads()
    ensures { ViewsHaveHeads }
{}

/// Comparing the first bytes, and the values where those are equal, orders a value and a string as
/// comparing all bytes does.
pub fn heads_tell_the_order()
    ensures { HeadsTellOrder }
{}

/// Deciding by the first bytes takes no value for a match of a pattern, and misses none.
pub fn heads_miss_no_match()
    ensures { HeadsMissNoMatch }
{}
