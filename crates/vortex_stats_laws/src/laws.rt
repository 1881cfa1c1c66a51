//! Merges and intersections of honest sets are honest. Each law is the clause of a function.
ghost use Rattle.vortex_stats_laws.specs.Laws.{
  ValidSetsCountNulls,
  MergesAreHonest,
  MergesOfManyAreHonest,
  UnorderedMergesAreHonest,
  CombinedSetsAreHonest,
};

/// The null count of a set that is valid for a column is a natural number, as the other laws
/// require.
pub fn valid_sets_count_nulls()
    ensures { ValidSetsCountNulls }
{}

/// The merge of two sets, each honest of its rows, is honest of the rows of the first followed by
/// those of the second.
pub fn merges_are_honest()
    ensures { MergesAreHonest }
{}

/// The merge of any number of sets, each honest of its rows, is honest of all rows in that order.
pub fn merges_of_many_are_honest()
    ensures { MergesOfManyAreHonest }
{}

/// The unordered merge of two honest sets is honest of the rows of both in any order.
pub fn unordered_merges_are_honest()
    ensures { UnorderedMergesAreHonest }
{}

/// The combination of two sets that are honest of the same rows is honest of them. Where a
/// statistic is refused, that is the combination up to it.
pub fn combined_sets_are_honest()
    ensures { CombinedSetsAreHonest }
{}
