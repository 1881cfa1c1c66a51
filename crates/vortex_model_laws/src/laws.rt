//! Laws over the definitions of `vortex_model` and `vortex_model_table`. Each function's clause is
//! a law; a body only calls the laws that it follows from.
ghost use Rattle.vortex_model_table.specs.Laws.{LowsOfBytes, HighsOfBytes, TrueSelectsAll, FalseSelectsNone, FalseSkipsAll, CoversTellAnswers, RootIsWhole, RootTypeIsWhole, AnswersAreOfTheirType, HopelessBoxesHoldNone, LowsAreBelow, HighsAreAbove, BuiltInProofsReadNoColumns, ShapesAreSpelled, StepsKeepTables};
ghost use Rattle.vortex_model_table.specs.Pruning.{
  FalsifiersAreSound,
  AcceptedPredicatesHaveTruth,
  SatisfiersAreSound,
  ZoneMapsAreHonest,
  SkippedChunksHoldNone,
  HopelessChunksHoldNone,
  WholeChunksHoldAll,
  SkippingLosesNone,
  ChunksDoNotShow,
  AppendsAnswerBehind,
};
ghost use Rattle.vortex_model_table.specs.ZoneLaws.{
  GroupBoundsAreHonest,
  ChunkBindersAreHonest,
  GroupBindersAreHonest,
  SkippingGroupsLosesNone,
  JoinsGiveTheBounds,
  JoinsOfAColumnGiveTheBounds,
  GroupsJoinedFromTheLeftHaveTheBounds,
};
ghost use Rattle.vortex_model_laws.specs.Laws.{
  RetypingTwiceIsRetypingAtOnce,
  RetypingCarriesBounds,
  ScansAreCountedWithin,
};
ghost use Rattle.vortex_model_laws.specs.Binding.{BoundFalsifiersAreSound, BoundSatisfiersAreSound};
ghost use Rattle.vortex_model_laws.specs.Described.{DescriptionsAreHonest};
ghost use Rattle.vortex_model_laws.specs.Exact.{
  FalsifiersAreComplete,
  ExactlyTheHopelessAreSkipped,
};
ghost use Rattle.vortex_model_laws.specs.Joined.{
  JoinsGiveTheTotal,
  JoinsGiveTheConstancy,
  SingleUseTreesAreWide,
  TreesOfDistinctColumnsAreWide,
};
ghost use Rattle.vortex_model_laws.specs.Regrouped.{GroupsDoNotShow, JoinsChangeNoScan};
ghost use Rattle.vortex_model_laws.specs.Runs.{RunsKeepWhatIsHandedIn, RunsAreScannedExactly};
ghost use Rattle.vortex_model_laws.specs.Tighter.{ProofsStayTrue, GroupsChangeNothing};
ghost use Rattle.vortex_model_laws.specs.Values.{BoundsAreOfTheValues, ConstantsHaveTheirZoneMap};

use vortex_model::laws::{conversions_compose, tests_of_conversion_are_right};

/// Retyping to one type and then to another leads to the same table as retyping to the second at
/// once.
pub fn retyping_twice_is_retyping_at_once()
    ensures { RetypingTwiceIsRetypingAtOnce }
{
    conversions_compose();
    tests_of_conversion_are_right();
}

/// A leaf that keeps its positions through a retype keeps its bounds and counts.
pub fn retyping_carries_bounds()
    ensures { RetypingCarriesBounds }
{}

/// A scan evaluates at most one proof for each group of two or more chunks and two for each chunk,
/// and tests no row twice.
pub fn scans_are_counted_within()
    ensures { ScansAreCountedWithin }
{}

/// A built-in proof that is true by zone maps stays true by tighter ones: those whose bounds are
/// within the former, or were absent there, and which show the absence of nulls, or of other
/// values, where the former do.
pub fn proofs_stay_true()
    ensures { ProofsStayTrue }
{}

/// Judging groups first changes no outcome: each chunk is skipped, taken whole or tested as if it
/// were judged alone.
pub fn groups_change_nothing()
    ensures { GroupsChangeNothing }
{}

/// Tables with the same chunks in other groups give each scan the same rows, and skip, take whole
/// and test the same chunks. Only the number of proofs may differ.
pub fn groups_do_not_show()
    ensures { GroupsDoNotShow }
{}

/// An accepted join changes no scan, but for the number of proofs.
pub fn joins_change_no_scan()
    ensures { JoinsChangeNoScan }
{
    steps_keep_tables();
}

/// A sound falsifier whose placeholders an honest binder replaced is true only where no row
/// satisfies the predicate.
pub fn bound_falsifiers_are_sound()
    ensures { BoundFalsifiersAreSound }
{}

/// A sound satisfier whose placeholders an honest binder replaced is true only where each row
/// satisfies the predicate.
pub fn bound_satisfiers_are_sound()
    ensures { BoundSatisfiersAreSound }
{}

/// A chunk that has both bounds of each column outside null tests is skipped exactly where no
/// choice of values in its box makes the predicate true. The predicate is of the wide class:
/// comparisons, inclusive BETWEENs, boolean literals, null tests and LIKEs of an exact string or a
/// prefix, joined by AND and OR. No column is on both sides of a comparison or of an AND, and none
/// both under a null test and outside; one may be on both sides of an OR.
pub fn exactly_the_hopeless_are_skipped()
    ensures { ExactlyTheHopelessAreSkipped }
{}

/// Where a chunk with rows has all these bounds and its zone maps don't make the falsifier true,
/// some choice of values in its box makes the predicate true.
pub fn falsifiers_are_complete()
    ensures { FalsifiersAreComplete }
{}

/// Comparisons under AND and OR in which no column occurs twice are of the wide class.
pub fn single_use_trees_are_wide()
    ensures { SingleUseTreesAreWide }
{}

/// Wide trees (comparisons, null tests and the like under AND and OR) in which no column occurs
/// twice are of the wide class too.
pub fn trees_of_distinct_columns_are_wide()
    ensures { TreesOfDistinctColumnsAreWide }
{}

/// The total of a group is the sum over its rows or is absent, whatever joins made the group; it is
/// known where the sum of each run of neighbouring chunks fits.
pub fn joins_give_the_total()
    ensures { JoinsGiveTheTotal }
{}

/// The constancy of a group is that of its rows or is absent, whatever joins made the group; it is
/// known for one chunk, where some chunk isn't constant, and where each has an exact low.
pub fn joins_give_the_constancy()
    ensures { JoinsGiveTheConstancy }
{}

/// All that a description of a leaf column of a group reports is true of the rows of its chunks:
/// the bounds, sum and constancy that are known, and the null count.
pub fn descriptions_are_honest()
    ensures { DescriptionsAreHonest }
{}

/// After any commands, accepted or refused, the table has the rows of the appends accepted since
/// the last accepted create, in order.
pub fn runs_keep_what_is_handed_in()
    ensures { RunsKeepWhatIsHandedIn }
{
    steps_keep_tables();
}

/// After any commands, a scan answers the rows handed in that satisfy its predicate, in order, cut
/// to its paths. Of the chunks that have all bounds of a predicate of the wide class, it skips
/// exactly those with a hopeless box.
pub fn runs_are_scanned_exactly()
    ensures { RunsAreScannedExactly }
{
    steps_keep_tables();
}

/// Bounds depend on the set of values alone, so those of a dictionary's rows are those of the
/// values that its codes reference.
pub fn bounds_are_of_the_values()
    ensures { BoundsAreOfTheValues }
{}

/// n rows of one value have the bounds of one such row and n times its sum, and are constant.
pub fn constants_have_their_zone_map()
    ensures { ConstantsHaveTheirZoneMap }
{}

/// WHERE true answers every row.
pub fn true_selects_all()
    ensures { TrueSelectsAll }
{}

/// WHERE false answers no row.
pub fn false_selects_none()
    ensures { FalseSelectsNone }
{}

/// WHERE false skips every chunk.
pub fn false_skips_all()
    ensures { FalseSkipsAll }
{}

/// Path lists that cover the same paths give equal answers, of equal types.
pub fn covers_tell_answers()
    ensures { CoversTellAnswers }
{}

/// The root path keeps the whole row.
pub fn root_is_whole()
    ensures { RootIsWhole }
{}

/// The root path keeps the whole type.
pub fn root_type_is_whole()
    ensures { RootTypeIsWhole }
{}

/// The rows of an answer are of its type.
pub fn answers_are_of_their_type()
    ensures { AnswersAreOfTheirType }
{}

/// No row whose columns are in a hopeless box satisfies the predicate.
pub fn hopeless_boxes_hold_none()
    ensures { HopelessBoxesHoldNone }
{}

/// A value is not below its low.
pub fn lows_are_below()
    ensures { LowsAreBelow }
{}

/// A value is not above its high, where it has one.
pub fn highs_are_above()
    ensures { HighsAreAbove }
{}

/// No row of a chunk with a hopeless box satisfies a predicate of the wide class.
pub fn hopeless_chunks_hold_none()
    ensures { HopelessChunksHoldNone }
{}

/// The built-in falsifiers and satisfiers read columns only through placeholders.
pub fn built_in_proofs_read_no_columns()
    ensures { BuiltInProofsReadNoColumns }
{}

/// A LIKE pattern's shape is the string of its signs, up to the end or to the first wildcard.
pub fn shapes_are_spelled()
    ensures { ShapesAreSpelled }
{}

/// Each command, accepted or refused, keeps what holds of tables.
pub fn steps_keep_tables()
    ensures { StepsKeepTables }
{}

/// The low of bytes is their prefix of at most that length.
pub fn lows_of_bytes()
    ensures { LowsOfBytes }
{}

/// The high of longer bytes is the least byte string of that length above them.
pub fn highs_of_bytes()
    ensures { HighsOfBytes }
{}

/// Where the built-in falsifier of a predicate is true, no row satisfies it.
pub fn falsifiers_are_sound()
    ensures { FalsifiersAreSound }
{}

/// Where the built-in satisfier of a predicate is true, each row satisfies it.
pub fn satisfiers_are_sound()
    ensures { SatisfiersAreSound }
{}

/// The zone map of a leaf column is honest, whatever the bound length.
pub fn zone_maps_are_honest()
    ensures { ZoneMapsAreHonest }
{}

/// A predicate that a scan accepts has a truth.
pub fn accepted_predicates_have_truth()
    ensures { AcceptedPredicatesHaveTruth }
{}

/// A chunk that a scan skips has no row that satisfies the predicate.
pub fn skipped_chunks_hold_none()
    ensures { SkippedChunksHoldNone }
{}

/// Each row of a chunk that a scan takes whole satisfies the predicate.
pub fn whole_chunks_hold_all()
    ensures { WholeChunksHoldAll }
{}

/// A scan that skips chunks, or takes them whole, finds the rows that a plain filter finds.
pub fn skipping_loses_none()
    ensures { SkippingLosesNone }
{}

/// Tables of one type with equal rows in order give each scan the same rows.
pub fn chunks_do_not_show()
    ensures { ChunksDoNotShow }
{}

/// After an append a scan answers the rows of before, and then those of the batch.
pub fn appends_answer_behind()
    ensures { AppendsAnswerBehind }
{}

/// The zone map that a scan uses for a group is honest over all rows of its chunks.
pub fn group_bounds_are_honest()
    ensures { GroupBoundsAreHonest }
{}

/// The placeholders that a scan knows of a chunk are honest over its rows.
pub fn chunk_binders_are_honest()
    ensures { ChunkBindersAreHonest }
{}

/// The placeholders that a scan knows of a group are honest over the rows of its chunks.
pub fn group_binders_are_honest()
    ensures { GroupBindersAreHonest }
{}

/// A scan that judges groups first, and then chunks, finds the rows that a plain filter finds.
pub fn skipping_groups_loses_none()
    ensures { SkippingGroupsLosesNone }
{}

/// Joins of zone maps give the bounds and the counts of the group, in whatever order they are made.
pub fn joins_give_the_bounds()
    ensures { JoinsGiveTheBounds }
{}

/// Joins of the zone maps of a leaf column give the bounds and the counts of the group.
pub fn joins_of_a_column_give_the_bounds()
    ensures { JoinsOfAColumnGiveTheBounds }
{}

/// The zone map of a group whose chunks are joined from the left has the group's bounds and counts.
pub fn groups_joined_from_the_left_have_the_bounds()
    ensures { GroupsJoinedFromTheLeftHaveTheBounds }
{}
