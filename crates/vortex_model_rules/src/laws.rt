//! Laws of callers' rules. Each function's clause is a law; a body only calls the laws that it
//! follows from.
ghost use Rattle.vortex_model_rules.specs.Laws.{
  NoRulesAddNothing,
  FaultsAreThoseOfAnswers,
  FalsifiersWithRulesAreSound,
  SatisfiersWithRulesAreSound,
  ScansWithRulesLoseNone,
  ScansWithNoRulesAreScans,
  PushingInKeepsTheTruth,
  PushingInKeepsTheValue,
  PushNotKeepsItsLaw,
  NullComparisonKeepsItsLaw,
  BuiltInProofsAreFaultless,
  PushNotProvesAsPushedIn,
  ScansWithPushNotAreScansPushedIn,
  PushNotSkipsExactlyTheHopeless,
  NullSidesAreProved,
  TheTwoRulesMakeNoFault,
};

use vortex_model_laws::laws::{built_in_proofs_read_no_columns, exactly_the_hopeless_are_skipped};

/// Without rules the falsifier and the satisfier are the built-in ones.
pub fn no_rules_add_nothing()
    ensures { NoRulesAddNothing }
{}

/// A falsifier or satisfier with rules is a fault exactly where a rule's answer at some node that
/// the rules get is one.
pub fn faults_are_those_of_answers()
    ensures { FaultsAreThoseOfAnswers }
{}

/// Where each rule is sound, a falsifier that is true by honest statistics means that no row
/// satisfies the predicate.
pub fn falsifiers_with_rules_are_sound()
    ensures { FalsifiersWithRulesAreSound }
{}

/// Where each rule is sound, a satisfier that is true by honest statistics means that each row
/// satisfies the predicate.
pub fn satisfiers_with_rules_are_sound()
    ensures { SatisfiersWithRulesAreSound }
{}

/// Where each rule is sound, a scan with rules answers the rows of one without.
pub fn scans_with_rules_lose_none()
    ensures { ScansWithRulesLoseNone }
{
    built_in_proofs_read_no_columns();
}

/// A scan with an empty list of rules has the answer of one without rules: rows, chunks skipped and
/// taken whole, and counts.
pub fn scans_with_no_rules_are_scans()
    ensures { ScansWithNoRulesAreScans }
{
    built_in_proofs_read_no_columns();
}

/// A predicate is true, false or null exactly where it is with its NOTs pushed inward. What is not
/// a boolean counts as null.
pub fn pushing_in_keeps_the_truth()
    ensures { PushingInKeepsTheTruth }
{}

/// A predicate that a scan accepts has the same value at each row with its NOTs pushed inward.
pub fn pushing_in_keeps_the_value()
    ensures { PushingInKeepsTheValue }
{}

/// The rule that pushes NOTs inward is sound.
pub fn push_not_keeps_its_law()
    ensures { PushNotKeepsItsLaw }
{}

/// The rule that a comparison with an all-null side selects nothing is sound.
pub fn null_comparison_keeps_its_law()
    ensures { NullComparisonKeepsItsLaw }
{}

/// The built-in proofs of a predicate that a scan accepts have no fault, so a rule may answer them.
pub fn built_in_proofs_are_faultless()
    ensures { BuiltInProofsAreFaultless }
{}

/// With the rule that pushes NOTs inward, falsifier and satisfier are the built-in ones of the
/// predicate with its NOTs pushed inward.
pub fn push_not_proves_as_pushed_in()
    ensures { PushNotProvesAsPushedIn }
{}

/// A scan with that rule has the whole answer of a scan without rules of the predicate with its
/// NOTs pushed inward.
pub fn scans_with_push_not_are_scans_pushed_in()
    ensures { ScansWithPushNotAreScansPushedIn }
{
    built_in_proofs_read_no_columns();
}

/// Where the predicate with its NOTs pushed inward is of the wide class, a scan with that rule
/// skips a chunk that has all its bounds exactly where no choice of values in the chunk's box makes
/// the predicate true.
pub fn push_not_skips_exactly_the_hopeless()
    ensures { PushNotSkipsExactlyTheHopeless }
{
    built_in_proofs_read_no_columns();
    exactly_the_hopeless_are_skipped();
}

/// Where a side of a comparison is null at each row by its null count, the falsifier with the
/// second rule exists and is true.
pub fn null_sides_are_proved()
    ensures { NullSidesAreProved }
{}

/// With both rules no scan of an accepted predicate is refused for a rule's fault.
pub fn the_two_rules_make_no_fault()
    ensures { TheTwoRulesMakeNoFault }
{}
