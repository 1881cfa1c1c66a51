//! Why proofs that are made with callers' rules are sound. Each function's clause is a law.
ghost use Rattle.std.specs.Prelude.{◌≡◌, length};
ghost use Rattle.vortex_model.specs.LogicalType.{LogicalType};
ghost use Rattle.vortex_model_table.specs.Expression.{Expression, HasFormedLiterals};
ghost use Rattle.vortex_model_table.specs.Sound.{IsSoundFalsifier, IsSoundSatisfier};
ghost use Rattle.vortex_model_table.specs.Truth.{HasTruth};
ghost use Rattle.vortex_model_rules.specs.Rules.{proof, fals, sat, handed_over};
ghost use Rattle.vortex_stats_rules.specs.Meanings.{rules_of};
ghost use Rattle.vortex_stats_rules.specs.Visits.{IsOfComparisons, node_count};

use crate::rule::StatsRewriteRuleRef;
use vortex_model_rules::laws::{falsifiers_with_rules_are_sound, satisfiers_with_rules_are_sound};

/// Where the proof that is made with these rules is true of honest statistics of rows, none of them
/// satisfies the predicate.
pub fn falsifiers_are_sound(rules: &[StatsRewriteRuleRef])
    ensures { (k : LogicalType) (e p : Expression) → HasTruth k e → HasFormedLiterals e →
        fals k (rules_of meaning rules.now) e ≡ proof p → IsSoundFalsifier k e p }
{
    falsifiers_with_rules_are_sound();
}

/// Where the proof that is made with these rules is true of honest statistics of rows, each of them
/// satisfies the predicate.
pub fn satisfiers_are_sound(rules: &[StatsRewriteRuleRef])
    ensures { (k : LogicalType) (e p : Expression) → HasTruth k e → HasFormedLiterals e →
        sat k (rules_of meaning rules.now) e ≡ proof p → IsSoundSatisfier k e p }
{
    satisfiers_with_rules_are_sound();
}

/// Of AND and OR over comparisons each node is handed to the rules once, so that the visits which
/// `falsify` counts are their number.
#[tactic(auto, using(crate::proofs::Handed::each_handed_once))]
pub fn comparisons_are_visited_once()
    ensures { (e : Expression) → IsOfComparisons e → length (handed_over e) ≡ node_count e }
{}
