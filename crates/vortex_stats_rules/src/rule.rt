//! What a rewrite rule of a caller is.
ghost use Rattle.std.specs.Prelude.{◌≡◌};
ghost use Rattle.vortex_model.specs.LogicalType.{LogicalType};
ghost use Rattle.vortex_model_rules.specs.Rules.{root_of};
ghost use Rattle.vortex_stats_bind.specs.Bound.{expression_of};
ghost use Rattle.vortex_stats_bind.specs.Bindings.{IsBoundTo};
ghost use Rattle.vortex_stats_rules.specs.Meanings.{SoundRule, root_in, IsAnswer};

use std::alloc::Global;
use vortex_stats_bind::bound::BoundExpression;
use vortex_stats_expr::error::StatsError;
use vortex_stats_expr::scalar_fn::ScalarFnId;

/// A rule that makes proofs over statistics of predicates with one function at their root.
///
/// Its meaning says what it answers at each node over rows of each type: a proof, none, or a fault.
/// Whoever writes a rule gives the meaning together with a proof that it keeps the law: where a
/// proof that it answers is true of honest statistics of rows, none of them satisfies the node, and
/// each does of `satisfy`. So callers of `falsify` and `satisfy` may rely on what these answer. A
/// proof is bound to the type that the node is bound to; what `make` of `vortex_stats_bind` makes
/// of parts of the node is.
pub trait StatsRewriteRule: Drop {
    ghost meaning: { Self → SoundRule };

    /// The function at the root of the nodes that are handed to the rule.
    fn scalar_fn_id(&self) -> ScalarFnId
        ensures { root_in result ≡ (meaning self.now).rule.root };

    /// A proof that no row of the type satisfies the node, which has the rule's function at its
    /// root. `Memory` is answered where memory runs out, any other error for a fault.
    fn falsify(
        &self,
        alloc: Global,
        expr: &BoundExpression,
    ) -> Result<Option<BoundExpression>, StatsError>
        requires handed { root_of (expression_of expr.now) ≡ (meaning self.now).rule.root }
        ensures { (k : LogicalType) → IsBoundTo k expr.now → IsAnswer k result
            ((meaning self.now).rule.falsify k (expression_of expr.now)) };

    /// A proof that every row of the type satisfies the node, which has the rule's function at its
    /// root, and errors as for `falsify`.
    fn satisfy(
        &self,
        alloc: Global,
        expr: &BoundExpression,
    ) -> Result<Option<BoundExpression>, StatsError>
        requires handed { root_of (expression_of expr.now) ≡ (meaning self.now).rule.root }
        ensures { (k : LogicalType) → IsBoundTo k expr.now → IsAnswer k result
            ((meaning self.now).rule.satisfy k (expression_of expr.now)) };
}

/// A rule as it is handed in.
pub type StatsRewriteRuleRef = Box<dyn StatsRewriteRule>;
