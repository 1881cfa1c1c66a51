//! Laws of unions of bounds, each as the clause of a function.
ghost use Rattle.std.specs.Prelude.{◌≡◌, Bool, true};
ghost use Rattle.vortex_scalar_core.specs.Equality.{eq_scalar};
ghost use Rattle.vortex_stats_bound.specs.Bounds.{union_lower, union_upper};
ghost use Rattle.vortex_stats_bound.specs.ScalarOrder.{scalar_order, is_plain};
ghost use Rattle.vortex_stats_bound.specs.Laws.{Agree, Commutes, ComparesInGroups, Associates};

use crate::bound_ord::BoundOrd;

/// Unions of lower bounds commute, up to which of two equal values results.
pub fn lower_unions_commute<T: BoundOrd>()
    ensures { Commutes (Agree T.order) (union_lower T.order) }
{}

/// Unions of upper bounds commute, up to which of two equal values results.
pub fn upper_unions_commute<T: BoundOrd>()
    ensures { Commutes (Agree T.order) (union_upper T.order) }
{}

/// Unions of lower bounds are associative for values of which any two that compare with a third
/// compare.
pub fn lower_unions_associate<T: BoundOrd>()
    ensures { (passes : T → Bool) → ComparesInGroups T.order passes
        → Associates passes (union_lower T.order) }
{}

/// Unions of upper bounds are associative for values of which any two that compare with a third
/// compare.
pub fn upper_unions_associate<T: BoundOrd>()
    ensures { (passes : T → Bool) → ComparesInGroups T.order passes
        → Associates passes (union_upper T.order) }
{}

/// Unions of lower bounds of scalars commute.
pub fn scalar_lower_unions_commute()
    ensures { Commutes (λ s t. eq_scalar s t ≡ true) (union_lower scalar_order) }
{}

/// Unions of upper bounds of scalars commute.
pub fn scalar_upper_unions_commute()
    ensures { Commutes (λ s t. eq_scalar s t ≡ true) (union_upper scalar_order) }
{}

/// Unions of lower bounds of scalars are associative where no part of a type is `Variant`.
pub fn scalar_lower_unions_associate()
    ensures { Associates is_plain (union_lower scalar_order) }
{}

/// Unions of upper bounds of scalars are associative where no part of a type is `Variant`.
pub fn scalar_upper_unions_associate()
    ensures { Associates is_plain (union_upper scalar_order) }
{}
