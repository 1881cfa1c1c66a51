//! Comparisons negated, and with their sides swapped.
ghost use Rattle.std.specs.Prelude.{◌≡◌};
ghost use Rattle.vortex_model.specs.Content.{Content};
ghost use Rattle.vortex_model_table.specs.Truth.{compared, is_true};
ghost use Rattle.vortex_stats_expr.specs.Tree.{comparison_of};
ghost use Rattle.vortex_stats_mask.specs.Wanted.{is_wanted, negated, swapped};

use vortex_stats_expr::operator::Comparison;

/// The comparison that is true where this one is false. Of null both are null.
pub fn negated(comparison: Comparison) -> Comparison
    ensures { comparison_of result ≡ negated (comparison_of comparison) }
{
    match comparison {
        Comparison::Eq => Comparison::NotEq,
        Comparison::NotEq => Comparison::Eq,
        Comparison::Gt => Comparison::Lte,
        Comparison::Gte => Comparison::Lt,
        Comparison::Lt => Comparison::Gte,
        Comparison::Lte => Comparison::Gt,
    }
}

/// The comparison with its sides in the other order.
pub fn swapped(comparison: Comparison) -> Comparison
    ensures { comparison_of result ≡ swapped (comparison_of comparison) }
{
    match comparison {
        Comparison::Eq => Comparison::Eq,
        Comparison::NotEq => Comparison::NotEq,
        Comparison::Gt => Comparison::Lt,
        Comparison::Gte => Comparison::Lte,
        Comparison::Lt => Comparison::Gt,
        Comparison::Lte => Comparison::Gte,
    }
}

/// The comparison that is true where this one has the wanted truth.
pub fn wanted(comparison: Comparison, want: bool) -> Comparison
    ensures { (c d : Content) → is_true (compared (comparison_of result) c d)
        ≡ is_wanted want (compared (comparison_of comparison) c d) }
{
    if want {
        comparison
    } else {
        negated(comparison)
    }
}
