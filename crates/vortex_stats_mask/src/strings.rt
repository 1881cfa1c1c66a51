//! Comparisons of strings and of bytes, by their views.
ghost use Rattle.std.specs.Prelude.{◌≡◌, map, IfOk};
ghost use Rattle.vortex_model_table.specs.Truth.{test_of};
ghost use Rattle.vortex_stats_expr.specs.Tree.{comparison_of};
ghost use Rattle.vortex_stats_match.specs.Buffers.{buffers_in};
ghost use Rattle.vortex_stats_match.specs.Heads.{cmp_by_head};

use std::alloc::{AllocError, Global};
use vortex_arrays_view::view::BinaryView;
use vortex_stats_expr::operator::Comparison;
use vortex_stats_match::buffers::Buffers;
use vortex_stats_match::order::order_by_head;

// The views that compare so to the bytes of a literal, by their heads. The comparison is matched
// once.
pub(crate) fn test_views(
    alloc: Global,
    comparison: Comparison,
    views: &[BinaryView],
    buffers: &Buffers<'_>,
    literal: &[u8],
) -> Result<Vec<bool>, AllocError>
    ensures { IfOk result (λ mask. mask.items ≡ map (λ v. test_of (comparison_of comparison)
        (cmp_by_head v (buffers_in buffers.now) literal.now)) views.now) }
{
    let prefix = BinaryView::order_prefix_of(literal);
    let views = views.iter();
    match comparison {
        Comparison::Eq => views
            .map(|v| order_by_head(v, buffers, literal, prefix).is_eq())
            .collect(alloc),
        Comparison::NotEq => views
            .map(|v| order_by_head(v, buffers, literal, prefix).is_ne())
            .collect(alloc),
        Comparison::Gt => views
            .map(|v| order_by_head(v, buffers, literal, prefix).is_gt())
            .collect(alloc),
        Comparison::Gte => views
            .map(|v| order_by_head(v, buffers, literal, prefix).is_ge())
            .collect(alloc),
        Comparison::Lt => views
            .map(|v| order_by_head(v, buffers, literal, prefix).is_lt())
            .collect(alloc),
        Comparison::Lte => views
            .map(|v| order_by_head(v, buffers, literal, prefix).is_le())
            .collect(alloc),
    }
}
