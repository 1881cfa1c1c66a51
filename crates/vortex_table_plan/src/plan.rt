//! The plan of a scan, made once and used at every chunk.

use vortex_stats_bind::bound::BoundExpression;
use vortex_table_schema::cut::RowProjection;

/// The plan of a scan, made once and used at every chunk.
#[derive(Drop)]
pub struct ScanPlan {
    /// The predicate.
    pub bound: BoundExpression,
    /// The proof that no row satisfies it, where there is one.
    pub falsifier: Option<BoundExpression>,
    /// The proof that every row satisfies it, where there is one.
    pub satisfier: Option<BoundExpression>,
    /// What the paths ask for of each row.
    pub cut: RowProjection,
}
