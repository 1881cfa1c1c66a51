//! Laws of rebuilding. The function makes the calls that the law is about, and returns their
//! results.
ghost use Rattle.std.specs.Prelude.{◌≡◌, IfOk, IfErr};
ghost use Rattle.vortex_arrays_model.specs.Layout.{rows_of};
ghost use Rattle.vortex_arrays_rebuild.specs.Rebuilds.{IsRebuiltBy, IsRebuildFault};

use crate::rebuild::{ListViewRebuild, ListViewRebuildMode};
use std::alloc::Global;
use vortex_arrays_nested::list_view::ListViewArray;
use vortex_arrays_view::error::ArrayError;

/// The lists rebuilt, and the result rebuilt by the same mode: the second is equal to the first,
/// and both have the rows of the lists. The errors are those of `rebuild`.
#[tactic(auto, using(crate::proofs::TwiceLemmas::twice))]
pub fn rebuild_twice(
    alloc: Global,
    lists: &ListViewArray,
    mode: ListViewRebuildMode,
) -> Result<(ListViewArray, ListViewArray), ArrayError>
    ensures once { IfOk result (λ both. IsRebuiltBy mode lists.now both.0) }
    ensures twice { IfOk result (λ both. IsRebuiltBy mode both.0 both.1) }
    ensures rows { IfOk result (λ both. rows_of both.0 ≡ rows_of lists.now) }
    ensures law { IfOk result (λ both. both.1 ≡ both.0) }
    ensures refused { IfErr result (λ e. IsRebuildFault mode lists.now e) }
{
    let _ = lists.slots();
    let once = lists.rebuild(alloc, mode)?;
    let _ = once.slots();
    let twice = once.rebuild(alloc, mode)?;
    Ok((once, twice))
}
