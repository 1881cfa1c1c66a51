//! The layout of lists without gaps: where each list begins, its size, and which elements are
//! copied.
ghost use Rattle.std.specs.Prelude.{◌≡◌, false, map, IfOk, IfErr};
ghost use Rattle.vortex_arrays_model.specs.Layout.{content_at, len_of, list_views, rows_of, IsSound};
ghost use Rattle.vortex_arrays_model.specs.Canonical.{IsCanonical};
ghost use Rattle.vortex_arrays_core.specs.LayoutOf.{valid_of};
ghost use Rattle.vortex_arrays_rebuild.specs.Rebuilds.{IsSumFault};
ghost use Rattle.vortex_arrays_rebuild.specs.Runs.{positions_in};

use crate::density::valid_sizes;
use crate::read::read_indices;
use crate::runs::{Runs, RunsBuilder};
use std::alloc::Global;
use vortex_arrays_core::array::{ArrayRef, Validity};
use vortex_arrays_view::error::ArrayError;

/// The offsets and the sizes of lists that are end to end, and the runs of their elements.
#[derive(Drop)]
pub(crate) struct Plan {
    pub(crate) offsets: Vec<u64>,
    pub(crate) sizes: Vec<u64>,
    pub(crate) runs: Runs,
}

/// The plan for the lists of a view. `Total` where the sizes of its lists sum to 2^64 or more.
#[tactic(auto, using(crate::proofs::PlanLemmas::planned))]
pub(crate) fn plan_layout(
    alloc: Global,
    elements: &ArrayRef,
    offsets: &ArrayRef,
    sizes: &ArrayRef,
    validity: &Validity,
) -> Result<Plan, ArrayError>
    requires { IsSound (list_views elements.now offsets.now sizes.now false
        (valid_of validity.now)) }
    ensures canonical { IfOk result
        (λ p. IsCanonical (rows_of (list_views elements.now offsets.now sizes.now false
        (valid_of validity.now))) p.offsets.items p.sizes.items
        (map (content_at elements.now) (positions_in p.runs.list.items))) }
    ensures limit { IfOk result (λ p. p.runs.limit ≡ len_of elements.now) }
    ensures refused { IfErr result (λ e. IsSumFault e
        (rows_of (list_views elements.now offsets.now sizes.now false (valid_of validity.now)))) }
{
    let limit = elements.len();
    let starts = read_indices(alloc, offsets)?;
    let counts = valid_sizes(alloc, sizes, validity)?;
    let mut new_starts = vec![in alloc; 0; starts.len()]?;
    let mut new_counts = vec![in alloc; 0; starts.len()]?;
    let mut runs = RunsBuilder::new(alloc, limit);
    for i in 0..starts.len() {
        let start = starts[i];
        let count = counts[i];
        new_starts[i] = runs.len as u64;
        new_counts[i] = count as u64;
        runs.add(start, count)?;
    }
    let runs = runs.finish()?;
    Ok(Plan {
        offsets: new_starts,
        sizes: new_counts,
        runs,
    })
}
