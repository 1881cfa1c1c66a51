//! Copies of the rows of runs.
ghost use Rattle.std.specs.Prelude.{◌≡◌, ◌+◌, ◌-◌, length, map, slice_index_or, pos, IfOk, IfErr};
ghost use Rattle.vortex_model.specs.LogicalType.{u64};
ghost use Rattle.vortex_arrays_view.specs.declared.error.ArrayError.TheVariants.{Memory};
ghost use Rattle.vortex_arrays_model.specs.Layout.{len_of, numbers, required};
ghost use Rattle.vortex_arrays_model.specs.Picks.{Picks};
ghost use Rattle.vortex_arrays_rebuild.specs.Runs.{positions_in, LiesWithin};

use crate::ranges::copy_rows;
use crate::runs::{Run, Runs, positions_of_runs};
use std::alloc::{AllocError, Global};
use vortex_arrays_buffer::buffer::Buffer;
use vortex_arrays_buffer::primitive_buffer::PrimitiveBuffer;
use vortex_arrays_core::array::{ArrayRef, Validity};
use vortex_arrays_view::error::ArrayError;

/// The rows of the runs. Those of one run are a slice, which shares the array's buffers, and those
/// of several are copied, run after run. `Memory` is the only error.
#[tactic(auto, using(crate::proofs::CopyLemmas::sliced))]
pub(crate) fn rows_in(alloc: Global, array: &ArrayRef, runs: &Runs) -> Result<ArrayRef, ArrayError>
    requires { runs.now.limit ≡ len_of array.now }
    ensures made { IfOk result (λ r. Picks array.now r (length (positions_in runs.now.list.items))
        (λ i. slice_index_or (positions_in runs.now.list.items) i 0)) }
    ensures refused { IfErr result (λ e. e ≡ Memory) }
{
    if runs.list.len() == 1 {
        let run = runs.list[0];
        return slice_run(alloc, array, run);
    }
    let copied = copy_rows(alloc, array, runs)?;
    Ok(copied)
}

// The rows of one run.
#[tactic(auto, using(vortex_arrays_nested::proofs::SliceLemmas::only_memory))]
fn slice_run(alloc: Global, array: &ArrayRef, run: Run) -> Result<ArrayRef, ArrayError>
    requires { LiesWithin (len_of array.now) run }
    ensures made { IfOk result (λ r. Picks array.now r (run.start + run.len - run.start)
        (λ i. run.start + i)) }
    ensures refused { IfErr result (λ e. e ≡ Memory) }
{
    let _len = array.len();
    array.slice(alloc, run.start..run.start + run.len)
}

/// A dictionary whose codes are the indices of the runs' rows.
#[tactic(auto, using(crate::proofs::NameLemmas::naming))]
pub(crate) fn name_rows(
    alloc: Global,
    array: &ArrayRef,
    runs: &Runs,
) -> Result<ArrayRef, AllocError>
    requires { runs.now.limit ≡ len_of array.now }
    ensures { IfOk result (λ r. Picks array.now r (length (positions_in runs.now.list.items))
        (λ i. slice_index_or (positions_in runs.now.list.items) i 0)) }
{
    let positions = positions_of_runs(alloc, runs)?;
    let codes = of_u64(alloc, positions)?;
    // Proves that the parts fit together.
    let _counts = (codes.len(), array.len());
    ArrayRef::of_dict(alloc, codes, array.clone()?, false)
}

/// An array of these integers, without null.
pub(crate) fn of_u64(alloc: Global, items: Vec<u64>) -> Result<ArrayRef, AllocError>
    ensures { IfOk result (λ a. a ≡ numbers u64 (map pos items.items) required) }
{
    let items = PrimitiveBuffer::U64(Buffer::from_vec(items)?);
    ArrayRef::of_numbers(alloc, items, Validity::NonNullable)
}
