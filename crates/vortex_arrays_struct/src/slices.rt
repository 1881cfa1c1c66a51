//! Laws of slices. Each function makes the calls of a law, which its contract states.
ghost use Rattle.std.specs.Prelude.{◌≡◌, ◌+◌, ◌-◌, IfOk, IfErr};
ghost use Rattle.vortex_arrays_model.specs.Layout.{len_of, array_type_of, rows_of};
ghost use Rattle.vortex_arrays_model.specs.Picks.{Picks};
ghost use Rattle.vortex_arrays_view.specs.declared.error.ArrayError.TheVariants.{Memory};
ghost use Rattle.vortex_arrays_struct.specs.Nested.{IsNestedFault};

use std::alloc::Global;
use std::ops::Range;
use vortex_arrays_core::array::ArrayRef;
use vortex_arrays_view::error::ArrayError;

/// A slice, a slice of it, and the slice by added bounds: the last two have the same rows and the
/// same type. `OutOfRange` where the first range is not within the array or the second not within
/// the slice.
#[tactic(auto, using(crate::proofs::Rows::nested_kind))]
pub fn slice_of_slice(
    array: &ArrayRef,
    alloc: Global,
    outer: Range<usize>,
    inner: Range<usize>,
) -> Result<(ArrayRef, ArrayRef, ArrayRef), ArrayError>
    ensures part { IfOk result (λ all. Picks array.now all.0 (outer.end - outer.start)
        (λ i. outer.start + i)) }
    ensures twice { IfOk result (λ all. Picks all.0 all.1 (inner.end - inner.start)
        (λ i. inner.start + i)) }
    ensures once { IfOk result (λ all. Picks array.now all.2
        (outer.start + inner.end - (outer.start + inner.start))
        (λ i. outer.start + inner.start + i)) }
    ensures rows { IfOk result (λ all. rows_of all.1 ≡ rows_of all.2) }
    ensures kind { IfOk result (λ all. array_type_of all.1 ≡ array_type_of all.2) }
    ensures refused { IfErr result
        (λ e. IsNestedFault e (len_of array.now) outer.start outer.end inner.start inner.end) }
{
    let part = array.slice(alloc, outer.start..outer.end)?;
    let twice = part.slice(alloc, inner.start..inner.end)?;
    let once = array.slice(alloc, outer.start + inner.start..outer.start + inner.end)?;
    Ok((part, twice, once))
}

/// The slice of all rows, which has the rows and the type of the array. `Memory` is the only error.
#[tactic(auto, using(crate::proofs::Rows::whole))]
pub fn slice_of_all(array: &ArrayRef, alloc: Global) -> Result<ArrayRef, ArrayError>
    ensures slice { IfOk result (λ all. Picks array.now all (len_of array.now - 0)
        (λ i. 0 + i)) }
    ensures rows { IfOk result (λ all. rows_of all ≡ rows_of array.now) }
    ensures kind { IfOk result (λ all. array_type_of all ≡ array_type_of array.now) }
    ensures refused { IfErr result (λ e. e ≡ Memory) }
{
    let all = array.slice(alloc, 0..array.len())?;
    Ok(all)
}
