//! Arrays of cells: values, and `None` for null.
ghost use Rattle.std.specs.Prelude.{◌≡◌, true, is_some, map, unwrap_or, IfOk, All};
ghost use Rattle.vortex_model.specs.LogicalType.{boolean_type, integer_type};
ghost use Rattle.vortex_model.specs.Content.{raw_boolean, raw_number};
ghost use Rattle.vortex_dtype_ptype.specs.View.{nullability_of_flag};
ghost use Rattle.vortex_arrays_core.specs.LayoutOf.{valid_of};
ghost use Rattle.vortex_table_columns.specs.Cells.{cell_raw, IsColumn, MarksCells};
ghost use Rattle.vortex_table_columns.specs.Numbers.{cells_by};

use crate::DoesNotFit;
use std::alloc::{AllocError, Global};
use vortex_arrays_buffer::bit_buffer::BitBuffer;
use vortex_arrays_buffer::buffer::Buffer;
use vortex_arrays_buffer::element::Element;
use vortex_arrays_buffer::primitive_buffer::PrimitiveBuffer;
use vortex_arrays_core::array::{ArrayRef, Validity};
use vortex_dtype_ptype::nullability::Nullability;

// Whether no cell is null.
#[tactic(auto, using(crate::proofs::CellLemmas::present))]
fn are_present<T: Copy>(cells: &[Option<T>]) -> bool
    ensures { result ≡ true → All (λ cell. is_some cell ≡ true) cells.now }
{
    for cell in cells {
        if !cell.is_some() {
            return false;
        }
    }
    true
}

// Whether each cell has a value.
fn presence<T: Copy>(alloc: Global, cells: &[Option<T>]) -> Result<Vec<bool>, AllocError>
    ensures { IfOk result (λ bits. bits.items ≡ map is_some cells.now) }
{
    let mut bits = Vec::with_capacity(alloc, cells.len())?;
    for cell in cells {
        bits.push(cell.is_some())?;
    }
    Ok(bits)
}

/// The validity of the cells. A null doesn't fit in a type without null.
#[tactic(auto, using(crate::proofs::CellLemmas::nulls))]
pub(crate) fn nulls_of<T: Copy>(
    alloc: Global,
    nullability: Nullability,
    cells: &[Option<T>],
) -> Result<Validity, DoesNotFit>
    ensures { IfOk result (λ validity.
        MarksCells (nullability_of_flag nullability) cells.now (valid_of validity)) }
{
    let all = are_present(cells);
    match nullability {
        Nullability::NonNullable => {
            if all {
                Ok(Validity::NonNullable)
            } else {
                Err(DoesNotFit)
            }
        }
        Nullability::Nullable => {
            if all {
                return Ok(Validity::AllValid);
            }
            let bits = presence(alloc, cells)?;
            let bits = BitBuffer::from_bools(alloc, bits.as_slice())?;
            let array = ArrayRef::of_bools(alloc, bits, Validity::NonNullable)?;
            Ok(Validity::Array(array))
        }
    }
}

/// The values, and `other` in place of null.
pub(crate) fn values_or<T: Copy + Drop>(
    alloc: Global,
    cells: &[Option<T>],
    other: T,
) -> Result<Vec<T>, AllocError>
    ensures { IfOk result (λ values. values.items
        ≡ map (λ cell. unwrap_or cell other) cells.now) }
{
    let mut values = Vec::with_capacity(alloc, cells.len())?;
    for cell in cells {
        values.push((*cell).unwrap_or(other))?;
    }
    Ok(values)
}

/// An array of booleans.
pub(crate) fn of_booleans(
    alloc: Global,
    nullability: Nullability,
    cells: &[Option<bool>],
) -> Result<ArrayRef, DoesNotFit>
    ensures { IfOk result (λ array. IsColumn (boolean_type (nullability_of_flag nullability))
        (map (cell_raw raw_boolean) cells.now) array) }
{
    let bits = values_or(alloc, cells, false)?;
    let validity = nulls_of(alloc, nullability, cells)?;
    let bits = BitBuffer::from_bools(alloc, bits.as_slice())?;
    let array = ArrayRef::of_bools(alloc, bits, validity)?;
    Ok(array)
}

/// An array of integers.
pub(crate) fn of_integers<T: Element>(
    alloc: Global,
    nullability: Nullability,
    cells: &[Option<T>],
) -> Result<ArrayRef, DoesNotFit>
    ensures { IfOk result (λ array. IsColumn
        (integer_type T.kind (nullability_of_flag nullability))
        (map (cell_raw (raw_number T.kind)) (cells_by T.integer cells.now)) array) }
{
    let zero = T::of(0).ok_or(DoesNotFit)?;
    let items = values_or(alloc, cells, zero)?;
    let items = PrimitiveBuffer::from_buffer(Buffer::from_vec(items)?);
    let validity = nulls_of(alloc, nullability, cells)?;
    let array = ArrayRef::of_numbers(alloc, items, validity)?;
    Ok(array)
}
