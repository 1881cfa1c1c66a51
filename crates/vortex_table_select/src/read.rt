//! Selected rows, read and cut by the paths of their scan.
ghost use Rattle.std.specs.Prelude.{◌≡◌, ◌<◌, ◌++◌, All, IfOk, OnOk, IsTrue, map};
ghost use Rattle.vortex_model.specs.Valid.{valid};
ghost use Rattle.vortex_dtype_core.specs.View.{type_of};
ghost use Rattle.vortex_scalar_value.specs.View.{raw_in, content_in};
ghost use Rattle.vortex_scalar_core.specs.Scalar.{scalar_type, scalar_content};
ghost use Rattle.vortex_arrays_model.specs.Layout.{len_of, array_type_of, content_at};
ghost use Rattle.vortex_table_schema.specs.Answer.{answer_of, IsTyped};
ghost use Rattle.vortex_table_select.specs.Selected.{rows_in, answer_cut, cut_rows, CanBeCut};

use crate::rows::read_rows;
use crate::selection::{ScanSelection, Selection};
use std::alloc::{AllocError, Global};
use vortex_arrays_core::array::ArrayRef;
use vortex_dtype_core::dtype::DType;
use vortex_model::laws::tests_of_validity_are_right;
use vortex_scalar_core::scalar::Scalar;
use vortex_scalar_value::scalar_value::ScalarValue;
use vortex_table_schema::answer::ScanAnswer;
use vortex_table_schema::cut::RowProjection;

/// The answer with its rows as values, each cut.
pub fn read_answer(
    alloc: Global,
    cut: &RowProjection,
    found: ScanSelection,
) -> Result<ScanAnswer, AllocError>
    requires { All (λ s. CanBeCut cut.now (array_type_of s.array)) found.selections.items }
    ensures answer { IfOk result (λ answer. answer_of answer ≡ answer_cut cut.now found) }
    ensures typed { IfOk result (λ answer. IsTyped answer) }
{
    let rows = read_selections(alloc, cut, &found.selections)?;
    let dtype = cut.dtype.clone()?;
    Ok(ScanAnswer {
        rows,
        dtype,
        skipped: found.skipped,
        whole: found.whole,
        rows_tested: found.rows_tested,
        proofs: found.proofs,
    })
}

// The selected rows as values, each cut.
fn read_selections(
    alloc: Global,
    cut: &RowProjection,
    selections: &[Selection],
) -> Result<Vec<Scalar>, AllocError>
    requires { All (λ s. CanBeCut cut.now (array_type_of s.array)) selections.now }
    ensures content { IfOk result (λ rows. map scalar_content rows.items
        ≡ cut_rows cut.now (rows_in selections.now)) }
    ensures kind { IfOk result
        (λ rows. All (λ row. scalar_type row ≡ type_of cut.now.dtype) rows.items) }
{
    let mut found = Vec::new(alloc);
    for selection in selections {
        push_rows(alloc, cut, &selection.array, &selection.rows, &mut found)?;
    }
    Ok(found)
}

// Adds the rows at the positions, cut.
fn push_rows(
    alloc: Global,
    cut: &RowProjection,
    array: &ArrayRef,
    rows: &[usize],
    found: &mut Vec<Scalar>,
) -> Result<(), AllocError>
    requires within { All (λ i. i < len_of array.now) rows.now }
    requires valid { CanBeCut cut.now (array_type_of array.now) }
    requires typed { All (λ row. scalar_type row ≡ type_of cut.now.dtype) found.old.items }
    ensures content { OnOk result (map scalar_content found.new.items
        ≡ map scalar_content found.old.items
        ++ cut_rows cut.now (map (content_at array.now) rows.now)) }
    ensures kind { OnOk result
        (All (λ row. scalar_type row ≡ type_of cut.now.dtype) found.new.items) }
{
    let values = read_rows(alloc, array, &cut.projection, rows)?;
    // Both show the prover that a row is a value of the array's type.
    let _ = array.len();
    tests_of_validity_are_right();
    push_scalars(&cut.dtype, values, found)
}

// Adds the values as ones of the type. Room for all is made at once.
fn push_scalars(
    dtype: &DType,
    values: Vec<Option<ScalarValue>>,
    found: &mut Vec<Scalar>,
) -> Result<(), AllocError>
    requires valid { All (λ v. IsTrue (valid (type_of dtype.now) (raw_in v))) values.items }
    requires typed { All (λ row. scalar_type row ≡ type_of dtype.now) found.old.items }
    ensures content { OnOk result (map scalar_content found.new.items
        ≡ map scalar_content found.old.items ++ map content_in values.items) }
    ensures kind { OnOk result (All (λ row. scalar_type row ≡ type_of dtype.now) found.new.items) }
{
    found.reserve(values.len())?;
    for value in values {
        let own = dtype.clone()?;
        found.push(Scalar::new_unchecked(own, value))?;
    }
    Ok(())
}
