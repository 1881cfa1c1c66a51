//! Contents of which the fields that a scan asks for are written alone.
ghost use Rattle.std.specs.Prelude.{◌≡◌, ◌<◌, ◌++◌, [], All, OnOk};
ghost use Rattle.vortex_model.specs.Content.{nth, tuple};
ghost use Rattle.vortex_scalar_core.specs.Scalar.{scalar_content};
ghost use Rattle.vortex_arrays_model.specs.Layout.{content_at, len_of, row_at};
ghost use Rattle.vortex_arrays_model.specs.Parts.{columns_of};
ghost use Rattle.vortex_table_schema.specs.Cut.{content_cut, contents_cut, parts_of, tree_of};
ghost use Rattle.vortex_table_response.specs.Text.{content_text};

use crate::content::push_content;
use crate::leaves::push_null;
use std::alloc::{AllocError, Global};
use vortex_arrays_core::array::{ArrayLayout, ArrayRef};
use vortex_arrays_view::error::ArrayError;
use vortex_scalar_core::scalar::Scalar;
use vortex_table_response::push_value;
use vortex_table_response::type_texts::push_comma;
use vortex_table_schema::projection::{ProjectedField, Projection, cut_value};

/// Writes what is kept of the row of the array.
#[cycle(cut)]
#[tactic(auto, using(crate::proofs::Cuts::kept))]
pub(crate) fn push_cut(
    alloc: Global,
    out: &mut Vec<u8>,
    array: &ArrayRef,
    projection: &Projection,
    i: usize,
) -> Result<(), AllocError>
    requires { i < len_of array.now }
    ensures { OnOk result (out.new.items ≡ out.old.items
        ++ content_text (content_cut (tree_of projection.now) (content_at array.now i))) }
{
    match projection {
        Projection::Whole => push_content(out, array, i),
        Projection::Fields(kept) => match array.layout() {
            ArrayLayout::Struct(_, fields, len, validity) => {
                if validity.is_valid(i, *len) {
                    push_kept(alloc, out, fields, kept, i)
                } else {
                    push_null(out)
                }
            }
            _ => push_cut_value(alloc, out, array, projection, i),
        },
    }
}

// Writes what is kept of a row of fields, in brackets.
#[cycle(cut)]
#[tactic(auto, using(crate::proofs::Cuts::fields))]
fn push_kept(
    alloc: Global,
    out: &mut Vec<u8>,
    fields: &[ArrayRef],
    kept: &Vec<ProjectedField>,
    i: usize,
) -> Result<(), AllocError>
    requires { All (λ field. i < len_of field) fields.now }
    ensures { OnOk result (out.new.items ≡ out.old.items ++ content_text
        (tuple (contents_cut (parts_of kept.now.items) (row_at (columns_of [] fields.now) i)))) }
{
    out.push(b'[')?;
    let mut later = false;
    for part in kept {
        push_comma(out, later)?;
        push_part(alloc, out, fields, part, i)?;
        later = true;
    }
    out.push(b']')?;
    Ok(())
}

// Writes what is kept of one field of a row, and `null` where there is no such field.
#[cycle(cut)]
#[tactic(auto, using(crate::proofs::Cuts::fields))]
fn push_part(
    alloc: Global,
    out: &mut Vec<u8>,
    fields: &[ArrayRef],
    part: &ProjectedField,
    i: usize,
) -> Result<(), AllocError>
    requires { All (λ field. i < len_of field) fields.now }
    ensures { OnOk result (out.new.items ≡ out.old.items
        ++ content_text (content_cut (tree_of part.now.projection)
        (nth (row_at (columns_of [] fields.now) i) part.now.position))) }
{
    match fields.get(part.position) {
        Some(field) => push_cut(alloc, out, field, &part.projection, i),
        None => push_null(out),
    }
}

// Writes what is kept of a value that is read whole, as of an array that isn't laid out as records.
#[tactic(auto, using(crate::proofs::Cuts::by_value))]
fn push_cut_value(
    alloc: Global,
    out: &mut Vec<u8>,
    array: &ArrayRef,
    projection: &Projection,
    i: usize,
) -> Result<(), AllocError>
    requires { i < len_of array.now }
    ensures { OnOk result (out.new.items ≡ out.old.items
        ++ content_text (content_cut (tree_of projection.now) (content_at array.now i))) }
{
    let scalar = match array.execute_scalar(alloc, i) {
        Ok(scalar) => scalar,
        Err(ArrayError::Memory) => return Err(AllocError),
        Err(_) => unreachable!(),
    };
    push_cut_scalar(alloc, out, projection, &scalar)
}

// Writes what is kept of a value.
#[tactic(auto, using(crate::proofs::Cuts::by_value))]
fn push_cut_scalar(
    alloc: Global,
    out: &mut Vec<u8>,
    projection: &Projection,
    scalar: &Scalar,
) -> Result<(), AllocError>
    ensures { OnOk result (out.new.items ≡ out.old.items
        ++ content_text (content_cut (tree_of projection.now) (scalar_content scalar.now))) }
{
    match scalar.value() {
        Some(value) => {
            let kept = cut_value(projection, alloc, value)?;
            push_value(out, &kept)
        }
        None => push_null(out),
    }
}
