//! The fields of a value that are kept when a row is cut.
ghost use Rattle.std.specs.Prelude.{◌≡◌, IfOk, map};
ghost use Rattle.vortex_table_schema.specs.Cut.{tree_of, part_of_field, cut_part, raw_cut};
ghost use Rattle.vortex_scalar_value.specs.View.{raw_of, raw_in, raw_at, raws_in};

use std::alloc::{AllocError, Global};
use vortex_scalar_value::parts::item_at;
use vortex_scalar_value::scalar_value::ScalarValue;

/// The part of a value that is kept.
#[derive(Drop)]
#[cycle(projection)]
pub enum Projection {
    /// All of it.
    Whole,
    /// Of a record these fields, in this order. Null stays null.
    Fields(Vec<ProjectedField>),
}

/// A field of a record that is kept.
#[derive(Drop)]
#[cycle(projection)]
pub struct ProjectedField {
    /// The index of the field in the uncut record.
    pub position: usize,
    /// The part of its value that is kept.
    pub projection: Projection,
}

/// The part of the value that is kept, copied in time linear in what is kept.
#[cycle(cut_value)]
pub fn cut_value(
    projection: &Projection,
    alloc: Global,
    value: &ScalarValue,
) -> Result<ScalarValue, AllocError>
    ensures { IfOk result
        (λ kept. raw_of kept ≡ raw_cut (tree_of projection.now) (raw_of value.now)) }
{
    match projection {
        Projection::Whole => Ok(value.clone()?),
        Projection::Fields(fields) => match value.as_list() {
            Some(values) => {
                let kept = cut_values(fields, alloc, values)?;
                Ok(ScalarValue::Tuple(kept))
            }
            None => {
                let copy = value.clone()?;
                Ok(copy)
            }
        },
    }
}

// `None` is null and stays null.
#[cycle(cut_value)]
fn cut_cell(
    projection: &Projection,
    alloc: Global,
    value: Option<&ScalarValue>,
) -> Result<Option<ScalarValue>, AllocError>
    ensures { IfOk result
        (λ kept. raw_in kept ≡ raw_cut (tree_of projection.now) (raw_at value.entry)) }
{
    match value {
        Some(value) => Ok(Some(cut_value(projection, alloc, value)?)),
        None => Ok(None),
    }
}

#[cycle(cut_value)]
fn cut_values(
    fields: &Vec<ProjectedField>,
    alloc: Global,
    values: &[Option<ScalarValue>],
) -> Result<Vec<Option<ScalarValue>>, AllocError>
    ensures { IfOk result (λ kept. map raw_in kept.items ≡ map (cut_part (raws_in values.now))
        (map part_of_field fields.now.items)) }
{
    let mut kept = Vec::with_capacity(alloc, fields.len())?;
    for field in fields {
        let value = item_at(values, field.position);
        kept.push(cut_cell(&field.projection, alloc, value)?)?;
    }
    Ok(kept)
}
