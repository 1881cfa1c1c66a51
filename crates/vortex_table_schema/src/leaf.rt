//! The leaf column that a path leads to.
ghost use Rattle.std.specs.Prelude.{◌≡◌, None, Some, true, false, map, IfOk, OnOk, IfErr, IfSome, IfNone};
ghost use Rattle.vortex_model.specs.Refusal.{or_else};
ghost use Rattle.vortex_model.specs.Path.{Positions, positions};
ghost use Rattle.vortex_model.specs.Kept.{is_leaf_at};
ghost use Rattle.vortex_model_table.specs.Command.{names_of, positions_of, path_fault, leaf_fault};
ghost use Rattle.vortex_dtype_core.specs.View.{type_of};
ghost use Rattle.vortex_dtype_path.specs.View.{steps_of};
ghost use Rattle.vortex_table_schema.specs.Error.{Explains};
ghost use Rattle.vortex_table_schema.specs.LeafPlace.{IsLeafPlace};

use crate::check::check_path;
use crate::error::TableError;
use std::alloc::{AllocError, Global};
use vortex_dtype_core::dtype::DType;
use vortex_dtype_path::field::Field;
use vortex_dtype_path::path::FieldPath;
use vortex_dtype_ptype::field_names::FieldNames;
use vortex_stats_bind::bind::resolve;

// The names among the steps.
fn names_of(alloc: Global, path: &FieldPath) -> Result<FieldNames, AllocError>
    ensures { IfOk result (λ names. names ≡ names_of (steps_of path.now)) }
{
    let mut names = Vec::with_capacity(alloc, path.parts().len())?;
    for step in path.parts() {
        if let Field::Name(name) = step {
            names.push(name.clone()?)?;
        }
    }
    Ok(FieldNames::new(names))
}

// The positions of the column, where it is a leaf.
#[tactic(auto, using(crate::proofs::LeafPlaces::by_type))]
fn leaf_place(
    alloc: Global,
    dtype: &DType,
    names: &FieldNames,
) -> Result<Option<Vec<usize>>, AllocError>
    ensures some { IfOk result (λ found. IfSome found
        (λ place. IsLeafPlace (type_of dtype.now) names.now place.items)) }
    ensures none { IfOk result (λ found. IfNone found ((is : Positions)
        → positions (type_of dtype.now) names.now ≡ Some is
        → is_leaf_at (type_of dtype.now) is ≡ false)) }
{
    let Some(column) = resolve(alloc, names, dtype)? else {
        return Ok(None);
    };
    if column.dtype.is_leaf() {
        Ok(Some(column.positions))
    } else {
        Ok(None)
    }
}

/// The positions of the leaf column that the path leads to, which has this index among those of
/// its command. Refused are, in this order, `UnknownPath` and `ElementStep` by the first step at
/// fault, with the index, and `NotALeaf`.
#[tactic(auto, using(crate::proofs::LeafPlaces::by_place))]
pub fn leaf_at(
    alloc: Global,
    index: usize,
    dtype: &DType,
    path: &FieldPath,
) -> Result<Vec<usize>, TableError>
    ensures place { IfOk result
        (λ place. positions_of (type_of dtype.now) (steps_of path.now) ≡ place.items) }
    ensures leaf { IfOk result (λ place. is_leaf_at (type_of dtype.now) place.items ≡ true) }
    ensures accepted { OnOk result
        (or_else (path_fault index (type_of dtype.now) (steps_of path.now))
        (leaf_fault (type_of dtype.now) (steps_of path.now)) ≡ None) }
    ensures refused { IfErr result (λ e. Explains ⊥
        (or_else (path_fault index (type_of dtype.now) (steps_of path.now))
        (leaf_fault (type_of dtype.now) (steps_of path.now))) e) }
{
    check_path(index, dtype, path)?;
    let names = names_of(alloc, path)?;
    match leaf_place(alloc, dtype, &names)? {
        Some(place) => Ok(place),
        None => Err(TableError::NotALeaf),
    }
}
