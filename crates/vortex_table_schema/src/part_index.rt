//! The fields of a record by their names, for many paths at once.
ghost use Rattle.std.specs.Prelude.{◌≡◌, None, OnOk, IfOk, IfErr, map};
ghost use Rattle.vortex_model_table.specs.Command.{path_fault, paths_fault};
ghost use Rattle.vortex_dtype_core.specs.View.{type_of, fields_of};
ghost use Rattle.vortex_dtype_path.specs.View.{steps_of};
ghost use Rattle.vortex_table_schema.specs.Error.{Explains};
ghost use Rattle.vortex_table_schema.specs.PartIndex.{AreOf, IsIndexOf};

use crate::check::{check_path, check_steps};
use crate::error::TableError;
use std::alloc::{AllocError, Global};
use std::collections::BTreeMap;
use vortex_dtype_core::dtype::DType;
use vortex_dtype_core::struct_fields::StructField;
use vortex_dtype_path::field::Field;
use vortex_dtype_path::path::FieldPath;

/// The types of a record's fields by their names, of those with one name that of the first.
pub(crate) type PartIndex<'a> = BTreeMap<&'a str, &'a DType, Global>;

// From the last field to the first, so that the first of a name stays.
fn index_fields(alloc: Global, fields: &[StructField]) -> Result<PartIndex<'_>, AllocError>
    ensures { IfOk result (λ index. AreOf index (fields_of fields.now)) }
{
    let mut index = BTreeMap::new(alloc);
    let mut rest = fields.len();
    while rest > 0 {
        rest -= 1;
        let field = &fields[rest];
        index.insert(field.name.as_str(), &field.dtype)?;
    }
    Ok(index)
}

// What is no record has no fields.
#[tactic(auto, using(crate::proofs::PartIndexes::of_types))]
pub(crate) fn index_parts(alloc: Global, dtype: &DType) -> Result<PartIndex<'_>, AllocError>
    ensures { IfOk result (λ index. IsIndexOf index (type_of dtype.now)) }
{
    match dtype.as_struct_fields_opt() {
        Some(fields) => index_fields(alloc, fields.as_slice()),
        None => Ok(BTreeMap::new(alloc)),
    }
}

// `place` is the path's index among those asked for.
fn check_by(
    index: &PartIndex<'_>,
    dtype: &DType,
    place: usize,
    path: &FieldPath,
) -> Result<(), TableError>
    requires { IsIndexOf index.now (type_of dtype.now) }
    ensures ok { OnOk result (path_fault place (type_of dtype.now) (steps_of path.now) ≡ None) }
    ensures refused { IfErr result
        (λ e. Explains ⊥ (path_fault place (type_of dtype.now) (steps_of path.now)) e) }
{
    match path.parts() {
        [Field::Name(name), rest @ ..] => match index.get(name.as_str()) {
            Some(part) => check_steps(place, part, rest),
            None => Err(TableError::UnknownPath(place)),
        },
        _ => check_path(place, dtype, path),
    }
}

/// As `check_paths` over the type, whose parts these are.
pub(crate) fn check_each_by(
    index: &PartIndex<'_>,
    dtype: &DType,
    paths: &[FieldPath],
) -> Result<(), TableError>
    requires { IsIndexOf index.now (type_of dtype.now) }
    ensures ok { OnOk result (paths_fault 0 (type_of dtype.now) (map steps_of paths.now) ≡ None) }
    ensures refused { IfErr result
        (λ e. Explains ⊥ (paths_fault 0 (type_of dtype.now) (map steps_of paths.now)) e) }
{
    for (place, path) in paths.iter().enumerate() {
        check_by(index, dtype, place, path)?;
    }
    Ok(())
}
