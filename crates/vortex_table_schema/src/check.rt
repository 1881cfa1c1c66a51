//! Tests of types and paths before a command does anything.
ghost use Rattle.std.specs.Prelude.{◌≡◌, Some, None, OnOk, IfErr, map, option_map};
ghost use Rattle.vortex_model.specs.Kept.{type_fault};
ghost use Rattle.vortex_model_table.specs.Command.{part_named, path_fault, paths_fault};
ghost use Rattle.vortex_dtype_core.specs.View.{type_of};
ghost use Rattle.vortex_dtype_path.specs.View.{step_of, steps_of};
ghost use Rattle.vortex_table_schema.specs.Fault.{refusal_of_fault};
ghost use Rattle.vortex_table_schema.specs.Error.{refusal_of, Explains};

use crate::error::TableError;
use crate::part_index::{check_each_by, index_parts};
use crate::type_fault::{TypeFault, type_fault};
use std::alloc::Global;
use vortex_dtype_core::dtype::DType;
use vortex_dtype_fields::struct_fields_ext::StructFieldsExt;
use vortex_dtype_path::field::Field;
use vortex_dtype_path::path::FieldPath;
use vortex_dtype_ptype::field_names::FieldName;

fn type_error(fault: TypeFault) -> TableError
    ensures { refusal_of result ≡ Some (refusal_of_fault fault) }
{
    match fault {
        TypeFault::NotARecord => TableError::NotARecord,
        TypeFault::UnkeptType => TableError::UnkeptType,
        TypeFault::RepeatedName => TableError::RepeatedName,
    }
}

/// Tests whether a table can hold the type: `NotARecord`, `RepeatedName`, `UnkeptType`.
pub fn check_type(alloc: Global, dtype: &DType) -> Result<(), TableError>
    ensures ok { OnOk result (type_fault (type_of dtype.now) ≡ None) }
    ensures refused { IfErr result (λ e. Explains ⊥ (type_fault (type_of dtype.now)) e) }
{
    match type_fault(alloc, dtype)? {
        Some(fault) => Err(type_error(fault)),
        None => Ok(()),
    }
}

// The type of the record's first field of this name.
#[tactic(auto, using(crate::proofs::NamedParts::named))]
fn named_part<'a>(dtype: &'a DType, name: &FieldName) -> Option<&'a DType>
    ensures { option_map (λ part. type_of part.now) result
        ≡ part_named (type_of dtype.now) name.now }
{
    dtype.as_struct_fields_opt()?.field(name)
}

// Whether steps lead, by names alone, to a part of the type. `index` is that of their path.
pub(crate) fn check_steps(index: usize, dtype: &DType, steps: &[Field]) -> Result<(), TableError>
    ensures ok { OnOk result
        (path_fault index (type_of dtype.now) (map step_of steps.now) ≡ None) }
    ensures refused { IfErr result
        (λ e. Explains ⊥ (path_fault index (type_of dtype.now) (map step_of steps.now)) e) }
{
    let mut current = dtype;
    for step in steps {
        match step {
            Field::Name(name) => match named_part(current, name) {
                Some(part) => current = part,
                None => return Err(TableError::UnknownPath(index)),
            },
            Field::ElementType => return Err(TableError::ElementStep(index)),
        }
    }
    Ok(())
}

/// As `check_paths`, of one path, which has this index among those asked for.
pub fn check_path(index: usize, dtype: &DType, path: &FieldPath) -> Result<(), TableError>
    ensures ok { OnOk result (path_fault index (type_of dtype.now) (steps_of path.now) ≡ None) }
    ensures refused { IfErr result
        (λ e. Explains ⊥ (path_fault index (type_of dtype.now) (steps_of path.now)) e) }
{
    check_steps(index, dtype, path.parts())
}

fn check_each(dtype: &DType, paths: &[FieldPath]) -> Result<(), TableError>
    ensures ok { OnOk result (paths_fault 0 (type_of dtype.now) (map steps_of paths.now) ≡ None) }
    ensures refused { IfErr result
        (λ e. Explains ⊥ (paths_fault 0 (type_of dtype.now) (map steps_of paths.now)) e) }
{
    for (index, path) in paths.iter().enumerate() {
        check_path(index, dtype, path)?;
    }
    Ok(())
}

/// From how many paths on the names of the root are looked up in a map.
const MANY_PATHS: usize = 16;

/// Tests whether each path leads, by names alone, to a part of the type. `UnknownPath` or
/// `ElementStep` has the index of the first that doesn't, by its first step at fault. It takes time
/// n log n in the number of paths and of the root's fields.
pub fn check_paths(alloc: Global, dtype: &DType, paths: &[FieldPath]) -> Result<(), TableError>
    ensures ok { OnOk result (paths_fault 0 (type_of dtype.now) (map steps_of paths.now) ≡ None) }
    ensures refused { IfErr result
        (λ e. Explains ⊥ (paths_fault 0 (type_of dtype.now) (map steps_of paths.now)) e) }
{
    if paths.len() < MANY_PATHS {
        return check_each(dtype, paths);
    }
    let index = index_parts(alloc, dtype)?;
    check_each_by(&index, dtype, paths)
}
