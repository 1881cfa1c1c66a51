//! The part of a row that paths ask for: its type, and the fields to keep of a value.
ghost use Rattle.std.specs.Prelude.{◌≡◌, ◌++◌, ◌∷◌, [], false, List, IfOk, OnOk, map, option_map};
ghost use Rattle.vortex_model.specs.Path.{Names};
ghost use Rattle.vortex_model_table.specs.Cut.{cut_kind, cut_type};
ghost use Rattle.vortex_model_table.specs.Command.{names_of};
ghost use Rattle.vortex_dtype_core.specs.View.{type_of, field_of};
ghost use Rattle.vortex_dtype_path.specs.View.{step_of};
ghost use Rattle.vortex_table_schema.specs.Cut.{paths_of, names_at, strip_step, strip_all, is_root, is_not_root, ask_for_all, first_step, IsIndex, AreBelow, kept_by, whole, cut_named, kept_list, tree_of, part_of_field};

use crate::projection::{ProjectedField, Projection};
use std::alloc::{AllocError, Global};
use std::collections::BTreeMap;
use vortex_dtype_core::dtype::DType;
use vortex_dtype_core::struct_fields::{StructField, StructFields};
use vortex_dtype_path::field::Field;
use vortex_dtype_path::path::FieldPath;
use vortex_dtype_ptype::field_names::FieldName;
use vortex_dtype_ptype::nullability::Nullability;

// Up to this number of paths they are looked at one by one for each field of a record. More are
// indexed by their first names.
const WALKED_PATHS: usize = 8;

/// The part of rows that paths ask for: its type, and the fields to keep of a value.
#[derive(Drop)]
pub struct RowProjection {
    pub dtype: DType,
    pub projection: Projection,
}

// The fields of a record that are kept so far, as types and as parts of values.
#[derive(Drop)]
struct ProjectedFields {
    parts: Vec<StructField>,
    kept: Vec<ProjectedField>,
}

impl ProjectedFields {
    ghost use Rattle.std.specs.Prelude.{◌≡◌, ◌++◌, ◌∷◌, [], false, List, IfOk, OnOk, map};
    ghost use Rattle.vortex_model.specs.LogicalType.{struct};
    ghost use Rattle.vortex_dtype_ptype.specs.View.{nullability_of_flag};
    ghost use Rattle.vortex_dtype_core.specs.View.{type_of, field_of, fields_of};
    ghost use Rattle.vortex_table_schema.specs.Cut.{parts, parts_of, tree_of, part_of_field};

    // `position` is the field's index in the uncut record.
    fn push(
        &mut self,
        position: usize,
        field: &StructField,
        cut: RowProjection,
    ) -> Result<(), AllocError>
        ensures parts { OnOk result (map field_of self.new.parts.items
            ≡ map field_of self.old.parts.items ++ (field.now.name, type_of cut.dtype) ∷ []) }
        ensures kept { OnOk result (map part_of_field self.new.kept.items
            ≡ map part_of_field self.old.kept.items ++ (position, tree_of cut.projection) ∷ []) }
    {
        push_part(&mut self.parts, &field.name, cut.dtype)?;
        push_kept(&mut self.kept, position, cut.projection)?;
        Ok(())
    }

    fn into_cut(self, nullability: Nullability) -> Result<RowProjection, AllocError>
        ensures dtype { IfOk result (λ cut. type_of cut.dtype ≡ struct (fields_of self.parts.items)
            (nullability_of_flag nullability)) }
        ensures projection { IfOk result (λ cut. tree_of cut.projection
            ≡ parts (parts_of self.kept.items)) }
    {
        let fields = StructFields::from_vec(self.parts)?;
        Ok(RowProjection {
            dtype: DType::Struct(fields, nullability),
            projection: Projection::Fields(self.kept),
        })
    }
}

fn push_part(parts: &mut Vec<StructField>, name: &FieldName, dtype: DType) -> Result<(), AllocError>
    ensures { OnOk result (map field_of parts.new.items ≡ map field_of parts.old.items
        ++ (name.now, type_of dtype) ∷ []) }
{
    let name = name.clone()?;
    parts.push(StructField { name, dtype })?;
    Ok(())
}

fn push_kept(
    kept: &mut Vec<ProjectedField>,
    position: usize,
    projection: Projection,
) -> Result<(), AllocError>
    ensures { OnOk result (map part_of_field kept.new.items ≡ map part_of_field kept.old.items
        ++ (position, tree_of projection) ∷ []) }
{
    kept.push(ProjectedField {
        position,
        projection,
    })?;
    Ok(())
}

// Whether the path has no name.
fn is_root(path: &[Field]) -> bool
    ensures { result ≡ is_root (names_of (map step_of path.now)) }
{
    match path {
        [] => true,
        [Field::Name(_), ..] => false,
        [Field::ElementType, rest @ ..] => is_root(rest),
    }
}

// Whether one of the paths asks for all.
fn ask_for_all(paths: &[&[Field]]) -> bool
    ensures { result ≡ ask_for_all (map names_at paths.now) }
{
    for path in paths {
        if is_root(path) {
            return true;
        }
    }
    false
}

// The first name of a path, and the steps after it.
fn first_step<'a>(path: &'a [Field]) -> Option<(&'a FieldName, &'a [Field])>
    ensures { option_map (λ p. (p.0.now, names_at p.1)) result
        ≡ first_step (names_of (map step_of path.now)) }
{
    match path {
        [] => None,
        [Field::Name(first), rest @ ..] => Some((first, rest)),
        [Field::ElementType, rest @ ..] => first_step(rest),
    }
}

// The steps after a first step to this name. A path without a step leads everywhere.
fn strip_step<'a>(path: &'a [Field], name: &FieldName) -> Option<&'a [Field]>
    ensures { option_map names_at result ≡ strip_step name.now (names_of (map step_of path.now)) }
{
    match path {
        [] => Some(path),
        [Field::Name(first), rest @ ..] => { if first == name { Some(rest) } else { None } }
        [Field::ElementType, rest @ ..] => strip_step(rest, name),
    }
}

// The steps after this name, of each path that leads through it.
fn strip_all<'a>(
    alloc: Global,
    paths: &[&'a [Field]],
    name: &FieldName,
) -> Result<Vec<&'a [Field]>, AllocError>
    ensures { IfOk result (λ left. map names_at left.items
        ≡ strip_all name.now (map names_at paths.now)) }
{
    let mut left = Vec::new(alloc);
    for path in paths {
        match strip_step(path, name) {
            Some(rest) => left.push(rest)?,
            None => {}
        }
    }
    Ok(left)
}

// Whether there is a path.
fn is_not_root(paths: &[&[Field]]) -> bool
    ensures { result ≡ is_not_root (map names_at paths.now) }
{
    match paths {
        [] => false,
        [_, ..] => true,
    }
}

// One more path, which leads through this name. A group is taken out while it grows.
fn add_path<'a>(
    alloc: Global,
    index: &mut BTreeMap<&'a str, Vec<&'a [Field]>, Global>,
    name: &'a str,
    rest: &'a [Field],
) -> Result<(), AllocError>
    ensures { OnOk result ((paths : List Names) → IsIndex index.old paths
        → IsIndex index.new (paths ++ (name.now ∷ names_at rest.entry) ∷ [])) }
{
    let mut group = match index.remove(name) {
        Some(group) => group,
        None => Vec::new(alloc),
    };
    group.push(rest)?;
    drop(index.insert(name, group)?);
    Ok(())
}

// The paths by their first name, each without it. None is a root.
fn index_paths<'a>(
    alloc: Global,
    paths: &[&'a [Field]],
) -> Result<BTreeMap<&'a str, Vec<&'a [Field]>, Global>, AllocError>
    requires { ask_for_all (map names_at paths.now) ≡ false }
    ensures { IfOk result (λ index. IsIndex index (map names_at paths.now)) }
{
    let mut index = BTreeMap::new(alloc);
    for path in paths {
        match first_step(path) {
            Some((name, rest)) => add_path(alloc, &mut index, name.as_str(), rest)?,
            None => {}
        }
    }
    Ok(index)
}

// The steps after this name, of each path that leads through it, where some do.
fn steps_below<'i, 'a>(
    index: &'i BTreeMap<&'a str, Vec<&'a [Field]>, Global>,
    name: &FieldName,
) -> Option<&'i [&'a [Field]]>
    ensures { (paths : List Names) → IsIndex index.now paths
        → AreBelow result (strip_all name.now paths) }
{
    let group = index.get(name.as_str())?;
    if group.is_empty() {
        return None;
    }
    Some(group.as_slice())
}

// All of a value is kept.
fn whole(dtype: &DType) -> Result<RowProjection, AllocError>
    ensures dtype { IfOk result (λ cut. type_of cut.dtype ≡ type_of dtype.now) }
    ensures projection { IfOk result (λ cut. tree_of cut.projection ≡ whole) }
{
    Ok(RowProjection {
        dtype: dtype.clone()?,
        projection: Projection::Whole,
    })
}

// A field that no path leads to is left out. A path that ends at a part keeps all of it.
#[cycle(cut)]
fn cut_part(alloc: Global, dtype: &DType, paths: &[&[Field]]) -> Result<RowProjection, AllocError>
    ensures dtype { IfOk result (λ cut. type_of cut.dtype ≡ cut_kind (map names_at paths.now) []
        (type_of dtype.now)) }
    ensures projection { IfOk result (λ cut. tree_of cut.projection
        ≡ kept_by (map names_at paths.now) (type_of dtype.now)) }
{
    if ask_for_all(paths) {
        return whole(dtype);
    }
    match dtype.as_struct_fields_opt() {
        Some(fields) => {
            let kept = cut_fields(alloc, fields.as_slice(), paths)?;
            let cut = kept.into_cut(dtype.nullability())?;
            Ok(cut)
        }
        None => whole(dtype),
    }
}

#[cycle(cut)]
fn cut_fields(
    alloc: Global,
    fields: &[StructField],
    paths: &[&[Field]],
) -> Result<ProjectedFields, AllocError>
    requires { ask_for_all (map names_at paths.now) ≡ false }
    ensures parts { IfOk result (λ all. map field_of all.parts.items
        ≡ cut_named (map names_at paths.now) (map field_of fields.now)) }
    ensures kept { IfOk result (λ all. map part_of_field all.kept.items
        ≡ kept_list (map names_at paths.now) 0 (map field_of fields.now)) }
{
    if paths.len() > WALKED_PATHS {
        return cut_indexed(alloc, fields, paths);
    }
    let mut all = ProjectedFields {
        parts: Vec::new(alloc),
        kept: Vec::new(alloc),
    };
    for (position, field) in fields.iter().enumerate() {
        let left = strip_all(alloc, paths, &field.name)?;
        if is_not_root(&left) {
            let cut = cut_part(alloc, &field.dtype, &left)?;
            all.push(position, field, cut)?;
        }
    }
    Ok(all)
}

#[cycle(cut)]
fn cut_indexed(
    alloc: Global,
    fields: &[StructField],
    paths: &[&[Field]],
) -> Result<ProjectedFields, AllocError>
    requires { ask_for_all (map names_at paths.now) ≡ false }
    ensures parts { IfOk result (λ all. map field_of all.parts.items
        ≡ cut_named (map names_at paths.now) (map field_of fields.now)) }
    ensures kept { IfOk result (λ all. map part_of_field all.kept.items
        ≡ kept_list (map names_at paths.now) 0 (map field_of fields.now)) }
{
    let mut all = ProjectedFields {
        parts: Vec::new(alloc),
        kept: Vec::new(alloc),
    };
    let index = index_paths(alloc, paths)?;
    for (position, field) in fields.iter().enumerate() {
        match steps_below(&index, &field.name) {
            Some(left) => {
                let cut = cut_part(alloc, &field.dtype, left)?;
                all.push(position, field, cut)?;
            }
            None => {}
        }
    }
    Ok(all)
}

// The steps of each path.
fn steps_in<'a>(alloc: Global, paths: &'a [FieldPath]) -> Result<Vec<&'a [Field]>, AllocError>
    ensures { IfOk result (λ all. map names_at all.items ≡ paths_of paths.now) }
{
    let mut all = Vec::with_capacity(alloc, paths.len())?;
    for path in paths {
        all.push(path.parts())?;
    }
    Ok(all)
}

/// The part of values of the type that the paths ask for, in the order of the type's fields. It
/// takes time n log n in the number of fields and paths.
pub fn make_cut(
    alloc: Global,
    dtype: &DType,
    paths: &[FieldPath],
) -> Result<RowProjection, AllocError>
    ensures dtype { IfOk result (λ cut. type_of cut.dtype
        ≡ cut_type (paths_of paths.now) (type_of dtype.now)) }
    ensures projection { IfOk result (λ cut. tree_of cut.projection
        ≡ kept_by (paths_of paths.now) (type_of dtype.now)) }
{
    let steps = steps_in(alloc, paths)?;
    let cut = cut_part(alloc, dtype, &steps)?;
    Ok(cut)
}
