//! Classes of types: what predicates compare, and what has a least and a greatest value.
ghost use Rattle.std.specs.Prelude.{◌≡◌, IfSome, IfNone, Some, None};
ghost use Rattle.vortex_model.specs.Path.{position_in, part_at, type_of_column};
ghost use Rattle.vortex_model_table.specs.Command.{part_named};
ghost use Rattle.vortex_dtype_core.specs.View.{type_of};
ghost use Rattle.vortex_stats_expr.specs.Types.{IsOfClass, IsClass, kind_at, along, step_along};

use vortex_dtype_core::dtype::DType;
use vortex_dtype_ptype::field_names::{FieldName, FieldNames};
use vortex_dtype_ptype::ptype::PType;

/// A type whose values predicates compare, nullability aside. A `Primitive` is of integers.
#[derive(Clone, Copy, Debug, PartialEq, Eq)]
pub enum Leaf {
    Bool,
    Primitive(PType),
    Utf8,
    Binary,
}

/// The class of a type. Only `Other` has no least and no greatest value; `Float` has them where no
/// value is NaN.
#[derive(Clone, Copy, Debug, PartialEq, Eq)]
pub enum TypeClass {
    Leaf(Leaf),
    Float,
    Decimal,
    Other,
}

/// The class of a type, whatever its nullability.
#[tactic(auto, using(crate::proofs::Classes::of_types))]
pub fn class_of(dtype: &DType) -> TypeClass
    ensures { IsOfClass result (type_of dtype.now) }
{
    match dtype {
        DType::Null => TypeClass::Other,
        DType::Bool(_) => TypeClass::Leaf(Leaf::Bool),
        DType::Primitive(ptype, _) => {
            if ptype.is_float() {
                TypeClass::Float
            } else {
                TypeClass::Leaf(Leaf::Primitive(*ptype))
            }
        }
        DType::Decimal(_, _) => TypeClass::Decimal,
        DType::Utf8(_) => TypeClass::Leaf(Leaf::Utf8),
        DType::Binary(_) => TypeClass::Leaf(Leaf::Binary),
        DType::List(_, _) => TypeClass::Other,
        DType::FixedSizeList(_, _, _) => TypeClass::Other,
        DType::Map(_, _) => TypeClass::Other,
        DType::Struct(_, _) => TypeClass::Other,
        DType::Union(_, _) => TypeClass::Other,
        DType::Variant(_) => TypeClass::Other,
        DType::Extension(_) => TypeClass::Other,
    }
}

/// The index and the type of a record's first field of this name, and `None` where the type is no
/// record or has no such field.
#[tactic(auto, using(crate::proofs::Classes::by_fields))]
pub fn field_named<'a>(dtype: &'a DType, name: &FieldName) -> Option<(usize, &'a DType)>
    ensures none { IfNone result (part_named (type_of dtype.now) name.now ≡ None) }
    ensures position { IfSome result (λ found. position_in (type_of dtype.now) name.now
        ≡ Some found.0) }
    ensures part { IfSome result (λ found. part_at (type_of dtype.now) found.0
        ≡ Some (type_of found.1.now)) }
{
    let Some(fields) = dtype.as_struct_fields_opt() else {
        return None;
    };
    let Some(position) = fields.find(name) else {
        return None;
    };
    match fields.field_by_index(position) {
        Some(part) => Some((position, part)),
        None => None,
    }
}

fn part_by_name<'a>(dtype: Option<&'a DType>, name: &FieldName) -> Option<&'a DType>
    ensures { kind_at result ≡ step_along (kind_at dtype.entry) name.now }
{
    match dtype {
        Some(dtype) => match field_named(dtype, name) {
            Some((_, part)) => Some(part),
            None => None,
        },
        None => None,
    }
}

// The part has its own nullability here, also where a record on the way is nullable.
fn part_by_path<'a>(dtype: &'a DType, path: &FieldNames) -> Option<&'a DType>
    ensures { kind_at result ≡ along (Some (type_of dtype.now)) path.now }
{
    let mut current = Some(dtype);
    for name in path.as_slice() {
        current = part_by_name(current, name);
    }
    current
}

/// The class of the column that a path of names leads to, and `None` where it leads nowhere.
#[tactic(auto, using(crate::proofs::Classes::column_class))]
pub fn column_class(dtype: &DType, path: &FieldNames) -> Option<TypeClass>
    ensures { IsClass result (type_of_column (type_of dtype.now) path.now) }
{
    match part_by_path(dtype, path) {
        Some(part) => Some(class_of(part)),
        None => None,
    }
}
