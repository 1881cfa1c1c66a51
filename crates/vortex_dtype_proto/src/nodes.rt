//! The type of a node, from the types of its children.
ghost use Rattle.std.specs.Prelude.{◌≡◌, length, map};
ghost use Rattle.vortex_dtype_ptype.specs.View.{nullability_of_flag};
ghost use Rattle.vortex_dtype_core.specs.View.{type_of};
ghost use Rattle.vortex_dtype_proto.specs.Sessions.{session_of, no_plugins};
ghost use Rattle.vortex_dtype_proto.specs.Messages.{nulls, decimals, lists, fixed_lists, maps, records, unions, extended, row, childless, read, nullability_flagged, decimal_shaped, are_tags, read_if};
ghost use Rattle.vortex_dtype_proto.specs.View.{form_of, Gives};

use crate::message::MessageKind;
use crate::session::DTypeSession;
use std::alloc::Global;
use std::rc::Rc;
use vortex_dtype_core::dtype::DType;
use vortex_dtype_core::extension::ExtDTypeRef;
use vortex_dtype_core::map_dtype::MapDType;
use vortex_dtype_core::struct_fields::StructFields;
use vortex_dtype_core::union_variants::UnionVariants;
use vortex_dtype_core::{BufferString, ByteBuffer};
use vortex_dtype_ptype::decimal::DecimalDType;
use vortex_dtype_ptype::error::DTypeError;
use vortex_dtype_ptype::field_names::FieldNames;
use vortex_dtype_ptype::nullability::Nullability;

/// The type of a node whose children have these types.
pub(crate) fn read_node(
    alloc: Global,
    session: &DTypeSession,
    kind: &MessageKind,
    nullable: bool,
    children: Vec<DType>,
) -> Result<DType, DTypeError>
    ensures { Gives type_of result
        (row (session_of name meaning session.now.plugins.items) (form_of kind.now) nullable
        (map type_of children.items)) }
{
    let nullability = flagged(nullable);
    match kind {
        MessageKind::Null => read_null(nullable, &children),
        MessageKind::Bool => read_leaf(DType::Bool(nullability), &children),
        MessageKind::Utf8 => read_leaf(DType::Utf8(nullability), &children),
        MessageKind::Binary => read_leaf(DType::Binary(nullability), &children),
        MessageKind::Variant => read_leaf(DType::Variant(nullability), &children),
        MessageKind::Primitive(ptype) => {
            read_leaf(DType::Primitive(*ptype, nullability), &children)
        }
        MessageKind::Decimal { precision, scale } => {
            read_decimal(*precision, *scale, nullable, &children)
        }
        MessageKind::List => read_list(alloc, nullable, &children),
        MessageKind::FixedSizeList { size } => read_fixed_list(alloc, *size, nullable, &children),
        MessageKind::Map { sorted } => read_map(alloc, *sorted, nullable, &children),
        MessageKind::Struct { names } => read_struct(names, nullable, children),
        MessageKind::Union { names, tags } => read_union(alloc, names, tags, nullable, children),
        MessageKind::Extension { id, metadata } => {
            read_extension(alloc, session, id, metadata, nullable, &children)
        }
    }
}

fn flagged(nullable: bool) -> Nullability
    ensures { nullability_of_flag result ≡ nullability_flagged nullable }
{
    if nullable {
        Nullability::Nullable
    } else {
        Nullability::NonNullable
    }
}

// The type, for a node without children.
#[tactic(auto, using(crate::proofs::Rows::counts))]
fn read_leaf(dtype: DType, children: &[DType]) -> Result<DType, DTypeError>
    ensures { Gives type_of result (childless (map type_of children.now) (read (type_of dtype))) }
{
    if children.len() != 0 {
        return Err(DTypeError::Malformed);
    }
    Ok(dtype)
}

#[tactic(auto, using(crate::proofs::Rows::counts))]
fn read_null(nullable: bool, children: &[DType]) -> Result<DType, DTypeError>
    ensures { Gives type_of result (row no_plugins nulls nullable (map type_of children.now)) }
{
    if children.len() != 0 {
        return Err(DTypeError::Malformed);
    }
    if !nullable {
        return Err(DTypeError::Malformed);
    }
    Ok(DType::Null)
}

#[tactic(auto, using(crate::proofs::Rows::counts))]
fn read_decimal(
    precision: i64,
    scale: i64,
    nullable: bool,
    children: &[DType],
) -> Result<DType, DTypeError>
    ensures { Gives type_of result
        (row no_plugins (decimals precision scale) nullable (map type_of children.now)) }
{
    if children.len() != 0 {
        return Err(DTypeError::Malformed);
    }
    let dtype = decimal(precision, scale, flagged(nullable))?;
    Ok(dtype)
}

#[tactic(auto, using(crate::proofs::Rows::shapes))]
fn decimal(precision: i64, scale: i64, nullability: Nullability) -> Result<DType, DTypeError>
    ensures { Gives type_of result
        (decimal_shaped precision scale (nullability_of_flag nullability)) }
{
    let Ok(precision) = u8::try_from(precision) else {
        return Err(DTypeError::Malformed);
    };
    let Ok(scale) = i8::try_from(scale) else {
        return Err(DTypeError::Malformed);
    };
    match DecimalDType::try_new(precision, scale) {
        Ok(decimal) => Ok(DType::Decimal(decimal, nullability)),
        Err(_) => Err(DTypeError::Malformed),
    }
}

#[tactic(auto, using(crate::proofs::Rows::counts))]
fn read_list(alloc: Global, nullable: bool, children: &[DType]) -> Result<DType, DTypeError>
    ensures { Gives type_of result (row no_plugins lists nullable (map type_of children.now)) }
{
    if children.len() != 1 {
        return Err(DTypeError::Malformed);
    }
    let element = children[0].clone()?;
    let element = Rc::new(alloc, element)?;
    Ok(DType::List(element, flagged(nullable)))
}

#[tactic(auto, using(crate::proofs::Rows::counts))]
fn read_fixed_list(
    alloc: Global,
    size: u32,
    nullable: bool,
    children: &[DType],
) -> Result<DType, DTypeError>
    ensures { Gives type_of result
        (row no_plugins (fixed_lists size) nullable (map type_of children.now)) }
{
    if children.len() != 1 {
        return Err(DTypeError::Malformed);
    }
    let element = children[0].clone()?;
    let element = Rc::new(alloc, element)?;
    Ok(DType::FixedSizeList(element, size, flagged(nullable)))
}

#[tactic(auto, using(crate::proofs::Rows::counts))]
fn read_map(
    alloc: Global,
    sorted: bool,
    nullable: bool,
    children: &[DType],
) -> Result<DType, DTypeError>
    ensures { Gives type_of result
        (row no_plugins (maps sorted) nullable (map type_of children.now)) }
{
    if children.len() != 2 {
        return Err(DTypeError::Malformed);
    }
    let key = children[0].clone()?;
    let value = children[1].clone()?;
    match MapDType::try_new(alloc, key, value, sorted) {
        Ok(map) => Ok(DType::Map(map, flagged(nullable))),
        Err(DTypeError::Memory) => Err(DTypeError::Memory),
        Err(_) => Err(DTypeError::Malformed),
    }
}

#[tactic(auto, using(crate::proofs::Rows::counts))]
fn read_struct(
    names: &FieldNames,
    nullable: bool,
    children: Vec<DType>,
) -> Result<DType, DTypeError>
    ensures { Gives type_of result
        (row no_plugins (records names.now) nullable (map type_of children.items)) }
{
    if names.len() != children.len() {
        return Err(DTypeError::Malformed);
    }
    let fields = StructFields::new(names.clone()?, children)?;
    Ok(DType::Struct(fields, flagged(nullable)))
}

#[tactic(auto, using(crate::proofs::Rows::shapes))]
fn read_union(
    alloc: Global,
    names: &FieldNames,
    tags: &[i64],
    nullable: bool,
    children: Vec<DType>,
) -> Result<DType, DTypeError>
    ensures { Gives type_of result
        (row no_plugins (unions names.now tags.now) nullable (map type_of children.items)) }
{
    let tags = narrow_tags(alloc, tags)?;
    match UnionVariants::try_new(names.clone()?, children, tags) {
        Ok(variants) => Ok(DType::Union(variants, flagged(nullable))),
        Err(DTypeError::Memory) => Err(DTypeError::Memory),
        Err(_) => Err(DTypeError::Malformed),
    }
}

// The tags, where each fits an `i8`.
#[tactic(none)]
fn narrow_tags(alloc: Global, tags: &[i64]) -> Result<Vec<i8>, DTypeError>
    ensures { Gives (λ v. v.items) result (read_if (are_tags tags.now) tags.now) }
{
    let mut narrow = Vec::with_capacity(alloc, tags.len())?;
    for tag in tags {
        let Ok(tag) = i8::try_from(*tag) else {
            return Err(DTypeError::Malformed);
        };
        narrow.push(tag)?;
    }
    Ok(narrow)
}

#[tactic(auto, using(crate::proofs::Rows::counts))]
fn read_extension(
    alloc: Global,
    session: &DTypeSession,
    id: &BufferString,
    metadata: &Option<ByteBuffer>,
    nullable: bool,
    children: &[DType],
) -> Result<DType, DTypeError>
    ensures { Gives type_of result
        (row (session_of name meaning session.now.plugins.items)
        (extended id.now metadata.now) nullable (map type_of children.now)) }
{
    if children.len() != 1 {
        return Err(DTypeError::Malformed);
    }
    let storage = children[0].clone()?;
    if storage.is_nullable() != nullable {
        return Err(DTypeError::Malformed);
    }
    let metadata = session.admit(id.as_str(), metadata, &storage)?;
    let extension = ExtDTypeRef::new(alloc, id.clone()?, metadata, storage)?;
    Ok(DType::Extension(extension))
}
