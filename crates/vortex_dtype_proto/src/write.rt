//! From a type to the message that describes it.
ghost use Rattle.std.specs.Prelude.{◌≡◌, Some, IfOk, IfErr};
ghost use Rattle.vortex_model.specs.LogicalType.{is_nullable, nullability_of};
ghost use Rattle.vortex_dtype_ptype.specs.View.{nullability_of_flag};
ghost use Rattle.vortex_dtype_ptype.specs.declared.error.DTypeError.TheVariants.{Memory};
ghost use Rattle.vortex_dtype_core.specs.View.{type_of, fields_of, variants_of};
ghost use Rattle.vortex_dtype_proto.specs.Messages.{maps, records, unions, extended, node, leaf, tree, no_trees, written, written_fields, written_variants, field_names, variant_names, variant_tags};
ghost use Rattle.vortex_dtype_proto.specs.View.{form_of, tree_of, trees_of};

use crate::message::{Message, MessageKind};
use std::alloc::{AllocError, Global};
use vortex_dtype_core::dtype::DType;
use vortex_dtype_core::struct_fields::StructField;
use vortex_dtype_core::union_variants::UnionVariant;
use vortex_dtype_core::{BufferString, ByteBuffer};
use vortex_dtype_ptype::error::DTypeError;
use vortex_dtype_ptype::field_names::FieldNames;
use vortex_dtype_ptype::nullability::Nullability;

/// The message of the type, which a session without plugins reads as the same type. Metadata of an
/// extension is always written, as no bytes where it is empty.
pub fn to_proto(alloc: Global, dtype: &DType) -> Result<Message, DTypeError>
    ensures made { IfOk result (λ message. tree_of message ≡ written (type_of dtype.now)) }
    ensures refused { IfErr result (λ e. e ≡ Memory) }
{
    let message = write_message(alloc, dtype)?;
    Ok(message)
}

#[cycle(write_message)]
#[tactic(auto, using(crate::proofs::Parts::one_level))]
fn write_message(alloc: Global, dtype: &DType) -> Result<Message, AllocError>
    ensures { IfOk result (λ message. tree_of message ≡ written (type_of dtype.now)) }
{
    match dtype {
        DType::Null => Ok(write_leaf(alloc, MessageKind::Null, Nullability::Nullable)),
        DType::Bool(nullability) => Ok(write_leaf(alloc, MessageKind::Bool, *nullability)),
        DType::Primitive(ptype, nullability) => {
            Ok(write_leaf(alloc, MessageKind::Primitive(*ptype), *nullability))
        }
        DType::Decimal(decimal, nullability) => {
            let kind = MessageKind::Decimal {
                precision: i64::from(decimal.precision()),
                scale: i64::from(decimal.scale()),
            };
            Ok(write_leaf(alloc, kind, *nullability))
        }
        DType::Utf8(nullability) => Ok(write_leaf(alloc, MessageKind::Utf8, *nullability)),
        DType::Binary(nullability) => Ok(write_leaf(alloc, MessageKind::Binary, *nullability)),
        DType::Variant(nullability) => Ok(write_leaf(alloc, MessageKind::Variant, *nullability)),
        DType::List(element, nullability) => {
            let child = write_message(alloc, element)?;
            write_over(alloc, MessageKind::List, *nullability, child)
        }
        DType::FixedSizeList(element, size, nullability) => {
            let child = write_message(alloc, element)?;
            let kind = MessageKind::FixedSizeList { size: *size };
            write_over(alloc, kind, *nullability, child)
        }
        DType::Map(map, nullability) => {
            let key = write_message(alloc, map.key_dtype())?;
            let value = write_message(alloc, map.value_dtype())?;
            write_map(alloc, map.keys_sorted(), *nullability, key, value)
        }
        DType::Struct(fields, nullability) => {
            let children = write_fields(alloc, fields.as_slice())?;
            write_struct(alloc, fields.as_slice(), *nullability, children)
        }
        DType::Union(variants, nullability) => {
            let children = write_variants(alloc, variants.as_slice())?;
            write_union(alloc, variants.as_slice(), *nullability, children)
        }
        DType::Extension(extension) => {
            let child = write_message(alloc, extension.storage_dtype())?;
            let (id, metadata) = (extension.id(), extension.serialize_metadata());
            write_extension(alloc, id, metadata, extension.nullability(), child)
        }
    }
}

#[cycle(write_message)]
#[tactic(auto, using(crate::proofs::Parts::one_level))]
fn write_fields(alloc: Global, fields: &[StructField]) -> Result<Vec<Message>, AllocError>
    ensures { IfOk result (λ messages. trees_of messages.items
        ≡ written_fields (fields_of fields.now)) }
{
    let mut messages = Vec::with_capacity(alloc, fields.len())?;
    for field in fields {
        let message = write_message(alloc, &field.dtype)?;
        messages.push(message)?;
    }
    Ok(messages)
}

#[cycle(write_message)]
#[tactic(auto, using(crate::proofs::Parts::one_level))]
fn write_variants(alloc: Global, variants: &[UnionVariant]) -> Result<Vec<Message>, AllocError>
    ensures { IfOk result (λ messages. trees_of messages.items
        ≡ written_variants (variants_of variants.now)) }
{
    let mut messages = Vec::with_capacity(alloc, variants.len())?;
    for variant in variants {
        let message = write_message(alloc, &variant.dtype)?;
        messages.push(message)?;
    }
    Ok(messages)
}

#[tactic(auto, using(crate::proofs::Parts::one_level))]
fn write_leaf(alloc: Global, kind: MessageKind, nullability: Nullability) -> Message
    ensures { tree_of result ≡ leaf (form_of kind) (nullability_of_flag nullability) }
{
    Message {
        kind,
        nullable: nullability.is_nullable(),
        children: Vec::new(alloc),
    }
}

// A node with one child.
#[tactic(auto, using(crate::proofs::Parts::one_level))]
fn write_over(
    alloc: Global,
    kind: MessageKind,
    nullability: Nullability,
    child: Message,
) -> Result<Message, AllocError>
    ensures { IfOk result (λ message. tree_of message
        ≡ node (form_of kind) (is_nullable (nullability_of_flag nullability))
        (tree (tree_of child) no_trees)) }
{
    let mut children = Vec::with_capacity(alloc, 1)?;
    children.push(child)?;
    Ok(Message {
        kind,
        nullable: nullability.is_nullable(),
        children,
    })
}

#[tactic(auto, using(crate::proofs::Parts::one_level))]
fn write_map(
    alloc: Global,
    sorted: bool,
    nullability: Nullability,
    key: Message,
    value: Message,
) -> Result<Message, AllocError>
    ensures { IfOk result (λ message. tree_of message
        ≡ node (maps sorted) (is_nullable (nullability_of_flag nullability))
        (tree (tree_of key) (tree (tree_of value) no_trees))) }
{
    let mut children = Vec::with_capacity(alloc, 2)?;
    children.push(key)?;
    children.push(value)?;
    Ok(Message {
        kind: MessageKind::Map { sorted },
        nullable: nullability.is_nullable(),
        children,
    })
}

// A struct's node over the messages of its fields.
#[tactic(auto, using(crate::proofs::Parts::one_level))]
fn write_struct(
    alloc: Global,
    fields: &[StructField],
    nullability: Nullability,
    children: Vec<Message>,
) -> Result<Message, AllocError>
    ensures { IfOk result (λ message. tree_of message
        ≡ node (records (field_names (fields_of fields.now)))
        (is_nullable (nullability_of_flag nullability)) (trees_of children.items)) }
{
    let names = names_of_fields(alloc, fields)?;
    Ok(write_node(MessageKind::Struct { names }, nullability, children))
}

// A union's node over the messages of its variants.
#[tactic(auto, using(crate::proofs::Parts::one_level))]
fn write_union(
    alloc: Global,
    variants: &[UnionVariant],
    nullability: Nullability,
    children: Vec<Message>,
) -> Result<Message, AllocError>
    ensures { IfOk result (λ message. tree_of message
        ≡ node (unions (variant_names (variants_of variants.now))
        (variant_tags (variants_of variants.now)))
        (is_nullable (nullability_of_flag nullability)) (trees_of children.items)) }
{
    let names = names_of_variants(alloc, variants)?;
    let tags = tags_of_variants(alloc, variants)?;
    Ok(write_node(MessageKind::Union { names, tags }, nullability, children))
}

// An extension's node over the message of its storage.
#[tactic(auto, using(crate::proofs::Parts::one_level))]
fn write_extension(
    alloc: Global,
    id: &BufferString,
    metadata: &ByteBuffer,
    nullability: Nullability,
    storage: Message,
) -> Result<Message, AllocError>
    ensures { IfOk result (λ message. tree_of message
        ≡ node (extended id.now (Some metadata.now)) (is_nullable (nullability_of_flag nullability))
        (tree (tree_of storage) no_trees)) }
{
    let kind = MessageKind::Extension {
        id: id.clone()?,
        metadata: Some(metadata.clone()?),
    };
    write_over(alloc, kind, nullability, storage)
}

// A node with these children.
#[tactic(auto, using(crate::proofs::Parts::one_level))]
fn write_node(kind: MessageKind, nullability: Nullability, children: Vec<Message>) -> Message
    ensures { tree_of result
        ≡ node (form_of kind) (is_nullable (nullability_of_flag nullability))
        (trees_of children.items) }
{
    Message {
        kind,
        nullable: nullability.is_nullable(),
        children,
    }
}

fn names_of_fields(alloc: Global, fields: &[StructField]) -> Result<FieldNames, AllocError>
    ensures { IfOk result (λ names. names ≡ field_names (fields_of fields.now)) }
{
    let mut names = Vec::with_capacity(alloc, fields.len())?;
    for field in fields {
        let name = field.name.clone()?;
        names.push(name)?;
    }
    Ok(FieldNames::new(names))
}

fn names_of_variants(alloc: Global, variants: &[UnionVariant]) -> Result<FieldNames, AllocError>
    ensures { IfOk result (λ names. names ≡ variant_names (variants_of variants.now)) }
{
    let mut names = Vec::with_capacity(alloc, variants.len())?;
    for variant in variants {
        let name = variant.name.clone()?;
        names.push(name)?;
    }
    Ok(FieldNames::new(names))
}

fn tags_of_variants(alloc: Global, variants: &[UnionVariant]) -> Result<Vec<i64>, AllocError>
    ensures { IfOk result (λ tags. tags.items ≡ variant_tags (variants_of variants.now)) }
{
    let mut tags = Vec::with_capacity(alloc, variants.len())?;
    for variant in variants {
        let tag = i64::from(variant.tag);
        tags.push(tag)?;
    }
    Ok(tags)
}
