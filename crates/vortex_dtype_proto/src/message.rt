//! Messages: types as trees of nodes, which a file or a caller may give.
ghost use Rattle.std.specs.Prelude.{◌≡◌, IfOk};
ghost use Rattle.vortex_dtype_proto.specs.Messages.{extended, node, unions};
ghost use Rattle.vortex_dtype_proto.specs.View.{form_of, tree_of, trees_of};

use std::alloc::AllocError;
use vortex_dtype_core::{BufferString, ByteBuffer};
use vortex_dtype_ptype::field_names::FieldNames;
use vortex_dtype_ptype::ptype::PType;

/// A type as a message: a node of the file format's `DType` message.
#[derive(Drop)]
pub struct Message {
    /// The node's kind, with the fields that only this kind has.
    pub kind: MessageKind,
    /// Whether null is a value.
    pub nullable: bool,
    /// The messages of the types inside.
    pub children: Vec<Message>,
}

/// The kind of a node. Its numbers and lists are not checked here; `from_proto` refuses those that
/// make no type.
pub enum MessageKind {
    /// Only null.
    Null,
    /// Booleans.
    Bool,
    /// UTF-8 strings.
    Utf8,
    /// Bytes.
    Binary,
    /// Values of any type, each with its type.
    Variant,
    /// Integers or floats.
    Primitive(PType),
    /// Decimals.
    Decimal {
        /// The number of digits.
        precision: i64,
        /// The number of digits after the decimal point.
        scale: i64,
    },
    /// Lists of the child's type, of any length.
    List,
    /// Lists of the child's type, of one length.
    FixedSizeList {
        /// The length of each list.
        size: u32,
    },
    /// Maps from the first child's type to the second's.
    Map {
        /// Whether the keys of each map are sorted.
        sorted: bool,
    },
    /// Structs, with a child for each field.
    Struct {
        /// The names of the fields.
        names: FieldNames,
    },
    /// Unions, with a child for each variant.
    Union {
        /// The names of the variants.
        names: FieldNames,
        /// The tags of the variants.
        tags: Vec<i64>,
    },
    /// An extension over the child's type.
    Extension {
        /// The name of the extension.
        id: BufferString,
        /// The serialized metadata. Absent metadata reads as empty.
        metadata: Option<ByteBuffer>,
    },
}

impl Drop for MessageKind {
    // Written out, since a derived drop is walked variant by variant wherever a message is dropped.
    fn drop(self) {
        match self {
            MessageKind::Null => {}
            MessageKind::Bool => {}
            MessageKind::Utf8 => {}
            MessageKind::Binary => {}
            MessageKind::Variant => {}
            MessageKind::Primitive(_) => {}
            MessageKind::Decimal {
                precision: _,
                scale: _,
            } => {}
            MessageKind::List => {}
            MessageKind::FixedSizeList { size: _ } => {}
            MessageKind::Map { sorted: _ } => {}
            MessageKind::Struct { names: _names } => {}
            MessageKind::Union {
                names: _names,
                tags: _tags,
            } => {}
            MessageKind::Extension {
                id: _id,
                metadata: _metadata,
            } => {}
        }
    }
}

impl Clone for MessageKind {
    ghost is_clone = { λ old new. form_of new ≡ form_of old };

    fn clone(&self) -> Result<MessageKind, AllocError> {
        match self {
            MessageKind::Null => Ok(MessageKind::Null),
            MessageKind::Bool => Ok(MessageKind::Bool),
            MessageKind::Utf8 => Ok(MessageKind::Utf8),
            MessageKind::Binary => Ok(MessageKind::Binary),
            MessageKind::Variant => Ok(MessageKind::Variant),
            MessageKind::Primitive(ptype) => Ok(MessageKind::Primitive(*ptype)),
            MessageKind::Decimal { precision, scale } => Ok(MessageKind::Decimal {
                precision: *precision,
                scale: *scale,
            }),
            MessageKind::List => Ok(MessageKind::List),
            MessageKind::FixedSizeList { size } => Ok(MessageKind::FixedSizeList { size: *size }),
            MessageKind::Map { sorted } => Ok(MessageKind::Map { sorted: *sorted }),
            MessageKind::Struct { names } => Ok(MessageKind::Struct {
                names: names.clone()?,
            }),
            MessageKind::Union { names, tags } => copy_union(names, tags),
            MessageKind::Extension { id, metadata } => copy_extension(id, metadata),
        }
    }
}

fn copy_union(names: &FieldNames, tags: &Vec<i64>) -> Result<MessageKind, AllocError>
    ensures { IfOk result (λ copy. form_of copy ≡ unions names.now tags.now.items) }
{
    let names = names.clone()?;
    let tags = tags.to_vec(*tags.allocator())?;
    Ok(MessageKind::Union { names, tags })
}

fn copy_extension(
    id: &BufferString,
    metadata: &Option<ByteBuffer>,
) -> Result<MessageKind, AllocError>
    ensures { IfOk result (λ copy. form_of copy ≡ extended id.now metadata.now) }
{
    let id = id.clone()?;
    let metadata = match metadata {
        Some(bytes) => Some(bytes.clone()?),
        None => None,
    };
    Ok(MessageKind::Extension { id, metadata })
}

impl Clone for Message {
    ghost is_clone = { λ old new. tree_of new ≡ tree_of old };

    fn clone(&self) -> Result<Message, AllocError> {
        copy_message(self)
    }
}

#[tactic(auto, using(crate::proofs::Parts::one_level))]
fn copy_message(message: &Message) -> Result<Message, AllocError>
    ensures { IfOk result (λ copy. tree_of copy ≡ tree_of message.now) }
{
    let alloc = *message.children.allocator();
    let mut children = Vec::with_capacity(alloc, message.children.len())?;
    for child in &message.children {
        let copy = copy_message(child)?;
        children.push(copy)?;
    }
    let kind = message.kind.clone()?;
    Ok(node(kind, message.nullable, children))
}

#[tactic(auto, using(crate::proofs::Parts::one_level))]
fn node(kind: MessageKind, nullable: bool, children: Vec<Message>) -> Message
    ensures { tree_of result ≡ node (form_of kind) nullable (trees_of children.items) }
{
    Message {
        kind,
        nullable,
        children,
    }
}
