//! Laws of messages and of the types that they describe. A function with a body makes the calls
//! that its law is about, and returns their results.
ghost use Rattle.std.specs.Prelude.{◌≡◌, ◌≢◌, ◌&&◌, length, map, true, false, IfOk, OnOk, IfErr, IsTrue};
ghost use Rattle.std.specs.List.{zip};
ghost use Rattle.vortex_model.specs.LogicalType.{decimal, mapping, union, nullable, non_nullable, nullability_of};
ghost use Rattle.vortex_dtype_ptype.specs.View.{nullability_of_flag};
ghost use Rattle.vortex_dtype_ptype.specs.declared.error.DTypeError.TheVariants.{Memory, MapShape, UnionShape};
ghost use Rattle.vortex_dtype_core.specs.View.{type_of, variants_from};
ghost use Rattle.vortex_dtype_core.specs.Parts.{is_union_shape};
ghost use Rattle.vortex_dtype_proto.specs.Laws.{ReadTypesAreShaped, WrittenTreesReadAlike};
ghost use Rattle.vortex_dtype_proto.specs.Messages.{are_tags, read, reading, written};
ghost use Rattle.vortex_dtype_proto.specs.Sessions.{no_plugins, session_of};
ghost use Rattle.vortex_dtype_proto.specs.Shapes.{is_shaped, are_shaped};
ghost use Rattle.vortex_dtype_proto.specs.View.{tree_of, Gives};

use crate::message::Message;
use crate::read::from_proto;
use crate::session::DTypeSession;
use crate::write::to_proto;
use std::alloc::Global;
use vortex_dtype_core::dtype::DType;
use vortex_dtype_core::map_dtype::MapDType;
use vortex_dtype_core::union_variants::UnionVariants;
use vortex_dtype_ptype::decimal::DecimalDType;
use vortex_dtype_ptype::error::DTypeError;
use vortex_dtype_ptype::field_names::FieldNames;
use vortex_dtype_ptype::nullability::Nullability;

/// The message written for a type describes that type where the type is well-formed: each decimal
/// in range, no nullable map keys, no repeated union tags. For any other type the message is
/// malformed.
pub fn written_trees_read_alike()
    ensures { WrittenTreesReadAlike }
{}

/// A type that is read in any session is well-formed.
pub fn read_types_are_shaped()
    ensures { ReadTypesAreShaped }
{}

/// The message that `to_proto` writes, and the type that `from_proto` reads from it in a session
/// without plugins: the same type. Either call fails only where memory runs out. `is_shaped` tests
/// that the type is well-formed, as each type made by calls is: `decimals_are_shaped`,
/// `maps_are_shaped`, `unions_are_shaped`, `read_types_are_shaped`.
pub fn written_types_are_read(alloc: Global, dtype: &DType) -> Result<(Message, DType), DTypeError>
    requires { IsTrue (is_shaped (type_of dtype.now)) }
    ensures written { IfOk result (λ both. tree_of both.0 ≡ written (type_of dtype.now)) }
    ensures read { IfOk result
        (λ both. reading no_plugins (tree_of both.0) ≡ read (type_of both.1)) }
    ensures alike { IfOk result (λ both. type_of both.1 ≡ type_of dtype.now) }
    ensures refused { IfErr result (λ e. e ≡ Memory) }
{
    let message = to_proto(alloc, dtype)?;
    let again = read_without_plugins(alloc, &message)?;
    Ok((message, again))
}

/// A decimal type, which is well-formed.
pub fn decimals_are_shaped(shape: DecimalDType, nullability: Nullability) -> DType
    ensures made { type_of result
        ≡ decimal shape.precision shape.scale (nullability_of_flag nullability) }
    ensures shaped { IsTrue (is_shaped (type_of result)) }
{
    DType::Decimal(shape, nullability)
}

/// The map type by `MapDType::try_new`, which is well-formed where its key and value types are.
/// `DTypeError::MapShape` where the key type is nullable.
pub fn maps_are_shaped(
    alloc: Global,
    key: DType,
    value: DType,
    keys_sorted: bool,
    nullability: Nullability,
) -> Result<DType, DTypeError>
    ensures made { IfOk result (λ dtype. type_of dtype
        ≡ mapping (type_of key) (type_of value) keys_sorted (nullability_of_flag nullability)) }
    ensures shaped { IfOk result (λ dtype. is_shaped (type_of dtype)
        ≡ (is_shaped (type_of key) && is_shaped (type_of value))) }
    ensures accepted { OnOk result (nullability_of (type_of key) ≡ non_nullable) }
    ensures refused { IfErr result (λ e. e ≢ Memory → (e ≡ MapShape)
        × (nullability_of (type_of key) ≡ nullable)) }
{
    let entries = MapDType::try_new(alloc, key, value, keys_sorted)?;
    Ok(DType::Map(entries, nullability))
}

/// The union type by `UnionVariants::try_new`, which is well-formed where the types of its variants
/// are. `DTypeError::UnionShape` where the lists differ in length, or a tag is repeated.
pub fn unions_are_shaped(
    names: FieldNames,
    dtypes: Vec<DType>,
    tags: Vec<i8>,
    nullability: Nullability,
) -> Result<DType, DTypeError>
    ensures made { IfOk result (λ dtype. type_of dtype
        ≡ union (variants_from (zip names (zip tags.items (map type_of dtypes.items))))
        (nullability_of_flag nullability)) }
    ensures shaped { IfOk result (λ dtype. is_shaped (type_of dtype)
        ≡ are_shaped (map type_of dtypes.items)) }
    ensures accepted { OnOk result
        (IsTrue (is_union_shape (length names) (length dtypes.items) tags.items)) }
    ensures refused { IfErr result (λ e. e ≢ Memory → (e ≡ UnionShape)
        × (is_union_shape (length names) (length dtypes.items) tags.items ≡ false)) }
{
    have_byte_tags(&tags);
    let variants = UnionVariants::try_new(names, dtypes, tags)?;
    Ok(DType::Union(variants, nullability))
}

/// The type that the session reads from `message`, the message written for that type, and the type
/// read from that without plugins, which equals the first. The later calls fail only where memory
/// runs out.
pub fn read_types_are_read_again(
    alloc: Global,
    message: &Message,
    session: &DTypeSession,
) -> Result<(DType, Message, DType), DTypeError>
    ensures first { Gives (λ all. type_of all.0) result
        (reading (session_of name meaning session.now.plugins.items) (tree_of message.now)) }
    ensures written { IfOk result (λ all. tree_of all.1 ≡ written (type_of all.0)) }
    ensures second { IfOk result
        (λ all. reading no_plugins (tree_of all.1) ≡ read (type_of all.2)) }
    ensures alike { IfOk result (λ all. type_of all.2 ≡ type_of all.0) }
{
    let dtype = from_proto(alloc, message, session)?;
    let (written, again) = written_types_are_read(alloc, &dtype)?;
    Ok((dtype, written, again))
}

// The type that the message describes in a session without plugins.
fn read_without_plugins(alloc: Global, message: &Message) -> Result<DType, DTypeError>
    ensures { Gives type_of result (reading no_plugins (tree_of message.now)) }
{
    let session = DTypeSession::empty(alloc);
    from_proto(alloc, message, &session)
}

// Proves that each tag is an `i8`, as its type implies.
fn have_byte_tags(tags: &[i8])
    ensures { IsTrue (are_tags tags.now) }
{
    for tag in tags {
        let _tag = *tag;
    }
}
