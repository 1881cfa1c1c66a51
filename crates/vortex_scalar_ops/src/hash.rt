//! Hashes of values.
ghost use Rattle.std.specs.Prelude.{◌≡◌};
ghost use Rattle.std.specs.List.{fold};
ghost use Rattle.vortex_model.specs.Content.{content_of, contents_of};
ghost use Rattle.vortex_scalar_value.specs.View.{raw_of, raw_of_union, raw_of_variant, raws_in, content_at};
ghost use Rattle.vortex_scalar_ops.specs.Hashing.{content_writes, contents_writes};

use std::hash::{Hash, Hasher};
use vortex_dtype_fields::dtype_ext::DTypeExt;
use vortex_scalar_value::scalar_value::ScalarValue;
use vortex_scalar_value::union_value::UnionValue;
use vortex_scalar_value::variant_value::VariantValue;

/// Hashes a value. `None` is null. Values that `eq_values` equates have equal hashes. Takes time
/// linear in the size of the value.
#[cycle(hash)]
#[tactic(auto, using(crate::proofs::Hashed::writes))]
pub fn hash_value<H: Hasher>(value: Option<&ScalarValue>, state: &mut H)
    ensures { state.new ≡ fold H.write state.old (content_writes (content_at value.entry)) }
{
    match value {
        Some(value) => hash_present(value, state),
        None => state.write_u8(0),
    }
}

#[cycle(hash)]
#[tactic(auto, using(crate::proofs::Hashed::writes))]
fn hash_present<H: Hasher>(value: &ScalarValue, state: &mut H)
    ensures { state.new ≡ fold H.write state.old (content_writes (content_of (raw_of value.now))) }
{
    match value {
        ScalarValue::Bool(flag) => {
            state.write_u8(1);
            flag.hash(state);
        }
        ScalarValue::Primitive(number) => {
            state.write_u8(2);
            number.hash(state);
        }
        ScalarValue::Utf8(text) => {
            state.write_u8(3);
            text.hash(state);
        }
        ScalarValue::Binary(bytes) => {
            state.write_u8(4);
            state.write_usize(bytes.len());
            state.write(bytes.as_slice());
        }
        ScalarValue::Tuple(items) => {
            state.write_u8(5);
            state.write_usize(items.len());
            hash_items(items.as_slice(), state);
        }
        ScalarValue::Union(union) => hash_union(union, state),
        ScalarValue::Variant(variant) => hash_variant(variant, state),
    }
}

#[cycle(hash)]
#[tactic(auto, using(crate::proofs::Hashed::writes))]
fn hash_items<H: Hasher>(items: &[Option<ScalarValue>], state: &mut H)
    ensures { state.new
        ≡ fold H.write state.old (contents_writes (contents_of (raws_in items.now))) }
{
    for item in items {
        hash_value(item.as_ref(), state);
    }
}

#[cycle(hash)]
#[tactic(auto, using(crate::proofs::Hashed::writes))]
fn hash_union<H: Hasher>(union: &UnionValue, state: &mut H)
    ensures { state.new
        ≡ fold H.write state.old (content_writes (content_of (raw_of_union union.now))) }
{
    state.write_u8(6);
    state.write_i8(union.type_id());
    hash_value(union.child_value(), state);
}

#[cycle(hash)]
#[tactic(auto, using(crate::proofs::Hashed::writes))]
fn hash_variant<H: Hasher>(variant: &VariantValue, state: &mut H)
    ensures { state.new
        ≡ fold H.write state.old (content_writes (content_of (raw_of_variant variant.now))) }
{
    state.write_u8(7);
    variant.dtype().hash_ignore_nullability(state);
    hash_value(variant.value(), state);
}
