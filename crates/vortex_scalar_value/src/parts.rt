//! The parts of a value of one variant; each call is `None` for values of another.
ghost use Rattle.std.specs.Prelude.{◌≡◌, option_map, option_copied};
ghost use Rattle.vortex_scalar_value.specs.Numbers.{raw_of_number};
ghost use Rattle.vortex_scalar_value.specs.Parts.{boolean_in, as_number, text_in, byte_string_in, items_in, as_tagged, as_scalar, raw_nth, raw_part};
ghost use Rattle.vortex_scalar_value.specs.View.{raw_of, raw_of_union, raw_of_variant, raw_at, raws_in};

use crate::pvalue::PValue;
use crate::scalar_value::ScalarValue;
use crate::union_value::UnionValue;
use crate::variant_value::VariantValue;
use vortex_dtype_core::{BufferString, ByteBuffer};

#[tactic(auto, using(crate::proofs::Views::one_level))]
impl ScalarValue {
    pub fn as_bool(&self) -> Option<bool>
        ensures { result ≡ boolean_in (raw_of self.now) }
    {
        match self {
            ScalarValue::Bool(flag) => Some(*flag),
            ScalarValue::Primitive(_) | ScalarValue::Utf8(_) | ScalarValue::Binary(_) => None,
            ScalarValue::Tuple(_) | ScalarValue::Union(_) | ScalarValue::Variant(_) => None,
        }
    }

    pub fn into_bool(self) -> Option<bool>
        ensures { result ≡ boolean_in (raw_of self) }
    {
        self.as_bool()
    }

    pub fn as_primitive(&self) -> Option<PValue>
        ensures { option_map raw_of_number result ≡ as_number (raw_of self.now) }
    {
        match self {
            ScalarValue::Primitive(number) => Some(*number),
            ScalarValue::Bool(_) | ScalarValue::Utf8(_) | ScalarValue::Binary(_) => None,
            ScalarValue::Tuple(_) | ScalarValue::Union(_) | ScalarValue::Variant(_) => None,
        }
    }

    pub fn into_primitive(self) -> Option<PValue>
        ensures { option_map raw_of_number result ≡ as_number (raw_of self) }
    {
        self.as_primitive()
    }

    pub fn as_utf8(&self) -> Option<&BufferString>
        ensures { option_copied result ≡ text_in (raw_of self.now) }
    {
        match self {
            ScalarValue::Utf8(text) => Some(text),
            ScalarValue::Bool(_) | ScalarValue::Primitive(_) | ScalarValue::Binary(_) => None,
            ScalarValue::Tuple(_) | ScalarValue::Union(_) | ScalarValue::Variant(_) => None,
        }
    }

    pub fn as_binary(&self) -> Option<&ByteBuffer>
        ensures { option_copied result ≡ byte_string_in (raw_of self.now) }
    {
        match self {
            ScalarValue::Binary(bytes) => Some(bytes),
            ScalarValue::Bool(_) | ScalarValue::Primitive(_) | ScalarValue::Utf8(_) => None,
            ScalarValue::Tuple(_) | ScalarValue::Union(_) | ScalarValue::Variant(_) => None,
        }
    }

    /// The elements of a list, the entries of a map, or the fields of a struct.
    pub fn as_list(&self) -> Option<&[Option<ScalarValue>]>
        ensures { option_map (λ items. raws_in items.now) result ≡ items_in (raw_of self.now) }
    {
        match self {
            ScalarValue::Tuple(items) => Some(items.as_slice()),
            ScalarValue::Bool(_) | ScalarValue::Primitive(_) | ScalarValue::Utf8(_) => None,
            ScalarValue::Binary(_) | ScalarValue::Union(_) | ScalarValue::Variant(_) => None,
        }
    }

    /// The item of a list, map or struct at an index. `None` is null, and is also returned past the
    /// end and for other values.
    #[tactic(auto, using(crate::proofs::Items::parts))]
    pub fn child_at(&self, index: usize) -> Option<&ScalarValue>
        ensures { raw_at result ≡ raw_part (raw_of self.now) index }
    {
        item_at(self.as_list()?, index)
    }

    pub fn as_union(&self) -> Option<&UnionValue>
        ensures { option_map (λ union. raw_of_union union.now) result
            ≡ as_tagged (raw_of self.now) }
    {
        match self {
            ScalarValue::Union(union) => Some(union),
            ScalarValue::Bool(_) | ScalarValue::Primitive(_) | ScalarValue::Utf8(_) => None,
            ScalarValue::Binary(_) | ScalarValue::Tuple(_) | ScalarValue::Variant(_) => None,
        }
    }

    pub fn as_variant(&self) -> Option<&VariantValue>
        ensures { option_map (λ variant. raw_of_variant variant.now) result
            ≡ as_scalar (raw_of self.now) }
    {
        match self {
            ScalarValue::Variant(variant) => Some(variant),
            ScalarValue::Bool(_) | ScalarValue::Primitive(_) | ScalarValue::Utf8(_) => None,
            ScalarValue::Binary(_) | ScalarValue::Tuple(_) | ScalarValue::Union(_) => None,
        }
    }
}

/// The item at an index. `None` is null, and is also returned past the end.
pub fn item_at(items: &[Option<ScalarValue>], index: usize) -> Option<&ScalarValue>
    ensures { raw_at result ≡ raw_nth (raws_in items.now) index }
{
    match items.get(index) {
        Some(item) => item.as_ref(),
        None => None,
    }
}
