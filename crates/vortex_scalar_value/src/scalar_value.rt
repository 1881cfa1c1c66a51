//! Values without a type.
ghost use Rattle.std.specs.Prelude.{◌≡◌, IfOk, option_map};
ghost use Rattle.vortex_model.specs.Content.{raw_tuple};
ghost use Rattle.vortex_scalar_value.specs.Parts.{text_in, byte_string_in, items_in, as_tagged, as_scalar};
ghost use Rattle.vortex_scalar_value.specs.View.{raw_of, raw_of_union, raw_of_variant, raws_in};

use crate::pvalue::PValue;
use crate::union_value::UnionValue;
use crate::variant_value::VariantValue;
use std::alloc::{AllocError, Global};
use vortex_dtype_core::{BufferString, ByteBuffer};

/// A value that is not null, as Vortex's `ScalarValue`: the raw value of the model. Null is `None`
/// of an `Option<ScalarValue>`.
#[cycle(value)]
pub enum ScalarValue {
    /// A boolean.
    Bool(bool),
    /// An integer.
    Primitive(PValue),
    /// A UTF-8 string.
    Utf8(BufferString),
    /// Bytes.
    Binary(ByteBuffer),
    /// The elements of a list, the entries of a map, each a pair, or the fields of a struct in
    /// order.
    Tuple(Vec<Option<ScalarValue>>),
    /// A union's value, with its tag.
    Union(UnionValue),
    /// A value of type `Variant`: a value with its type.
    Variant(Box<VariantValue>),
}

impl Drop for ScalarValue {
    // Written out, since a derived drop is walked variant by variant wherever a value is dropped.
    #[cycle(drop_value)]
    fn drop(self) {
        match self {
            ScalarValue::Bool(_) => {}
            ScalarValue::Primitive(_) => {}
            ScalarValue::Utf8(_text) => {}
            ScalarValue::Binary(_bytes) => {}
            ScalarValue::Tuple(_items) => {}
            ScalarValue::Union(_union) => {}
            ScalarValue::Variant(_variant) => {}
        }
    }
}

#[tactic(auto, using(crate::proofs::Views::one_level))]
impl ScalarValue {
    /// The elements of a list or the fields of a struct, in order. `None` is null.
    pub fn tuple<const N: usize>(
        alloc: Global,
        items: [Option<ScalarValue>; N],
    ) -> Result<ScalarValue, AllocError>
        ensures { IfOk result (λ value. raw_of value ≡ raw_tuple (raws_in items.entry)) }
    {
        let items = Vec::from_array(alloc, items)?;
        Ok(ScalarValue::Tuple(items))
    }

    pub fn into_utf8(self) -> Option<BufferString>
        ensures { result ≡ text_in (raw_of self) }
    {
        match self {
            ScalarValue::Utf8(text) => Some(text),
            ScalarValue::Bool(_) | ScalarValue::Primitive(_) | ScalarValue::Binary(_) => None,
            ScalarValue::Tuple(_) | ScalarValue::Union(_) | ScalarValue::Variant(_) => None,
        }
    }

    pub fn into_binary(self) -> Option<ByteBuffer>
        ensures { result ≡ byte_string_in (raw_of self) }
    {
        match self {
            ScalarValue::Binary(bytes) => Some(bytes),
            ScalarValue::Bool(_) | ScalarValue::Primitive(_) | ScalarValue::Utf8(_) => None,
            ScalarValue::Tuple(_) | ScalarValue::Union(_) | ScalarValue::Variant(_) => None,
        }
    }

    /// The elements of a list, the entries of a map, or the fields of a struct.
    pub fn into_list(self) -> Option<Vec<Option<ScalarValue>>>
        ensures { option_map (λ items. raws_in items.items) result ≡ items_in (raw_of self) }
    {
        match self {
            ScalarValue::Tuple(items) => Some(items),
            ScalarValue::Bool(_) | ScalarValue::Primitive(_) | ScalarValue::Utf8(_) => None,
            ScalarValue::Binary(_) | ScalarValue::Union(_) | ScalarValue::Variant(_) => None,
        }
    }

    pub fn into_union(self) -> Option<UnionValue>
        ensures { option_map raw_of_union result ≡ as_tagged (raw_of self) }
    {
        match self {
            ScalarValue::Union(union) => Some(union),
            ScalarValue::Bool(_) | ScalarValue::Primitive(_) | ScalarValue::Utf8(_) => None,
            ScalarValue::Binary(_) | ScalarValue::Tuple(_) | ScalarValue::Variant(_) => None,
        }
    }

    pub fn into_variant(self) -> Option<VariantValue>
        ensures { option_map raw_of_variant result ≡ as_scalar (raw_of self) }
    {
        match self {
            ScalarValue::Variant(variant) => Some(Box::into_inner(variant)),
            ScalarValue::Bool(_) | ScalarValue::Primitive(_) | ScalarValue::Utf8(_) => None,
            ScalarValue::Binary(_) | ScalarValue::Tuple(_) | ScalarValue::Union(_) => None,
        }
    }
}
