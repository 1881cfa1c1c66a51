//! Scalars without values inside.
ghost use Rattle.std.specs.Prelude.{◌≡◌, true};
ghost use Rattle.vortex_model.specs.LogicalType.{boolean_type, integer_type, utf8, binary};
ghost use Rattle.vortex_model.specs.Content.{raw_boolean, raw_text, raw_byte_string};
ghost use Rattle.vortex_model.specs.Valid.{are_bytes};
ghost use Rattle.vortex_dtype_ptype.specs.View.{nullability_of_flag};
ghost use Rattle.vortex_scalar_value.specs.Numbers.{kind_of_number, raw_of_number};
ghost use Rattle.vortex_scalar_core.specs.Scalar.{scalar_type, scalar_raw};

use vortex_dtype_core::dtype::DType;
use vortex_dtype_core::{BufferString, ByteBuffer};
use vortex_dtype_ptype::nullability::Nullability;
use vortex_scalar_core::scalar::Scalar;
use vortex_scalar_value::pvalue::PValue;
use vortex_scalar_value::scalar_value::ScalarValue;

#[tactic(auto, using(crate::proofs::Made::leaves))]
pub(crate) fn bool_value(value: bool, nullability: Nullability) -> Scalar
    ensures dtype { scalar_type result ≡ boolean_type (nullability_of_flag nullability) }
    ensures value { scalar_raw result ≡ raw_boolean value }
{
    Scalar::new_unchecked(DType::Bool(nullability), Some(ScalarValue::Bool(value)))
}

#[tactic(auto, using(crate::proofs::Made::leaves))]
pub(crate) fn number_value(value: PValue, nullability: Nullability) -> Scalar
    ensures dtype { scalar_type result ≡ integer_type (kind_of_number value)
        (nullability_of_flag nullability) }
    ensures value { scalar_raw result ≡ raw_of_number value }
{
    // Proves that the integer is in the range of its type.
    let _ = value.get();
    let dtype = DType::Primitive(value.ptype(), nullability);
    Scalar::new_unchecked(dtype, Some(ScalarValue::Primitive(value)))
}

#[tactic(auto, using(crate::proofs::Made::leaves))]
pub(crate) fn text_value(text: BufferString, nullability: Nullability) -> Scalar
    ensures dtype { scalar_type result ≡ utf8 (nullability_of_flag nullability) }
    ensures value { scalar_raw result ≡ raw_text text }
{
    // Proves that the string is UTF-8.
    let _ = text.as_bytes();
    Scalar::new_unchecked(DType::Utf8(nullability), Some(ScalarValue::Utf8(text)))
}

#[tactic(auto, using(crate::proofs::Made::leaves))]
pub(crate) fn binary_value(bytes: ByteBuffer, nullability: Nullability) -> Scalar
    ensures dtype { scalar_type result ≡ binary (nullability_of_flag nullability) }
    ensures value { scalar_raw result ≡ raw_byte_string bytes }
{
    tell_bytes(bytes.as_slice());
    Scalar::new_unchecked(DType::Binary(nullability), Some(ScalarValue::Binary(bytes)))
}

// Proves that each item is a byte.
fn tell_bytes(bytes: &[u8])
    ensures { are_bytes bytes.now ≡ true }
{}
