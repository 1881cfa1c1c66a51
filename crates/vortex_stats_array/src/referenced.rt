//! Values of arrays of any layout, each read once, as in dictionaries and constants.
ghost use Rattle.std.specs.Prelude.{◌≡◌, ◌<◌, List};
ghost use Rattle.vortex_model.specs.Content.{Content, boolean, integer, text, byte_string};
ghost use Rattle.vortex_arrays_model.specs.Layout.{len_of, array_type_of, content_at};
ghost use Rattle.vortex_scalar_core.specs.Scalar.{scalar_type, scalar_content};
ghost use Rattle.vortex_stats_array.specs.Arrays.{IsBooleanType, IsIntegerOf, IsTextType, IsBinaryType, IsStringType, string_or_null};
ghost use Rattle.vortex_stats_array.specs.Counted.{CountsEach, StandIn};
ghost use Rattle.vortex_stats_array.specs.Running.{content_or_null, IsSeen};

use crate::counts::Counts;
use crate::leaf_value::{ByteString, Number, Text};
use crate::running::Running;
use crate::seen::seen_in;
use vortex_arrays_core::array::{ArrayLayout, ArrayRef};
use vortex_dtype_native::native::NativePType;
use vortex_scalar_core::scalar::Scalar;
use vortex_scalar_value::scalar_value::ScalarValue;

// The integer at a row, which is within the array's type.
#[tactic(auto, using(crate::proofs::RowLemmas::numbers))]
fn number_at<T: NativePType>(array: &ArrayRef, i: usize) -> Option<Number<T>>
    requires within { i < len_of array.now }
    requires kind { IsIntegerOf T.kind (array_type_of array.now) }
    ensures { content_or_null (λ v. integer (T.integer v.0)) result ≡ content_at array.now i }
{
    let _rows = array.len();
    match T::of(array.integer(i)?) {
        Some(number) => Some(Number(number)),
        None => unreachable!(),
    }
}

/// Statistics so far of integers.
pub(crate) fn referenced_numbers<T: NativePType>(
    array: &ArrayRef,
    counts: Option<&Counts>,
) -> Running<Number<T>>
    requires kind { IsIntegerOf T.kind (array_type_of array.now) }
    requires counted { CountsEach counts (len_of array.now) }
    ensures { (rows : List Content)
        → StandIn counts.entry (content_at array.now) (len_of array.now) rows
        → IsSeen (λ v. integer (T.integer v.0)) result rows }
{
    seen_in(array, counts, |i| number_at(array, i))
}

// The boolean at a row.
#[tactic(auto, using(crate::proofs::RowLemmas::truths))]
fn bool_at(array: &ArrayRef, i: usize) -> Option<bool>
    requires within { i < len_of array.now }
    requires kind { IsBooleanType (array_type_of array.now) }
    ensures { content_or_null boolean result ≡ content_at array.now i }
{
    let _rows = array.len();
    if array.is_valid(i) {
        Some(array.truth(i))
    } else {
        None
    }
}

/// Statistics so far of booleans.
pub(crate) fn referenced_bools(array: &ArrayRef, counts: Option<&Counts>) -> Running<bool>
    requires kind { IsBooleanType (array_type_of array.now) }
    requires counted { CountsEach counts (len_of array.now) }
    ensures { (rows : List Content)
        → StandIn counts.entry (content_at array.now) (len_of array.now) rows
        → IsSeen boolean result rows }
{
    seen_in(array, counts, |i| bool_at(array, i))
}

// The bytes of the string or the bytes at a row, borrowed.
#[tactic(auto, using(crate::proofs::RowLemmas::strings))]
fn bytes_at<'a>(array: &'a ArrayRef, i: usize) -> Option<&'a [u8]>
    requires within { i < len_of array.now }
    requires kind { IsStringType (array_type_of array.now) }
    ensures { string_or_null (array_type_of array.now) result ≡ content_at array.now i }
{
    match array.layout() {
        ArrayLayout::VarBinView(_, views, buffers, validity) => {
            let views = views.as_slice();
            if validity.is_valid(i, views.len()) {
                Some(views[i].bytes(buffers.as_slice()))
            } else {
                None
            }
        }
        ArrayLayout::Constant(scalar, _) => bytes_in(scalar),
        ArrayLayout::Dict(codes, values, _) => {
            let _count = values.len();
            match codes.integer(i) {
                Some(code) => bytes_at(values, code as usize),
                None => None,
            }
        }
        ArrayLayout::Bool(_, _) => unreachable!(),
        ArrayLayout::Primitive(_, _) => unreachable!(),
        ArrayLayout::FixedSizeList(_, _, _, _) => unreachable!(),
        ArrayLayout::ListView(_, _, _, _, _) => unreachable!(),
        ArrayLayout::Struct(_, _, _, _) => unreachable!(),
    }
}

// The bytes of a string or of bytes.
#[tactic(auto, using(crate::proofs::RowLemmas::strings))]
fn bytes_in(scalar: &Scalar) -> Option<&[u8]>
    requires { IsStringType (scalar_type scalar.now) }
    ensures { string_or_null (scalar_type scalar.now) result ≡ scalar_content scalar.now }
{
    match scalar.value()? {
        ScalarValue::Utf8(text) => Some(text.as_str().as_bytes()),
        ScalarValue::Binary(bytes) => Some(bytes.as_slice()),
        ScalarValue::Bool(_) | ScalarValue::Primitive(_) => unreachable!(),
        ScalarValue::Tuple(_) | ScalarValue::Union(_) => unreachable!(),
        ScalarValue::Variant(_) => unreachable!(),
    }
}

fn text_at<'a>(array: &'a ArrayRef, i: usize) -> Option<Text<'a>>
    requires within { i < len_of array.now }
    requires kind { IsTextType (array_type_of array.now) }
    ensures { content_or_null (λ v. text v.bytes.now) result ≡ content_at array.now i }
{
    let _rows = array.len();
    Some(Text::new(bytes_at(array, i)?))
}

/// Statistics so far of strings, compared without a copy.
pub(crate) fn referenced_texts<'a>(
    array: &'a ArrayRef,
    counts: Option<&Counts>,
) -> Running<Text<'a>>
    requires kind { IsTextType (array_type_of array.now) }
    requires counted { CountsEach counts (len_of array.now) }
    ensures { (rows : List Content)
        → StandIn counts.entry (content_at array.now) (len_of array.now) rows
        → IsSeen (λ v. text v.bytes.now) result rows }
{
    seen_in(array, counts, |i| text_at(array, i))
}

fn byte_string_at<'a>(array: &'a ArrayRef, i: usize) -> Option<ByteString<'a>>
    requires within { i < len_of array.now }
    requires kind { IsBinaryType (array_type_of array.now) }
    ensures { content_or_null (λ v. byte_string v.0.now) result ≡ content_at array.now i }
{
    Some(ByteString(bytes_at(array, i)?))
}

/// Statistics so far of bytes, compared without a copy.
pub(crate) fn referenced_byte_strings<'a>(
    array: &'a ArrayRef,
    counts: Option<&Counts>,
) -> Running<ByteString<'a>>
    requires kind { IsBinaryType (array_type_of array.now) }
    requires counted { CountsEach counts (len_of array.now) }
    ensures { (rows : List Content)
        → StandIn counts.entry (content_at array.now) (len_of array.now) rows
        → IsSeen (λ v. byte_string v.0.now) result rows }
{
    seen_in(array, counts, |i| byte_string_at(array, i))
}
