//! Values at an index.
ghost use Rattle.std.specs.Prelude.{◌≡◌, ◌<◌, ◌↔◌, IsTrue, not};
ghost use Rattle.vortex_model.specs.LogicalType.{boolean_type, non_nullable};
ghost use Rattle.vortex_model.specs.Content.{is_null};
ghost use Rattle.vortex_arrays_model.specs.Layout.{len_of, array_type_of, content_at, is_valid, is_truth, IsInteger, HasLength};
ghost use Rattle.vortex_scalar_core.specs.Scalar.{scalar_raw, scalar_content};
ghost use Rattle.vortex_scalar_value.specs.Parts.{whole_number_in};
ghost use Rattle.vortex_arrays_core.specs.LayoutOf.{valid_of, integer_content};

use crate::array::{ArrayLayout, ArrayRef, Validity};
use vortex_scalar_core::scalar::Scalar;

impl ArrayRef {
    /// Whether the array has the type of booleans without null.
    #[tactic(auto, using(crate::proofs::Reading::truths_without_null))]
    pub fn is_non_nullable_bool(&self) -> bool
        ensures { IsTrue result ↔ (array_type_of self.now ≡ boolean_type non_nullable) }
    {
        self.dtype().is_boolean() && !self.dtype().is_nullable()
    }

    /// Whether the array has an integer type.
    #[tactic(auto, using(crate::proofs::Reading::integers))]
    pub fn is_integer(&self) -> bool
        ensures { IsTrue result ↔ IsInteger (array_type_of self.now) }
    {
        self.dtype().is_int()
    }

    /// The integer at an index, and `None` for null.
    #[cycle(read)]
    #[tactic(auto, using(crate::proofs::Reading::integers))]
    pub fn integer(&self, i: usize) -> Option<i128>
        requires within { i < len_of self.now }
        requires kind { IsInteger (array_type_of self.now) }
        ensures { content_at self.now i ≡ integer_content result }
    {
        match &self.data.layout {
            ArrayLayout::Primitive(items, validity) => {
                if validity.is_valid(i, items.len()) {
                    Some(items.get(i))
                } else {
                    None
                }
            }
            ArrayLayout::Constant(scalar, _) => integer_in(scalar),
            ArrayLayout::Dict(codes, values, _) => {
                let _count = values.len();
                match codes.integer(i) {
                    Some(code) => values.integer(code as usize),
                    None => None,
                }
            }
            _ => unreachable!(),
        }
    }

    /// Whether the value at an index is true. Null is not true, nor is a value of another type.
    #[cycle(read)]
    #[tactic(auto, using(crate::proofs::Reading::truths))]
    pub fn truth(&self, i: usize) -> bool
        requires { i < len_of self.now }
        ensures { result ≡ is_truth (content_at self.now i) }
    {
        match &self.data.layout {
            ArrayLayout::Bool(bits, validity) => {
                validity.is_valid(i, bits.len()) && bits.value(i)
            }
            ArrayLayout::Constant(scalar, _) => boolean_in(scalar),
            ArrayLayout::Dict(codes, values, _) => {
                let _count = values.len();
                match codes.integer(i) {
                    Some(code) => values.truth(code as usize),
                    None => false,
                }
            }
            _ => false,
        }
    }

    /// Whether the value at an index is not null.
    #[tactic(auto, using(crate::proofs::Reading::nulls))]
    pub fn is_valid(&self, i: usize) -> bool
        requires { i < len_of self.now }
        ensures { result ≡ not (is_null (content_at self.now i)) }
    {
        match &self.data.layout {
            ArrayLayout::Bool(bits, validity) => validity.is_valid(i, bits.len()),
            ArrayLayout::Primitive(items, validity) => validity.is_valid(i, items.len()),
            ArrayLayout::VarBinView(_, views, _, validity) => validity.is_valid(i, views.len()),
            ArrayLayout::Constant(scalar, _) => !scalar.is_null(),
            ArrayLayout::Dict(codes, values, _) => {
                let _count = values.len();
                match codes.integer(i) {
                    Some(code) => values.is_valid(code as usize),
                    None => false,
                }
            }
            ArrayLayout::FixedSizeList(_, _, len, validity) => validity.is_valid(i, *len),
            ArrayLayout::ListView(_, offsets, _, _, validity) => {
                validity.is_valid(i, offsets.len())
            }
            ArrayLayout::Struct(_, _, len, validity) => validity.is_valid(i, *len),
        }
    }

    /// Whether the value at an index is null.
    pub fn is_invalid(&self, i: usize) -> bool
        requires { i < len_of self.now }
        ensures { result ≡ is_null (content_at self.now i) }
    {
        !self.is_valid(i)
    }
}

impl Validity {
    /// Whether a row is not null, in an array of `len` rows.
    #[cycle(read)]
    pub fn is_valid(&self, i: usize, len: usize) -> bool
        requires within { i < len }
        requires fits { HasLength (valid_of self.now) len }
        ensures { result ≡ is_valid (valid_of self.now) i }
    {
        match self {
            Validity::NonNullable => true,
            Validity::AllValid => true,
            Validity::AllInvalid => false,
            Validity::Array(bits) => bits.truth(i),
        }
    }

    /// Whether a row is null, in an array of `len` rows.
    pub fn is_null(&self, i: usize, len: usize) -> bool
        requires within { i < len }
        requires fits { HasLength (valid_of self.now) len }
        ensures { result ≡ not (is_valid (valid_of self.now) i) }
    {
        !self.is_valid(i, len)
    }
}

// The constant's integer, and `None` for null.
#[tactic(auto, using(crate::proofs::Reading::held))]
fn integer_in(scalar: &Scalar) -> Option<i128>
    ensures { result ≡ whole_number_in (scalar_raw scalar.now) }
{
    match scalar.value()?.as_primitive() {
        Some(number) => Some(number.get()),
        None => None,
    }
}

// Whether the constant is true.
#[tactic(auto, using(crate::proofs::Reading::held))]
fn boolean_in(scalar: &Scalar) -> bool
    ensures { result ≡ is_truth (scalar_content scalar.now) }
{
    match scalar.value() {
        Some(value) => value.as_bool().unwrap_or(false),
        None => false,
    }
}
