//! Arrays of strings or bytes by views of sixteen bytes.
ghost use Rattle.std.specs.Prelude.{◌≡◌, ◌≢◌, ◌<◌, ◌==◌, ◌↔◌, [], length, slice_index_or, IsTrue, OnOk, IfOk, IfErr, IfSome, MatchOption, MatchResult};
ghost use Rattle.vortex_arrays_view.specs.Views.{value_of};
ghost use Rattle.vortex_dtype_core.specs.View.{type_of};
ghost use Rattle.vortex_arrays_model.specs.Layout.{strings, len_of, array_type_of, is_valid, IsSound};
ghost use Rattle.vortex_arrays_core.specs.LayoutOf.{valid_of, strings_of};
ghost use Rattle.vortex_arrays_view.specs.declared.error.ArrayError.TheVariants.{Memory};
ghost use Rattle.vortex_arrays_leaf.specs.ViewFaults.{HasLongValue, IsStringsFault};
ghost use Rattle.vortex_arrays_leaf.specs.Strings.{IsStrings, IsStringType, strings_in, views_in, buffers_in};
ghost use Rattle.vortex_arrays_model.specs.Parts.{valid_in};

use crate::check_views::{check_lengths, check_values, check_views};
use bytes::Bytes;
use std::alloc::{AllocError, Global};
use std::marker::Model;
use std::rc::Rc;
use vortex_arrays_buffer::buffer::Buffer;
use vortex_arrays_core::array::{ArrayLayout, ArrayRef, StringKind, Validity};
use vortex_arrays_view::error::ArrayError;
use vortex_arrays_view::view::BinaryView;
use vortex_dtype_core::dtype::DType;

/// Strings or bytes by views of sixteen bytes, as Vortex's `VarBinViewArray`. A clone shares the
/// array.
#[derive(Drop)]
pub struct VarBinViewArray {
    array: ArrayRef,
}

impl Model for VarBinViewArray {
    ghost use Rattle.vortex_arrays_model.specs.Layout.{Layout};
    ghost use Rattle.vortex_arrays_model.specs.LayoutCode.{layout_code};
    ghost use Rattle.vortex_arrays_leaf.specs.Strings.{IsStrings};

    ghost Value = { Layout };

    ghost coded = { layout_code };

    ghost view = { λ a. a.array };

    ghost invariant = { λ a. IsStrings a.array };
}

impl VarBinViewArray {
    /// An array of these views, as Vortex's `VarBinViewArray::try_new`. The view of a null row is
    /// never read.
    ///
    /// `WrongType` where the type is neither `Utf8` nor `Binary`, where its nullability is not the
    /// validity's, or where the validity's array does not have the type of booleans without null.
    /// Else `LengthMismatch` where that array and the views differ in length, else `Total` where a
    /// value has more than `MAX_BUFFER_LEN` bytes, else `BadView` where a view has no value in the
    /// buffers, else `NotUtf8` where the type is `Utf8` and a value is not UTF-8.
    #[tactic(auto, using(crate::proofs::Made::faults))]
    pub fn try_new(
        alloc: Global,
        views: Buffer<BinaryView>,
        buffers: Rc<Vec<Bytes>>,
        dtype: DType,
        validity: Validity,
    ) -> Result<VarBinViewArray, ArrayError>
        ensures made { IfOk result
            (λ a. a ≡ strings (strings_in (type_of dtype)) views buffers.value.items
            (valid_of validity)) }
        ensures sound { IfOk result (λ a. IsSound a) }
        ensures dtype { IfOk result (λ a. array_type_of a ≡ type_of dtype) }
        ensures short { OnOk result
            (HasLongValue views buffers.value.items (valid_of validity) → ⊥) }
        ensures refused { IfErr result
            (λ e. IsStringsFault e (type_of dtype) views buffers.value.items (valid_of validity)) }
    {
        VarBinViewArray::validate(&views, &buffers, &dtype, &validity)?;
        let array = VarBinViewArray::new_unchecked(alloc, views, buffers, dtype, validity)?;
        Ok(array)
    }

    /// An array of these parts, which the caller knows to fit together, as Vortex's
    /// `VarBinViewArray::new_unchecked`.
    #[tactic(auto, using(crate::proofs::Made::types))]
    pub fn new_unchecked(
        alloc: Global,
        views: Buffer<BinaryView>,
        buffers: Rc<Vec<Bytes>>,
        dtype: DType,
        validity: Validity,
    ) -> Result<VarBinViewArray, AllocError>
        requires dtype { IsStringType (type_of dtype) (valid_of validity) }
        requires sound { IsSound (strings (strings_in (type_of dtype)) views buffers.value.items
            (valid_of validity)) }
        ensures made { IfOk result
            (λ a. a ≡ strings (strings_in (type_of dtype)) views buffers.value.items
            (valid_of validity)) }
        ensures dtype { IfOk result (λ a. array_type_of a ≡ type_of dtype) }
    {
        let kind = string_kind(&dtype);
        let array = ArrayRef::of_strings(alloc, kind, views, buffers, validity)?;
        Ok(VarBinViewArray { array })
    }

    /// Tests that the parts fit together, as `try_new` does.
    #[tactic(auto, using(crate::proofs::Made::faults))]
    pub fn validate(
        views: &Buffer<BinaryView>,
        buffers: &[Bytes],
        dtype: &DType,
        validity: &Validity,
    ) -> Result<(), ArrayError>
        ensures dtype { IfOk result
            (λ _. IsStringType (type_of dtype.now) (valid_of validity.now)) }
        ensures sound { IfOk result
            (λ _. IsSound (strings (strings_in (type_of dtype.now)) views.now buffers.now
            (valid_of validity.now))) }
        ensures short { OnOk result
            (HasLongValue views.now buffers.now (valid_of validity.now) → ⊥) }
        ensures refused { IfErr result
            (λ e. IsStringsFault e (type_of dtype.now) views.now buffers.now
            (valid_of validity.now)) }
        ensures memory { IfErr result (λ e. e ≢ Memory) }
    {
        if !is_string_type(dtype, validity) {
            return Err(ArrayError::WrongType);
        }
        validity.check_len(views.len())?;
        check_lengths(views.as_slice(), buffers, validity)?;
        check_views(views.as_slice(), buffers, validity)?;
        check_values(string_kind(dtype), views.as_slice(), buffers, validity)?;
        Ok(())
    }

    /// The array as a `VarBinViewArray` where it has that layout, and else the array itself as
    /// `Err`.
    pub fn of_array(array: ArrayRef) -> Result<VarBinViewArray, ArrayRef>
        ensures { MatchResult result (λ a. (a ≡ array) × IsStrings array) (λ other. (other ≡ array)
            × (IsStrings array → ⊥)) }
    {
        if parts_of(&array).is_some() {
            Ok(VarBinViewArray { array })
        } else {
            Err(array)
        }
    }

    /// The array as one of any layout.
    pub fn into_array(self) -> ArrayRef
        ensures array { result ≡ self }
        ensures layout { IsStrings result }
    {
        self.array
    }

    /// The array as one of any layout.
    pub fn as_array(&self) -> &ArrayRef
        ensures array { result.now ≡ self.now }
        ensures layout { IsStrings result.now }
    {
        &self.array
    }

    pub fn len(&self) -> usize
        ensures { result ≡ len_of self.now }
    {
        self.array.len()
    }

    pub fn is_empty(&self) -> bool
        ensures { result ≡ (len_of self.now == 0) }
    {
        self.array.is_empty()
    }

    /// The type of the values.
    pub fn dtype(&self) -> &DType
        ensures { type_of result.now ≡ array_type_of self.now }
    {
        self.array.dtype()
    }

    /// Which rows are null.
    pub fn validity(&self) -> Result<Validity, AllocError>
        ensures { IfOk result (λ validity. valid_of validity ≡ valid_in self.now) }
    {
        self.parts().2.clone()
    }

    /// A view for each row, meaningless where the row is null.
    pub fn views(&self) -> &[BinaryView]
        ensures { result.now ≡ views_in self.now }
    {
        self.parts().0
    }

    /// The buffers that long values are in.
    pub fn data_buffers(&self) -> &[Bytes]
        ensures { result.now ≡ buffers_in self.now }
    {
        self.parts().1
    }

    /// The bytes of the buffer with this index in `data_buffers`.
    pub fn buffer(&self, index: usize) -> &Bytes
        requires { index < length (buffers_in self.now) }
        ensures { result.now ≡ slice_index_or (buffers_in self.now) index [] }
    {
        &self.data_buffers()[index]
    }

    /// The value of a row that is not null.
    pub fn bytes_at(&self, i: usize) -> &[u8]
        requires within { i < len_of self.now }
        requires valid { IsTrue (is_valid (valid_in self.now) i) }
        ensures { result.now ≡ value_of (slice_index_or (views_in self.now) i [])
            (buffers_in self.now) }
    {
        let (views, buffers, _) = self.parts();
        views[i].bytes(buffers)
    }

    // The views, the buffers and the validity, borrowed.
    fn parts(&self) -> (&[BinaryView], &[Bytes], &Validity)
        ensures views { result.0.now ≡ views_in self.now }
        ensures buffers { result.1.now ≡ buffers_in self.now }
        ensures valid { valid_of result.2.now ≡ valid_in self.now }
        ensures layout { IsStrings self.now }
        ensures sound { IsSound self.now }
    {
        let Some(parts) = parts_of(&self.array) else {
            unreachable!()
        };
        parts
    }
}

impl Clone for VarBinViewArray {
    ghost is_clone = { λ old new. new ≡ old };

    fn clone(&self) -> Result<VarBinViewArray, AllocError> {
        let array = self.array.clone()?;
        Ok(VarBinViewArray { array })
    }
}

// The kind of the values of a type: `Utf8`, and `Binary` for any other type.
#[tactic(auto, using(crate::proofs::Made::types))]
fn string_kind(dtype: &DType) -> StringKind
    ensures { strings_of result ≡ strings_in (type_of dtype.now) }
{
    if dtype.is_utf8() {
        StringKind::Utf8
    } else {
        StringKind::Binary
    }
}

// Whether the type is `Utf8` or `Binary`, with the nullability of the validity.
#[tactic(auto, using(crate::proofs::Made::types))]
fn is_string_type(dtype: &DType, validity: &Validity) -> bool
    ensures { IsTrue result ↔ IsStringType (type_of dtype.now) (valid_of validity.now) }
{
    let is_string = dtype.is_utf8() || dtype.is_binary();
    is_string && dtype.nullability() == validity.nullability()
}

// The views, the buffers and the validity of an array of strings or bytes.
fn parts_of(array: &ArrayRef) -> Option<(&[BinaryView], &[Bytes], &Validity)>
    ensures layout { MatchOption result (IsStrings array.now → ⊥) (λ _. IsStrings array.now) }
    ensures views { IfSome result (λ parts. parts.0.now ≡ views_in array.now) }
    ensures buffers { IfSome result (λ parts. parts.1.now ≡ buffers_in array.now) }
    ensures valid { IfSome result (λ parts. valid_of parts.2.now ≡ valid_in array.now) }
    ensures sound { IsSound array.now }
{
    match array.layout() {
        ArrayLayout::VarBinView(_, views, buffers, validity) => {
            Some((views.as_slice(), buffers.as_slice(), validity))
        }
        _ => None,
    }
}
