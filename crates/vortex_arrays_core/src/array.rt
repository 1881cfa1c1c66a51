//! Arrays of any layout.
ghost use Rattle.std.specs.Prelude.{◌≡◌, ◌==◌, IfOk};
ghost use Rattle.vortex_dtype_core.specs.View.{type_of};
ghost use Rattle.vortex_arrays_model.specs.Layout.{len_of, array_type_of, IsSound};
ghost use Rattle.vortex_arrays_core.specs.LayoutOf.{layout_of, NamesItsFields};

use bytes::Bytes;
use std::alloc::{AllocError, Global};
use std::marker::Model;
use std::rc::Rc;
use vortex_arrays_buffer::{BitBuffer, Buffer, PrimitiveBuffer};
use vortex_arrays_view::view::BinaryView;
use vortex_dtype_core::dtype::DType;
use vortex_dtype_ptype::field_names::FieldNames;
use vortex_scalar_core::scalar::Scalar;

/// A column of values of one type, in one of eight layouts, as Vortex's `ArrayRef`. A clone shares
/// the column.
///
/// Clauses see the layout, whose parts always fit together.
#[cycle(array)]
#[derive(Drop)]
pub struct ArrayRef {
    pub(crate) data: Rc<ArrayData>,
}

/// A type, and the layout of its values.
#[cycle(array)]
#[derive(Drop)]
pub struct ArrayData {
    pub(crate) dtype: DType,
    pub(crate) layout: ArrayLayout,
}

/// How an array stores its rows.
#[cycle(array)]
pub enum ArrayLayout {
    /// Booleans.
    Bool(BitBuffer, Validity),
    /// Integers of one type.
    Primitive(PrimitiveBuffer, Validity),
    /// Strings or bytes: a view for each value, and the buffers that long values are in.
    VarBinView(StringKind, Buffer<BinaryView>, Rc<Vec<Bytes>>, Validity),
    /// One value, repeated.
    Constant(Scalar, usize),
    /// Codes, the values that they are indices of, and whether each value is known to be
    /// referenced.
    Dict(ArrayRef, ArrayRef, bool),
    /// Fixed-size lists: the elements of all lists, the size, and the number of lists.
    FixedSizeList(ArrayRef, u32, usize, Validity),
    /// Lists of any size: elements, offsets, sizes, and whether each list is known to begin where
    /// the one before ends.
    ListView(ArrayRef, ArrayRef, ArrayRef, bool, Validity),
    /// Structs: the fields' names, an array for each field, and the number of rows.
    Struct(Rc<FieldNames>, Vec<ArrayRef>, usize, Validity),
}

impl Clone for ArrayLayout {
    ghost is_clone = { λ old new. layout_of new ≡ layout_of old };

    // Shares arrays and buffers.
    fn clone(&self) -> Result<ArrayLayout, AllocError> {
        match self {
            ArrayLayout::Bool(bits, validity) => {
                Ok(ArrayLayout::Bool(bits.clone()?, validity.clone()?))
            }
            ArrayLayout::Primitive(items, validity) => {
                Ok(ArrayLayout::Primitive(items.clone()?, validity.clone()?))
            }
            ArrayLayout::VarBinView(kind, views, buffers, validity) => {
                let (views, buffers) = (views.clone()?, buffers.clone()?);
                Ok(ArrayLayout::VarBinView(*kind, views, buffers, validity.clone()?))
            }
            ArrayLayout::Constant(scalar, len) => Ok(ArrayLayout::Constant(scalar.clone()?, *len)),
            ArrayLayout::Dict(codes, values, flag) => {
                Ok(ArrayLayout::Dict(codes.clone()?, values.clone()?, *flag))
            }
            ArrayLayout::FixedSizeList(elements, size, len, validity) => {
                let elements = elements.clone()?;
                Ok(ArrayLayout::FixedSizeList(elements, *size, *len, validity.clone()?))
            }
            ArrayLayout::ListView(elements, offsets, sizes, flag, validity) => {
                let (elements, offsets) = (elements.clone()?, offsets.clone()?);
                let (sizes, validity) = (sizes.clone()?, validity.clone()?);
                Ok(ArrayLayout::ListView(elements, offsets, sizes, *flag, validity))
            }
            ArrayLayout::Struct(names, fields, len, validity) => {
                let (names, fields) = (names.clone()?, fields.clone()?);
                Ok(ArrayLayout::Struct(names, fields, *len, validity.clone()?))
            }
        }
    }
}

impl Drop for ArrayLayout {
    #[cycle(drop_array)]
    fn drop(self) {
        match self {
            ArrayLayout::Bool(_bits, _validity) => {}
            ArrayLayout::Primitive(_items, _validity) => {}
            ArrayLayout::VarBinView(_, _views, _buffers, _validity) => {}
            ArrayLayout::Constant(_scalar, _) => {}
            ArrayLayout::Dict(_codes, _values, _) => {}
            ArrayLayout::FixedSizeList(_elements, _, _, _validity) => {}
            ArrayLayout::ListView(_elements, _offsets, _sizes, _, _validity) => {}
            ArrayLayout::Struct(_names, _fields, _, _validity) => {}
        }
    }
}

/// Which rows of an array are null, as Vortex's `Validity`. A clone shares the array.
#[cycle(array)]
pub enum Validity {
    /// No row can be null.
    NonNullable,
    /// No row is null.
    AllValid,
    /// Each row is null.
    AllInvalid,
    /// The rows at which the array is false.
    Array(ArrayRef),
}

impl Drop for Validity {
    #[cycle(drop_array)]
    fn drop(self) {
        match self {
            Validity::NonNullable => {}
            Validity::AllValid => {}
            Validity::AllInvalid => {}
            Validity::Array(_valid) => {}
        }
    }
}

/// What views of sixteen bytes represent.
#[derive(Clone, Copy, Debug, PartialEq, Eq)]
pub enum StringKind {
    /// UTF-8 strings.
    Utf8,
    /// Bytes.
    Binary,
}

impl Model for ArrayRef {
    ghost use Rattle.std.specs.Prelude.{◌≡◌};
    ghost use Rattle.vortex_arrays_model.specs.Layout.{Layout, size_of, array_type_of, IsSound};
    ghost use Rattle.vortex_arrays_model.specs.LayoutCode.{layout_code};

    ghost Value = { Layout };

    ghost coded = { layout_code };

    ghost use Rattle.vortex_dtype_core.specs.View.{type_of};
    ghost use Rattle.vortex_arrays_core.specs.LayoutOf.{layout_of, NamesItsFields};

    ghost view = { λ a. layout_of a.data.value.layout };

    ghost invariant = { λ a. IsSound (layout_of a.data.value.layout)
        × (type_of a.data.value.dtype ≡ array_type_of (layout_of a.data.value.layout))
        × NamesItsFields a.data.value.layout };

    ghost size = { size_of };

    ghost use Rattle.std.proofs.Common.{arith};
    ghost use Rattle.vortex_arrays_core.specs.LayoutFalls.{depth_le-size};

    ghost size_decreases = { λ a h. omega (arith, depth_le-size a.data.value.layout) };
}

impl ArrayRef {
    /// An array of this type and this layout, which the caller knows to fit together.
    pub fn new_unchecked(
        alloc: Global,
        dtype: DType,
        layout: ArrayLayout,
    ) -> Result<ArrayRef, AllocError>
        requires sound { IsSound (layout_of layout) }
        requires dtype { type_of dtype ≡ array_type_of (layout_of layout) }
        requires named { NamesItsFields layout }
        ensures { IfOk result (λ array. array ≡ layout_of layout) }
    {
        let data = Rc::new(alloc, ArrayData { dtype, layout })?;
        Ok(ArrayRef { data })
    }

    /// The number of rows. The parts fit together.
    pub fn len(&self) -> usize
        ensures count { result ≡ len_of self.now }
        ensures sound { IsSound self.now }
    {
        match &self.data.layout {
            ArrayLayout::Bool(bits, _) => bits.len(),
            ArrayLayout::Primitive(numbers, _) => numbers.len(),
            ArrayLayout::VarBinView(_, views, _, _) => views.len(),
            ArrayLayout::Constant(_, len) => *len,
            ArrayLayout::Dict(codes, _, _) => codes.len(),
            ArrayLayout::FixedSizeList(_, _, len, _) => *len,
            ArrayLayout::ListView(_, offsets, _, _, _) => offsets.len(),
            ArrayLayout::Struct(_, _, len, _) => *len,
        }
    }

    pub fn is_empty(&self) -> bool
        ensures { result ≡ (len_of self.now == 0) }
    {
        self.len() == 0
    }

    /// The type of the values.
    pub fn dtype(&self) -> &DType
        ensures { type_of result.now ≡ array_type_of self.now }
    {
        &self.data.dtype
    }

    /// How the array stores its rows.
    pub fn layout(&self) -> &ArrayLayout
        ensures layout { layout_of result.now ≡ self.now }
        ensures sound { IsSound (layout_of result.now) }
        ensures named { NamesItsFields result.now }
    {
        &self.data.layout
    }

    // Proves to a caller that the parts fit together.
    pub(crate) fn is_sound(&self)
        ensures { IsSound self.now }
    {
        let _ = &self.data;
    }
}

impl Clone for ArrayRef {
    ghost is_clone = { λ old new. new ≡ old };

    fn clone(&self) -> Result<ArrayRef, AllocError> {
        let data = self.data.clone()?;
        Ok(ArrayRef { data })
    }
}
