//! The child arrays of arrays, borrowed.
ghost use Rattle.std.specs.Prelude.{◌≡◌, IfOk, MatchOption};
ghost use Rattle.vortex_arrays_model.specs.Layout.{Layout};
ghost use Rattle.vortex_arrays_model.specs.Parts.{valid_in};
ghost use Rattle.vortex_arrays_core.specs.LayoutOf.{valid_of};
ghost use Rattle.vortex_arrays_nested.specs.Shapes.{codes_in, values_in};
ghost use Rattle.vortex_arrays_struct.specs.Records.{columns_in, arrays_in, validity_in};
ghost use Rattle.vortex_arrays_parts.specs.Nulls.{HasValidity};

use std::alloc::AllocError;
use vortex_arrays_core::array::{ArrayLayout, ArrayRef, Validity};
use vortex_arrays_leaf::bool_array::BoolArray;
use vortex_arrays_leaf::constant_array::ConstantArray;
use vortex_arrays_leaf::primitive_array::PrimitiveArray;
use vortex_arrays_leaf::view_array::VarBinViewArray;
use vortex_arrays_nested::dict_array::DictArray;
use vortex_arrays_struct::struct_array::StructArray;

/// The child of a `BoolArray`, as Vortex's `BoolSlots`.
#[derive(Clone, Copy, Drop)]
pub struct BoolSlots<'a> {
    /// Which rows are null.
    pub validity: &'a Validity,
}

/// The child of a `PrimitiveArray`, as Vortex's `PrimitiveSlots`.
#[derive(Clone, Copy, Drop)]
pub struct PrimitiveSlots<'a> {
    /// Which rows are null.
    pub validity: &'a Validity,
}

/// The child of a `VarBinViewArray`, as Vortex's `VarBinViewSlots`.
#[derive(Clone, Copy, Drop)]
pub struct VarBinViewSlots<'a> {
    /// Which rows are null.
    pub validity: &'a Validity,
}

/// The children of a `ConstantArray`: none.
#[derive(Clone, Copy, Drop)]
pub struct ConstantSlots {}

/// The children of a `DictArray`, as Vortex's `DictSlots`.
#[derive(Clone, Copy, Drop)]
pub struct DictSlots<'a> {
    /// For each row the index of its value.
    pub codes: &'a ArrayRef,
    pub values: &'a ArrayRef,
}

/// The children of a `StructArray`, as Vortex's `StructSlots`.
#[derive(Clone, Drop)]
pub struct StructSlots<'a> {
    /// Which rows are null, shared.
    pub validity: Validity,
    /// An array for each field, without the struct's nulls.
    pub fields: &'a [ArrayRef],
}

/// The call that borrows the child of a `BoolArray`.
pub trait BoolArraySlotsExt {
    // The layout of the array.
    ghost layout: { Self → Layout };

    /// The validity.
    fn slots(&self) -> BoolSlots<'_>
        ensures { valid_of result.validity.now ≡ valid_in (layout self.now) };
}

impl BoolArraySlotsExt for BoolArray {
    ghost layout = { λ a. a };

    #[tactic(auto, using(crate::proofs::SlotLemmas::own))]
    fn slots(&self) -> BoolSlots<'_> {
        let Some(validity) = own_validity(self.as_array()) else {
            unreachable!()
        };
        BoolSlots { validity }
    }
}

/// The call that borrows the child of a `PrimitiveArray`.
pub trait PrimitiveArraySlotsExt {
    // The layout of the array.
    ghost layout: { Self → Layout };

    /// The validity.
    fn slots(&self) -> PrimitiveSlots<'_>
        ensures { valid_of result.validity.now ≡ valid_in (layout self.now) };
}

impl PrimitiveArraySlotsExt for PrimitiveArray {
    ghost layout = { λ a. a };

    #[tactic(auto, using(crate::proofs::SlotLemmas::own))]
    fn slots(&self) -> PrimitiveSlots<'_> {
        let Some(validity) = own_validity(self.as_array()) else {
            unreachable!()
        };
        PrimitiveSlots { validity }
    }
}

/// The call that borrows the child of a `VarBinViewArray`.
pub trait VarBinViewArraySlotsExt {
    // The layout of the array.
    ghost layout: { Self → Layout };

    /// The validity.
    fn slots(&self) -> VarBinViewSlots<'_>
        ensures { valid_of result.validity.now ≡ valid_in (layout self.now) };
}

impl VarBinViewArraySlotsExt for VarBinViewArray {
    ghost layout = { λ a. a };

    #[tactic(auto, using(crate::proofs::SlotLemmas::own))]
    fn slots(&self) -> VarBinViewSlots<'_> {
        let Some(validity) = own_validity(self.as_array()) else {
            unreachable!()
        };
        VarBinViewSlots { validity }
    }
}

/// The call that borrows the children of a `ConstantArray`.
pub trait ConstantArraySlotsExt {
    /// The children, which are none.
    fn slots(&self) -> ConstantSlots;
}

impl ConstantArraySlotsExt for ConstantArray {
    fn slots(&self) -> ConstantSlots {
        ConstantSlots {}
    }
}

/// The call that borrows the children of a `DictArray`.
pub trait DictArraySlotsExt {
    // The layout of the array.
    ghost layout: { Self → Layout };

    /// The codes and the values.
    fn slots(&self) -> DictSlots<'_>
        ensures codes { result.codes.now ≡ codes_in (layout self.now) }
        ensures values { result.values.now ≡ values_in (layout self.now) };
}

impl DictArraySlotsExt for DictArray {
    ghost layout = { λ a. a };

    fn slots(&self) -> DictSlots<'_> {
        DictSlots {
            codes: self.codes(),
            values: self.values(),
        }
    }
}

/// The call that borrows the children of a `StructArray`.
pub trait StructArraySlotsExt {
    // The layout of the array.
    ghost layout: { Self → Layout };

    /// The validity and the arrays of the fields.
    fn slots(&self) -> Result<StructSlots<'_>, AllocError>
        ensures validity { IfOk result
            (λ slots. valid_of slots.validity ≡ validity_in (layout self.now)) }
        ensures fields { IfOk result
            (λ slots. slots.fields.now ≡ arrays_in (columns_in (layout self.now))) };
}

impl StructArraySlotsExt for StructArray {
    ghost layout = { λ a. a };

    fn slots(&self) -> Result<StructSlots<'_>, AllocError> {
        let validity = self.struct_validity()?;
        Ok(StructSlots {
            validity,
            fields: self.unmasked_fields(),
        })
    }
}

/// The validity of a layout that has one, which a constant and a dictionary do not.
pub(crate) fn own_validity(array: &ArrayRef) -> Option<&Validity>
    ensures { MatchOption result
        (HasValidity array.now → ⊥)
        (λ validity. HasValidity array.now × (valid_of validity.now ≡ valid_in array.now)) }
{
    match array.layout() {
        ArrayLayout::Bool(_, validity) => Some(validity),
        ArrayLayout::Primitive(_, validity) => Some(validity),
        ArrayLayout::VarBinView(_, _, _, validity) => Some(validity),
        ArrayLayout::FixedSizeList(_, _, _, validity) => Some(validity),
        ArrayLayout::ListView(_, _, _, _, validity) => Some(validity),
        ArrayLayout::Struct(_, _, _, validity) => Some(validity),
        ArrayLayout::Constant(_, _) => None,
        ArrayLayout::Dict(_, _, _) => None,
    }
}
