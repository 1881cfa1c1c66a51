//! The calls of strings and bytes by views besides those that make and read them.
ghost use Rattle.std.specs.Prelude.{◌≡◌, ◌<◌, [], cond, length, IfOk, IfErr, slice_index_or, IsTrue};
ghost use Rattle.vortex_model.specs.LogicalType.{utf8, binary, nullability_of};
ghost use Rattle.vortex_dtype_ptype.specs.View.{nullability_of_flag};
ghost use Rattle.vortex_dtype_core.specs.View.{type_of};
ghost use Rattle.vortex_arrays_model.specs.Layout.{Layout, strings, array_type_of, IsSound};
ghost use Rattle.vortex_arrays_model.specs.Parts.{valid_in};
ghost use Rattle.vortex_arrays_core.specs.LayoutOf.{valid_of};
ghost use Rattle.vortex_arrays_leaf.specs.Strings.{IsStringType, strings_in, views_in, buffers_in};

use bytes::Bytes;
use std::alloc::{AllocError, Global};
use std::rc::Rc;
use vortex_arrays_buffer::buffer::Buffer;
use vortex_arrays_core::array::{ArrayLayout, Validity};
use vortex_arrays_leaf::view_array::VarBinViewArray;
use vortex_arrays_view::view::BinaryView;
use vortex_dtype_core::dtype::DType;
use vortex_dtype_ptype::nullability::Nullability;

/// The parts of a `VarBinViewArray`, as Vortex's `VarBinViewDataParts`.
#[derive(Clone, Drop)]
pub struct VarBinViewDataParts {
    /// A view for each row, meaningless where the row is null.
    pub views: Buffer<BinaryView>,
    /// The buffers that long values are in.
    pub buffers: Rc<Vec<Bytes>>,
    /// The type of the values.
    pub dtype: DType,
    /// Which rows are null.
    pub validity: Validity,
}

/// The calls of Vortex's `VarBinViewArrayExt` that `VarBinViewArray` does not have.
pub trait VarBinViewArrayExt: Sized {
    // The layout of the array.
    ghost layout: { Self → Layout };

    /// An array of parts that fit together, as Vortex's `VarBinViewArray::new`, which panics where
    /// they do not. `validate` tests that.
    fn new(
        alloc: Global,
        views: Buffer<BinaryView>,
        buffers: Rc<Vec<Bytes>>,
        dtype: DType,
        validity: Validity,
    ) -> Result<Self, AllocError>
        requires dtype { IsStringType (type_of dtype) (valid_of validity) }
        requires sound { IsSound (strings (strings_in (type_of dtype)) views buffers.value.items
            (valid_of validity)) }
        ensures { IfOk result
            (λ a. layout a ≡ strings (strings_in (type_of dtype)) views buffers.value.items
            (valid_of validity)) };

    /// Whether the values are strings, not bytes, and whether one can be null.
    fn dtype_parts(&self) -> (bool, Nullability)
        ensures { array_type_of (layout self.now) ≡ cond result.0
            (utf8 (nullability_of_flag result.1)) (binary (nullability_of_flag result.1)) };

    /// Whether a row can be null.
    fn nullability(&self) -> Nullability
        ensures { nullability_of_flag result ≡ nullability_of (array_type_of (layout self.now)) };

    /// Which rows are null.
    fn varbinview_validity(&self) -> Result<Validity, AllocError>
        ensures { IfOk result (λ v. valid_of v ≡ valid_in (layout self.now)) };

    /// The views, the buffers, the type and the validity.
    fn into_data_parts(self) -> Result<VarBinViewDataParts, AllocError>
        ensures parts { IfOk result (λ parts. layout self
            ≡ strings (strings_in (type_of parts.dtype)) parts.views parts.buffers.value.items
            (valid_of parts.validity)) }
        ensures dtype { IfOk result (λ parts. type_of parts.dtype
            ≡ array_type_of (layout self)) };
}

impl VarBinViewArrayExt for VarBinViewArray {
    ghost layout = { λ a. a };

    fn new(
        alloc: Global,
        views: Buffer<BinaryView>,
        buffers: Rc<Vec<Bytes>>,
        dtype: DType,
        validity: Validity,
    ) -> Result<VarBinViewArray, AllocError> {
        VarBinViewArray::new_unchecked(alloc, views, buffers, dtype, validity)
    }

    #[tactic(auto, using(crate::proofs::TypeLemmas::of_strings))]
    fn dtype_parts(&self) -> (bool, Nullability) {
        let _ = self.as_array();
        (self.dtype().is_utf8(), self.dtype().nullability())
    }

    fn nullability(&self) -> Nullability {
        self.dtype().nullability()
    }

    fn varbinview_validity(&self) -> Result<Validity, AllocError> {
        self.validity()
    }

    #[tactic(auto, using(crate::proofs::TypeLemmas::parts_of_strings))]
    fn into_data_parts(self) -> Result<VarBinViewDataParts, AllocError> {
        let dtype = self.dtype().clone()?;
        let ArrayLayout::VarBinView(_, views, buffers, validity) = self.as_array().layout() else {
            unreachable!()
        };
        let views = views.clone()?;
        let buffers = buffers.clone()?;
        let validity = validity.clone()?;
        Ok(VarBinViewDataParts {
            views,
            buffers,
            dtype,
            validity,
        })
    }
}
