//! The calls of fixed-size lists besides those that make and read them.
ghost use Rattle.std.specs.Prelude.{◌≡◌};
ghost use Rattle.vortex_model.specs.LogicalType.{fixed_list};
ghost use Rattle.vortex_dtype_ptype.specs.View.{nullability_of_flag};
ghost use Rattle.vortex_dtype_core.specs.View.{type_of};
ghost use Rattle.vortex_arrays_model.specs.Layout.{Layout, array_type_of};

use vortex_arrays_nested::fixed_size_list::FixedSizeListArray;
use vortex_dtype_core::dtype::DType;
use vortex_dtype_ptype::nullability::Nullability;

/// The call of Vortex's `FixedSizeListArrayExt` that `FixedSizeListArray` does not have.
pub trait FixedSizeListArrayExt {
    // The layout of the array.
    ghost layout: { Self → Layout };

    /// The type of the elements, the size of a list, and whether a list can be null.
    fn dtype_parts(&self) -> (&DType, u32, Nullability)
        ensures { array_type_of (layout self.now)
            ≡ fixed_list (type_of result.0.now) result.1 (nullability_of_flag result.2) };
}

impl FixedSizeListArrayExt for FixedSizeListArray {
    ghost layout = { λ a. a };

    #[tactic(auto, using(crate::proofs::TypeLemmas::of_fixed_lists))]
    fn dtype_parts(&self) -> (&DType, u32, Nullability) {
        let slots = self.slots();
        (
            slots.elements.dtype(),
            slots.list_size,
            slots.validity.nullability(),
        )
    }
}
