//! Views of scalars by `TryFrom`: `ScalarError::Invalid` exactly where the type is of another kind.
ghost use Rattle.vortex_dtype_core.specs.Parts.{is_struct_type, is_map_type, is_extension_type};
ghost use Rattle.vortex_scalar_views.specs.Forms.{ViewsTyped};
ghost use Rattle.vortex_scalar_views.specs.Views.{typed_scalar};
ghost use Rattle.vortex_scalar_nested.specs.Nested.{typed_list, typed_struct, typed_map, typed_extension};
ghost use Rattle.vortex_scalar_nested.specs.Places.{is_listing};

use crate::ext_scalar::ExtScalar;
use crate::list_scalar::ListScalar;
use crate::map_scalar::MapScalar;
use crate::nested_views::NestedScalarViews;
use crate::struct_scalar::StructScalar;
use vortex_scalar_core::scalar::Scalar;
use vortex_scalar_value::error::ScalarError;

/// A list of any length or of a fixed one.
impl<'a> TryFrom<&'a Scalar> for ListScalar<'a> {
    type Error = ScalarError;

    ghost try_from_gives = { λ scalar result. ViewsTyped typed_list is_listing
        (typed_scalar scalar.now) result };

    fn try_from(scalar: &'a Scalar) -> Result<ListScalar<'a>, ScalarError> {
        match scalar.as_list_opt() {
            Some(view) => Ok(view),
            None => Err(ScalarError::Invalid),
        }
    }
}

impl<'a> TryFrom<&'a Scalar> for StructScalar<'a> {
    type Error = ScalarError;

    ghost try_from_gives = { λ scalar result. ViewsTyped typed_struct is_struct_type
        (typed_scalar scalar.now) result };

    fn try_from(scalar: &'a Scalar) -> Result<StructScalar<'a>, ScalarError> {
        match scalar.as_struct_opt() {
            Some(view) => Ok(view),
            None => Err(ScalarError::Invalid),
        }
    }
}

impl<'a> TryFrom<&'a Scalar> for MapScalar<'a> {
    type Error = ScalarError;

    ghost try_from_gives = { λ scalar result. ViewsTyped typed_map is_map_type
        (typed_scalar scalar.now) result };

    fn try_from(scalar: &'a Scalar) -> Result<MapScalar<'a>, ScalarError> {
        match scalar.as_map_opt() {
            Some(view) => Ok(view),
            None => Err(ScalarError::Invalid),
        }
    }
}

impl<'a> TryFrom<&'a Scalar> for ExtScalar<'a> {
    type Error = ScalarError;

    ghost try_from_gives = { λ scalar result. ViewsTyped typed_extension is_extension_type
        (typed_scalar scalar.now) result };

    fn try_from(scalar: &'a Scalar) -> Result<ExtScalar<'a>, ScalarError> {
        match scalar.as_extension_opt() {
            Some(view) => Ok(view),
            None => Err(ScalarError::Invalid),
        }
    }
}
