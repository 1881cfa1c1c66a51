//! Values by views, with the long ones end to end in one buffer.
ghost use Rattle.std.specs.Prelude.{◌≡◌, ◌∷◌, [], map, unwrap_or, IfOk};
ghost use Rattle.vortex_dtype_ptype.specs.View.{nullability_of_flag};
ghost use Rattle.vortex_arrays_view.specs.Made.{short_view};
ghost use Rattle.vortex_arrays_model.specs.Layout.{type_of_strings};
ghost use Rattle.vortex_arrays_core.specs.LayoutOf.{strings_of};
ghost use Rattle.vortex_arrays_core.specs.RawRows.{raw_string};
ghost use Rattle.vortex_table_columns.specs.Cells.{cell_raw, IsColumn};
ghost use Rattle.vortex_table_columns.specs.Views.{values_of, AreValues};

use crate::DoesNotFit;
use crate::cells::{nulls_of, values_or};
use bytes::Bytes;
use std::alloc::{AllocError, Global};
use std::rc::Rc;
use vortex_arrays_buffer::buffer::Buffer;
use vortex_arrays_core::array::{ArrayRef, StringKind};
use vortex_arrays_view::view::BinaryView;
use vortex_dtype_ptype::nullability::Nullability;

// The views, with the one of no bytes in place of null.
fn all_views(alloc: Global, views: &[Option<BinaryView>]) -> Result<Buffer<BinaryView>, AllocError>
    ensures { IfOk result (λ all. all ≡ map (λ view. unwrap_or view (short_view [])) views.now) }
{
    let views = values_or(alloc, views, BinaryView::empty_view())?;
    let views = Buffer::from_vec(views)?;
    Ok(views)
}

// The bytes as the only buffer.
fn one_buffer(alloc: Global, bytes: Vec<u8>) -> Result<Rc<Vec<Bytes>>, AllocError>
    ensures { IfOk result (λ buffers. buffers.value.items ≡ bytes.items ∷ []) }
{
    let mut buffers = Vec::with_capacity(alloc, 1)?;
    buffers.push(Bytes::from_vec(bytes)?)?;
    let buffers = Rc::new(alloc, buffers)?;
    Ok(buffers)
}

/// The values of the views as an array.
pub(crate) fn finish_values(
    alloc: Global,
    kind: StringKind,
    nullability: Nullability,
    bytes: Vec<u8>,
    views: &[Option<BinaryView>],
) -> Result<ArrayRef, DoesNotFit>
    requires { AreValues (strings_of kind) bytes.items views.now }
    ensures { IfOk result (λ array. IsColumn
        (type_of_strings (strings_of kind) (nullability_of_flag nullability))
        (map (cell_raw (raw_string (strings_of kind))) (values_of bytes.items views.now)) array) }
{
    let validity = nulls_of(alloc, nullability, views)?;
    let all = all_views(alloc, views)?;
    let buffers = one_buffer(alloc, bytes)?;
    let array = ArrayRef::of_strings(alloc, kind, all, buffers, validity)?;
    Ok(array)
}
