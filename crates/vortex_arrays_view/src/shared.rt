//! Values of views as shared bytes.
ghost use Rattle.std.specs.Prelude.{◌≡◌, IfOk};
ghost use Rattle.vortex_arrays_view.specs.Views.{value_of, HasValue};

use crate::view::BinaryView;
use bytes::Bytes;
use std::alloc::{AllocError, Global};

/// The value of a view. A long one shares its buffer and is not copied.
pub fn shared_bytes(
    alloc: Global,
    view: &BinaryView,
    buffers: &[Bytes],
) -> Result<Bytes, AllocError>
    requires { HasValue view.now buffers.now }
    ensures { IfOk result (λ bytes. bytes ≡ value_of view.now buffers.now) }
{
    if view.is_inlined() {
        Bytes::copy_from_slice(alloc, view.bytes(buffers))
    } else {
        let reference = view.as_view();
        let buffer = &buffers[reference.buffer_index as usize];
        buffer.slice(reference.as_range())
    }
}
