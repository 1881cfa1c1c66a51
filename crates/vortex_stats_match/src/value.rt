//! The bytes of a view.
ghost use Rattle.std.specs.Prelude.{◌≡◌, take, drop};
ghost use Rattle.vortex_arrays_view.specs.Views.{value_of};
ghost use Rattle.vortex_stats_match.specs.Buffers.{buffers_in};

use crate::buffers::Buffers;
use vortex_arrays_view::view::BinaryView;

// At most `size` bytes of a slice, from index `start` on; none where that is past its end.
fn at_most(bytes: &[u8], start: usize, size: usize) -> &[u8]
    ensures { result.now ≡ take size (drop start bytes.now) }
{
    let rest = if start < bytes.len() {
        &bytes[start..]
    } else {
        &bytes[..0]
    };
    if size < rest.len() {
        &rest[..size]
    } else {
        rest
    }
}

/// The value of a view. Of a view that lies outside its buffers, as null rows may have it, what of
/// the value lies within.
pub fn value_in<'a>(view: &'a BinaryView, buffers: &Buffers<'a>) -> &'a [u8]
    ensures { result.now ≡ value_of view.now (buffers_in buffers.now) }
{
    if view.is_inlined() {
        return view.bytes(&[]);
    }
    let place = view.as_view();
    let bytes = buffers.get(place.buffer_index as usize);
    let range = place.as_range();
    if range.end <= bytes.len() {
        &bytes[range]
    } else {
        at_most(bytes, range.start, place.size as usize)
    }
}
