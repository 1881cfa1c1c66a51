//! The order of values of views and strings, by their first bytes where those decide.
ghost use Rattle.std.specs.Prelude.{◌≡◌};
ghost use Rattle.vortex_arrays_view.specs.Laws.{AreBytes};
ghost use Rattle.vortex_arrays_view.specs.Made.{order_prefix_of};
ghost use Rattle.vortex_stats_match.specs.Buffers.{buffers_in};
ghost use Rattle.vortex_stats_match.specs.Heads.{head_cmp, cmp_by_head};

use crate::buffers::Buffers;
use crate::value::value_in;
use std::cmp::Ordering;
use vortex_arrays_view::order::order_bytes;
use vortex_arrays_view::view::BinaryView;

// Shows the prover that bytes are below 256.
fn are_bytes(bytes: &[u8])
    ensures { AreBytes bytes.now }
{}

// The order of a view's value and a string by their first bytes: `Equal` where the value is shorter
// than four bytes, since the bytes after it may be any.
#[inline(always)]
fn head_order(view: &BinaryView, text: &[u8], order_prefix: u32) -> Ordering
    requires { order_prefix ≡ order_prefix_of text.now }
    ensures { result ≡ head_cmp view.now text.now }
{
    if view.len() < 4 {
        return Ordering::Equal;
    }
    let prefix = view.prefix();
    are_bytes(&prefix);
    are_bytes(text);
    u32::from_be_bytes(prefix).cmp(&order_prefix)
}

/// The order of the value of a view and a string, whose order prefix is computed once for all
/// views. The value's buffer is looked at only where the first four bytes don't decide. Of a view
/// that hasn't the first bytes of its value, as null rows may have it, the answer means nothing.
pub fn order_by_head(
    view: &BinaryView,
    buffers: &Buffers<'_>,
    text: &[u8],
    order_prefix: u32,
) -> Ordering
    requires { order_prefix ≡ order_prefix_of text.now }
    ensures { result ≡ cmp_by_head view.now (buffers_in buffers.now) text.now }
{
    match head_order(view, text, order_prefix) {
        Ordering::Less => Ordering::Less,
        Ordering::Equal => order_bytes(value_in(view, buffers), text),
        Ordering::Greater => Ordering::Greater,
    }
}
