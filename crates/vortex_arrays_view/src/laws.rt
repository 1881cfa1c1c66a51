//! Laws of views, each as the clause of a function.
ghost use Rattle.std.specs.Prelude.{◌≡◌};
ghost use Rattle.vortex_arrays_view.specs.Laws.{InlinedEquality, InlinedOrder, PrefixOrder, ShortViewsAreZeroPadded, ViewsHaveTheirParts, ViewsReadBack};

use crate::build::MAX_BUFFER_LEN;
use crate::view::MAX_INLINED_SIZE;

/// `MAX_BUFFER_LEN` and `MAX_INLINED_SIZE`, which no clause can name.
pub fn limits() -> (usize, usize)
    ensures buffer { result.0 ≡ 2147483647 }
    ensures inlined { result.1 ≡ 12 }
{
    (MAX_BUFFER_LEN, MAX_INLINED_SIZE)
}

/// Zero-padded views compare by prefix, tail and size as their values do byte by byte.
pub fn inlined_views_are_in_order()
    ensures { InlinedOrder }
{}

/// Zero-padded views are equal exactly where their values are.
pub fn inlined_views_are_equal_as_values()
    ensures { InlinedEquality }
{}

/// Of two values whose order prefixes differ, the one with the lower prefix is lower.
pub fn lower_prefixes_are_of_lower_values()
    ensures { PrefixOrder }
{}

/// The view of a short value is zero-padded, and has the value inline.
pub fn short_views_are_zero_padded()
    ensures { ShortViewsAreZeroPadded }
{}

/// A view reads back as the value that it was made of, if the buffers have that at its offset.
pub fn views_read_back()
    ensures { ViewsReadBack }
{}

/// The view of a value has the prefix, head, order prefix and order tail of the value.
pub fn views_have_their_parts()
    ensures { ViewsHaveTheirParts }
{}
