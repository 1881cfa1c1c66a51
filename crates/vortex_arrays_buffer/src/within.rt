//! Whether integers of a known type are indices.
ghost use Rattle.std.specs.Prelude.{◌≡◌, ◌↔◌, length, map, IsTrue, All};
ghost use Rattle.vortex_arrays_buffer.specs.Places.{IsPlace, ArePlacesWhere};

use crate::bit_buffer::BitBuffer;
use vortex_dtype_native::native::NativePType;

/// Whether each item is an index below `count`.
pub(crate) fn are_within<T: NativePType>(items: &[T], count: usize) -> bool
    ensures { IsTrue result ↔ All (IsPlace count) (map T.integer items.now) }
{
    for i in 0..items.len() {
        let number = items[i].get();
        if !is_within(number, count) {
            return false;
        }
    }
    true
}

/// Whether each item whose bit is true is an index below `count`.
pub(crate) fn are_within_where<T: NativePType>(items: &[T], bits: &BitBuffer, count: usize) -> bool
    requires { length bits.now ≡ length items.now }
    ensures { IsTrue result ↔ ArePlacesWhere bits.now count (map T.integer items.now) }
{
    for i in 0..items.len() {
        let number = items[i].get();
        if !is_within(number, count) && bits.value(i) {
            return false;
        }
    }
    true
}

/// Whether an integer is an index below `count`.
pub(crate) fn is_within(number: i128, count: usize) -> bool
    ensures { IsTrue result ↔ IsPlace count number }
{
    0 <= number && number < count as i128
}
