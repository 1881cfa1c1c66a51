//! Whether codes are indices of values.
ghost use Rattle.std.specs.Prelude.{◌↔◌, IsTrue};
ghost use Rattle.vortex_arrays_model.specs.Layout.{array_type_of, IsInteger, IsSound};
ghost use Rattle.vortex_arrays_model.specs.Parts.{AreWithin};

use vortex_arrays_core::array::ArrayRef;

/// Whether each code that is not null is an index below `count`.
pub(crate) fn are_codes(codes: &ArrayRef, count: usize) -> bool
    requires { IsInteger (array_type_of codes.now) }
    ensures within { IsTrue result ↔ AreWithin codes.now count }
    ensures sound { IsSound codes.now }
{
    // Proves that the parts fit together.
    let _len = codes.len();
    codes.are_within(count)
}
