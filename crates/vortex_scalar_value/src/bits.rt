//! Integers of any type as little-endian bytes.
ghost use Rattle.std.specs.Prelude.{◌≡◌, ◌≤◌, take, drop};
ghost use Rattle.vortex_dtype_ptype.specs.Numbers.{integral, HasByteWidth};
ghost use Rattle.vortex_dtype_ptype.specs.View.{number_kind_of};
ghost use Rattle.vortex_dtype_native.specs.NativeBytes.{number_of_bytes, AreBytesOf};
ghost use Rattle.vortex_scalar_value.specs.Numbers.{kind_of_number, integer_of, IsAsWide, HaveSameBytes};

use crate::match_each_pvalue;
use crate::pvalue::PValue;
use vortex_dtype_native::by_kind::number_from_le_bytes;
use vortex_dtype_native::native::NativePType;
use vortex_dtype_ptype::ptype::PType;

// The bytes, least significant first, and their number. The rest of the eight are zero.
#[tactic(auto, using(crate::proofs::Widths::at_most_eight))]
fn bytes_of<T: NativePType>(number: T) -> ([u8; 8], usize)
    ensures width { HasByteWidth (integral T.kind) result.1 }
    ensures within { result.1 ≤ 8 }
    ensures bytes { AreBytesOf T.kind (T.integer number) (take result.1 result.0) }
    ensures rest { number_of_bytes (drop result.1 result.0) ≡ 0 }
{
    number.to_le_bytes()
}

impl PValue {
    /// The bytes, least significant first, and their number. The rest of the eight are zero.
    pub fn to_le_bytes(self) -> ([u8; 8], usize)
        ensures width { HasByteWidth (integral (kind_of_number self)) result.1 }
        ensures within { result.1 ≤ 8 }
        ensures bytes { AreBytesOf (kind_of_number self) (integer_of self)
            (take result.1 result.0) }
        ensures rest { number_of_bytes (drop result.1 result.0) ≡ 0 }
    {
        match_each_pvalue!(self, bytes_of())
    }

    /// The integer of `ptype` with the same bytes. `ptype` has the same width, and negative
    /// integers are in two's complement.
    pub fn reinterpret_cast(self, ptype: PType) -> PValue
        requires { IsAsWide (kind_of_number self) (number_kind_of ptype) }
        ensures kind { integral (kind_of_number result) ≡ number_kind_of ptype }
        ensures bytes { HaveSameBytes (kind_of_number self) (integer_of self)
            (kind_of_number result) (integer_of result) }
    {
        let (bytes, width) = self.to_le_bytes();
        match number_from_le_bytes(ptype, &bytes[..width]) {
            Ok(number) => match PValue::of(ptype, number) {
                Some(value) => value,
                None => unreachable!(),
            },
            Err(_) => unreachable!(),
        }
    }
}
