//! Calls by a primitive type that is known only at run time.
ghost use Rattle.std.specs.Prelude.{◌≡◌, IfOk, IfErr, IsTrue, length};
ghost use Rattle.vortex_dtype_ptype.specs.declared.error.DTypeError.TheVariants.{Length};
ghost use Rattle.vortex_dtype_ptype.specs.Numbers.{integral, is_integral, HasByteWidth, Has};
ghost use Rattle.vortex_dtype_ptype.specs.View.{number_kind_of};
ghost use Rattle.vortex_dtype_native.specs.NativeBytes.{AreBytesOf, AreBytesOfKind};

use crate::native::NativePType;
use vortex_dtype_ptype::error::DTypeError;
use vortex_dtype_ptype::ptype::PType;

/// Calls the function with the native type of `ptype` as its type argument, as
/// `match_each_native_ptype!(ptype, f(x))`. It is an integer type, since there are no native floats
/// here.
#[macro_export]
macro_rules! match_each_native_ptype {
    ($ptype:expr, $($function:ident)::+ ($($argument:expr),*)) => {
        $crate::match_each_integer_ptype!($ptype, $($function)::+ ($($argument),*))
    };
}

/// Calls the function with the native type of an integer `ptype` as its type argument.
#[macro_export]
macro_rules! match_each_integer_ptype {
    ($ptype:expr, $($function:ident)::+ ($($argument:expr),*)) => {
        match $ptype {
            $crate::ptype::PType::U8 => $($function)::+::<u8>($($argument),*),
            $crate::ptype::PType::U16 => $($function)::+::<u16>($($argument),*),
            $crate::ptype::PType::U32 => $($function)::+::<u32>($($argument),*),
            $crate::ptype::PType::U64 => $($function)::+::<u64>($($argument),*),
            $crate::ptype::PType::I8 => $($function)::+::<i8>($($argument),*),
            $crate::ptype::PType::I16 => $($function)::+::<i16>($($argument),*),
            $crate::ptype::PType::I32 => $($function)::+::<i32>($($argument),*),
            $crate::ptype::PType::I64 => $($function)::+::<i64>($($argument),*),
            $crate::ptype::PType::F16 | $crate::ptype::PType::F32 | $crate::ptype::PType::F64 =>
                unreachable!(),
        }
    };
}

/// Calls the function with the native type of an unsigned integer `ptype` as its type argument.
#[macro_export]
macro_rules! match_each_unsigned_integer_ptype {
    ($ptype:expr, $($function:ident)::+ ($($argument:expr),*)) => {
        match $ptype {
            $crate::ptype::PType::U8 => $($function)::+::<u8>($($argument),*),
            $crate::ptype::PType::U16 => $($function)::+::<u16>($($argument),*),
            $crate::ptype::PType::U32 => $($function)::+::<u32>($($argument),*),
            $crate::ptype::PType::U64 => $($function)::+::<u64>($($argument),*),
            _ => unreachable!(),
        }
    };
}

/// Calls the function with the native type of a signed integer `ptype` as its type argument.
#[macro_export]
macro_rules! match_each_signed_integer_ptype {
    ($ptype:expr, $($function:ident)::+ ($($argument:expr),*)) => {
        match $ptype {
            $crate::ptype::PType::I8 => $($function)::+::<i8>($($argument),*),
            $crate::ptype::PType::I16 => $($function)::+::<i16>($($argument),*),
            $crate::ptype::PType::I32 => $($function)::+::<i32>($($argument),*),
            $crate::ptype::PType::I64 => $($function)::+::<i64>($($argument),*),
            _ => unreachable!(),
        }
    };
}

// The integer of these little-endian bytes, as a `T`.
fn number_of<T: NativePType>(bytes: &[u8]) -> Result<i128, DTypeError>
    ensures read { IfOk result (λ number. AreBytesOf T.kind number bytes.now
        × Has (integral T.kind) number) }
    ensures refused { IfErr result
        (λ e. (e ≡ Length) × ¬ HasByteWidth (integral T.kind) (length bytes.now)) }
{
    let number = T::try_from_le_bytes(bytes)?;
    Ok(number.get())
}

/// The integer of these little-endian bytes, as one of `ptype`. `DTypeError::Length` where their
/// number isn't the width of the type.
pub fn number_from_le_bytes(ptype: PType, bytes: &[u8]) -> Result<i128, DTypeError>
    requires { IsTrue (is_integral (number_kind_of ptype)) }
    ensures read { IfOk result (λ number. AreBytesOfKind (number_kind_of ptype) number bytes.now
        × Has (number_kind_of ptype) number) }
    ensures refused { IfErr result (λ e. (e ≡ Length) × ¬ HasByteWidth (number_kind_of ptype)
        (length bytes.now)) }
{
    match_each_native_ptype!(ptype, number_of(bytes))
}
