//! `PValue`s from native integers, and back by a type argument.
ghost use Rattle.std.specs.Prelude.{◌≡◌, pos};
ghost use Rattle.vortex_model.specs.LogicalType.{u64};
ghost use Rattle.vortex_scalar_value.specs.Numbers.{kind_of_number, integer_of, GivesNumber};

use crate::error::ScalarError;
use crate::pvalue::PValue;
use vortex_dtype_native::native::NativePType;

/// Calls the function with the native integer of the value as its first argument and the integer's
/// type as its type argument, as `match_each_pvalue!(value, f(x))`.
#[macro_export]
macro_rules! match_each_pvalue {
    ($value:expr, $($function:ident)::+ ($($argument:expr),*)) => {
        match $value {
            $crate::pvalue::PValue::U8(number) => $($function)::+::<u8>(number $(, $argument)*),
            $crate::pvalue::PValue::U16(number) => $($function)::+::<u16>(number $(, $argument)*),
            $crate::pvalue::PValue::U32(number) => $($function)::+::<u32>(number $(, $argument)*),
            $crate::pvalue::PValue::U64(number) => $($function)::+::<u64>(number $(, $argument)*),
            $crate::pvalue::PValue::I8(number) => $($function)::+::<i8>(number $(, $argument)*),
            $crate::pvalue::PValue::I16(number) => $($function)::+::<i16>(number $(, $argument)*),
            $crate::pvalue::PValue::I32(number) => $($function)::+::<i32>(number $(, $argument)*),
            $crate::pvalue::PValue::I64(number) => $($function)::+::<i64>(number $(, $argument)*),
        }
    };
}

impl PValue {
    /// The integer as a `T`. `ScalarError::Invalid` where it is out of range.
    pub fn cast<T: NativePType>(self) -> Result<T, ScalarError>
        ensures { GivesNumber T.kind T.integer self result }
    {
        match T::of(self.get()) {
            Some(number) => Ok(number),
            None => Err(ScalarError::Invalid),
        }
    }

    pub fn of_native<T: NativePType>(number: T) -> PValue
        ensures kind { kind_of_number result ≡ T.kind }
        ensures number { integer_of result ≡ T.integer number }
    {
        match PValue::of(T::ptype(), number.get()) {
            Some(value) => value,
            None => unreachable!(),
        }
    }
}

/// A native integer read from one of any type, as Vortex's `CoercePValue`.
pub trait CoercePValue: NativePType {
    /// The integer as one of this type, or `ScalarError::Invalid` where it is out of range.
    final fn coerce(value: PValue) -> Result<Self, ScalarError>
        ensures { GivesNumber Self.kind Self.integer value result }
    {
        value.cast()
    }
}

impl<T: NativePType> CoercePValue for T {}
