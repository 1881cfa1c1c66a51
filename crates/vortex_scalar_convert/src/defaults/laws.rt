//! Laws over the definitions alone. Each function's clause is a law.
ghost use Rattle.vortex_scalar_convert.specs.defaults.Laws.{
  DefaultsAreValues,
  OnlyZerosAreZero,
  ZerosAreZero,
  ZerosExist,
};

/// A zero is valid for its type, isn't null, and passes the test for zero.
pub fn zeros_are_zero()
    ensures { ZerosAreZero }
{}

/// For a type without `Variant` at any level, only the zero passes the test for zero.
pub fn only_zeros_are_zero()
    ensures { OnlyZerosAreZero }
{}

/// A default is valid for its type, and is null exactly where the type is nullable.
pub fn defaults_are_values()
    ensures { DefaultsAreValues }
{}

/// A type has a zero and a default where neither it nor a type inside is `Null`, a float, a
/// decimal, `Variant` or a union without variants.
pub fn zeros_exist()
    ensures { ZerosExist }
{}
