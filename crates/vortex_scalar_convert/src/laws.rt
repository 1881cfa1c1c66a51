//! Laws over the definitions alone. Each function's clause is a law.
ghost use Rattle.vortex_scalar_convert.specs.Laws.{
  CastsComeBack,
  CastsCompose,
  CastsExist,
  CastsGiveOneValue,
  CastsHaveOneBack,
  CastsKeepEquality,
  CastsKeepOrder,
  ContentsTellValues,
  NullableValuesCastBack,
  TiedValuesAreEqual,
  ValuesCastToTheirType,
};

use vortex_model::laws::{
    contents_have_raw_values, conversions_are_valid, conversions_compose, valid_values_are_contents,
};

/// Values of one type with equal contents are equal.
pub fn contents_tell_values()
    ensures { ContentsTellValues }
{}

/// A cast has one result.
pub fn casts_give_one_value()
    ensures { CastsGiveOneValue }
{}

/// A value whose content the target can hold has a cast.
pub fn casts_exist()
    ensures { CastsExist }
{
    valid_values_are_contents();
    conversions_are_valid();
    contents_have_raw_values();
}

/// A cast there and back gives the same value.
pub fn casts_come_back()
    ensures { CastsComeBack }
{}

/// A value that was cast to another type can be cast back.
pub fn casts_have_one_back()
    ensures { CastsHaveOneBack }
{
    valid_values_are_contents();
}

/// Two casts one after another are one cast.
pub fn casts_compose()
    ensures { CastsCompose }
{
    conversions_compose();
}

/// A value cast to its own type is the same.
pub fn values_cast_to_their_type()
    ensures { ValuesCastToTheirType }
{}

/// A value cast back from the nullable type is the same.
pub fn nullable_values_cast_back()
    ensures { NullableValuesCastBack }
{}

/// Casts to one type keep the order of values whose types are equal up to nullability.
pub fn casts_keep_order()
    ensures { CastsKeepOrder }
{}

/// Casts to one type keep the equality of values whose types are equal up to nullability.
pub fn casts_keep_equality()
    ensures { CastsKeepEquality }
{}

/// Values of types without `Variant` compare as equal exactly where they are equal.
pub fn tied_values_are_equal()
    ensures { TiedValuesAreEqual }
{}
