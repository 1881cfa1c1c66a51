//! Laws over the definitions alone, each as the clause of a function with an empty body.
ghost use Rattle.vortex_model.specs.Laws.{ConversionsCompose, ConversionsAreValid, ValidValuesAreContents, ContentsHaveRawValues, TestsOfValidityAreRight, TestsOfConversionAreRight, TestsOfEqualityAreRight};

/// Conversion is transitive.
pub fn conversions_compose()
    ensures { ConversionsCompose }
{}

/// A converted content is a content of the target type.
pub fn conversions_are_valid()
    ensures { ConversionsAreValid }
{}

/// The content of a raw value that is valid for a type is a content of that type.
pub fn valid_values_are_contents()
    ensures { ValidValuesAreContents }
{}

/// Each content of a type is that of some valid raw value, so `content_of` reaches all of them.
pub fn contents_have_raw_values()
    ensures { ContentsHaveRawValues }
{}

/// The test `valid` passes exactly the raw values that are valid.
pub fn tests_of_validity_are_right()
    ensures { TestsOfValidityAreRight }
{}

/// The test `converts` passes exactly the contents that convert.
pub fn tests_of_conversion_are_right()
    ensures { TestsOfConversionAreRight }
{}

/// The tests for equal types pass exactly those that are equal, also up to nullability.
pub fn tests_of_equality_are_right()
    ensures { TestsOfEqualityAreRight }
{}
