//! Dictionaries built of values.
ghost use Rattle.std.specs.Prelude.{◌≡◌, true, map, IfOk, OnOk, IfErr, All};
ghost use Rattle.vortex_model.specs.Kept.{is_leaf};
ghost use Rattle.vortex_model.specs.Valid.{valid};
ghost use Rattle.vortex_dtype_core.specs.View.{type_of};
ghost use Rattle.vortex_scalar_value.specs.View.{raw_at, content_at};
ghost use Rattle.vortex_arrays_model.specs.Layout.{array_type_of, rows_of};
ghost use Rattle.vortex_arrays_builder.specs.Plain.{IsPlainFault};
ghost use Rattle.vortex_arrays_builder.specs.TooLarge.{AreTooLarge};
ghost use Rattle.vortex_arrays_dictionary.specs.Dictionary.{IsDictionaryOf};
ghost use Rattle.vortex_arrays_dictionary.specs.Distinct.{distinct};

use crate::codes::codes_of;
use crate::number::number_values;
use std::alloc::Global;
use vortex_arrays_builder::leaves::nulls_of;
use vortex_arrays_builder::plain::build_plain;
use vortex_arrays_core::array::ArrayRef;
use vortex_arrays_view::error::ArrayError;
use vortex_dtype_core::dtype::DType;
use vortex_scalar_value::scalar_value::ScalarValue;

/// The array of these values, which are booleans, integers, strings or bytes, as a dictionary: each
/// distinct value once, in the order of first occurrences, and for each row the code of its value,
/// in the narrowest unsigned type. `None` is null, and has a null code. It takes time linear in the
/// size of the values, apart from one look-up for each, which takes the logarithm of the number of
/// distinct values.
///
/// `Total` as in `build_plain`, here of the distinct values.
#[tactic(auto, using(crate::proofs::BuildLemmas::built))]
pub fn build_dictionary(
    alloc: Global,
    dtype: &DType,
    values: &[Option<&ScalarValue>],
) -> Result<ArrayRef, ArrayError>
    requires kind { is_leaf (type_of dtype.now) ≡ true }
    requires valid { All (λ value. valid (type_of dtype.now) (raw_at value) ≡ true) values.now }
    ensures dtype { IfOk result (λ array. array_type_of array ≡ type_of dtype.now) }
    ensures rows { IfOk result (λ array. rows_of array ≡ map content_at values.now) }
    ensures layout { IfOk result (λ array. IsDictionaryOf (map content_at values.now) array) }
    ensures accepted { OnOk result
        (¬ AreTooLarge (type_of dtype.now) (distinct (map content_at values.now))) }
    ensures refused { IfErr result
        (λ e. IsPlainFault e (type_of dtype.now) (distinct (map content_at values.now))) }
{
    let numbering = number_values(alloc, values)?;
    let distinct = build_plain(alloc, dtype, numbering.values.as_slice())?;
    let nulls = nulls_of(alloc, dtype.nullability(), values)?;
    let numbers = numbering.numbers.as_slice();
    let codes = codes_of(alloc, numbers, numbering.values.len(), nulls)?;
    let array = ArrayRef::of_dict(alloc, codes, distinct, false)?;
    Ok(array)
}
