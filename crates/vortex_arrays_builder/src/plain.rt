//! Arrays of any type that a table can hold, in plain layout.
ghost use Rattle.std.specs.Prelude.{◌≡◌, true, map, IfOk, OnOk, IfErr, All};
ghost use Rattle.vortex_model.specs.LogicalType.{struct, nullable};
ghost use Rattle.vortex_model.specs.Valid.{valid};
ghost use Rattle.vortex_dtype_core.specs.View.{type_of, fields_of};
ghost use Rattle.vortex_dtype_fields.specs.Records.{names_of};
ghost use Rattle.vortex_scalar_value.specs.View.{raw_at, content_at};
ghost use Rattle.vortex_arrays_model.specs.Layout.{array_type_of, rows_of};
ghost use Rattle.vortex_arrays_model.specs.Parts.{columns_of};
ghost use Rattle.vortex_arrays_builder.specs.Types.{HasPlain, HavePlain, IsPlainLayout};
ghost use Rattle.vortex_arrays_builder.specs.Plain.{is_held, IsPlain, ArePlain, IsPlainFault};
ghost use Rattle.vortex_arrays_builder.specs.TooLarge.{AreTooLarge, HaveTooLarge};

use crate::items::{column_of, end_to_end, fixed_end_to_end};
use crate::leaves::{of_booleans, of_integers};
use crate::nested::{of_fixed_lists, of_lists, of_records};
use crate::strings::of_strings;
use std::alloc::Global;
use vortex_arrays_core::array::{ArrayRef, StringKind};
use vortex_arrays_view::error::ArrayError;
use vortex_dtype_core::dtype::DType;
use vortex_dtype_core::struct_fields::StructField;
use vortex_scalar_value::scalar_value::ScalarValue;

/// The array of these values in plain layout: booleans as bits, integers of the type, strings and
/// bytes by views, lists end to end and structs field by field. `None` is null.
///
/// `Total` where a column of strings or bytes, at any depth, is too large: a value is longer than a
/// buffer can be, or there would be more than 2^32 buffers.
#[tactic(auto, using(crate::proofs::PlainLemmas::rows))]
pub fn build_plain(
    alloc: Global,
    dtype: &DType,
    values: &[Option<&ScalarValue>],
) -> Result<ArrayRef, ArrayError>
    requires kind { HasPlain (type_of dtype.now) }
    requires valid { All (λ value. valid (type_of dtype.now) (raw_at value) ≡ true) values.now }
    ensures dtype { IfOk result (λ array. array_type_of array ≡ type_of dtype.now) }
    ensures rows { IfOk result (λ array. rows_of array ≡ map content_at values.now) }
    ensures layout { IfOk result (λ array. IsPlainLayout array) }
    ensures accepted { OnOk result
        (¬ AreTooLarge (type_of dtype.now) (map content_at values.now)) }
    ensures refused { IfErr result
        (λ e. IsPlainFault e (type_of dtype.now) (map content_at values.now)) }
{
    plain_of(alloc, dtype, values)
}

// The array of values of the type. A null in a type without null, as inside a null struct, becomes
// any value.
#[cycle(plain)]
#[tactic(auto, using(crate::proofs::PlainLemmas::levels))]
fn plain_of(
    alloc: Global,
    dtype: &DType,
    values: &[Option<&ScalarValue>],
) -> Result<ArrayRef, ArrayError>
    requires kind { HasPlain (type_of dtype.now) }
    requires held { All (λ r. is_held (type_of dtype.now) r ≡ true) (map raw_at values.now) }
    ensures plain { IfOk result
        (λ array. IsPlain (type_of dtype.now) (map raw_at values.now) array) }
    ensures accepted { OnOk result
        (¬ AreTooLarge (type_of dtype.now) (map content_at values.now)) }
    ensures refused { IfErr result
        (λ e. IsPlainFault e (type_of dtype.now) (map content_at values.now)) }
{
    match dtype {
        DType::Bool(nullability) => Ok(of_booleans(alloc, *nullability, values)?),
        DType::Primitive(ptype, nullability) => {
            Ok(of_integers(alloc, *ptype, *nullability, values)?)
        }
        DType::Utf8(nullability) => of_strings(alloc, StringKind::Utf8, *nullability, values),
        DType::Binary(nullability) => of_strings(alloc, StringKind::Binary, *nullability, values),
        DType::List(element, nullability) => {
            let lists = end_to_end(alloc, values)?;
            let elements = plain_of(alloc, element, lists.items.as_slice())?;
            Ok(of_lists(alloc, *nullability, elements, lists, values)?)
        }
        DType::FixedSizeList(element, size, nullability) => {
            let items = fixed_end_to_end(alloc, *size, values)?;
            let elements = plain_of(alloc, element, items.as_slice())?;
            Ok(of_fixed_lists(alloc, *nullability, elements, *size, values)?)
        }
        DType::Struct(fields, nullability) => {
            let columns = field_arrays(alloc, fields.as_slice(), values)?;
            Ok(of_records(alloc, *nullability, fields, columns, values)?)
        }
        DType::Null | DType::Decimal(_, _) | DType::Variant(_) => unreachable!(),
        DType::Map(_, _) | DType::Union(_, _) | DType::Extension(_) => unreachable!(),
    }
}

// An array for each field, of the values of the structs.
#[cycle(plain)]
#[tactic(auto, using(crate::proofs::TooLargeLemmas::fields))]
fn field_arrays(
    alloc: Global,
    fields: &[StructField],
    values: &[Option<&ScalarValue>],
) -> Result<Vec<ArrayRef>, ArrayError>
    requires kinds { HavePlain (fields_of fields.now) }
    requires held { All (λ r. is_held (struct (fields_of fields.now) nullable) r ≡ true)
        (map raw_at values.now) }
    ensures plain { IfOk result (λ arrays. ArePlain (fields_of fields.now) 0 (map raw_at values.now)
        (columns_of (names_of (fields_of fields.now)) arrays.items)) }
    ensures accepted { OnOk result
        (¬ HaveTooLarge (fields_of fields.now) 0 (map content_at values.now)) }
    ensures refused { IfErr result (λ e.
        IsPlainFault e (struct (fields_of fields.now) nullable) (map content_at values.now)) }
{
    let mut arrays = Vec::with_capacity(alloc, fields.len())?;
    for i in 0..fields.len() {
        let column = column_of(alloc, values, i)?;
        arrays.push(plain_of(alloc, &fields[i].dtype, column.as_slice())?)?;
    }
    Ok(arrays)
}
