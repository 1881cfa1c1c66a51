//! Types and values of projected structs.
ghost use Rattle.std.specs.Prelude.{◌≡◌, ◌≢◌, IsTrue, Some, None, IfOk, IfErr, option_map};
ghost use Rattle.vortex_model.specs.LogicalType.{struct, nullability_of};
ghost use Rattle.vortex_model.specs.Valid.{fields_have};
ghost use Rattle.vortex_dtype_core.specs.View.{type_of, fields_in};
ghost use Rattle.vortex_dtype_fields.specs.Records.{projected};
ghost use Rattle.vortex_scalar_value.specs.View.{raw_at, raw_in, raws_in};
ghost use Rattle.vortex_scalar_value.specs.declared.error.ScalarError.TheVariants.{Memory, Invalid};
ghost use Rattle.vortex_scalar_nested.specs.Held.{raw_of_items};
ghost use Rattle.vortex_scalar_iter.specs.Records.{value_named, values_named, raw_projected, holds_fields};

use std::alloc::Global;
use vortex_dtype_core::dtype::DType;
use vortex_dtype_core::struct_fields::StructFields;
use vortex_dtype_fields::struct_fields_ext::StructFieldsExt;
use vortex_dtype_ptype::error::DTypeError;
use vortex_dtype_ptype::field_names::FieldName;
use vortex_scalar_value::clone::clone_value;
use vortex_scalar_value::error::ScalarError;
use vortex_scalar_value::scalar_value::ScalarValue;

/// The struct type of the first field with each of these names, with the outer nullability of
/// `dtype`. `ScalarError::Invalid` where a name has no field.
#[tactic(auto, using(vortex_dtype_core::proofs::Views::one_level))]
pub(crate) fn projected_dtype(
    alloc: Global,
    dtype: &DType,
    fields: &StructFields,
    names: &[FieldName],
) -> Result<DType, ScalarError>
    ensures made { IfOk result (λ made. Some (type_of made)
        ≡ option_map (λ gs. struct gs (nullability_of (type_of dtype.now)))
        (projected (fields_in fields.now) names.now)) }
    ensures refused { IfErr result (λ e. e ≢ Memory → (e ≡ Invalid)
        × (projected (fields_in fields.now) names.now ≡ None)) }
{
    match fields.project(alloc, names) {
        Ok(fields) => Ok(DType::Struct(fields, dtype.nullability())),
        Err(DTypeError::Memory) => Err(ScalarError::Memory),
        Err(_) => Err(ScalarError::Invalid),
    }
}

/// The values of the first field with each of these names, and null for null.
/// `ScalarError::Invalid` where a name has no field.
#[tactic(auto, using(crate::proofs::Records::named))]
pub(crate) fn projected_value(
    alloc: Global,
    fields: &StructFields,
    values: Option<&[Option<ScalarValue>]>,
    names: &[FieldName],
) -> Result<Option<ScalarValue>, ScalarError>
    requires { IsTrue (holds_fields (fields_in fields.now) (raw_of_items values)) }
    ensures made { IfOk result (λ made. Some (raw_in made) ≡ raw_projected (fields_in fields.now)
        (raw_of_items values.entry) names.now) }
    ensures refused { IfErr result (λ e. e ≢ Memory → (e ≡ Invalid)
        × (projected (fields_in fields.now) names.now ≡ None)) }
{
    let Some(values) = values else {
        return Ok(None);
    };
    let all = values_in_order(alloc, fields, values, names)?;
    Ok(Some(ScalarValue::Tuple(all)))
}

#[tactic(auto, using(crate::proofs::Records::named))]
fn values_in_order(
    alloc: Global,
    fields: &StructFields,
    values: &[Option<ScalarValue>],
    names: &[FieldName],
) -> Result<Vec<Option<ScalarValue>>, ScalarError>
    requires { IsTrue (fields_have (fields_in fields.now) (raws_in values.now)) }
    ensures made { IfOk result (λ all. Some (raws_in all.items)
        ≡ values_named (fields_in fields.now) (raws_in values.now) names.now) }
    ensures refused { IfErr result (λ e. e ≢ Memory → (e ≡ Invalid)
        × (projected (fields_in fields.now) names.now ≡ None)) }
{
    let mut all = Vec::with_capacity(alloc, names.len())?;
    for name in names {
        let Some(value) = value_of_field(fields, values, name) else {
            return Err(ScalarError::Invalid);
        };
        let value = clone_value(value)?;
        all.push(value)?;
    }
    Ok(all)
}

// The value of the first field with this name. Null is `Some(None)`.
#[tactic(auto, using(vortex_scalar_nested::proofs::Elements::items))]
fn value_of_field<'a>(
    fields: &StructFields,
    values: &'a [Option<ScalarValue>],
    name: &FieldName,
) -> Option<Option<&'a ScalarValue>>
    ensures { option_map raw_at result ≡ value_named (fields_in fields.now)
        (raws_in values.now) name.now }
{
    let index = fields.find(name)?;
    if index >= values.len() {
        return None;
    }
    Some(values[index].as_ref())
}
