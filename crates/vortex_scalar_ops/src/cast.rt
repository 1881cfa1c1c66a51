//! Casts of values, which keep the content.
ghost use Rattle.std.specs.Prelude.{◌≡◌, true, false, IfOk, IsErrOf};
ghost use Rattle.vortex_model.specs.Content.{contents_of, tuple, raw_tuple};
ghost use Rattle.vortex_model.specs.Valid.{valid, all_have, fields_have};
ghost use Rattle.vortex_model.specs.Convert.{converts, all_convert, fields_convert};
ghost use Rattle.vortex_dtype_core.specs.View.{type_of, fields_of};
ghost use Rattle.vortex_scalar_ops.specs.Converting.{is_identity_cast};
ghost use Rattle.vortex_scalar_value.specs.View.{raw_in, raw_at, raws_in, content_in, content_at};

use crate::identity::{cast_identity, is_identity_cast};
use crate::leaves::cast_leaf;
use crate::lists::takes_length;
use crate::validate::validate;
use std::alloc::Global;
use vortex_dtype_core::dtype::DType;
use vortex_dtype_core::struct_fields::StructField;
use vortex_scalar_value::error::ScalarError;
use vortex_scalar_value::scalar_value::ScalarValue;

/// The value as one of `target`, with the same content. `None` is null. `ScalarError::Invalid`,
/// before anything is allocated, where `source` doesn't have the value, and after that
/// `ScalarError::NotConvertible` where `target` can't hold the content. Takes time linear in the
/// size of the value.
pub fn cast_value(
    alloc: Global,
    source: &DType,
    target: &DType,
    value: Option<&ScalarValue>,
) -> Result<Option<ScalarValue>, ScalarError>
    ensures converts { IfOk result (λ _.
        converts (type_of source.now) (type_of target.now) (content_at value.entry) ≡ true) }
    ensures content { IfOk result (λ new. content_in new ≡ content_at value.entry) }
    ensures valid { IfOk result (λ new. valid (type_of target.now) (raw_in new) ≡ true) }
    ensures refused { IsErrOf result ScalarError.NotConvertible
        → converts (type_of source.now) (type_of target.now) (content_at value.entry) ≡ false }
    ensures invalid { IsErrOf result ScalarError.Invalid
        → valid (type_of source.now) (raw_at value.entry) ≡ false }
    ensures lacks { valid (type_of source.now) (raw_at value.entry) ≡ false
        → IsErrOf result ScalarError.Invalid }
{
    if !validate(source, value) {
        return Err(ScalarError::Invalid);
    }
    convert_value(alloc, source, target, value)
}

/// `cast_value` without its first test, for a caller that knows that `source` has the value. A
/// value that `source` doesn't have is `Invalid` only where a cast would leave it as it is, as that
/// of an extension, and otherwise is cast by its form.
#[cycle(cast)]
#[tactic(auto, using(crate::proofs::Casts::values))]
pub fn convert_value(
    alloc: Global,
    source: &DType,
    target: &DType,
    value: Option<&ScalarValue>,
) -> Result<Option<ScalarValue>, ScalarError>
    ensures converts { IfOk result (λ _.
        converts (type_of source.now) (type_of target.now) (content_at value.entry) ≡ true) }
    ensures content { IfOk result (λ new. content_in new ≡ content_at value.entry) }
    ensures valid { IfOk result (λ new. valid (type_of target.now) (raw_in new) ≡ true) }
    ensures refused { IsErrOf result ScalarError.NotConvertible
        → converts (type_of source.now) (type_of target.now) (content_at value.entry) ≡ false }
    ensures invalid { IsErrOf result ScalarError.Invalid
        → valid (type_of source.now) (raw_at value.entry) ≡ false }
{
    let Some(value) = value else {
        if target.is_nullable() {
            return Ok(None);
        }
        return Err(ScalarError::NotConvertible);
    };
    if is_identity_cast(source) {
        let kept = cast_identity(source, target, value)?;
        return Ok(Some(kept));
    }
    match value.as_list() {
        Some(items) => {
            let all = cast_tuple(alloc, source, target, items)?;
            Ok(Some(ScalarValue::Tuple(all)))
        }
        None => {
            let leaf = cast_leaf(source, target, value)?;
            Ok(Some(leaf))
        }
    }
}

// The items of a list or struct as those of the target type.
#[cycle(cast)]
#[tactic(auto, using(crate::proofs::Casts::tuples))]
fn cast_tuple(
    alloc: Global,
    source: &DType,
    target: &DType,
    items: &[Option<ScalarValue>],
) -> Result<Vec<Option<ScalarValue>>, ScalarError>
    requires { is_identity_cast (type_of source.now) ≡ false }
    ensures converts { IfOk result (λ _.
        converts (type_of source.now) (type_of target.now) (tuple (contents_of (raws_in items.now)))
        ≡ true) }
    ensures content { IfOk result (λ all. contents_of (raws_in all.items)
        ≡ contents_of (raws_in items.now)) }
    ensures valid { IfOk result (λ all. valid (type_of target.now) (raw_tuple (raws_in all.items))
        ≡ true) }
    ensures refused { IsErrOf result ScalarError.NotConvertible
        → converts (type_of source.now) (type_of target.now)
        (tuple (contents_of (raws_in items.now))) ≡ false }
    ensures invalid { IsErrOf result ScalarError.Invalid
        → valid (type_of source.now) (raw_tuple (raws_in items.now)) ≡ false }
{
    if let Some(source) = source.as_any_size_list_element_opt() {
        if !takes_length(target, items.len()) {
            return Err(ScalarError::NotConvertible);
        }
        let Some(target) = target.as_any_size_list_element_opt() else {
            return Err(ScalarError::NotConvertible);
        };
        let all = cast_items(alloc, source, target, items)?;
        return Ok(all);
    }
    let Some(sources) = source.as_struct_fields_opt() else {
        return Err(ScalarError::NotConvertible);
    };
    let Some(targets) = target.as_struct_fields_opt() else {
        return Err(ScalarError::NotConvertible);
    };
    let all = cast_fields(alloc, sources.as_slice(), targets.as_slice(), items)?;
    Ok(all)
}

#[cycle(cast)]
#[tactic(auto, using(vortex_scalar_value::proofs::Views::one_level))]
fn cast_items(
    alloc: Global,
    source: &DType,
    target: &DType,
    items: &[Option<ScalarValue>],
) -> Result<Vec<Option<ScalarValue>>, ScalarError>
    ensures converts { IfOk result (λ _. all_convert (type_of source.now) (type_of target.now)
        (contents_of (raws_in items.now)) ≡ true) }
    ensures content { IfOk result (λ all. contents_of (raws_in all.items)
        ≡ contents_of (raws_in items.now)) }
    ensures valid { IfOk result (λ all. all_have (type_of target.now) (raws_in all.items) ≡ true) }
    ensures refused { IsErrOf result ScalarError.NotConvertible
        → all_convert (type_of source.now) (type_of target.now) (contents_of (raws_in items.now))
        ≡ false }
    ensures invalid { IsErrOf result ScalarError.Invalid
        → all_have (type_of source.now) (raws_in items.now) ≡ false }
{
    let mut all = Vec::with_capacity(alloc, items.len())?;
    for item in items {
        let item = item.as_ref();
        let new = convert_value(alloc, source, target, item)?;
        all.push(new)?;
    }
    Ok(all)
}

#[cycle(cast)]
#[tactic(auto, using(crate::proofs::Casts::records))]
fn cast_fields(
    alloc: Global,
    sources: &[StructField],
    targets: &[StructField],
    items: &[Option<ScalarValue>],
) -> Result<Vec<Option<ScalarValue>>, ScalarError>
    ensures converts { IfOk result
        (λ _. fields_convert (fields_of sources.now) (fields_of targets.now)
        (contents_of (raws_in items.now)) ≡ true) }
    ensures content { IfOk result (λ all. contents_of (raws_in all.items)
        ≡ contents_of (raws_in items.now)) }
    ensures valid { IfOk result (λ all. fields_have (fields_of targets.now) (raws_in all.items)
        ≡ true) }
    ensures refused { IsErrOf result ScalarError.NotConvertible
        → fields_convert (fields_of sources.now) (fields_of targets.now)
        (contents_of (raws_in items.now)) ≡ false }
    ensures invalid { IsErrOf result ScalarError.Invalid → fields_have (fields_of sources.now)
        (raws_in items.now) ≡ false }
{
    if sources.len() != items.len() {
        return Err(ScalarError::NotConvertible);
    }
    if targets.len() != items.len() {
        return Err(ScalarError::NotConvertible);
    }
    let mut all = Vec::with_capacity(alloc, items.len())?;
    for (i, item) in items.iter().enumerate() {
        let item = item.as_ref();
        let new = convert_value(alloc, &sources[i].dtype, &targets[i].dtype, item)?;
        all.push(new)?;
    }
    Ok(all)
}
