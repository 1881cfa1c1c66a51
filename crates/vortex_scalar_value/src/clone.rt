//! Clones of values, which share strings and bytes.
ghost use Rattle.std.specs.Prelude.{◌≡◌, IfOk};
ghost use Rattle.vortex_scalar_value.specs.View.{raw_of, raw_of_union, raw_of_variant, raw_in, raw_at, raw_boxed, raws_in};

use crate::scalar_value::ScalarValue;
use crate::union_value::UnionValue;
use crate::variant_value::VariantValue;
use std::alloc::AllocError;

/// A clone. `None` is null.
pub fn clone_value(value: Option<&ScalarValue>) -> Result<Option<ScalarValue>, AllocError>
    ensures { IfOk result (λ copy. raw_in copy ≡ raw_at value.entry) }
{
    match value {
        Some(value) => {
            let copy = value.clone()?;
            Ok(Some(copy))
        }
        None => Ok(None),
    }
}

impl Clone for ScalarValue {
    ghost is_clone = { λ old new. raw_of new ≡ raw_of old };

    fn clone(&self) -> Result<ScalarValue, AllocError> {
        let copy = copy_of(self)?;
        Ok(copy)
    }
}

impl Clone for UnionValue {
    ghost is_clone = { λ old new. raw_of_union new ≡ raw_of_union old };

    fn clone(&self) -> Result<UnionValue, AllocError> {
        let copy = copy_union(self)?;
        Ok(copy)
    }
}

impl Clone for VariantValue {
    ghost is_clone = { λ old new. raw_of_variant new ≡ raw_of_variant old };

    fn clone(&self) -> Result<VariantValue, AllocError> {
        let copy = copy_variant(self)?;
        Ok(copy)
    }
}

#[cycle(copy)]
#[tactic(auto, using(crate::proofs::Views::one_level))]
fn copy_of(value: &ScalarValue) -> Result<ScalarValue, AllocError>
    ensures { IfOk result (λ copy. raw_of copy ≡ raw_of value.now) }
{
    match value {
        ScalarValue::Bool(flag) => Ok(ScalarValue::Bool(*flag)),
        ScalarValue::Primitive(number) => Ok(ScalarValue::Primitive(*number)),
        ScalarValue::Utf8(text) => Ok(ScalarValue::Utf8(text.clone()?)),
        ScalarValue::Binary(bytes) => Ok(ScalarValue::Binary(bytes.clone()?)),
        ScalarValue::Tuple(items) => Ok(ScalarValue::Tuple(copy_items(items)?)),
        ScalarValue::Union(union) => Ok(ScalarValue::Union(copy_union(union)?)),
        ScalarValue::Variant(variant) => {
            let copy = copy_variant(variant)?;
            Ok(ScalarValue::Variant(Box::new(*Box::allocator(variant), copy)?))
        }
    }
}

#[cycle(copy)]
#[tactic(auto, using(crate::proofs::Views::one_level))]
fn copy_items(items: &Vec<Option<ScalarValue>>) -> Result<Vec<Option<ScalarValue>>, AllocError>
    ensures { IfOk result (λ copies. raws_in copies.items ≡ raws_in items.now.items) }
{
    let mut copies = Vec::with_capacity(*items.allocator(), items.len())?;
    for item in items {
        match item {
            Some(value) => copies.push(Some(copy_of(value)?))?,
            None => copies.push(None)?,
        }
    }
    Ok(copies)
}

#[cycle(copy)]
#[tactic(auto, using(crate::proofs::Views::one_level))]
fn copy_union(union: &UnionValue) -> Result<UnionValue, AllocError>
    ensures { IfOk result (λ copy. raw_of_union copy ≡ raw_of_union union.now) }
{
    let type_id = union.type_id;
    match &union.child {
        Some(child) => {
            let copy = copy_of(child)?;
            let child = Box::new(*Box::allocator(child), copy)?;
            Ok(UnionValue {
                type_id,
                child: Some(child),
            })
        }
        None => Ok(UnionValue {
            type_id,
            child: None,
        }),
    }
}

#[cycle(copy)]
#[tactic(auto, using(crate::proofs::Views::one_level))]
fn copy_variant(variant: &VariantValue) -> Result<VariantValue, AllocError>
    ensures { IfOk result (λ copy. raw_of_variant copy ≡ raw_of_variant variant.now) }
{
    let dtype = variant.dtype.clone()?;
    match &variant.value {
        Some(value) => {
            let copy = copy_of(value)?;
            Ok(VariantValue {
                dtype,
                value: Some(copy),
            })
        }
        None => Ok(VariantValue { dtype, value: None }),
    }
}
