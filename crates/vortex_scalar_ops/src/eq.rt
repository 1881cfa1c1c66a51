//! Equality of values.
ghost use Rattle.std.specs.Prelude.{◌≡◌};
ghost use Rattle.vortex_model.specs.Content.{content_of, contents_of};
ghost use Rattle.vortex_scalar_value.specs.View.{raw_of, raw_of_union, raw_of_variant, raws_in, content_at};
ghost use Rattle.vortex_scalar_ops.specs.Equality.{eq_content, eq_contents};

use vortex_scalar_value::scalar_value::ScalarValue;
use vortex_scalar_value::union_value::UnionValue;
use vortex_scalar_value::variant_value::VariantValue;

/// Equality of contents, up to nullability of the types inside `Variant` values. `None` is null.
/// Integers are equal where their numeric values are, whatever their types. Takes time linear in
/// the size of the values.
#[cycle(eq)]
#[tactic(auto, using(crate::proofs::Forms::apart))]
pub fn eq_values(left: Option<&ScalarValue>, right: Option<&ScalarValue>) -> bool
    ensures { result ≡ eq_content (content_at left.entry) (content_at right.entry) }
{
    match (left, right) {
        (None, None) => true,
        (Some(left), Some(right)) => eq_present(left, right),
        (None, Some(_)) => false,
        (Some(_), None) => false,
    }
}

#[cycle(eq)]
#[tactic(auto, using(crate::proofs::Forms::tests))]
fn eq_present(left: &ScalarValue, right: &ScalarValue) -> bool
    ensures { result ≡ eq_content (content_of (raw_of left.now)) (content_of (raw_of right.now)) }
{
    match left {
        ScalarValue::Bool(flag) => match right.as_bool() {
            Some(other) => *flag == other,
            None => false,
        },
        ScalarValue::Primitive(number) => match right.as_primitive() {
            Some(other) => *number == other,
            None => false,
        },
        ScalarValue::Utf8(text) => match right.as_utf8() {
            Some(other) => text == other,
            None => false,
        },
        ScalarValue::Binary(bytes) => match right.as_binary() {
            Some(other) => bytes == other,
            None => false,
        },
        ScalarValue::Tuple(items) => match right.as_list() {
            Some(others) => eq_items(items.as_slice(), others),
            None => false,
        },
        ScalarValue::Union(union) => match right.as_union() {
            Some(other) => eq_unions(union, other),
            None => false,
        },
        ScalarValue::Variant(variant) => match right.as_variant() {
            Some(other) => eq_variants(variant, other),
            None => false,
        },
    }
}

#[cycle(eq)]
fn eq_items(left: &[Option<ScalarValue>], right: &[Option<ScalarValue>]) -> bool
    ensures { result ≡ eq_contents (contents_of (raws_in left.now))
        (contents_of (raws_in right.now)) }
{
    if left.len() != right.len() {
        return false;
    }
    for (i, item) in left.iter().enumerate() {
        if !eq_values(item.as_ref(), right[i].as_ref()) {
            return false;
        }
    }
    true
}

#[cycle(eq)]
#[tactic(auto, using(crate::proofs::Forms::tests))]
fn eq_unions(left: &UnionValue, right: &UnionValue) -> bool
    ensures { result ≡ eq_content (content_of (raw_of_union left.now))
        (content_of (raw_of_union right.now)) }
{
    left.type_id() == right.type_id() && eq_values(left.child_value(), right.child_value())
}

#[cycle(eq)]
#[tactic(auto, using(crate::proofs::Forms::tests))]
fn eq_variants(left: &VariantValue, right: &VariantValue) -> bool
    ensures { result ≡ eq_content (content_of (raw_of_variant left.now))
        (content_of (raw_of_variant right.now)) }
{
    left.dtype().eq_ignore_nullability(right.dtype()) && eq_values(left.value(), right.value())
}
