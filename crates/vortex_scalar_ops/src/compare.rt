//! The order of values.
ghost use Rattle.std.specs.Prelude.{◌≡◌};
ghost use Rattle.vortex_model.specs.Content.{content_of, contents_of};
ghost use Rattle.vortex_model.specs.Order.{content_cmp, contents_cmp};
ghost use Rattle.vortex_scalar_value.specs.View.{raw_of, raw_of_union, raws_in, content_at};

use std::cmp::Ordering;
use vortex_scalar_value::scalar_value::ScalarValue;
use vortex_scalar_value::union_value::UnionValue;

/// The order of two values, and `None` where they don't compare. `None` of an argument is null,
/// which is least. False is below true, integers are in numeric order, strings and bytes in
/// lexicographic order of bytes, lists and structs in that of their items, and unions by tag and
/// then by value. `Variant` values don't compare, nor do values of two forms. Takes time linear in
/// the size of the values.
#[cycle(compare)]
#[tactic(auto, using(crate::proofs::Forms::nulls))]
pub fn compare_values(left: Option<&ScalarValue>, right: Option<&ScalarValue>) -> Option<Ordering>
    ensures { result ≡ content_cmp (content_at left.entry) (content_at right.entry) }
{
    match (left, right) {
        (None, None) => Some(Ordering::Equal),
        (None, Some(_)) => Some(Ordering::Less),
        (Some(_), None) => Some(Ordering::Greater),
        (Some(left), Some(right)) => compare_present(left, right),
    }
}

#[cycle(compare)]
#[tactic(auto, using(crate::proofs::Forms::nulls))]
fn compare_present(left: &ScalarValue, right: &ScalarValue) -> Option<Ordering>
    ensures { result ≡ content_cmp (content_of (raw_of left.now)) (content_of (raw_of right.now)) }
{
    match left {
        ScalarValue::Bool(flag) => Some(flag.cmp(&right.as_bool()?)),
        ScalarValue::Primitive(number) => Some(number.compare(right.as_primitive()?)),
        ScalarValue::Utf8(text) => Some(text.cmp(right.as_utf8()?)),
        ScalarValue::Binary(bytes) => Some(bytes.cmp(right.as_binary()?)),
        ScalarValue::Tuple(items) => compare_items(items.as_slice(), right.as_list()?),
        ScalarValue::Union(union) => compare_unions(union, right.as_union()?),
        ScalarValue::Variant(_) => None,
    }
}

// The order by the first items that differ, and else by length.
#[cycle(compare)]
#[tactic(auto, using(crate::proofs::Forms::nulls))]
fn compare_items(left: &[Option<ScalarValue>], right: &[Option<ScalarValue>]) -> Option<Ordering>
    ensures { result ≡ contents_cmp (contents_of (raws_in left.now))
        (contents_of (raws_in right.now)) }
{
    for (i, item) in left.iter().enumerate() {
        if i >= right.len() {
            return Some(Ordering::Greater);
        }
        let found = compare_values(item.as_ref(), right[i].as_ref());
        match found {
            Some(Ordering::Equal) => {}
            Some(Ordering::Less) => return Some(Ordering::Less),
            Some(Ordering::Greater) => return Some(Ordering::Greater),
            None => return None,
        }
    }
    if left.len() < right.len() {
        return Some(Ordering::Less);
    }
    Some(Ordering::Equal)
}

// The order by tags, and where these are equal by the values under them.
#[cycle(compare)]
#[tactic(auto, using(crate::proofs::Forms::nulls))]
fn compare_unions(left: &UnionValue, right: &UnionValue) -> Option<Ordering>
    ensures { result ≡ content_cmp (content_of (raw_of_union left.now))
        (content_of (raw_of_union right.now)) }
{
    let found = left.type_id().cmp(&right.type_id());
    match found {
        Ordering::Equal => compare_values(left.child_value(), right.child_value()),
        Ordering::Less | Ordering::Greater => Some(found),
    }
}
