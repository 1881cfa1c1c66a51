//! Values of operands, borrowed while a predicate or a proof is evaluated.
//!
//! What is no boolean counts as null under AND, OR and NOT, and null compares with nothing.
ghost use Rattle.std.specs.Prelude.{◌≡◌, pos, option_copied};
ghost use Rattle.vortex_model.specs.Content.{content_of, integer, is_null, text};
ghost use Rattle.vortex_model_table.specs.Truth.{compared, end_of, kleene_and, kleene_not, kleene_or, liked};
ghost use Rattle.vortex_scalar_value.specs.View.{raw_of, content_at};
ghost use Rattle.vortex_stats_bind.specs.OperandValue.{operand_value, truth_content, boolean_in, text_in, order_of};
ghost use Rattle.vortex_stats_expr.specs.Tree.{comparison_of, is_strict};

use std::cmp::Ordering;
use vortex_dtype_core::BufferString;
use vortex_scalar_ops::compare::compare_values as order_values;
use vortex_scalar_value::pvalue::PValue;
use vortex_scalar_value::scalar_value::ScalarValue;
use vortex_stats_expr::operator::Comparison;
use vortex_stats_expr::options::BetweenOptions;
use vortex_stats_match::like::{has_backslash, is_like};

/// The value of an operand: null, a boolean or a count that was computed, or a value in a literal,
/// a row or a statistic.
#[derive(Clone, Copy)]
pub enum Value<'a> {
    Null,
    Truth(bool),
    Count(u64),
    Stored(&'a ScalarValue),
}

/// An operand that a literal or a row holds, where `None` is null.
pub fn read<'a>(value: Option<&'a ScalarValue>) -> Value<'a>
    ensures { operand_value result ≡ content_at value.entry }
{
    match value {
        Some(value) => Value::Stored(value),
        None => Value::Null,
    }
}

/// An operand that was computed. `None` is null.
pub fn truth_value<'a>(truth: Option<bool>) -> Value<'a>
    ensures { operand_value result ≡ truth_content truth }
{
    match truth {
        Some(b) => Value::Truth(b),
        None => Value::Null,
    }
}

/// The boolean of an operand, and `None` where it is null or no boolean.
#[tactic(auto, using(crate::proofs::Truths::stored))]
pub fn truth_of(value: Value) -> Option<bool>
    ensures { result ≡ boolean_in (operand_value value.entry) }
{
    match value {
        Value::Truth(b) => Some(b),
        Value::Stored(value) => value.as_bool(),
        Value::Count(_) => None,
        Value::Null => None,
    }
}

/// Whether the operand is null.
#[tactic(auto, using(crate::proofs::Truths::nulls))]
pub fn is_null(value: Value) -> bool
    ensures { result ≡ is_null (operand_value value.entry) }
{
    match value {
        Value::Null => true,
        Value::Truth(_) => false,
        Value::Count(_) => false,
        Value::Stored(_) => false,
    }
}

// The string of an operand, and `None` where it is null or no string.
#[tactic(auto, using(crate::proofs::Truths::texts))]
fn text_of<'a>(value: Value<'a>) -> Option<&'a BufferString>
    ensures { option_copied result ≡ text_in (operand_value value.entry) }
{
    match value {
        Value::Stored(value) => value.as_utf8(),
        Value::Null | Value::Truth(_) | Value::Count(_) => None,
    }
}

// The order of two operands, and `None` also where one is null.
#[tactic(auto, using(crate::proofs::Truths::orders))]
fn order(left: Value, right: Value) -> Option<Ordering>
    ensures { result ≡ order_of (operand_value left.entry) (operand_value right.entry) }
{
    match left {
        Value::Null => None,
        Value::Truth(left) => order_stored(&ScalarValue::Bool(left), right),
        Value::Count(left) => order_stored(&ScalarValue::Primitive(PValue::U64(left)), right),
        Value::Stored(left) => order_stored(left, right),
    }
}

#[tactic(auto, using(crate::proofs::Truths::orders))]
fn order_stored(left: &ScalarValue, right: Value) -> Option<Ordering>
    ensures { result ≡ order_of (content_of (raw_of left.now)) (operand_value right.entry) }
{
    match right {
        Value::Null => None,
        Value::Truth(right) => order_values(Some(left), Some(&ScalarValue::Bool(right))),
        Value::Count(right) => order_count(left, right),
        Value::Stored(right) => order_values(Some(left), Some(right)),
    }
}

#[tactic(auto, using(crate::proofs::Truths::orders))]
fn order_count(left: &ScalarValue, right: u64) -> Option<Ordering>
    ensures { result ≡ order_of (content_of (raw_of left.now)) (integer (pos right)) }
{
    order_values(
        Some(left),
        Some(&ScalarValue::Primitive(PValue::U64(right))),
    )
}

/// The truth of a comparison, and `None`, which is null, where an operand is null or the two don't
/// compare.
pub fn compare_values(comparison: Comparison, left: Value, right: Value) -> Option<bool>
    ensures { truth_content result ≡ compared (comparison_of comparison) (operand_value left.entry)
        (operand_value right.entry) }
{
    match order(left, right) {
        Some(found) => Some(comparison.holds(found)),
        None => None,
    }
}

/// AND in Kleene's logic, where false decides against null.
#[tactic(auto, using(crate::proofs::Truths::both))]
pub fn kleene_and(left: Value, right: Value) -> Option<bool>
    ensures { truth_content result ≡ kleene_and (operand_value left.entry)
        (operand_value right.entry) }
{
    match (truth_of(left), truth_of(right)) {
        (Some(false), _) | (_, Some(false)) => Some(false),
        (Some(true), Some(true)) => Some(true),
        (Some(true), None) | (None, Some(true)) | (None, None) => None,
    }
}

/// OR in Kleene's logic, where true decides against null.
#[tactic(auto, using(crate::proofs::Truths::one))]
pub fn kleene_or(left: Value, right: Value) -> Option<bool>
    ensures { truth_content result ≡ kleene_or (operand_value left.entry)
        (operand_value right.entry) }
{
    match (truth_of(left), truth_of(right)) {
        (Some(true), _) | (_, Some(true)) => Some(true),
        (Some(false), Some(false)) => Some(false),
        (Some(false), None) | (None, Some(false)) | (None, None) => None,
    }
}

/// NOT in Kleene's logic, where null stays null.
#[tactic(auto, using(crate::proofs::Truths::opposite))]
pub fn kleene_not(value: Value) -> Option<bool>
    ensures { truth_content result ≡ kleene_not (operand_value value.entry) }
{
    Some(!truth_of(value)?)
}

/// Whether the value lies between the two ends: AND of the two comparisons.
pub fn is_between(value: Value, lower: Value, upper: Value, options: BetweenOptions) -> Option<bool>
    ensures { truth_content result ≡ kleene_and
        (compared (end_of (is_strict options.lower_strict)) (operand_value lower.entry)
        (operand_value value.entry))
        (compared (end_of (is_strict options.upper_strict)) (operand_value value.entry)
        (operand_value upper.entry)) }
{
    let above = compare_values(options.lower_strict.to_comparison(), lower, value);
    let below = compare_values(options.upper_strict.to_comparison(), value, upper);
    kleene_and(truth_value(above), truth_value(below))
}

/// Whether a string matches a pattern, or does not where that is asked for. `None`, which is null,
/// where one of them is null or no string, and where the pattern has a backslash.
#[tactic(auto, using(crate::proofs::Truths::like_of))]
pub fn like_values(value: Value, pattern: Value, negated: bool) -> Option<bool>
    ensures { truth_content result ≡ liked (operand_value value.entry)
        (operand_value pattern.entry) negated }
{
    match (text_of(value), text_of(pattern)) {
        (Some(text), Some(pattern)) => like_texts(text.as_str(), pattern.as_str(), negated),
        (None, _) | (_, None) => None,
    }
}

fn like_texts(value: &str, pattern: &str, negated: bool) -> Option<bool>
    ensures { truth_content result ≡ liked (text value.now) (text pattern.now) negated }
{
    if has_backslash(pattern) {
        return None;
    }
    let is_match = is_like(pattern, value);
    if negated {
        Some(!is_match)
    } else {
        Some(is_match)
    }
}
