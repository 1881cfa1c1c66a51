//! Predicates of scans: their faults over the rows of a table, which are more than those of binding
//! and come in an order of their own, and how they are bound.
//!
//! `bind` is called once for a scan, so that no name is looked up while rows are tested.
ghost use Rattle.std.specs.Prelude.{◌≡◌, IfOk, IfErr, OnOk, None, false, option_copied};
ghost use Rattle.vortex_model.specs.LogicalType.{LogicalType};
ghost use Rattle.vortex_model.specs.Content.{Content};
ghost use Rattle.vortex_model_table.specs.Expression.{literal, column, HasFormedLiterals};
ghost use Rattle.vortex_model_table.specs.Truth.{value_at};
ghost use Rattle.vortex_model_table.specs.Command.{expression_fault, predicate_fault, is_supported_like};
ghost use Rattle.vortex_dtype_core.specs.View.{type_of};
ghost use Rattle.vortex_scalar_core.specs.Scalar.{scalar_type};
ghost use Rattle.vortex_stats_bind.specs.Bindings.{IsBound};
ghost use Rattle.vortex_stats_bind.specs.Bound.{bound_value};
ghost use Rattle.vortex_table_schema.specs.Error.{Explains};
ghost use Rattle.vortex_table_plan.specs.Rules.{IsRuleError};
ghost use Rattle.vortex_table_plan.specs.Faults.{IsChecked, AreChecked, IsSameOf, IsRangeOf, truth_of, truths_of, like_of, literal_text};

use crate::rules::rule_error;
use std::alloc::Global;
use vortex_dtype_core::BufferString;
use vortex_dtype_core::dtype::DType;
use vortex_dtype_ptype::field_names::FieldNames;
use vortex_scalar_core::scalar::Scalar;
use vortex_stats_bind::bind::bind as bind_expression;
use vortex_stats_bind::bound::BoundExpression;
use vortex_stats_expr::expression::{Expression, Node};
use vortex_stats_expr::options::LikeOptions;
use vortex_stats_expr::types::{Leaf, TypeClass, class_of, column_class};
use vortex_stats_match::like::has_backslash;
use vortex_table_schema::error::TableError;

/// Binds a predicate to rows of this type. It is copied, in time linear in its size.
///
/// The first fault decides the refusal: children before their parent, left before right, and last
/// whether the whole is boolean. `Placeholder`; `UnknownColumn`; `NotALeaf` of a column that is no
/// boolean, integer, string or bytes; `UnsupportedPredicate` of a literal of another type, a test
/// for NaN and the number of rows; `UnequalTypes` of the sides of a comparison, of BETWEEN and of
/// LIKE; `NotBoolean`; `UnsupportedLike`.
#[tactic(auto, using(crate::proofs::Checks::binding))]
pub fn bind(alloc: Global, e: &Expression, dtype: &DType) -> Result<BoundExpression, TableError>
    ensures faultless { OnOk result (predicate_fault (type_of dtype.now) e.now ≡ None) }
    ensures refused { IfErr result
        (λ error. Explains ⊥ (predicate_fault (type_of dtype.now) e.now) error) }
    ensures bound { IfOk result (λ bound. IsBound (type_of dtype.now) e.now bound) }
    ensures value { IfOk result (λ bound. (row : Content) → bound_value bound row
        ≡ value_at (type_of dtype.now) e.now row) }
    ensures formed { OnOk result (HasFormedLiterals e.now) }
{
    match check(dtype, e)? {
        Leaf::Bool => bind_checked(alloc, e, dtype),
        Leaf::Primitive(_) => Err(TableError::NotBoolean),
        Leaf::Utf8 => Err(TableError::NotBoolean),
        Leaf::Binary => Err(TableError::NotBoolean),
    }
}

// What has no fault is bound, unless memory runs out.
#[tactic(auto, using(crate::proofs::Checks::checked))]
fn bind_checked(alloc: Global, e: &Expression, dtype: &DType) -> Result<BoundExpression, TableError>
    requires { expression_fault (type_of dtype.now) e.now ≡ None }
    ensures bound { IfOk result (λ bound. IsBound (type_of dtype.now) e.now bound) }
    ensures formed { OnOk result (HasFormedLiterals e.now) }
    ensures refused { IfErr result (IsRuleError false) }
{
    match bind_expression(alloc, e, dtype) {
        Ok(bound) => Ok(bound),
        Err(error) => Err(rule_error(error)),
    }
}

// The type of an expression, nullability aside, or its first fault.
#[cycle(check)]
fn check(dtype: &DType, e: &Expression) -> Result<Leaf, TableError>
    ensures { IsChecked (type_of dtype.now) e.now result }
{
    match &e.node {
        Node::Literal(value) => check_literal(value),
        Node::Column(path) => check_column(dtype, path),
        Node::Compare(_, x, y) => {
            let (left, right) = check_both(dtype, x, y)?;
            check_same(left, right)
        }
        Node::And(x, y) => {
            let (left, right) = check_both(dtype, x, y)?;
            check_booleans(left, right)
        }
        Node::Or(x, y) => {
            let (left, right) = check_both(dtype, x, y)?;
            check_booleans(left, right)
        }
        Node::Not(x) => {
            let input = check(dtype, x)?;
            check_boolean(input)
        }
        Node::IsNull(x) => {
            check(dtype, x)?;
            Ok(Leaf::Bool)
        }
        Node::IsNotNull(x) => {
            check(dtype, x)?;
            Ok(Leaf::Bool)
        }
        Node::IsNan(x) => {
            check(dtype, x)?;
            Err(TableError::UnsupportedPredicate)
        }
        Node::Between(x, lower, upper, _) => {
            let value = check(dtype, x)?;
            let (lower, upper) = check_both(dtype, lower, upper)?;
            check_range(value, lower, upper)
        }
        Node::Like(x, pattern, options) => {
            let (value, form) = check_both(dtype, x, pattern)?;
            check_like(value, form, pattern, *options)
        }
        Node::RowCount => Err(TableError::UnsupportedPredicate),
        Node::Stat(_, x) => {
            check(dtype, x)?;
            Err(TableError::Placeholder)
        }
    }
}

// The first fault decides, that of the left before that of the right.
#[cycle(check)]
fn check_both(
    dtype: &DType,
    left: &Expression,
    right: &Expression,
) -> Result<(Leaf, Leaf), TableError>
    ensures { AreChecked (type_of dtype.now) left.now right.now result }
{
    let first = check(dtype, left)?;
    let second = check(dtype, right)?;
    Ok((first, second))
}

// A literal is refused unless its type is one that predicates compare.
#[tactic(auto, using(crate::proofs::Checks::of_literals))]
fn check_literal(value: &Scalar) -> Result<Leaf, TableError>
    ensures { (k : LogicalType) (c : Content)
        → IsChecked k (literal (scalar_type value.now) c) result }
{
    match class_of(value.dtype()) {
        TypeClass::Leaf(leaf) => Ok(leaf),
        TypeClass::Float => Err(TableError::UnsupportedPredicate),
        TypeClass::Decimal => Err(TableError::UnsupportedPredicate),
        TypeClass::Other => Err(TableError::UnsupportedPredicate),
    }
}

// A column is refused where it isn't there, and else where predicates don't compare its type.
#[tactic(auto, using(crate::proofs::Checks::of_columns))]
fn check_column(dtype: &DType, path: &FieldNames) -> Result<Leaf, TableError>
    ensures { IsChecked (type_of dtype.now) (column path.now) result }
{
    match column_class(dtype, path) {
        Some(TypeClass::Leaf(leaf)) => Ok(leaf),
        Some(TypeClass::Float) => Err(TableError::NotALeaf),
        Some(TypeClass::Decimal) => Err(TableError::NotALeaf),
        Some(TypeClass::Other) => Err(TableError::NotALeaf),
        None => Err(TableError::UnknownColumn),
    }
}

fn check_same(left: Leaf, right: Leaf) -> Result<Leaf, TableError>
    ensures { IsSameOf left right result }
{
    if left == right {
        Ok(Leaf::Bool)
    } else {
        Err(TableError::UnequalTypes)
    }
}

fn check_range(value: Leaf, lower: Leaf, upper: Leaf) -> Result<Leaf, TableError>
    ensures { IsRangeOf value lower upper result }
{
    check_same(value, lower)?;
    check_same(value, upper)
}

fn check_boolean(input: Leaf) -> Result<Leaf, TableError>
    ensures { result ≡ truth_of input }
{
    match input {
        Leaf::Bool => Ok(Leaf::Bool),
        Leaf::Primitive(_) | Leaf::Utf8 | Leaf::Binary => Err(TableError::NotBoolean),
    }
}

// `value` and `form` are the types of the two sides.
fn check_like(
    value: Leaf,
    form: Leaf,
    pattern: &Expression,
    options: LikeOptions,
) -> Result<Leaf, TableError>
    ensures { result ≡ like_of value form (is_supported_like pattern.now options.case_insensitive) }
{
    let is_supported = is_supported(pattern, options);
    match (value, form) {
        (Leaf::Utf8, Leaf::Utf8) => {
            if is_supported {
                Ok(Leaf::Bool)
            } else {
                Err(TableError::UnsupportedLike)
            }
        }
        (Leaf::Bool | Leaf::Primitive(_) | Leaf::Binary, _) => Err(TableError::UnequalTypes),
        (Leaf::Utf8, Leaf::Bool | Leaf::Primitive(_) | Leaf::Binary) => {
            Err(TableError::UnequalTypes)
        }
    }
}

// The string, where it is a literal one.
fn literal_text(e: &Expression) -> Option<&BufferString>
    ensures { option_copied result ≡ literal_text e.now }
{
    match &e.node {
        Node::Literal(value) => value.value()?.as_utf8(),
        Node::Column(_) => None,
        Node::Compare(_, _, _) => None,
        Node::And(_, _) => None,
        Node::Or(_, _) => None,
        Node::Not(_) => None,
        Node::IsNull(_) => None,
        Node::IsNotNull(_) => None,
        Node::IsNan(_) => None,
        Node::Between(_, _, _, _) => None,
        Node::Like(_, _, _) => None,
        Node::RowCount => None,
        Node::Stat(_, _) => None,
    }
}

#[tactic(auto, using(crate::proofs::Checks::supported))]
fn is_supported(pattern: &Expression, options: LikeOptions) -> bool
    ensures { result ≡ is_supported_like pattern.now options.case_insensitive }
{
    match literal_text(pattern) {
        Some(text) => !options.case_insensitive && !has_backslash(text.as_str()),
        None => false,
    }
}

fn check_booleans(left: Leaf, right: Leaf) -> Result<Leaf, TableError>
    ensures { result ≡ truths_of left right }
{
    match left {
        Leaf::Bool => match right {
            Leaf::Bool => Ok(Leaf::Bool),
            Leaf::Primitive(_) | Leaf::Utf8 | Leaf::Binary => Err(TableError::NotBoolean),
        },
        Leaf::Primitive(_) | Leaf::Utf8 | Leaf::Binary => Err(TableError::NotBoolean),
    }
}
