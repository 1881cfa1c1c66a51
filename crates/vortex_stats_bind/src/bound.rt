//! Predicates and proofs whose columns are resolved to positions, and their values.
//!
//! One walk evaluates both. It is handed the values of columns and placeholders: at a row the row's
//! values, and of a zone of rows its statistics.
ghost use Rattle.std.specs.Prelude.{◌≡◌, IfOk, IfSome, IfNone, None, Some};
ghost use Rattle.vortex_model.specs.Content.{content_of};
ghost use Rattle.vortex_model.specs.Path.{at, part_of};
ghost use Rattle.vortex_model_table.specs.Truth.{is_true};
ghost use Rattle.vortex_dtype_core.specs.View.{type_of};
ghost use Rattle.vortex_scalar_core.specs.Scalar.{scalar_type, scalar_content};
ghost use Rattle.vortex_scalar_value.specs.View.{raw_of, content_at};
ghost use Rattle.vortex_stats_bind.specs.Bound.{Provided, fixed, test, each, some, opposite, null_test, value_test, nan_test, range_test, match_test, count_of_rows, placeholder, place_of, evaluate_bound, bound_value};
ghost use Rattle.vortex_stats_bind.specs.OperandValue.{operand_value};
ghost use Rattle.vortex_stats_expr.specs.Tree.{comparison_of, is_strict};
ghost use Rattle.vortex_stats_expr.specs.Aggregate.{aggregate_of};

use crate::value::{
    Value, compare_values, is_between, is_null, kleene_and, kleene_not, kleene_or, like_values,
    read, truth_of, truth_value,
};
use std::alloc::{AllocError, Global};
use std::marker::Model;
use vortex_dtype_core::dtype::DType;
use vortex_dtype_ptype::field_names::FieldNames;
use vortex_scalar_core::scalar::Scalar;
use vortex_scalar_value::scalar_value::ScalarValue;
use vortex_stats_expr::aggregate::AggregateFn;
use vortex_stats_expr::operator::Comparison;
use vortex_stats_expr::options::{BetweenOptions, LikeOptions};

/// A predicate or a proof over rows of one type with its columns resolved, as Vortex's
/// `BoundExpression`. `bind` makes one of an expression, and the functions of `make` one of others;
/// each tests the types. Contracts see it as a tree with positions and types at its leaves.
#[cycle(bound)]
#[derive(Drop)]
pub struct BoundExpression {
    /// The form, with the parts that it is made of.
    pub node: BoundNode,
}

/// A column of rows of one type.
#[derive(Clone, Drop)]
pub struct BoundColumn {
    /// The names of the fields that lead to it from the row.
    pub names: FieldNames,
    /// The index of each of these fields in the record before it.
    pub positions: Vec<usize>,
    /// The type of its values, nullable also where a record on the way is.
    pub dtype: DType,
}

/// The forms of bound expressions.
#[cycle(bound)]
pub enum BoundNode {
    Literal(Scalar),
    Column(BoundColumn),
    Compare(Comparison, Box<BoundExpression>, Box<BoundExpression>),
    And(Box<BoundExpression>, Box<BoundExpression>),
    Or(Box<BoundExpression>, Box<BoundExpression>),
    Not(Box<BoundExpression>),
    IsNull(Box<BoundExpression>),
    IsNotNull(Box<BoundExpression>),
    IsNan(Box<BoundExpression>),
    // The value, the lower end and the upper end.
    Between(Box<BoundExpression>, Box<BoundExpression>, Box<BoundExpression>, BetweenOptions),
    // The value and the pattern.
    Like(Box<BoundExpression>, Box<BoundExpression>, LikeOptions),
    RowCount,
    // The values that the statistic is of, and the type of the statistic.
    Stat(AggregateFn, Box<BoundExpression>, DType),
}

impl Drop for BoundNode {
    #[cycle(drop_bound_node)]
    fn drop(self) {
        match self {
            BoundNode::Literal(_value) => {}
            BoundNode::Column(_column) => {}
            BoundNode::Compare(_, _left, _right) => {}
            BoundNode::And(_left, _right) => {}
            BoundNode::Or(_left, _right) => {}
            BoundNode::Not(_input) => {}
            BoundNode::IsNull(_input) => {}
            BoundNode::IsNotNull(_input) => {}
            BoundNode::IsNan(_input) => {}
            BoundNode::Between(_value, _lower, _upper, _) => {}
            BoundNode::Like(_value, _pattern, _) => {}
            BoundNode::RowCount => {}
            BoundNode::Stat(_, _input, _dtype) => {}
        }
    }
}

impl Model for BoundExpression {
    ghost use Rattle.vortex_stats_bind.specs.Bound.{Bound, bound_size};
    ghost use Rattle.vortex_stats_bind.specs.BoundCode.{bound_code};

    ghost Value = { Bound };

    ghost coded = { bound_code };

    ghost use Rattle.vortex_stats_bind.specs.BoundTree.{bound_tree};

    ghost view = { λ a. bound_tree a.node };

    ghost size = { bound_size };

    ghost use Rattle.vortex_stats_bind.specs.BoundFalls.{depth_le-size};

    ghost size_decreases = { λ a h. depth_le-size a.node };
}

impl BoundExpression {
    ghost use Rattle.vortex_stats_bind.specs.BoundTree.{bound_tree};

    // What is bound is handed on in boxes, in which it ends up anyway, since every level of an
    // expression would move it.
    pub(crate) fn boxed(alloc: Global, node: BoundNode) -> Result<Box<BoundExpression>, AllocError>
        ensures { IfOk result (λ bound. bound.value ≡ bound_tree node) }
    {
        Ok(Box::new(alloc, BoundExpression { node })?)
    }
}

/// The comparison of two expressions.
pub fn bound_compare(
    alloc: Global,
    comparison: Comparison,
    left: Box<BoundExpression>,
    right: Box<BoundExpression>,
) -> Result<Box<BoundExpression>, AllocError>
    ensures { IfOk result
        (λ bound. bound.value ≡ test (comparison_of comparison) left.value right.value) }
{
    BoundExpression::boxed(alloc, BoundNode::Compare(comparison, left, right))
}

/// AND of two expressions.
pub fn bound_and(
    alloc: Global,
    left: Box<BoundExpression>,
    right: Box<BoundExpression>,
) -> Result<Box<BoundExpression>, AllocError>
    ensures { IfOk result (λ bound. bound.value ≡ each left.value right.value) }
{
    BoundExpression::boxed(alloc, BoundNode::And(left, right))
}

/// OR of two expressions.
pub fn bound_or(
    alloc: Global,
    left: Box<BoundExpression>,
    right: Box<BoundExpression>,
) -> Result<Box<BoundExpression>, AllocError>
    ensures { IfOk result (λ bound. bound.value ≡ some left.value right.value) }
{
    BoundExpression::boxed(alloc, BoundNode::Or(left, right))
}

/// NOT of an expression.
pub fn bound_not(
    alloc: Global,
    input: Box<BoundExpression>,
) -> Result<Box<BoundExpression>, AllocError>
    ensures { IfOk result (λ bound. bound.value ≡ opposite input.value) }
{
    BoundExpression::boxed(alloc, BoundNode::Not(input))
}

/// IS NULL of an expression.
pub fn bound_is_null(
    alloc: Global,
    input: Box<BoundExpression>,
) -> Result<Box<BoundExpression>, AllocError>
    ensures { IfOk result (λ bound. bound.value ≡ null_test input.value) }
{
    BoundExpression::boxed(alloc, BoundNode::IsNull(input))
}

/// IS NOT NULL of an expression.
pub fn bound_is_not_null(
    alloc: Global,
    input: Box<BoundExpression>,
) -> Result<Box<BoundExpression>, AllocError>
    ensures { IfOk result (λ bound. bound.value ≡ value_test input.value) }
{
    BoundExpression::boxed(alloc, BoundNode::IsNotNull(input))
}

pub(crate) fn bound_between(
    alloc: Global,
    value: Box<BoundExpression>,
    lower: Box<BoundExpression>,
    upper: Box<BoundExpression>,
    options: BetweenOptions,
) -> Result<Box<BoundExpression>, AllocError>
    ensures { IfOk result (λ bound. bound.value ≡ range_test value.value lower.value upper.value
        (is_strict options.lower_strict) (is_strict options.upper_strict)) }
{
    BoundExpression::boxed(alloc, BoundNode::Between(value, lower, upper, options))
}

pub(crate) fn bound_is_nan(
    alloc: Global,
    input: Box<BoundExpression>,
) -> Result<Box<BoundExpression>, AllocError>
    ensures { IfOk result (λ bound. bound.value ≡ nan_test input.value) }
{
    BoundExpression::boxed(alloc, BoundNode::IsNan(input))
}

/// LIKE of two expressions: the value and the pattern.
pub fn bound_like(
    alloc: Global,
    value: Box<BoundExpression>,
    pattern: Box<BoundExpression>,
    options: LikeOptions,
) -> Result<Box<BoundExpression>, AllocError>
    ensures { IfOk result (λ bound. bound.value ≡ match_test value.value pattern.value
        options.negated options.case_insensitive) }
{
    BoundExpression::boxed(alloc, BoundNode::Like(value, pattern, options))
}

/// The number of rows that a proof is about.
pub fn bound_row_count(alloc: Global) -> Result<Box<BoundExpression>, AllocError>
    ensures { IfOk result (λ bound. bound.value ≡ count_of_rows) }
{
    BoundExpression::boxed(alloc, BoundNode::RowCount)
}

/// A placeholder for a statistic, of this type, of the values of an expression.
pub fn bound_stat(
    alloc: Global,
    aggregate: AggregateFn,
    input: Box<BoundExpression>,
    dtype: DType,
) -> Result<Box<BoundExpression>, AllocError>
    ensures { IfOk result (λ bound. bound.value
        ≡ placeholder input.value (aggregate_of aggregate) (type_of dtype)) }
{
    BoundExpression::boxed(alloc, BoundNode::Stat(aggregate, input, dtype))
}

/// A literal.
pub fn bound_literal(alloc: Global, value: Scalar) -> Result<Box<BoundExpression>, AllocError>
    ensures { IfOk result
        (λ bound. bound.value ≡ fixed (scalar_type value) (scalar_content value)) }
{
    BoundExpression::boxed(alloc, BoundNode::Literal(value))
}

/// The values of the columns and the placeholders of a bound expression, read in place.
pub trait Operands {
    ghost provided: { Self → Provided };

    /// The value of the column at these positions.
    fn column<'a>(&'a self, path: &[usize]) -> Value<'a>
        ensures { operand_value result ≡ (provided self.now).columns path.now };

    /// The value of a statistic of the values of `input`, null where it is not known.
    fn statistic<'a>(&'a self, input: &BoundExpression, aggregate: AggregateFn) -> Value<'a>
        ensures { operand_value result
            ≡ (provided self.now).statistics input.now (aggregate_of aggregate) };

    /// The number of rows that a proof is about.
    fn rows(&self) -> u64
        ensures { result ≡ (provided self.now).rows };
}

/// One row is the source of its columns, and of no statistic.
impl Operands for ScalarValue {
    ghost use Rattle.vortex_model.specs.Content.{content_of};
    ghost use Rattle.vortex_scalar_value.specs.View.{raw_of};
    ghost use Rattle.vortex_stats_bind.specs.Bound.{in_row};

    ghost provided = { λ row. in_row (content_of (raw_of row)) };

    fn column<'a>(&'a self, path: &[usize]) -> Value<'a> {
        read(part_at(self, path))
    }

    fn statistic<'a>(&'a self, _input: &BoundExpression, _aggregate: AggregateFn) -> Value<'a> {
        Value::Null
    }

    fn rows(&self) -> u64 {
        1
    }
}

/// The value of a bound expression, borrowed from it or from the values of its columns and
/// placeholders.
pub fn value_of<'a, S: Operands>(e: &'a BoundExpression, source: &'a S) -> Value<'a>
    ensures { operand_value result ≡ evaluate_bound (S.provided source.now) e.now }
{
    match &e.node {
        BoundNode::Literal(value) => read(value.value()),
        BoundNode::Column(column) => source.column(&column.positions),
        BoundNode::Compare(comparison, x, y) => truth_value(compare_values(
            *comparison,
            value_of(x, source),
            value_of(y, source),
        )),
        BoundNode::And(x, y) => truth_value(kleene_and(value_of(x, source), value_of(y, source))),
        BoundNode::Or(x, y) => truth_value(kleene_or(value_of(x, source), value_of(y, source))),
        BoundNode::Not(x) => truth_value(kleene_not(value_of(x, source))),
        BoundNode::IsNull(x) => Value::Truth(is_null(value_of(x, source))),
        BoundNode::IsNotNull(x) => Value::Truth(!is_null(value_of(x, source))),
        BoundNode::Between(x, lower, upper, options) => truth_value(is_between(
            value_of(x, source),
            value_of(lower, source),
            value_of(upper, source),
            *options,
        )),
        BoundNode::IsNan(_) => Value::Null,
        BoundNode::Like(x, pattern, options) => {
            if options.case_insensitive {
                return Value::Null;
            }
            truth_value(like_values(
                value_of(x, source),
                value_of(pattern, source),
                options.negated,
            ))
        }
        BoundNode::RowCount => Value::Count(source.rows()),
        BoundNode::Stat(aggregate, input, _) => source.statistic(input, *aggregate),
    }
}

impl BoundExpression {
    /// Whether the expression is true, neither false nor null, where its columns and placeholders
    /// have these values. It allocates nothing.
    #[tactic(auto, using(crate::proofs::Truths::is_true_by))]
    pub fn holds<S: Operands>(&self, source: &S) -> bool
        ensures { result ≡ is_true (evaluate_bound (S.provided source.now) self.now) }
    {
        truth_of(value_of(self, source)).unwrap_or(false)
    }

    /// Whether the predicate is true at a row of the type that it was bound to: neither false nor
    /// null. It allocates nothing.
    pub fn selects(&self, row: &ScalarValue) -> bool
        ensures { result ≡ is_true (bound_value self.now (content_of (raw_of row.now))) }
    {
        self.holds(row)
    }

    /// The positions of the column, where it is a column and nothing else. What answers
    /// placeholders asks it of their inputs.
    pub fn as_column(&self) -> Option<&[usize]>
        ensures path { IfSome result (λ path. place_of self.now ≡ Some path.now) }
        ensures none { IfNone result (place_of self.now ≡ None) }
    {
        match &self.node {
            BoundNode::Literal(_) => None,
            BoundNode::Column(column) => Some(column.positions.as_slice()),
            BoundNode::Compare(_, _, _) => None,
            BoundNode::And(_, _) => None,
            BoundNode::Or(_, _) => None,
            BoundNode::Not(_) => None,
            BoundNode::IsNull(_) => None,
            BoundNode::IsNotNull(_) => None,
            BoundNode::IsNan(_) => None,
            BoundNode::Between(_, _, _, _) => None,
            BoundNode::Like(_, _, _) => None,
            BoundNode::RowCount => None,
            BoundNode::Stat(_, _, _) => None,
        }
    }
}

/// The value of a row at these positions, each the index of a field in the record before it.
/// `None` is null, also for a part of a null record.
pub fn part_at<'a>(row: &'a ScalarValue, path: &[usize]) -> Option<&'a ScalarValue>
    ensures { content_at result ≡ at (content_of (raw_of row.now)) path.now }
{
    let mut current = Some(row);
    for index in path {
        current = member(current, *index);
    }
    current
}

#[tactic(auto, using(crate::proofs::Items::parts))]
fn member<'a>(value: Option<&'a ScalarValue>, index: usize) -> Option<&'a ScalarValue>
    ensures { content_at result ≡ part_of (content_at value.entry) index }
{
    value?.child_at(index)
}
