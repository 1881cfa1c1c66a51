//! Predicates over rows, and proofs over statistics, as trees.
//!
//! The functions here make them from the leaves up; `bind` tests one against a type before it is
//! used on rows.
ghost use Rattle.std.specs.Prelude.{◌≡◌, ◌∷◌, map, IfOk, IfSome, IfNone, None, []};
ghost use Rattle.vortex_model_table.specs.Expression.{literal, column, compare, both, either, negation, is_null, is_not_null, is_nan, between, like, row_count, equal, not_equal, greater, at_least, less, at_most, statistic};
ghost use Rattle.vortex_scalar_core.specs.Scalar.{scalar_type, scalar_content};
ghost use Rattle.vortex_stats_expr.specs.TreeOf.{tree_of};
ghost use Rattle.vortex_stats_expr.specs.Tree.{combined, comparison_of, is_strict, path_of, scalar_fn_of};
ghost use Rattle.vortex_stats_expr.specs.Aggregate.{aggregate_of};

use crate::aggregate::AggregateFn;
use crate::operator::{Comparison, Operator};
use crate::options::{BetweenOptions, LikeOptions};
use crate::scalar_fn::ScalarFnId;
use std::alloc::{AllocError, Global};
use std::marker::Model;
use vortex_dtype_ptype::field_names::FieldNames;
use vortex_scalar_core::scalar::Scalar;

/// An expression over the rows of a table, as Vortex's `Expression`. It may be of any form and name
/// any column: `bind` refuses what has no meaning. Contracts see it as a tree.
#[cycle(expression)]
#[derive(Drop)]
pub struct Expression {
    pub node: Node,
}

/// The operator of an expression, with its operands.
#[cycle(expression)]
pub enum Node {
    Literal(Scalar),
    Column(FieldNames),
    Compare(Comparison, Box<Expression>, Box<Expression>),
    And(Box<Expression>, Box<Expression>),
    Or(Box<Expression>, Box<Expression>),
    Not(Box<Expression>),
    IsNull(Box<Expression>),
    IsNotNull(Box<Expression>),
    IsNan(Box<Expression>),
    /// The value, the lower end and the upper end.
    Between(Box<Expression>, Box<Expression>, Box<Expression>, BetweenOptions),
    /// The value and the pattern.
    Like(Box<Expression>, Box<Expression>, LikeOptions),
    /// The number of rows, which occurs in proofs.
    RowCount,
    Stat(AggregateFn, Box<Expression>),
}

impl Drop for Node {
    #[cycle(drop_node)]
    fn drop(self) {
        match self {
            Node::Literal(_value) => {}
            Node::Column(_path) => {}
            Node::Compare(_, _left, _right) => {}
            Node::And(_left, _right) => {}
            Node::Or(_left, _right) => {}
            Node::Not(_input) => {}
            Node::IsNull(_input) => {}
            Node::IsNotNull(_input) => {}
            Node::IsNan(_input) => {}
            Node::Between(_value, _lower, _upper, _) => {}
            Node::Like(_value, _pattern, _) => {}
            Node::RowCount => {}
            Node::Stat(_, _input) => {}
        }
    }
}

impl Model for Expression {
    ghost use Rattle.vortex_model_table.specs.Expression.{Expression as Tree};
    ghost use Rattle.vortex_stats_expr.specs.TreeCode.{tree_code, size_of};

    ghost Value = { Tree };

    ghost coded = { tree_code };

    ghost use Rattle.vortex_stats_expr.specs.TreeOf.{tree_of};

    ghost view = { λ a. tree_of a.node };

    ghost size = { size_of };

    ghost use Rattle.vortex_stats_expr.specs.TreeFalls.{depth_le-size};

    ghost size_decreases = { λ a h. depth_le-size a.node };
}

/// A literal: the value, with its type, at every row.
pub fn lit(value: Scalar) -> Expression
    ensures { result ≡ literal (scalar_type value) (scalar_content value) }
{
    Expression {
        node: Node::Literal(value),
    }
}

/// The column at a path of names, which leads from the row through records.
pub fn col(path: FieldNames) -> Expression
    ensures { result ≡ column path }
{
    Expression {
        node: Node::Column(path),
    }
}

/// The column of this name.
pub fn column(alloc: Global, name: &str) -> Result<Expression, AllocError>
    ensures { IfOk result (λ e. e ≡ column (name.now ∷ [])) }
{
    let names = [name];
    column_at(alloc, &names)
}

/// The column at the path of these names, which leads from the row through records.
pub fn column_at(alloc: Global, path: &[&str]) -> Result<Expression, AllocError>
    ensures { IfOk result (λ e. e ≡ column (map (λ name. name.now) path.now)) }
{
    let names = FieldNames::from_names(alloc, path)?;
    Ok(col(names))
}

/// The row itself, a record.
pub fn root(alloc: Global) -> Expression
    ensures { result ≡ column [] }
{
    col(FieldNames::new(Vec::new(alloc)))
}

fn boxed(
    alloc: Global,
    left: Expression,
    right: Expression,
) -> Result<(Box<Expression>, Box<Expression>), AllocError>
    ensures left { IfOk result (λ boxes. boxes.0.value ≡ left) }
    ensures right { IfOk result (λ boxes. boxes.1.value ≡ right) }
{
    let first = Box::new(alloc, left)?;
    let second = Box::new(alloc, right)?;
    Ok((first, second))
}

/// A comparison of two expressions.
pub fn compare(
    alloc: Global,
    comparison: Comparison,
    left: Expression,
    right: Expression,
) -> Result<Expression, AllocError>
    ensures { IfOk result (λ e. e ≡ compare (comparison_of comparison) left right) }
{
    let (left, right) = boxed(alloc, left, right)?;
    Ok(Expression {
        node: Node::Compare(comparison, left, right),
    })
}

/// Whether two values are equal. A comparison with null is null.
pub fn eq(alloc: Global, left: Expression, right: Expression) -> Result<Expression, AllocError>
    ensures { IfOk result (λ e. e ≡ compare equal left right) }
{
    compare(alloc, Comparison::Eq, left, right)
}

/// Whether two values differ. A comparison with null is null.
pub fn not_eq(alloc: Global, left: Expression, right: Expression) -> Result<Expression, AllocError>
    ensures { IfOk result (λ e. e ≡ compare not_equal left right) }
{
    compare(alloc, Comparison::NotEq, left, right)
}

/// Whether the left value is greater. A comparison with null is null.
pub fn gt(alloc: Global, left: Expression, right: Expression) -> Result<Expression, AllocError>
    ensures { IfOk result (λ e. e ≡ compare greater left right) }
{
    compare(alloc, Comparison::Gt, left, right)
}

/// Whether the left value is greater, or they are equal. A comparison with null is null.
pub fn gt_eq(alloc: Global, left: Expression, right: Expression) -> Result<Expression, AllocError>
    ensures { IfOk result (λ e. e ≡ compare at_least left right) }
{
    compare(alloc, Comparison::Gte, left, right)
}

/// Whether the left value is less. A comparison with null is null.
pub fn lt(alloc: Global, left: Expression, right: Expression) -> Result<Expression, AllocError>
    ensures { IfOk result (λ e. e ≡ compare less left right) }
{
    compare(alloc, Comparison::Lt, left, right)
}

/// Whether the left value is less, or they are equal. A comparison with null is null.
pub fn lt_eq(alloc: Global, left: Expression, right: Expression) -> Result<Expression, AllocError>
    ensures { IfOk result (λ e. e ≡ compare at_most left right) }
{
    compare(alloc, Comparison::Lte, left, right)
}

/// AND in Kleene's logic: false where a side is false, and null where none is and one is null.
pub fn and(alloc: Global, left: Expression, right: Expression) -> Result<Expression, AllocError>
    ensures { IfOk result (λ e. e ≡ both left right) }
{
    let (left, right) = boxed(alloc, left, right)?;
    Ok(Expression {
        node: Node::And(left, right),
    })
}

/// OR in Kleene's logic: true where a side is true, and null where none is and one is null.
pub fn or(alloc: Global, left: Expression, right: Expression) -> Result<Expression, AllocError>
    ensures { IfOk result (λ e. e ≡ either left right) }
{
    let (left, right) = boxed(alloc, left, right)?;
    Ok(Expression {
        node: Node::Or(left, right),
    })
}

/// The expression that the function of the operator makes, as Vortex's `Binary`.
pub fn binary(
    alloc: Global,
    operator: Operator,
    left: Expression,
    right: Expression,
) -> Result<Expression, AllocError>
    ensures { IfOk result (λ e. e ≡ combined operator left right) }
{
    match operator {
        Operator::Eq => eq(alloc, left, right),
        Operator::NotEq => not_eq(alloc, left, right),
        Operator::Gt => gt(alloc, left, right),
        Operator::Gte => gt_eq(alloc, left, right),
        Operator::Lt => lt(alloc, left, right),
        Operator::Lte => lt_eq(alloc, left, right),
        Operator::And => and(alloc, left, right),
        Operator::Or => or(alloc, left, right),
    }
}

/// NOT in Kleene's logic: null where the input is null.
pub fn not(alloc: Global, input: Expression) -> Result<Expression, AllocError>
    ensures { IfOk result (λ e. e ≡ negation input) }
{
    Ok(Expression {
        node: Node::Not(Box::new(alloc, input)?),
    })
}

/// Whether the value is null. It is never null itself.
pub fn is_null(alloc: Global, input: Expression) -> Result<Expression, AllocError>
    ensures { IfOk result (λ e. e ≡ is_null input) }
{
    Ok(Expression {
        node: Node::IsNull(Box::new(alloc, input)?),
    })
}

/// Whether the value is not null. It is never null itself.
pub fn is_not_null(alloc: Global, input: Expression) -> Result<Expression, AllocError>
    ensures { IfOk result (λ e. e ≡ is_not_null input) }
{
    Ok(Expression {
        node: Node::IsNotNull(Box::new(alloc, input)?),
    })
}

/// Whether a float is NaN. Proofs are made of it, and no scan takes it.
pub fn is_nan(alloc: Global, input: Expression) -> Result<Expression, AllocError>
    ensures { IfOk result (λ e. e ≡ is_nan input) }
{
    Ok(Expression {
        node: Node::IsNan(Box::new(alloc, input)?),
    })
}

/// Whether the value lies between the lower and the upper end: AND of the two comparisons. The
/// options are, of each end, whether it is inside.
pub fn between(
    alloc: Global,
    value: Expression,
    lower: Expression,
    upper: Expression,
    options: BetweenOptions,
) -> Result<Expression, AllocError>
    ensures { IfOk result (λ e. e ≡ between value lower upper (is_strict options.lower_strict)
        (is_strict options.upper_strict)) }
{
    let (lower, upper) = boxed(alloc, lower, upper)?;
    Ok(Expression {
        node: Node::Between(Box::new(alloc, value)?, lower, upper, options),
    })
}

/// Whether the whole string matches the pattern, in which `%` matches any run of characters and `_`
/// any one. The options hold whether the answer is negated and whether case is ignored.
pub fn like(
    alloc: Global,
    value: Expression,
    pattern: Expression,
    options: LikeOptions,
) -> Result<Expression, AllocError>
    ensures { IfOk result (λ e. e ≡ like value pattern options.negated options.case_insensitive) }
{
    let (value, pattern) = boxed(alloc, value, pattern)?;
    Ok(Expression {
        node: Node::Like(value, pattern, options),
    })
}

/// The number of rows that a proof is about, a u64. A predicate over rows may hold none.
pub fn row_count() -> Expression
    ensures { result ≡ row_count }
{
    Expression {
        node: Node::RowCount,
    }
}

/// A placeholder, in a proof, for a statistic of the values of an expression. A binder replaces it
/// by the statistic of a chunk; a predicate over rows may hold none.
pub fn stat(
    alloc: Global,
    aggregate: AggregateFn,
    input: Expression,
) -> Result<Expression, AllocError>
    ensures { IfOk result (λ e. e ≡ statistic input (aggregate_of aggregate)) }
{
    Ok(Expression {
        node: Node::Stat(aggregate, Box::new(alloc, input)?),
    })
}

impl Expression {
    /// The path of the column, where the expression is a column and nothing else. Binders ask it of
    /// the input of a placeholder.
    pub fn as_column(&self) -> Option<&FieldNames>
        ensures path { IfSome result (λ path. self.now ≡ column path.now) }
        ensures none { IfNone result (path_of self.now ≡ None) }
    {
        match &self.node {
            Node::Literal(_) => None,
            Node::Column(path) => Some(path),
            Node::Compare(_, _, _) => None,
            Node::And(_, _) => None,
            Node::Or(_, _) => None,
            Node::Not(_) => None,
            Node::IsNull(_) => None,
            Node::IsNotNull(_) => None,
            Node::IsNan(_) => None,
            Node::Between(_, _, _, _) => None,
            Node::Like(_, _, _) => None,
            Node::RowCount => None,
            Node::Stat(_, _) => None,
        }
    }

    /// The function of the root. Rules that rewrite predicates are chosen by it.
    pub fn scalar_fn_id(&self) -> ScalarFnId
        ensures { result ≡ scalar_fn_of self.now }
    {
        match &self.node {
            Node::Literal(_) => ScalarFnId::Literal,
            Node::Column(_) => ScalarFnId::Column,
            Node::Compare(_, _, _) => ScalarFnId::Binary,
            Node::And(_, _) => ScalarFnId::Binary,
            Node::Or(_, _) => ScalarFnId::Binary,
            Node::Not(_) => ScalarFnId::Not,
            Node::IsNull(_) => ScalarFnId::IsNull,
            Node::IsNotNull(_) => ScalarFnId::IsNotNull,
            Node::IsNan(_) => ScalarFnId::IsNan,
            Node::Between(_, _, _, _) => ScalarFnId::Between,
            Node::Like(_, _, _) => ScalarFnId::Like,
            Node::RowCount => ScalarFnId::RowCount,
            Node::Stat(_, _) => ScalarFnId::Stat,
        }
    }
}

impl Clone for Expression {
    ghost is_clone = { λ old new. new ≡ old };

    fn clone(&self) -> Result<Expression, AllocError> {
        copy_of(&self.node)
    }
}

impl Clone for Node {
    ghost is_clone = { λ old new. tree_of new ≡ tree_of old };

    fn clone(&self) -> Result<Node, AllocError> {
        let copy = copy_of(self)?;
        Ok(copy.node)
    }
}

#[cycle(copy)]
fn copy_of(node: &Node) -> Result<Expression, AllocError>
    ensures { IfOk result (λ copy. copy ≡ tree_of node.now) }
{
    match node {
        Node::Literal(value) => copy_literal(value),
        Node::Column(path) => copy_column(path),
        Node::Compare(comparison, x, y) => {
            let (left, right) = copy_both(x, y)?;
            compare(*Box::allocator(x), *comparison, left, right)
        }
        Node::And(x, y) => {
            let (left, right) = copy_both(x, y)?;
            and(*Box::allocator(x), left, right)
        }
        Node::Or(x, y) => {
            let (left, right) = copy_both(x, y)?;
            or(*Box::allocator(x), left, right)
        }
        Node::Not(x) => {
            let input = copy_of(&x.node)?;
            not(*Box::allocator(x), input)
        }
        Node::IsNull(x) => {
            let input = copy_of(&x.node)?;
            is_null(*Box::allocator(x), input)
        }
        Node::IsNotNull(x) => {
            let input = copy_of(&x.node)?;
            is_not_null(*Box::allocator(x), input)
        }
        Node::IsNan(x) => {
            let input = copy_of(&x.node)?;
            is_nan(*Box::allocator(x), input)
        }
        Node::Between(x, lower, upper, options) => {
            copy_range(*Box::allocator(x), x, lower, upper, *options)
        }
        Node::Like(x, pattern, options) => {
            let (value, pattern) = copy_both(x, pattern)?;
            like(*Box::allocator(x), value, pattern, *options)
        }
        Node::RowCount => Ok(row_count()),
        Node::Stat(aggregate, x) => {
            let input = copy_of(&x.node)?;
            stat(*Box::allocator(x), *aggregate, input)
        }
    }
}

#[cycle(copy)]
fn copy_range(
    alloc: Global,
    value: &Expression,
    lower: &Expression,
    upper: &Expression,
    options: BetweenOptions,
) -> Result<Expression, AllocError>
    ensures { IfOk result (λ copy. copy ≡ between value.now lower.now upper.now
        (is_strict options.lower_strict) (is_strict options.upper_strict)) }
{
    let (lower, upper) = copy_both(lower, upper)?;
    let value = copy_of(&value.node)?;
    between(alloc, value, lower, upper, options)
}

#[cycle(copy)]
fn copy_both(left: &Expression, right: &Expression) -> Result<(Expression, Expression), AllocError>
    ensures left { IfOk result (λ copies. copies.0 ≡ left.now) }
    ensures right { IfOk result (λ copies. copies.1 ≡ right.now) }
{
    let first = copy_of(&left.node)?;
    let second = copy_of(&right.node)?;
    Ok((first, second))
}

fn copy_literal(value: &Scalar) -> Result<Expression, AllocError>
    ensures { IfOk result
        (λ copy. copy ≡ literal (scalar_type value.now) (scalar_content value.now)) }
{
    Ok(lit(value.clone()?))
}

fn copy_column(path: &FieldNames) -> Result<Expression, AllocError>
    ensures { IfOk result (λ copy. copy ≡ column path.now) }
{
    Ok(col(path.clone()?))
}
