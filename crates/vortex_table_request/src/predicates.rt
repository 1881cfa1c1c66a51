//! Predicates of a scan from JSON. `Malformed` where an array has no form of `forms`, or an operand
//! is no predicate. Columns and types are not checked here: the table's `scan` refuses operands of
//! the wrong type, columns that don't exist, and forms that no scan takes.
ghost use Rattle.std.specs.Prelude.{◌≡◌, option_and_then};
ghost use Rattle.serde_json.specs.Find.{at};
ghost use Rattle.serde_json.specs.View.{view, items_view};
ghost use Rattle.vortex_dtype_core.specs.View.{type_of};
ghost use Rattle.vortex_stats_expr.specs.Tree.{is_strict};
ghost use Rattle.vortex_table_request.specs.Parsed.{Gives};
ghost use Rattle.vortex_table_request.specs.Where.{literal_at, literal_in, column_in, leaf_in, unary_in, flag_at, binary_in, between_in, predicate_in};

use crate::forms::{Binary, Form, Leaf, Unary, aggregate_named, read_form};
use crate::{ParseError, read_dtype, read_names, read_value};
use serde_json::Value;
use std::alloc::Global;
use vortex_dtype_core::dtype::DType;
use vortex_dtype_ptype::field_names::FieldNames;
use vortex_scalar_core::scalar::Scalar;
use vortex_stats_expr::expression::{
    Expression, between, binary, col, is_nan, is_not_null, is_null, like, lit, not, row_count, stat,
};
use vortex_stats_expr::options::{BetweenOptions, LikeOptions, StrictComparison};

// A literal of the type, if the type has its value.
fn read_literal_at(alloc: Global, dtype: DType, value: &Value) -> Result<Expression, ParseError>
    ensures { Gives (λ e. e) result (literal_at (type_of dtype) (view value.now)) }
{
    let content = read_value(value, alloc, &dtype)?;
    match Scalar::try_new(dtype, content) {
        Ok(scalar) => Ok(lit(scalar)),
        Err(_) => Err(ParseError::Malformed),
    }
}

fn read_literal(alloc: Global, value: &Value) -> Result<Expression, ParseError>
    ensures { Gives (λ e. e) result (literal_in (view value.now)) }
{
    let dtype = read_dtype(alloc, value.get(1).ok_or(ParseError::Malformed)?)?;
    read_literal_at(alloc, dtype, value.get(2).ok_or(ParseError::Malformed)?)
}

fn read_column(alloc: Global, value: &Value) -> Result<Expression, ParseError>
    ensures { Gives (λ e. e) result (column_in (view value.now)) }
{
    let items = value.as_array().ok_or(ParseError::Malformed)?;
    let names = match items.as_slice() {
        [] => Vec::new(alloc),
        [_, names @ ..] => read_names(alloc, names)?,
    };
    Ok(col(FieldNames::new(names)))
}

fn read_leaf(alloc: Global, leaf: Leaf, value: &Value) -> Result<Expression, ParseError>
    ensures { Gives (λ e. e) result (leaf_in leaf (view value.now)) }
{
    match leaf {
        Leaf::Literal => read_literal(alloc, value),
        Leaf::Column => read_column(alloc, value),
        Leaf::RowCount => Ok(row_count()),
    }
}

fn read_stat(alloc: Global, x: Expression, value: &Value) -> Result<Expression, ParseError>
    ensures { Gives (λ e. e) result (unary_in Unary.Stat x (view value.now)) }
{
    let aggregate = value
        .get(2)
        .and_then(Value::as_str)
        .and_then(aggregate_named)
        .ok_or(ParseError::Malformed)?;
    let placeholder = stat(alloc, aggregate, x)?;
    Ok(placeholder)
}

// A form with one operand, which was read.
fn read_unary(
    alloc: Global,
    unary: Unary,
    x: Expression,
    value: &Value,
) -> Result<Expression, ParseError>
    ensures { Gives (λ e. e) result (unary_in unary x (view value.now)) }
{
    let predicate = match unary {
        Unary::Not => not(alloc, x)?,
        Unary::IsNull => is_null(alloc, x)?,
        Unary::IsNotNull => is_not_null(alloc, x)?,
        Unary::IsNan => is_nan(alloc, x)?,
        Unary::Stat => read_stat(alloc, x, value)?,
    };
    Ok(predicate)
}

// The boolean at an index of an array.
fn read_flag_at(value: &Value, place: usize) -> Result<bool, ParseError>
    ensures { Gives (λ flag. flag) result (flag_at place (view value.now)) }
{
    let flag = value
        .get(place)
        .and_then(Value::as_bool)
        .ok_or(ParseError::Malformed)?;
    Ok(flag)
}

fn read_like(
    alloc: Global,
    x: Expression,
    pattern: Expression,
    value: &Value,
) -> Result<Expression, ParseError>
    ensures { Gives (λ e. e) result (binary_in Binary.Like x pattern (view value.now)) }
{
    let options = LikeOptions {
        negated: read_flag_at(value, 3)?,
        case_insensitive: read_flag_at(value, 4)?,
    };
    let predicate = like(alloc, x, pattern, options)?;
    Ok(predicate)
}

// A form with two operands, which were read.
fn read_binary(
    alloc: Global,
    form: Binary,
    x: Expression,
    y: Expression,
    value: &Value,
) -> Result<Expression, ParseError>
    ensures { Gives (λ e. e) result (binary_in form x y (view value.now)) }
{
    match form {
        Binary::Operator(operator) => {
            let predicate = binary(alloc, operator, x, y)?;
            Ok(predicate)
        }
        Binary::Like => read_like(alloc, x, y, value),
    }
}

fn strictness(strict: bool) -> StrictComparison
    ensures { is_strict result ≡ strict }
{
    if strict {
        StrictComparison::Strict
    } else {
        StrictComparison::NonStrict
    }
}

// `["between",x,lo,hi,lower_strict,upper_strict]`, whose operands were read.
fn read_between(
    alloc: Global,
    x: Expression,
    lower: Expression,
    upper: Expression,
    value: &Value,
) -> Result<Expression, ParseError>
    ensures { Gives (λ e. e) result (between_in x lower upper (view value.now)) }
{
    let options = BetweenOptions {
        lower_strict: strictness(read_flag_at(value, 4)?),
        upper_strict: strictness(read_flag_at(value, 5)?),
    };
    let predicate = between(alloc, x, lower, upper, options)?;
    Ok(predicate)
}

// The predicate at an index of an array.
#[cycle(predicate)]
fn read_operand(alloc: Global, value: &Value, place: usize) -> Result<Expression, ParseError>
    ensures { Gives (λ e. e) result (option_and_then predicate_in (at place (view value.now))) }
{
    match value.get(place) {
        Some(operand) => read_predicate(alloc, operand),
        None => Err(ParseError::Malformed),
    }
}

/// The predicate of a value, of any depth that a line may have.
#[tactic(auto, using(crate::proofs::Operands::predicate_parts))]
#[cycle(predicate)]
pub fn read_predicate(alloc: Global, value: &Value) -> Result<Expression, ParseError>
    ensures { Gives (λ e. e) result (predicate_in (view value.now)) }
{
    match read_form(value)? {
        Form::Leaf(leaf) => read_leaf(alloc, leaf, value),
        Form::Unary(unary) => {
            let x = read_operand(alloc, value, 1)?;
            read_unary(alloc, unary, x, value)
        }
        Form::Binary(binary) => {
            let x = read_operand(alloc, value, 1)?;
            let y = read_operand(alloc, value, 2)?;
            read_binary(alloc, binary, x, y, value)
        }
        Form::Between => {
            let x = read_operand(alloc, value, 1)?;
            let lower = read_operand(alloc, value, 2)?;
            let upper = read_operand(alloc, value, 3)?;
            read_between(alloc, x, lower, upper, value)
        }
    }
}
