//! Forms of predicates in a line, which the first item of an array names.
ghost use Rattle.std.specs.Prelude.{◌≡◌, option_map};
ghost use Rattle.serde_json.specs.View.{view};
ghost use Rattle.vortex_stats_expr.specs.Aggregate.{aggregate_of};
ghost use Rattle.vortex_table_request.specs.Parsed.{Gives};
ghost use Rattle.vortex_table_request.specs.FormNames.{operator_named, form_named, aggregate_named, has_size, form_in};

use crate::{ParseError, length};
use serde_json::Value;
use vortex_stats_expr::aggregate::AggregateFn;
use vortex_stats_expr::operator::Operator;

/// The form of a predicate, by which items of its array are predicates themselves.
#[derive(Clone, Copy, Debug, PartialEq, Eq)]
pub enum Form {
    /// No item is a predicate.
    Leaf(Leaf),
    /// The second item.
    Unary(Unary),
    /// The second and the third.
    Binary(Binary),
    /// `["between",x,lo,hi,lower_strict,upper_strict]`.
    Between,
}

/// A predicate without operands.
#[derive(Clone, Copy, Debug, PartialEq, Eq)]
pub enum Leaf {
    /// `["lit",type,content]`.
    Literal,
    /// `["col",name,..]`.
    Column,
    /// `["row_count"]`.
    RowCount,
}

/// A predicate with one operand.
#[derive(Clone, Copy, Debug, PartialEq, Eq)]
pub enum Unary {
    /// `["not",x]`.
    Not,
    /// `["is_null",x]`.
    IsNull,
    /// `["is_not_null",x]`.
    IsNotNull,
    /// `["is_nan",x]`.
    IsNan,
    /// `["stat",x,name]`.
    Stat,
}

/// A predicate with two operands.
#[derive(Clone, Copy, Debug, PartialEq, Eq)]
pub enum Binary {
    /// `[op,x,y]`.
    Operator(Operator),
    /// `["like",x,pattern,negated,ignore_case]`.
    Like,
}

fn operator_named(name: &str) -> Option<Operator>
    ensures { result ≡ operator_named name.now }
{
    match name {
        "=" => Some(Operator::Eq),
        "!=" => Some(Operator::NotEq),
        ">" => Some(Operator::Gt),
        ">=" => Some(Operator::Gte),
        "<" => Some(Operator::Lt),
        "<=" => Some(Operator::Lte),
        "and" => Some(Operator::And),
        "or" => Some(Operator::Or),
        _ => None,
    }
}

// Compares the names one by one.
fn find_form(name: &str) -> Option<Form>
    ensures { result ≡ form_named name.now }
{
    match name {
        "lit" => Some(Form::Leaf(Leaf::Literal)),
        "col" => Some(Form::Leaf(Leaf::Column)),
        "row_count" => Some(Form::Leaf(Leaf::RowCount)),
        "not" => Some(Form::Unary(Unary::Not)),
        "is_null" => Some(Form::Unary(Unary::IsNull)),
        "is_not_null" => Some(Form::Unary(Unary::IsNotNull)),
        "is_nan" => Some(Form::Unary(Unary::IsNan)),
        "stat" => Some(Form::Unary(Unary::Stat)),
        "like" => Some(Form::Binary(Binary::Like)),
        "between" => Some(Form::Between),
        _ => match operator_named(name) {
            Some(operator) => Some(Form::Binary(Binary::Operator(operator))),
            None => None,
        },
    }
}

/// The form with this name. The shortest names, which are the most frequent, are matched by their
/// bytes.
pub fn form_named(name: &str) -> Option<Form>
    ensures { result ≡ form_named name.now }
{
    match name.as_bytes() {
        [b'='] => Some(Form::Binary(Binary::Operator(Operator::Eq))),
        [b'>'] => Some(Form::Binary(Binary::Operator(Operator::Gt))),
        [b'<'] => Some(Form::Binary(Binary::Operator(Operator::Lt))),
        [b'>', b'='] => Some(Form::Binary(Binary::Operator(Operator::Gte))),
        [b'<', b'='] => Some(Form::Binary(Binary::Operator(Operator::Lte))),
        [b'o', b'r'] => Some(Form::Binary(Binary::Operator(Operator::Or))),
        [b'a', b'n', b'd'] => Some(Form::Binary(Binary::Operator(Operator::And))),
        [b'c', b'o', b'l'] => Some(Form::Leaf(Leaf::Column)),
        [b'l', b'i', b't'] => Some(Form::Leaf(Leaf::Literal)),
        _ => find_form(name),
    }
}

/// The statistic with this name.
pub(crate) fn aggregate_named(name: &str) -> Option<AggregateFn>
    ensures { option_map aggregate_of result ≡ aggregate_named name.now }
{
    match name {
        "min" => Some(AggregateFn::Min),
        "max" => Some(AggregateFn::Max),
        "sum" => Some(AggregateFn::Sum),
        "null_count" => Some(AggregateFn::NullCount),
        "nan_count" => Some(AggregateFn::NanCount),
        "uncompressed_size_in_bytes" => Some(AggregateFn::UncompressedSizeInBytes),
        "min_max" => Some(AggregateFn::MinMax),
        "all_null" => Some(AggregateFn::AllNull),
        "all_non_null" => Some(AggregateFn::AllNonNull),
        "all_nan" => Some(AggregateFn::AllNan),
        "all_non_nan" => Some(AggregateFn::AllNonNan),
        _ => None,
    }
}

// Whether an array of this form may have this many items. A column has a name for each struct on
// its path, and the root has none.
fn has_size(form: Form, count: usize) -> bool
    ensures { result ≡ has_size form count }
{
    match form {
        Form::Leaf(Leaf::Literal) => count == 3,
        Form::Leaf(Leaf::Column) => true,
        Form::Leaf(Leaf::RowCount) => count == 1,
        Form::Unary(Unary::Stat) => count == 3,
        Form::Unary(_) => count == 2,
        Form::Binary(Binary::Operator(_)) => count == 3,
        Form::Binary(Binary::Like) => count == 5,
        Form::Between => count == 6,
    }
}

/// The form of an array that has the right number of items for it.
pub(crate) fn read_form(value: &Value) -> Result<Form, ParseError>
    ensures { Gives (λ form. form) result (form_in (view value.now)) }
{
    let count = length(value).ok_or(ParseError::Malformed)?;
    let form = value
        .get(0)
        .and_then(Value::as_str)
        .and_then(form_named)
        .ok_or(ParseError::Malformed)?;
    if has_size(form, count) {
        Ok(form)
    } else {
        Err(ParseError::Malformed)
    }
}
