//! Predicates as JSON, in the forms that `vortex_table_request` reads.
ghost use Rattle.std.specs.Prelude.{◌≡◌, ◌++◌, ◌&&◌, OnOk};
ghost use Rattle.vortex_scalar_core.specs.Scalar.{scalar_type, scalar_content};
ghost use Rattle.vortex_stats_expr.specs.Tree.{is_strict};
ghost use Rattle.vortex_table_text.specs.Predicates.{path_text, typed_text, literal_text, column_text, open_text, unary_text, binary_text, between_text, predicate_text, is_writable};

use crate::names::{aggregate_end, comparison_name, flags_end};
use crate::types::has_text;
use std::alloc::AllocError;
use vortex_dtype_ptype::field_names::{FieldName, FieldNames};
use vortex_scalar_core::scalar::Scalar;
use vortex_stats_expr::expression::{Expression, Node};
use vortex_stats_expr::options::{BetweenOptions, StrictComparison};
use vortex_table_response::type_texts::push_text;
use vortex_table_response::{push_cell, push_dtype};

/// Whether the types of all literals have JSON text.
#[cycle(writable)]
pub(crate) fn is_writable(predicate: &Expression) -> bool
    ensures { result ≡ is_writable predicate.now }
{
    match &predicate.node {
        Node::Literal(value) => has_text(value.dtype()),
        Node::Column(_) | Node::RowCount => true,
        Node::Compare(_, x, y) => are_writable(x, y),
        Node::And(x, y) => are_writable(x, y),
        Node::Or(x, y) => are_writable(x, y),
        Node::Not(x) => is_writable(x),
        Node::IsNull(x) => is_writable(x),
        Node::IsNotNull(x) => is_writable(x),
        Node::IsNan(x) => is_writable(x),
        Node::Between(x, lower, upper, _) => is_writable(x) && are_writable(lower, upper),
        Node::Like(x, pattern, _) => are_writable(x, pattern),
        Node::Stat(_, x) => is_writable(x),
    }
}

#[cycle(writable)]
fn are_writable(x: &Expression, y: &Expression) -> bool
    ensures { result ≡ (is_writable x.now && is_writable y.now) }
{
    is_writable(x) && is_writable(y)
}

// Writes a type and a value of it.
fn push_typed(out: &mut Vec<u8>, value: &Scalar) -> Result<(), AllocError>
    ensures { OnOk result (out.new.items ≡ out.old.items
        ++ typed_text (scalar_type value.now) (scalar_content value.now)) }
{
    push_dtype(out, value.dtype())?;
    out.extend_from_slice(b",")?;
    push_cell(out, value.value())?;
    Ok(())
}

fn push_literal(out: &mut Vec<u8>, value: &Scalar) -> Result<(), AllocError>
    ensures { OnOk result (out.new.items ≡ out.old.items
        ++ literal_text (scalar_type value.now) (scalar_content value.now)) }
{
    out.extend_from_slice(b"[\"lit\",")?;
    push_typed(out, value)?;
    out.extend_from_slice(b"]")?;
    Ok(())
}

// Writes each name after a comma.
fn push_names(out: &mut Vec<u8>, names: &[FieldName]) -> Result<(), AllocError>
    ensures { OnOk result (out.new.items ≡ out.old.items ++ path_text names.now) }
{
    for name in names {
        out.extend_from_slice(b",")?;
        push_text(out, name.as_str().as_bytes())?;
    }
    Ok(())
}

fn push_column(out: &mut Vec<u8>, path: &FieldNames) -> Result<(), AllocError>
    ensures { OnOk result (out.new.items ≡ out.old.items ++ column_text path.now) }
{
    out.extend_from_slice(b"[\"col\"")?;
    push_names(out, path.as_slice())?;
    out.extend_from_slice(b"]")?;
    Ok(())
}

// Writes the start of an array whose first item is a name.
fn push_open(out: &mut Vec<u8>, name: &str) -> Result<(), AllocError>
    ensures { OnOk result (out.new.items ≡ out.old.items ++ open_text name.now) }
{
    out.extend_from_slice(b"[\"")?;
    out.extend_from_slice(name.as_bytes())?;
    out.extend_from_slice(b"\",")?;
    Ok(())
}

fn is_strict(end: StrictComparison) -> bool
    ensures { result ≡ is_strict end }
{
    match end {
        StrictComparison::Strict => true,
        StrictComparison::NonStrict => false,
    }
}

/// Writes a predicate of any form.
#[cycle(predicate)]
pub(crate) fn push_predicate(out: &mut Vec<u8>, predicate: &Expression) -> Result<(), AllocError>
    ensures { OnOk result (out.new.items ≡ out.old.items ++ predicate_text predicate.now) }
{
    match &predicate.node {
        Node::Literal(value) => push_literal(out, value),
        Node::Column(path) => push_column(out, path),
        Node::Compare(comparison, x, y) => push_binary(
            out,
            comparison_name(*comparison),
            x,
            y,
            "]",
        ),
        Node::And(x, y) => push_binary(out, "and", x, y, "]"),
        Node::Or(x, y) => push_binary(out, "or", x, y, "]"),
        Node::Not(x) => push_unary(out, "not", x, "]"),
        Node::IsNull(x) => push_unary(out, "is_null", x, "]"),
        Node::IsNotNull(x) => push_unary(out, "is_not_null", x, "]"),
        Node::IsNan(x) => push_unary(out, "is_nan", x, "]"),
        Node::Between(x, lower, upper, options) => push_between(out, x, lower, upper, *options),
        Node::Like(x, pattern, options) => {
            let end = flags_end(options.negated, options.case_insensitive);
            push_binary(out, "like", x, pattern, end)
        }
        Node::RowCount => out.extend_from_slice(b"[\"row_count\"]"),
        Node::Stat(aggregate, x) => push_unary(out, "stat", x, aggregate_end(*aggregate)),
    }
}

#[cycle(predicate)]
fn push_unary(out: &mut Vec<u8>, name: &str, x: &Expression, end: &str) -> Result<(), AllocError>
    ensures { OnOk result (out.new.items ≡ out.old.items
        ++ unary_text name.now (predicate_text x.now) end.now) }
{
    push_open(out, name)?;
    push_predicate(out, x)?;
    out.extend_from_slice(end.as_bytes())?;
    Ok(())
}

#[cycle(predicate)]
fn push_binary(
    out: &mut Vec<u8>,
    name: &str,
    x: &Expression,
    y: &Expression,
    end: &str,
) -> Result<(), AllocError>
    ensures { OnOk result (out.new.items ≡ out.old.items
        ++ binary_text name.now (predicate_text x.now) (predicate_text y.now) end.now) }
{
    push_unary(out, name, x, ",")?;
    push_predicate(out, y)?;
    out.extend_from_slice(end.as_bytes())?;
    Ok(())
}

#[cycle(predicate)]
fn push_between(
    out: &mut Vec<u8>,
    x: &Expression,
    lower: &Expression,
    upper: &Expression,
    options: BetweenOptions,
) -> Result<(), AllocError>
    ensures { OnOk result (out.new.items ≡ out.old.items ++ between_text (predicate_text x.now)
        (predicate_text lower.now) (predicate_text upper.now)
        (is_strict options.lower_strict) (is_strict options.upper_strict)) }
{
    let end = flags_end(
        is_strict(options.lower_strict),
        is_strict(options.upper_strict),
    );
    push_binary(out, "between", x, lower, ",")?;
    push_predicate(out, upper)?;
    out.extend_from_slice(end.as_bytes())?;
    Ok(())
}
