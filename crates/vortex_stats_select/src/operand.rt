//! What a comparison compares: one value for all rows, a column, or a dictionary.
ghost use Rattle.std.specs.Prelude.{◌≡◌, Bool, length, map, IfOk, IfSome};
ghost use Rattle.vortex_arrays_model.specs.Layout.{dictionary, len_of, rows_of};
ghost use Rattle.vortex_arrays_model.specs.Parts.{AreWithin};
ghost use Rattle.vortex_scalar_value.specs.View.{content_at};
ghost use Rattle.vortex_stats_bind.specs.Bound.{Provided};
ghost use Rattle.vortex_stats_mask.specs.Columns.{column_of};
ghost use Rattle.vortex_stats_select.specs.Operands.{operand_rows};
ghost use Rattle.vortex_stats_select.specs.Wants.{value_at, values_in};

use crate::columns::Columns;
use crate::leaf::Leaf;
use crate::leaves::leaf_of;
use std::alloc::{AllocError, Global};
use vortex_arrays_core::array::{ArrayLayout, ArrayRef};
use vortex_scalar_value::clone::clone_value;
use vortex_scalar_value::scalar_value::ScalarValue;
use vortex_stats_bind::bound::{BoundExpression, BoundNode};
use vortex_stats_mask::column::Column;

// A value that each row has, where `None` is null, a leaf column, or the codes and the values of a
// dictionary.
pub(crate) enum Operand {
    Value(Option<ScalarValue>),
    Column(Leaf),
    Dictionary(Leaf, Leaf),
}

impl Drop for Operand {
    fn drop(self) {
        match self {
            Operand::Value(_value) => {}
            Operand::Column(_leaf) => {}
            Operand::Dictionary(_codes, _values) => {}
        }
    }
}

// The value of a literal, which is lent, and `None` of any other expression.
pub(crate) fn literal_of(e: &BoundExpression) -> Option<Option<&ScalarValue>>
    ensures { IfSome result
        (λ value. (row : Provided) → value_at e.now row ≡ content_at value) }
{
    match &e.node {
        BoundNode::Literal(scalar) => Some(scalar.value()),
        _ => None,
    }
}

// The leaf column that an expression is, where it can be lent.
pub(crate) fn lent_column<'a, S: Columns>(e: &BoundExpression, columns: &'a S) -> Option<Column<'a>>
    ensures { IfSome result
        (λ column. column_of column ≡ map (value_at e.now) (S.rows columns.now)) }
{
    match &e.node {
        BoundNode::Column(column) => columns.leaf(&column.positions),
        _ => None,
    }
}

// A literal or a column, and `None` of any other expression and where the column can't be compared
// whole.
pub(crate) fn operand_of<S: Columns>(
    alloc: Global,
    e: &BoundExpression,
    columns: &S,
) -> Result<Option<Operand>, AllocError>
    ensures { IfOk result (λ found. IfSome found (λ operand.
        operand_rows operand (length (S.rows columns.now))
        ≡ map (value_at e.now) (S.rows columns.now))) }
{
    match &e.node {
        BoundNode::Literal(scalar) => {
            let value = clone_value(scalar.value())?;
            Ok(Some(Operand::Value(value)))
        }
        BoundNode::Column(column) => column_operand(alloc, &column.positions, columns),
        BoundNode::Compare(_, _, _) => Ok(None),
        BoundNode::And(_, _) => Ok(None),
        BoundNode::Or(_, _) => Ok(None),
        BoundNode::Not(_) => Ok(None),
        BoundNode::IsNull(_) => Ok(None),
        BoundNode::IsNotNull(_) => Ok(None),
        BoundNode::IsNan(_) => Ok(None),
        BoundNode::Between(_, _, _, _) => Ok(None),
        BoundNode::Like(_, _, _) => Ok(None),
        BoundNode::RowCount => Ok(None),
        BoundNode::Stat(_, _, _) => Ok(None),
    }
}

fn column_operand<S: Columns>(
    alloc: Global,
    path: &[usize],
    columns: &S,
) -> Result<Option<Operand>, AllocError>
    ensures { IfOk result (λ found. IfSome found (λ operand.
        operand_rows operand (length (S.rows columns.now))
        ≡ values_in path.now (S.rows columns.now))) }
{
    match columns.column(alloc, path)? {
        Some(column) => array_operand(alloc, &column),
        None => Ok(None),
    }
}

pub(crate) fn array_operand(alloc: Global, column: &ArrayRef) -> Result<Option<Operand>, AllocError>
    ensures { IfOk result (λ found. IfSome found (λ operand.
        operand_rows operand (len_of column.now) ≡ rows_of column.now)) }
{
    match column.layout() {
        ArrayLayout::Constant(scalar, _) => {
            let value = clone_value(scalar.value())?;
            Ok(Some(Operand::Value(value)))
        }
        ArrayLayout::Bool(_, _) => leaf_operand(alloc, column),
        ArrayLayout::Primitive(_, _) => leaf_operand(alloc, column),
        ArrayLayout::VarBinView(_, _, _, _) => leaf_operand(alloc, column),
        ArrayLayout::Dict(codes, values, _) => dictionary_operand(alloc, codes, values),
        ArrayLayout::FixedSizeList(_, _, _, _) => Ok(None),
        ArrayLayout::ListView(_, _, _, _, _) => Ok(None),
        ArrayLayout::Struct(_, _, _, _) => Ok(None),
    }
}

fn leaf_operand(alloc: Global, column: &ArrayRef) -> Result<Option<Operand>, AllocError>
    ensures { IfOk result (λ found. IfSome found (λ operand.
        operand_rows operand (len_of column.now) ≡ rows_of column.now)) }
{
    match leaf_of(alloc, column)? {
        Some(leaf) => Ok(Some(Operand::Column(leaf))),
        None => Ok(None),
    }
}

// `None` where the codes or the values aren't laid out plain.
fn dictionary_operand(
    alloc: Global,
    codes: &ArrayRef,
    values: &ArrayRef,
) -> Result<Option<Operand>, AllocError>
    requires { AreWithin codes.now (len_of values.now) }
    ensures { (f : Bool) → IfOk result (λ found. IfSome found (λ operand.
        operand_rows operand (len_of codes.now) ≡ rows_of (dictionary codes.now values.now f))) }
{
    let Some(codes) = leaf_of(alloc, codes)? else {
        return Ok(None);
    };
    let Some(values) = leaf_of(alloc, values)? else {
        return Ok(None);
    };
    Ok(Some(Operand::Dictionary(codes, values)))
}
