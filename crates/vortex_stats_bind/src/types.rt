//! Types of bound expressions, and whether they have a truth.
ghost use Rattle.std.specs.Prelude.{◌≡◌, IfOk, IfSome, is_some, option_copied};
ghost use Rattle.vortex_model.specs.LogicalType.{equal_ignoring_nullability};
ghost use Rattle.vortex_model_table.specs.Typing.{has_bounds};
ghost use Rattle.vortex_dtype_core.specs.Parts.{is_boolean_type, is_utf8_type};
ghost use Rattle.vortex_dtype_core.specs.View.{type_of};
ghost use Rattle.vortex_scalar_core.specs.Scalar.{scalar_type, scalar_content};
ghost use Rattle.vortex_stats_expr.specs.Types.{IsOfClass};
ghost use Rattle.vortex_stats_expr.specs.Tree.{scalar_fn_of};
ghost use Rattle.vortex_stats_bind.specs.Bound.{fixed, value_type, expression_of};
ghost use Rattle.vortex_stats_bind.specs.Truths.{is_of_floats, is_free_of_backslash, has_truth, reads_columns, first_fault, unless_truth, is_literal, text_in};

use crate::bound::{BoundExpression, BoundNode};
use std::alloc::AllocError;
use vortex_dtype_core::BufferString;
use vortex_dtype_core::dtype::DType;
use vortex_dtype_ptype::nullability::Nullability;
use vortex_dtype_ptype::ptype::PType;
use vortex_scalar_core::scalar::Scalar;
use vortex_stats_expr::error::StatsError;
use vortex_stats_expr::scalar_fn::ScalarFnId;
use vortex_stats_expr::stat::count_dtype;
use vortex_stats_expr::types::{Leaf, TypeClass, class_of};
use vortex_stats_match::like::has_backslash;

impl BoundExpression {
    /// The type of its values. What tests and connects is boolean and nullable.
    pub fn dtype(&self) -> Result<DType, AllocError>
        ensures { IfOk result (λ dtype. type_of dtype ≡ value_type self.now) }
    {
        match &self.node {
            BoundNode::Literal(value) => value.dtype().clone(),
            BoundNode::Column(column) => column.dtype.clone(),
            BoundNode::RowCount => Ok(count_dtype()),
            BoundNode::Stat(_, _, dtype) => dtype.clone(),
            BoundNode::Compare(_, _, _)
            | BoundNode::And(_, _)
            | BoundNode::Or(_, _)
            | BoundNode::Not(_)
            | BoundNode::IsNull(_)
            | BoundNode::IsNotNull(_)
            | BoundNode::IsNan(_)
            | BoundNode::Between(_, _, _, _)
            | BoundNode::Like(_, _, _) => Ok(DType::Bool(Nullability::Nullable)),
        }
    }

    /// The class of its type. It allocates nothing.
    pub fn class(&self) -> TypeClass
        ensures { IsOfClass result (value_type self.now) }
    {
        match &self.node {
            BoundNode::Literal(value) => class_of(value.dtype()),
            BoundNode::Column(column) => class_of(&column.dtype),
            BoundNode::RowCount => TypeClass::Leaf(Leaf::Primitive(PType::U64)),
            BoundNode::Stat(_, _, dtype) => class_of(dtype),
            BoundNode::Compare(_, _, _)
            | BoundNode::And(_, _)
            | BoundNode::Or(_, _)
            | BoundNode::Not(_)
            | BoundNode::IsNull(_)
            | BoundNode::IsNotNull(_)
            | BoundNode::IsNan(_)
            | BoundNode::Between(_, _, _, _)
            | BoundNode::Like(_, _, _) => TypeClass::Leaf(Leaf::Bool),
        }
    }

    /// The function of the root. Rules that rewrite predicates are chosen by it.
    pub fn scalar_fn_id(&self) -> ScalarFnId
        ensures { result ≡ scalar_fn_of (expression_of self.now) }
    {
        match &self.node {
            BoundNode::Literal(_) => ScalarFnId::Literal,
            BoundNode::Column(_) => ScalarFnId::Column,
            BoundNode::Compare(_, _, _) | BoundNode::And(_, _) | BoundNode::Or(_, _) => {
                ScalarFnId::Binary
            }
            BoundNode::Not(_) => ScalarFnId::Not,
            BoundNode::IsNull(_) => ScalarFnId::IsNull,
            BoundNode::IsNotNull(_) => ScalarFnId::IsNotNull,
            BoundNode::IsNan(_) => ScalarFnId::IsNan,
            BoundNode::Between(_, _, _, _) => ScalarFnId::Between,
            BoundNode::Like(_, _, _) => ScalarFnId::Like,
            BoundNode::RowCount => ScalarFnId::RowCount,
            BoundNode::Stat(_, _, _) => ScalarFnId::Stat,
        }
    }

    /// Whether its values are booleans.
    #[tactic(auto, using(crate::proofs::ClassTests::tests))]
    pub fn is_boolean(&self) -> bool
        ensures { result ≡ is_boolean_type (value_type self.now) }
    {
        match self.class() {
            TypeClass::Leaf(Leaf::Bool) => true,
            TypeClass::Leaf(Leaf::Primitive(_) | Leaf::Utf8 | Leaf::Binary)
            | TypeClass::Float
            | TypeClass::Decimal
            | TypeClass::Other => false,
        }
    }

    /// Whether its values are UTF-8 strings.
    #[tactic(auto, using(crate::proofs::ClassTests::tests))]
    pub(crate) fn is_utf8(&self) -> bool
        ensures { result ≡ is_utf8_type (value_type self.now) }
    {
        match self.class() {
            TypeClass::Leaf(Leaf::Utf8) => true,
            TypeClass::Leaf(Leaf::Bool | Leaf::Primitive(_) | Leaf::Binary)
            | TypeClass::Float
            | TypeClass::Decimal
            | TypeClass::Other => false,
        }
    }

    /// Whether its values are floats, which may be NaN.
    #[tactic(auto, using(crate::proofs::ClassTests::tests))]
    pub fn is_of_floats(&self) -> bool
        ensures { result ≡ is_of_floats self.now }
    {
        match self.class() {
            TypeClass::Float => true,
            TypeClass::Leaf(_) | TypeClass::Decimal | TypeClass::Other => false,
        }
    }

    /// Whether its values have a least and a greatest one.
    #[tactic(auto, using(crate::proofs::ClassTests::tests))]
    pub fn has_bounds(&self) -> bool
        ensures { result ≡ has_bounds (value_type self.now) }
    {
        match self.class() {
            TypeClass::Leaf(_) | TypeClass::Float | TypeClass::Decimal => true,
            TypeClass::Other => false,
        }
    }

    // Whether the two are of one type, nullability aside.
    pub(crate) fn is_alike(&self, other: &BoundExpression) -> Result<bool, AllocError>
        ensures { IfOk result (λ alike. alike
            ≡ equal_ignoring_nullability (value_type self.now) (value_type other.now)) }
    {
        let left = self.dtype()?;
        let right = other.dtype()?;
        Ok(left.eq_ignore_nullability(&right))
    }

    /// The value, where it is a literal.
    pub fn as_literal(&self) -> Option<&Scalar>
        ensures form { is_some result ≡ is_literal self.now }
        ensures value { IfSome result
            (λ value. self.now ≡ fixed (scalar_type value.now) (scalar_content value.now)) }
    {
        match &self.node {
            BoundNode::Literal(value) => Some(value),
            BoundNode::Column(_) => None,
            BoundNode::Compare(_, _, _) => None,
            BoundNode::And(_, _) => None,
            BoundNode::Or(_, _) => None,
            BoundNode::Not(_) => None,
            BoundNode::IsNull(_) => None,
            BoundNode::IsNotNull(_) => None,
            BoundNode::IsNan(_) => None,
            BoundNode::Between(_, _, _, _) => None,
            BoundNode::Like(_, _, _) => None,
            BoundNode::RowCount => None,
            BoundNode::Stat(_, _, _) => None,
        }
    }

    /// The string, where the expression is a literal one, as patterns of LIKE are.
    pub fn as_text(&self) -> Option<&BufferString>
        ensures { option_copied result ≡ text_in self.now }
    {
        self.as_literal()?.value()?.as_utf8()
    }

    // Whether it is no literal string with a backslash. One that is no literal is judged row by
    // row.
    #[tactic(auto, using(crate::proofs::TextPatterns::literal_texts))]
    fn is_free_of_backslash(&self) -> bool
        ensures { result ≡ is_free_of_backslash self.now }
    {
        match self.as_text() {
            Some(text) => !has_backslash(text.as_str()),
            None => true,
        }
    }

    /// Whether the expression can be evaluated: nothing in it compares floats, tests for NaN, or is
    /// a LIKE that ignores case or whose pattern holds a backslash. It takes time linear in its
    /// size.
    pub fn has_truth(&self) -> bool
        ensures { result ≡ has_truth self.now }
    {
        match &self.node {
            BoundNode::Compare(_, x, y) => {
                !(x.is_of_floats() || y.is_of_floats()) && x.has_truth() && y.has_truth()
            }
            BoundNode::And(x, y) => x.has_truth() && y.has_truth(),
            BoundNode::Or(x, y) => x.has_truth() && y.has_truth(),
            BoundNode::Not(x) => x.has_truth(),
            BoundNode::IsNull(x) => x.has_truth(),
            BoundNode::IsNotNull(x) => x.has_truth(),
            BoundNode::Stat(_, x, _) => x.has_truth(),
            BoundNode::IsNan(_) => false,
            BoundNode::Between(x, lower, upper, _) => {
                !(x.is_of_floats() || lower.is_of_floats() || upper.is_of_floats())
                    && x.has_truth()
                    && lower.has_truth()
                    && upper.has_truth()
            }
            BoundNode::Like(x, pattern, options) => {
                !options.case_insensitive
                    && pattern.is_free_of_backslash()
                    && x.has_truth()
                    && pattern.has_truth()
            }
            BoundNode::Literal(_) => true,
            BoundNode::Column(_) => true,
            BoundNode::RowCount => true,
        }
    }

    /// Whether the expression reads a column outside placeholders.
    pub fn reads_columns(&self) -> bool
        ensures { result ≡ reads_columns self.now }
    {
        match &self.node {
            BoundNode::Column(_) => true,
            BoundNode::Compare(_, x, y) => x.reads_columns() || y.reads_columns(),
            BoundNode::And(x, y) => x.reads_columns() || y.reads_columns(),
            BoundNode::Or(x, y) => x.reads_columns() || y.reads_columns(),
            BoundNode::Like(x, y, _) => x.reads_columns() || y.reads_columns(),
            BoundNode::Not(x) => x.reads_columns(),
            BoundNode::IsNull(x) => x.reads_columns(),
            BoundNode::IsNotNull(x) => x.reads_columns(),
            BoundNode::IsNan(x) => x.reads_columns(),
            BoundNode::Between(x, lower, upper, _) => {
                x.reads_columns() || lower.reads_columns() || upper.reads_columns()
            }
            BoundNode::Literal(_) => false,
            BoundNode::RowCount => false,
            BoundNode::Stat(_, _, _) => false,
        }
    }

    /// The first fault by which it is no proof, children before their parent, left before right:
    /// `RuleFault` of a column outside placeholders, `NotEvaluable` of a part that has no truth.
    pub fn proof_fault(&self) -> Option<StatsError>
        ensures { result ≡ first_fault self.now }
    {
        match &self.node {
            BoundNode::Literal(_) => None,
            BoundNode::RowCount => None,
            BoundNode::Column(_) => Some(StatsError::RuleFault),
            BoundNode::Compare(_, x, y) => {
                let has_truth = !(x.is_of_floats() || y.is_of_floats());
                x.proof_fault()
                    .or(y.proof_fault().or(unless_truth(has_truth)))
            }
            BoundNode::And(x, y) => x.proof_fault().or(y.proof_fault()),
            BoundNode::Or(x, y) => x.proof_fault().or(y.proof_fault()),
            BoundNode::Not(x) => x.proof_fault(),
            BoundNode::IsNull(x) => x.proof_fault(),
            BoundNode::IsNotNull(x) => x.proof_fault(),
            BoundNode::IsNan(x) => x.proof_fault().or(unless_truth(false)),
            BoundNode::Between(x, lower, upper, _) => {
                let has_truth = !(x.is_of_floats() || lower.is_of_floats() || upper.is_of_floats());
                let ends = lower.proof_fault().or(upper.proof_fault());
                x.proof_fault().or(ends.or(unless_truth(has_truth)))
            }
            BoundNode::Like(x, pattern, options) => {
                let has_truth = !options.case_insensitive && pattern.is_free_of_backslash();
                x.proof_fault()
                    .or(pattern.proof_fault().or(unless_truth(has_truth)))
            }
            BoundNode::Stat(_, x, _) => unless_truth(x.has_truth()),
        }
    }
}

fn unless_truth(has_truth: bool) -> Option<StatsError>
    ensures { result ≡ unless_truth has_truth }
{
    if has_truth {
        None
    } else {
        Some(StatsError::NotEvaluable)
    }
}
