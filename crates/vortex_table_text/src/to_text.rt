//! What can be written as JSON.
ghost use Rattle.std.specs.Prelude.{ℕ, List, Option};
ghost use Rattle.vortex_dtype_core.specs.View.{type_of};
ghost use Rattle.vortex_scalar_core.specs.Scalar.{scalar_type, scalar_content};
ghost use Rattle.vortex_table_text.specs.Types.{type_text_of};
ghost use Rattle.vortex_table_text.specs.Values.{value_text_of};
ghost use Rattle.vortex_table_text.specs.Predicates.{predicate_text_of};
ghost use Rattle.vortex_table_text.specs.Answers.{answer_text_of, lazy_answer_text_of};
ghost use Rattle.vortex_table_text.specs.Descriptions.{description_text_of};
ghost use Rattle.vortex_table_text.specs.Writing.{Writes};

use crate::answers::{answer_has_text, lazy_answer_has_text, push_answer};
use crate::descriptions::description_has_text;
use crate::error::TextError;
use crate::predicates::{is_writable, push_predicate};
use crate::types::has_text;
use std::alloc::Global;
use vortex_dtype_core::dtype::DType;
use vortex_scalar_core::scalar::Scalar;
use vortex_stats_expr::expression::Expression;
use vortex_table_response::{push_cell, push_dtype, push_members};
use vortex_table_run::scan::push_scan;
use vortex_table_schema::answer::ScanAnswer;
use vortex_table_schema::description::Description;
use vortex_table_select::selection::LazyAnswer;

/// A type, a value, a predicate, a description or an answer, which has JSON text unless a type in
/// it has none.
pub trait ToText {
    // the JSON text, if there is one
    ghost text: { Self → Option (List ℕ) };

    /// The JSON text. `TextError::NoText` where there is none.
    fn to_text(&self, alloc: Global) -> Result<Vec<u8>, TextError>
        ensures { Writes (λ bytes. bytes.items) result (text self.now) };
}

/// As `{"kind":"i32","nullable":false}`. There is no JSON text where the type, or a part of it, is
/// one that no table holds: null, floats, decimals, maps, unions, variants and extensions.
impl ToText for DType {
    ghost text = { λ dtype. type_text_of (type_of dtype) };

    fn to_text(&self, alloc: Global) -> Result<Vec<u8>, TextError> {
        if !has_text(self) {
            return Err(TextError::NoText);
        }
        let mut out = Vec::new(alloc);
        push_dtype(&mut out, self)?;
        Ok(out)
    }
}

/// A value without its type, as in the rows of an answer: bytes are hexadecimal digits, and a
/// struct is an array. There is no JSON text where its type has none.
impl ToText for Scalar {
    ghost text = { λ value. value_text_of (scalar_type value) (scalar_content value) };

    fn to_text(&self, alloc: Global) -> Result<Vec<u8>, TextError> {
        if !has_text(self.dtype()) {
            return Err(TextError::NoText);
        }
        let mut out = Vec::new(alloc);
        push_cell(&mut out, self.value())?;
        Ok(out)
    }
}

/// As `[">",["col","a"],["lit",{"kind":"i32","nullable":false},5]]`. Each form has JSON text, those
/// that no scan takes too, unless the type of a literal has none.
impl ToText for Expression {
    ghost text = { predicate_text_of };

    fn to_text(&self, alloc: Global) -> Result<Vec<u8>, TextError> {
        if !is_writable(self) {
            return Err(TextError::NoText);
        }
        let mut out = Vec::new(alloc);
        push_predicate(&mut out, self)?;
        Ok(out)
    }
}

/// The answer of a description. There is no JSON text where the type of a value in it has none,
/// which occurs in no description of a table.
impl ToText for Description {
    ghost text = { description_text_of };

    fn to_text(&self, alloc: Global) -> Result<Vec<u8>, TextError> {
        if !description_has_text(self) {
            return Err(TextError::NoText);
        }
        let mut out = Vec::new(alloc);
        push_members(&mut out, self)?;
        Ok(out)
    }
}

/// The answer of a scan. There is no JSON text where its type or that of a row has none, which
/// occurs in no answer of a table.
impl ToText for ScanAnswer {
    ghost text = { answer_text_of };

    fn to_text(&self, alloc: Global) -> Result<Vec<u8>, TextError> {
        if !answer_has_text(self) {
            return Err(TextError::NoText);
        }
        let mut out = Vec::new(alloc);
        push_answer(&mut out, self)?;
        Ok(out)
    }
}

/// The answer of a scan, of which no row is read as a value. There is no JSON text where its type
/// or that of an array has none, which occurs in no answer of a table.
impl ToText for LazyAnswer {
    ghost text = { lazy_answer_text_of };

    fn to_text(&self, alloc: Global) -> Result<Vec<u8>, TextError> {
        if !lazy_answer_has_text(self) {
            return Err(TextError::NoText);
        }
        let mut out = Vec::new(alloc);
        push_scan(alloc, &mut out, self)?;
        Ok(out)
    }
}
