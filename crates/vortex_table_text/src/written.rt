//! Types and rows, written in lines of JSON.
ghost use Rattle.std.specs.Prelude.{◌≡◌, ◌++◌, OnOk, IfOk};
ghost use Rattle.vortex_model_table.specs.Reply.{lines};
ghost use Rattle.vortex_dtype_core.specs.View.{type_of};
ghost use Rattle.vortex_arrays_model.specs.Layout.{array_type_of, rows_of};
ghost use Rattle.vortex_table_text.specs.Lines.{type_line_of, IsTypeLine, rows_lines, with_rows, AreReadAs};
ghost use Rattle.vortex_table_text.specs.Writing.{Writes};

use crate::error::TextError;
use crate::types::has_text_within;
use std::alloc::Global;
use vortex_arrays_core::array::ArrayRef;
use vortex_dtype_core::dtype::DType;
use vortex_table_response::push_dtype;
use vortex_table_run::content::push_content;

// How many lists and structs may nest in a type whose message is read back.
const TYPE_DEPTH: usize = 63;

// How many may nest in one whose rows are read back.
const ROW_DEPTH: usize = 127;

/// The message of a type in a line, as `read_type` reads it, with the LF that ends it.
/// `TextError::NoText` where the type has no JSON text, or more than 63 of its lists and structs
/// nest in one another, since the message would nest deeper than JSON is read.
#[tactic(auto, using(crate::proofs::WrittenLemmas::typed))]
pub fn type_line(alloc: Global, dtype: &DType) -> Result<Vec<u8>, TextError>
    ensures text { Writes (λ line. line.items) result (type_line_of (type_of dtype.now)) }
    ensures round_trip { IfOk result (λ line. IsTypeLine (type_of dtype.now) line.items) }
{
    if !has_text_within(dtype, TYPE_DEPTH) {
        return Err(TextError::NoText);
    }
    let mut line = Vec::new(alloc);
    push_dtype(&mut line, dtype)?;
    line.push(b'\n')?;
    Ok(line)
}

/// Writes each row of an array in a line, as `read_lines` reads it for the array's type, with the
/// LF that ends it. `TextError::NoText` where the type has no JSON text, or more than 127 of its
/// lists and structs nest in one another. After an `Err` the buffer's content is unspecified.
#[tactic(auto, using(crate::proofs::WrittenLemmas::rows))]
pub fn push_lines(out: &mut Vec<u8>, array: &ArrayRef) -> Result<(), TextError>
    ensures text { Writes (λ _. out.new.items) result
        (with_rows out.old.items (array_type_of array.now) (rows_of array.now)) }
    ensures round_trip { OnOk result (AreReadAs (array_type_of array.now) (rows_of array.now)
        (lines (rows_lines (rows_of array.now)))) }
{
    if !has_text_within(array.dtype(), ROW_DEPTH) {
        return Err(TextError::NoText);
    }
    for i in 0..array.len() {
        push_content(out, array, i)?;
        out.push(b'\n')?;
    }
    Ok(())
}
