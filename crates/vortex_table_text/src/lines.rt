//! Types and rows in lines of JSON.
ghost use Rattle.std.specs.Prelude.{◌≡◌, [], map, IfOk, IfErr, MatchOption};
ghost use Rattle.vortex_model_table.specs.Reply.{lines};
ghost use Rattle.vortex_dtype_core.specs.View.{type_of};
ghost use Rattle.vortex_scalar_value.specs.View.{raw_in};
ghost use Rattle.vortex_table_text.specs.Lines.{IsFirstLine, type_at, line_at};
ghost use Rattle.vortex_table_request.specs.Parsed.{Gives};

use std::alloc::Global;
use vortex_dtype_core::dtype::DType;
use vortex_scalar_value::scalar_value::ScalarValue;
use vortex_table_io::split_at_lf;
use vortex_table_request::{ParseError, parse, read_dtype, take_row};

/// The first line, without its LF, and what follows it. The last line may lack its LF.
#[tactic(auto, using(crate::proofs::LineLemmas::first_lines))]
pub fn split_line(bytes: &[u8]) -> Option<(&[u8], &[u8])>
    ensures { MatchOption result (bytes.now ≡ []) (λ p. IsFirstLine p.0.now p.1.now bytes.now) }
{
    if bytes.is_empty() {
        return None;
    }
    match split_at_lf(bytes) {
        Some((line, after)) => Some((line, after)),
        None => Some((bytes, &[])),
    }
}

/// The type of a line. `Malformed` where the line is no JSON value or that is no type.
pub fn read_type(alloc: Global, line: &[u8]) -> Result<DType, ParseError>
    ensures { Gives type_of result (type_at line.now) }
{
    let value = parse(alloc, line)?;
    let dtype = read_dtype(alloc, &value)?;
    Ok(dtype)
}

// The row of a line, or null where there is none.
#[tactic(auto, using(crate::proofs::LineLemmas::rows))]
fn read_line(alloc: Global, line: &[u8], dtype: &DType) -> Result<Option<ScalarValue>, ParseError>
    ensures row { IfOk result (λ row. raw_in row ≡ line_at (type_of dtype.now) line.now) }
    ensures memory { IfErr result (λ e. e ≡ ParseError.Memory) }
{
    match parse(alloc, line) {
        Ok(value) => take_row(alloc, value, dtype),
        Err(ParseError::Malformed) => Ok(None),
        Err(ParseError::Memory) => Err(ParseError::Memory),
    }
}

/// The rows of a type in lines of JSON, each a value as `take_value` reads it, with null in place
/// of each that can't be read.
#[tactic(auto, using(crate::proofs::LineLemmas::partway))]
pub fn read_lines(
    alloc: Global,
    bytes: &[u8],
    dtype: &DType,
) -> Result<Vec<Option<ScalarValue>>, ParseError>
    ensures rows { IfOk result (λ rows. map raw_in rows.items
        ≡ map (line_at (type_of dtype.now)) (lines bytes.now)) }
    ensures memory { IfErr result (λ e. e ≡ ParseError.Memory) }
{
    let mut rows = Vec::new(alloc);
    let mut rest = bytes;
    while let Some((line, after)) = split_line(rest) {
        rows.push(read_line(alloc, line, dtype)?)?;
        rest = after;
    }
    Ok(rows)
}
