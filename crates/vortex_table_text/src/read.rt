//! Predicates from JSON text.
ghost use Rattle.vortex_table_request.specs.Parsed.{Gives};
ghost use Rattle.vortex_table_text.specs.Read.{predicate_read};

use std::alloc::Global;
use vortex_stats_expr::expression::Expression;
use vortex_table_request::{ParseError, parse};

/// The predicate of JSON text. `Malformed` where that is no JSON value, nests deeper than 127, or
/// is no predicate. In the line of a scan it may nest one level less deep.
pub fn read_predicate(alloc: Global, text: &[u8]) -> Result<Expression, ParseError>
    ensures { Gives (λ e. e) result (predicate_read text.now) }
{
    let value = parse(alloc, text)?;
    let predicate = vortex_table_request::read_predicate(alloc, &value)?;
    Ok(predicate)
}
