//! Refusals as strings that allocate nothing.
ghost use Rattle.std.specs.Prelude.{◌≢◌, ℕ, List};
ghost use Rattle.vortex_table_schema.specs.declared.error.TableError.TheVariants.{RuleFault};
ghost use Rattle.vortex_table_io.specs.declared.line_handler.Response.TheVariants.{Done};
ghost use Rattle.vortex_table_run.specs.CommandAnswers.{IsWrittenAs, error_answer};

use vortex_table_io::Response;
use vortex_table_response::refusal;
use vortex_table_schema::error::TableError;

/// The answer to an error. No line hands in a rule that could be at fault.
pub(crate) fn fault(error: TableError) -> Response
    ensures said { (out : List ℕ) → error ≢ RuleFault
        → IsWrittenAs (error_answer error) result out }
    ensures refused { result ≢ Done }
{
    if error == TableError::Memory {
        return Response::NoMemory;
    }
    Response::Short(refusal(error.index(), error.number(), error.name()))
}
