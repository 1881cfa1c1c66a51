//! The answers to commands on groups of chunks, and on all chunks at once.
ghost use Rattle.std.specs.Prelude.{◌≡◌, ℕ, List, OnOk};
ghost use Rattle.vortex_model_table.specs.Command.{join, compact, describe};
ghost use Rattle.vortex_model_table.specs.ZoneMap.{ZoneMap};
ghost use Rattle.vortex_dtype_path.specs.View.{steps_of};
ghost use Rattle.vortex_table_schema.specs.Description.{IsDescription};
ghost use Rattle.vortex_table_response.specs.Text.{description_text};
ghost use Rattle.vortex_table_io.specs.Lines.{with_lf};
ghost use Rattle.vortex_table_core.specs.Arrays.{AreAllCompacted};
ghost use Rattle.vortex_table_run.specs.CommandAnswers.{Responds};
ghost use Rattle.vortex_table_run.specs.Laying.{WhereDone};

use crate::refused::fault;
use crate::session::Session;
use std::alloc::{AllocError, Global};
use vortex_dtype_path::path::FieldPath;
use vortex_table_io::Response;
use vortex_table_response::{push_description, without_table};
use vortex_table_schema::description::Description;

/// Writes the line of a description in place of what the buffer holds.
fn write_described(description: &Description, out: &mut Vec<u8>) -> Result<(), AllocError>
    ensures { OnOk result ((z : ZoneMap) → IsDescription description.now z
        → out.new.items ≡ with_lf (description_text z)) }
{
    out.clear();
    push_description(out, description)?;
    out.push(b'\n')?;
    Ok(())
}

impl Session {
    ghost use Rattle.vortex_table_run.specs.State.{table_in};

    /// Makes one group of two neighbouring groups of the table's chunks.
    pub(crate) fn answer_join(&mut self, group: usize) -> Response
        ensures answers { (out : List ℕ)
            → Responds (table_in self.old) (join group) result out (table_in self.new) }
        ensures layout { WhereDone result (λ old new. new ≡ old) self.old.table self.new.table }
    {
        let Some(table) = &mut self.table else {
            return Response::Short(without_table());
        };
        match table.join(group) {
            Ok(()) => Response::Done,
            Err(error) => fault(error),
        }
    }

    /// Lays the lists of all chunks end to end. Once the table has changed, the answer allocates
    /// nothing.
    pub(crate) fn answer_compact(&mut self) -> Response
        ensures answers { (out : List ℕ)
            → Responds (table_in self.old) compact result out (table_in self.new) }
        ensures layout { WhereDone result AreAllCompacted self.old.table self.new.table }
    {
        let Some(table) = &mut self.table else {
            return Response::Short(without_table());
        };
        match table.compact() {
            Ok(()) => Response::Done,
            Err(error) => fault(error),
        }
    }

    /// Describes a column in a group of the table, which stays as it is. A string that memory can't
    /// hold is dropped.
    #[tactic(auto, using(crate::proofs::Laying::untouched))]
    pub(crate) fn answer_describe(
        &self,
        alloc: Global,
        path: &FieldPath,
        group: usize,
        out: &mut Vec<u8>,
    ) -> Response
        ensures answers { Responds (table_in self.now) (describe (steps_of path.now) group)
            result out.new.items (table_in self.now) }
        ensures layout { WhereDone result (λ old new. new ≡ old) self.now.table self.now.table }
    {
        let Some(table) = &self.table else {
            return Response::Short(without_table());
        };
        match table.describe(alloc, path, group) {
            Ok(description) => match write_described(&description, out) {
                Ok(()) => Response::Written,
                Err(AllocError) => {
                    *out = Vec::new(alloc);
                    Response::NoMemory
                }
            },
            Err(error) => fault(error),
        }
    }
}
