//! A table, or none yet, and the answers to commands.
ghost use Rattle.std.specs.Prelude.{[], ◌≡◌, ℕ, List, map, None, OnOk, refl};
ghost use Rattle.std.proofs.Common.{inl};
ghost use Rattle.vortex_model_table.specs.Command.{create, append, retype, scan};
ghost use Rattle.vortex_dtype_core.specs.View.{type_of};
ghost use Rattle.vortex_dtype_path.specs.View.{steps_of};
ghost use Rattle.vortex_scalar_value.specs.View.{raw_in};
ghost use Rattle.vortex_arrays_model.specs.Layout.{array_type_of};
ghost use Rattle.vortex_table_select.specs.Selected.{answer_in};
ghost use Rattle.vortex_table_response.specs.Text.{scan_text};
ghost use Rattle.vortex_table_io.specs.Lines.{with_lf};
ghost use Rattle.vortex_table_request.specs.View.{entry_of, raw_rows, shown};
ghost use Rattle.vortex_table_core.specs.Arrays.{AddsArray};
ghost use Rattle.vortex_table_layout.specs.Hinted.{HasHintedColumns};
ghost use Rattle.vortex_table_run.specs.CommandAnswers.{Responds};
ghost use Rattle.vortex_table_run.specs.Laying.{AddsTaken, LaysOut, LaysOutPlain, LineLaysOut, WhereDone};

use crate::refused::fault;
use crate::scan::push_scan;
use json::Scratch;
use std::alloc::{AllocError, Global};
use vortex_arrays_core::array::ArrayRef;
use vortex_dtype_core::dtype::DType;
use vortex_dtype_path::path::FieldPath;
use vortex_model::laws::tests_of_validity_are_right;
use vortex_scalar_value::scalar_value::ScalarValue;
use vortex_stats_expr::expression::Expression;
use vortex_table_core::table::Table;
use vortex_table_io::{LineHandler, Response};
use vortex_table_request::{Command, ParseError};
use vortex_table_response::{bad_line, without_table};
use vortex_table_schema::layout::Layout;
use vortex_table_select::selection::LazyAnswer;
use vortex_table_tokens::read_command;

/// Writes the line of a scan's answer in place of what the buffer holds.
fn write_found(alloc: Global, answer: &LazyAnswer, out: &mut Vec<u8>) -> Result<(), AllocError>
    ensures { OnOk result (out.new.items ≡ with_lf (scan_text (answer_in answer.now))) }
{
    out.clear();
    push_scan(alloc, out, answer)?;
    out.push(b'\n')?;
    Ok(())
}

/// A table, or none yet.
#[derive(Drop)]
pub struct Session {
    pub(crate) table: Option<Table>,
    // Room for the tokens of a line, which is made once.
    scratch: Scratch,
}

impl Session {
    ghost use Rattle.vortex_table_run.specs.State.{table_in};

    /// A session without a table.
    pub fn new(alloc: Global) -> Session
        ensures { table_in result ≡ None }
    {
        Session {
            table: None,
            scratch: Scratch::new(alloc),
        }
    }

    /// Replaces the table by a new one. Where that is refused, the old one stays.
    fn answer_create(
        &mut self,
        alloc: Global,
        dtype: DType,
        bound_length: usize,
        lengths: &[(FieldPath, usize)],
    ) -> Response
        ensures answers { (out : List ℕ)
            → Responds (table_in self.old)
            (create (type_of dtype) bound_length (map entry_of lengths.now))
            result out (table_in self.new) }
        ensures layout { WhereDone result (λ old new. new ≡ []) self.old.table self.new.table }
    {
        match Table::create(alloc, dtype, bound_length, lengths) {
            Ok(table) => {
                self.table = Some(table);
                Response::Done
            }
            Err(error) => fault(error),
        }
    }

    /// Appends rows to the table. Once it has changed, the answer allocates nothing.
    fn answer_append(
        &mut self,
        dtype: &DType,
        values: Vec<Option<ScalarValue>>,
        layouts: &[Layout],
    ) -> Response
        ensures answers { (out : List ℕ)
            → Responds (table_in self.old) (append (type_of dtype.now) (map raw_in values.items))
            result out (table_in self.new) }
        ensures layout { WhereDone result (AddsArray (HasHintedColumns layouts.now))
            self.old.table self.new.table }
    {
        let Some(table) = &mut self.table else {
            return Response::Short(without_table());
        };
        match table.append_owned(dtype, values, layouts) {
            Ok(()) => Response::Done,
            Err(error) => fault(error),
        }
    }

    /// Appends the rows of an array to the table. Once it has changed, the answer allocates
    /// nothing.
    fn answer_append_array(&mut self, array: ArrayRef, layouts: &[Layout]) -> Response
        ensures answers { (out : List ℕ)
            → Responds (table_in self.old) (append (array_type_of array) (raw_rows array))
            result out (table_in self.new) }
        ensures layout { WhereDone result (AddsTaken self.old.table layouts.now array)
            self.old.table self.new.table }
    {
        // Both show the prover that the rows are of the array's type.
        let _rows = array.len();
        tests_of_validity_are_right();
        let Some(table) = &mut self.table else {
            return Response::Short(without_table());
        };
        match table.append_hinted(array, layouts) {
            Ok(()) => Response::Done,
            Err(error) => fault(error),
        }
    }

    /// Gives the rows of the table another type. Once it has changed, the answer allocates nothing.
    fn answer_retype(&mut self, dtype: DType) -> Response
        ensures answers { (out : List ℕ)
            → Responds (table_in self.old) (retype (type_of dtype)) result out
            (table_in self.new) }
        ensures layout { WhereDone result (LaysOutPlain self.old.table (type_of dtype))
            self.old.table self.new.table }
    {
        let Some(table) = &mut self.table else {
            return Response::Short(without_table());
        };
        match table.retype(dtype) {
            Ok(()) => Response::Done,
            Err(error) => fault(error),
        }
    }

    /// Scans the table, which stays as it is. A string that memory can't hold is dropped.
    #[tactic(auto, using(crate::proofs::Laying::untouched))]
    fn answer_scan(
        &self,
        alloc: Global,
        paths: &[FieldPath],
        predicate: &Expression,
        out: &mut Vec<u8>,
    ) -> Response
        ensures answers { Responds (table_in self.now)
            (scan (map steps_of paths.now) predicate.now) result out.new.items
            (table_in self.now) }
        ensures layout { WhereDone result (λ old new. new ≡ old) self.now.table self.now.table }
    {
        let Some(table) = &self.table else {
            return Response::Short(without_table());
        };
        match table.select(alloc, paths, predicate) {
            Ok(answer) => match write_found(alloc, &answer, out) {
                Ok(()) => Response::Written,
                Err(AllocError) => {
                    *out = Vec::new(alloc);
                    Response::NoMemory
                }
            },
            Err(error) => fault(error),
        }
    }

    // Runs a command, of which the parts are taken out. Kept apart from scans, since any other
    // command does far more than a call costs.
    #[inline(never)]
    fn answer_by_parts(&mut self, alloc: Global, command: Command, out: &mut Vec<u8>) -> Response
        ensures answers { Responds (table_in self.old) (shown command) result out.new.items
            (table_in self.new) }
        ensures layout { WhereDone result (LaysOut self.old.table command)
            self.old.table self.new.table }
    {
        match command {
            Command::Create {
                dtype,
                length,
                lengths,
            } => self.answer_create(alloc, dtype, length, &lengths),
            Command::Append {
                dtype,
                values,
                layouts,
            } => self.answer_append(&dtype, values, &layouts),
            Command::AppendArray { array, layouts } => self.answer_append_array(array, &layouts),
            Command::Scan { paths, predicate } => self.answer_scan(alloc, &paths, &predicate, out),
            Command::Join { group } => self.answer_join(group),
            Command::Retype { dtype } => self.answer_retype(dtype),
            Command::Compact => self.answer_compact(),
            Command::Describe { path, group } => self.answer_describe(alloc, &path, group, out),
        }
    }

    /// Runs a command. What it holds is dropped. A scan is served without moving the command, since
    /// its predicate is big to move.
    fn answer_command(&mut self, alloc: Global, command: Command, out: &mut Vec<u8>) -> Response
        ensures answers { Responds (table_in self.old) (shown command) result out.new.items
            (table_in self.new) }
        ensures layout { WhereDone result (LaysOut self.old.table command)
            self.old.table self.new.table }
    {
        if let Command::Scan { paths, predicate } = &command {
            return self.answer_scan(alloc, paths, predicate, out);
        }
        self.answer_by_parts(alloc, command, out)
    }
}

impl LineHandler for Session {
    ghost use Rattle.std.specs.Prelude.{Option};
    ghost use Rattle.vortex_model_table.specs.Table as model;
    ghost use Rattle.vortex_table_run.specs.State.{table_in};
    ghost use Rattle.vortex_table_run.specs.LineAnswers.{LineAnswers};
    ghost use Rattle.vortex_table_io.specs.Responses.{Says};

    ghost State = { Option model.Table };

    ghost view = { table_in };

    ghost answers = { LineAnswers };

    fn answer(&mut self, alloc: Global, line: &[u8], out: &mut Vec<u8>) -> Response
        ensures says { Says LineAnswers (table_in self.old) line.now result out.new.items
            (table_in self.new) }
        ensures layout { WhereDone result (LineLaysOut self.old.table line.now)
            self.old.table self.new.table }
    {
        match read_command(alloc, line, &mut self.scratch) {
            Ok(command) => self.answer_command(alloc, command, out),
            Err(ParseError::Malformed) => Response::Short(bad_line()),
            Err(ParseError::Memory) => Response::NoMemory,
        }
    }

    ghost may_lack_memory = { λ now line. inl (refl, refl) };
}
