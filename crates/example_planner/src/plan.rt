//! Chunks shared out among workers, and the workers' answers put end to end.
ghost use Rattle.std.specs.Prelude.{◌≡◌, ◌<◌, List, ℕ, [], None, length, map, flat_map};
ghost use Rattle.std.specs.Prelude.{IfOk, IfErr, OnOk};
ghost use Rattle.vortex_table.specs.Arrays.{arrays_of};
ghost use Rattle.vortex_table.specs.Command.{names_of, refusal, scan};
ghost use Rattle.vortex_table.specs.Expression.{HasFormedLiterals};
ghost use Rattle.vortex_table.specs.Error.{Explains};
ghost use Rattle.vortex_table.specs.Scan.{skipped_chunks};
ghost use Rattle.vortex_table.specs.Table.{answer};
ghost use Rattle.vortex_table.specs.DtypePathView.{steps_of};
ghost use Rattle.vortex_table.specs.Scalar.{scalar_content};
ghost use Rattle.vortex_table.specs.TableView.{table_of};
ghost use Rattle.vortex_table.specs.TableError.TheVariants.{Memory};
ghost use Rattle.example_planner.specs.Split.{
  kept,
  row_count,
  first_refusal,
  AreMarks,
  AreSkipped,
  ClosesFull,
  HasNextChunk,
  HasOneMore,
  HasRoom,
  HasTheHopeless,
  HasTooLarge,
  IsEmptyOf,
  IsSplit,
};

use std::alloc::{AllocError, Global};
use std::mem;
use vortex_table::dtype::FieldPath;
use vortex_table::expr::Expression;
use vortex_table::laws::{
    exactly_the_hopeless_are_skipped, groups_change_nothing, skipped_chunks_hold_none,
};
use vortex_table::scalar::Scalar;
use vortex_table::table::{Table, TableError};

/// The numbers of the chunks that a scan with this predicate skips, in order: by their bounds none
/// of their rows is selected, so no worker needs them.
///
/// Refused as [`Table::scan`] is.
pub fn chunks_to_leave_out(
    alloc: Global,
    table: &Table,
    predicate: &Expression,
) -> Result<Vec<usize>, TableError>
    ensures skipped { IfOk result
        (λ left. left.items ≡ skipped_chunks (table_of table.now) predicate.now) }
    ensures hopeless { IfOk result
        (λ left. HasTheHopeless (table_of table.now) predicate.now left.items) }
    ensures refused { IfErr result (λ e. Explains ⊥
        (refusal (table_of table.now) (scan [] predicate.now)) e) }
{
    exactly_the_hopeless_are_skipped();
    let seen = table.select(alloc, &[], predicate)?;
    let selection = seen.selection;
    Ok(selection.skipped)
}

// A table without rows, of the type of this one.
fn empty_part(alloc: Global, table: &Table, bound_length: usize) -> Result<Table, TableError>
    ensures made { IfOk result (λ part. IsEmptyOf (table_of table.now) (table_of part)) }
    ensures refused { IfErr result (λ e. e ≡ Memory) }
{
    let dtype = table.dtype().clone()?;
    let part = Table::create(alloc, dtype, bound_length, &[])?;
    Ok(part)
}

// For each chunk of `count`, whether its number is left out.
fn marks_of(alloc: Global, count: usize, left_out: &[usize]) -> Result<Vec<bool>, AllocError>
    ensures { IfOk result (λ marks. AreMarks left_out.now count marks.items) }
{
    let mut marks = vec![in alloc; false; count]?;
    for number in left_out {
        if *number < count {
            marks[*number] = true;
        }
    }
    Ok(marks)
}

// The number of rows in the chunks that are not marked as left out.
fn kept_rows(table: &Table, marks: &[bool]) -> usize
    requires { length marks.now ≡ length (table_of table.now).chunks }
    ensures { (left : List ℕ) → AreMarks left (length (table_of table.now).chunks) marks.now
        → result ≡ row_count (kept left 0 (table_of table.now).chunks) }
{
    // Shows the prover that all rows can be counted.
    let _all = table.len();
    let mut rows = 0;
    for index in 0..table.chunk_count() {
        if marks[index] {
            continue;
        }
        match table.chunk(index) {
            Some(array) => rows += array.len(),
            None => unreachable!(),
        }
    }
    rows
}

// Puts the rows of a chunk after those of a part.
fn add_chunk(part: &mut Table, table: &Table, index: usize) -> Result<(), TableError>
    requires index { index < length (table_of table.now).chunks }
    requires kind { (table_of part.old).kind ≡ (table_of table.now).kind }
    requires room { HasRoom index (table_of table.now).chunks (table_of part.old) }
    ensures added { OnOk result (HasNextChunk index (table_of table.now).chunks (λ chunk.
        HasOneMore chunk (table_of part.old) (table_of part.new))) }
    ensures refused { IfErr result
        (λ e. Explains (HasTooLarge (table_of table.now).kind (arrays_of table.now)) None e) }
{
    match table.chunk(index) {
        Some(array) => {
            let rows = array.clone()?;
            part.append_array(rows)
        }
        None => unreachable!(),
    }
}

// Puts the part after the others and begins another, once it has its share of the rows.
fn close_full(
    alloc: Global,
    table: &Table,
    bound_length: usize,
    share: usize,
    parts: &mut Vec<Table>,
    part: &mut Table,
) -> Result<(), TableError>
    ensures closed { OnOk result (ClosesFull (table_of table.now).kind share
        (map table_of parts.old.items) (table_of part.old)
        (map table_of parts.new.items) (table_of part.new)) }
    ensures refused { IfErr result (λ e. e ≡ Memory) }
{
    if part.len() < share {
        return Ok(());
    }
    let next = empty_part(alloc, table, bound_length)?;
    let full = mem::replace(part, next);
    parts.push(full)?;
    Ok(())
}

/// The table's chunks as tables of at most `workers` workers, each with a run of neighbours: those
/// at the numbers that are left out are in none, and each other one is in one of them.
///
/// A worker takes no further chunk once it has its share, an equal part of the rows. Bounds of
/// leaf columns are made anew, of at most `bound_length` bytes.
///
/// Refused, `Total`, where a chunk that is laid out anew is too large for views and buffers.
pub fn split(
    alloc: Global,
    table: &Table,
    bound_length: usize,
    left_out: &[usize],
    workers: usize,
) -> Result<Vec<Table>, TableError>
    requires { 0 < workers }
    ensures shared { IfOk result (λ parts. IsSplit (table_of table.now) left_out.now workers
        (map table_of parts.items)) }
    ensures refused { IfErr result
        (λ e. Explains (HasTooLarge (table_of table.now).kind (arrays_of table.now)) None e) }
{
    // Shows the prover that all rows can be counted.
    let _all = table.len();
    let count = table.chunk_count();
    let marks = marks_of(alloc, count, left_out)?;
    let rows = kept_rows(table, &marks);
    let share = rows.div_ceil(workers);
    let mut parts = Vec::new(alloc);
    let mut part = empty_part(alloc, table, bound_length)?;
    for index in 0..count {
        if marks[index] {
            continue;
        }
        close_full(alloc, table, bound_length, share, &mut parts, &mut part)?;
        add_chunk(&mut part, table, index)?;
    }
    parts.push(part)?;
    Ok(parts)
}

/// The rows that the workers' tables answer, each to the same scan, put end to end. Refused as the
/// first of them that is.
pub fn gather(
    alloc: Global,
    parts: &[Table],
    paths: &[FieldPath],
    predicate: &Expression,
) -> Result<Vec<Scalar>, TableError>
    ensures rows { IfOk result (λ rows. map scalar_content rows.items ≡ flat_map
        (λ part. answer part (map names_of (map steps_of paths.now)) predicate.now)
        (map table_of parts.now)) }
    ensures accepted { OnOk result (first_refusal
        (scan (map steps_of paths.now) predicate.now) (map table_of parts.now) ≡ None) }
    ensures formed { OnOk result (0 < length parts.now → HasFormedLiterals predicate.now) }
    ensures refused { IfErr result (λ e. Explains ⊥ (first_refusal
        (scan (map steps_of paths.now) predicate.now) (map table_of parts.now)) e) }
{
    let mut rows = Vec::new(alloc);
    for part in parts {
        let mut found = part.scan(alloc, paths, predicate)?;
        rows.append(&mut found.rows)?;
    }
    Ok(rows)
}

/// The rows that the predicate selects, in order, as `Table::scan` answers them: scanned by at most
/// `workers` workers, each over its run of the chunks.
///
/// `left_out` has numbers of chunks that no worker is to get, as an answer to the same predicate
/// has them in `skipped`. Where each of these is skipped by a scan, no row is lost.
///
/// Refused as [`Table::scan`] is, or as [`split`].
pub fn scan_by_workers(
    alloc: Global,
    table: &Table,
    bound_length: usize,
    left_out: &[usize],
    workers: usize,
    paths: &[FieldPath],
    predicate: &Expression,
) -> Result<Vec<Scalar>, TableError>
    requires { 0 < workers }
    ensures theorem { AreSkipped left_out.now (table_of table.now) predicate.now → IfOk result
        (λ rows. map scalar_content rows.items ≡ answer (table_of table.now)
        (map names_of (map steps_of paths.now)) predicate.now) }
    ensures accepted { OnOk result
        (refusal (table_of table.now) (scan (map steps_of paths.now) predicate.now) ≡ None) }
    ensures refused { IfErr result (λ e. Explains
        (HasTooLarge (table_of table.now).kind (arrays_of table.now))
        (refusal (table_of table.now) (scan (map steps_of paths.now) predicate.now)) e) }
{
    groups_change_nothing();
    skipped_chunks_hold_none();
    let parts = split(alloc, table, bound_length, left_out, workers)?;
    let rows = gather(alloc, &parts, paths, predicate)?;
    Ok(rows)
}
