//! Laws of tables over their calls. Each function makes the calls of its law, and answers what each
//! of them gave. `parts_answer_as_the_whole` makes none: its law is over the definitions.
ghost use Rattle.std.specs.Prelude.{◌≡◌, ◌++◌, [], None, Some, length, map, filter, true, false, IfOk, OnOk, OnErr};
ghost use Rattle.std.specs.List.{range_with_len, AllZip};
ghost use Rattle.vortex_model.specs.Content.{content_of};
ghost use Rattle.vortex_model_table.specs.Command.{names_of, refusal, retype, append};
ghost use Rattle.vortex_model_table.specs.Cut.{cut_row};
ghost use Rattle.vortex_model_table.specs.Laws.{CoverTheSame, truth_value};
ghost use Rattle.vortex_model_table.specs.Table.{rows_of};
ghost use Rattle.vortex_model_table.specs.Truth.{selects};
ghost use Rattle.vortex_dtype_core.specs.View.{type_of};
ghost use Rattle.vortex_dtype_path.specs.View.{steps_of};
ghost use Rattle.vortex_scalar_value.specs.View.{raw_in};
ghost use Rattle.vortex_table_schema.specs.Answer.{answer_of};
ghost use Rattle.vortex_table_core.specs.Append.{Appends};
ghost use Rattle.vortex_table_core.specs.Arrays.{arrays_of};
ghost use Rattle.vortex_table_core.specs.TableView.{table_of};
ghost use Rattle.vortex_table_laws.specs.Calls.{IsScanned, IsRetyped};
ghost use Rattle.vortex_table_laws.specs.Compactions.{IsCompactedBy, LeaveAlike};
ghost use Rattle.vortex_table_laws.specs.Laws.{
  OnBoth,
  HaveSameRows,
  AreSame,
  HasMoreRows,
  OnAll,
};
ghost use Rattle.vortex_table_laws.specs.Parts.{
  ArePartsOf,
  IsAnswerOfParts,
  PartsAnswerAsTheWhole,
};

use std::alloc::{AllocError, Global};
use vortex_dtype_core::dtype::DType;
use vortex_dtype_path::path::FieldPath;
use vortex_dtype_ptype::nullability::Nullability;
use vortex_model_laws::laws::{
    appends_answer_behind, covers_tell_answers, false_selects_none, false_skips_all,
    retyping_twice_is_retyping_at_once, true_selects_all,
};
use vortex_scalar_builders::constructors::ScalarConstructors;
use vortex_scalar_core::scalar::Scalar;
use vortex_scalar_value::scalar_value::ScalarValue;
use vortex_stats_expr::expression::{Expression, lit};
use vortex_table_core::table::Table;
use vortex_table_schema::answer::ScanAnswer;
use vortex_table_schema::error::TableError;
use vortex_table_schema::layout::Layout;

// The predicate that is a boolean.
fn constant(value: bool) -> Expression
    ensures { result ≡ truth_value value }
{
    lit(Scalar::bool(value, Nullability::NonNullable))
}

/// A scan by literal true: it answers every row.
pub fn scan_by_true(
    alloc: Global,
    table: &Table,
    paths: &[FieldPath],
) -> Result<ScanAnswer, TableError>
    ensures scan { IsScanned (table_of table.now) (map steps_of paths.now) (truth_value true)
        result }
    ensures law { IfOk result (λ a. (answer_of a).rows
        ≡ map (cut_row (map names_of (map steps_of paths.now)) (table_of table.now).kind)
        (rows_of (table_of table.now))) }
{
    true_selects_all();
    let predicate = constant(true);
    table.scan(alloc, paths, &predicate)
}

/// A scan by literal false: it answers no row and skips every chunk.
pub fn scan_by_false(
    alloc: Global,
    table: &Table,
    paths: &[FieldPath],
) -> Result<ScanAnswer, TableError>
    ensures scan { IsScanned (table_of table.now) (map steps_of paths.now) (truth_value false)
        result }
    ensures law { IfOk result (λ a. ((answer_of a).rows ≡ [])
        × ((answer_of a).skipped ≡ range_with_len 0 (length (table_of table.now).chunks))) }
{
    false_selects_none();
    false_skips_all();
    let predicate = constant(false);
    table.scan(alloc, paths, &predicate)
}

/// One scan of two tables. Where they are of one type and have equal rows in order, in whatever
/// chunks and layouts, they answer the same rows.
pub fn scan_two_tables(
    alloc: Global,
    one: &Table,
    other: &Table,
    paths: &[FieldPath],
    predicate: &Expression,
) -> (
    Result<ScanAnswer, TableError>,
    Result<ScanAnswer, TableError>,
)
    ensures one { IsScanned (table_of one.now) (map steps_of paths.now) predicate.now result.0 }
    ensures other { IsScanned (table_of other.now) (map steps_of paths.now) predicate.now
        result.1 }
    ensures law { (table_of one.now).kind ≡ (table_of other.now).kind
        → rows_of (table_of one.now) ≡ rows_of (table_of other.now)
        → OnBoth HaveSameRows result.0 result.1 }
{
    let of_one = one.scan(alloc, paths, predicate);
    let of_other = other.scan(alloc, paths, predicate);
    (of_one, of_other)
}

/// One scan by two lists of paths. Where they cover the same, the answers are equal.
pub fn scan_by_two_lists(
    alloc: Global,
    table: &Table,
    paths: &[FieldPath],
    others: &[FieldPath],
    predicate: &Expression,
) -> (
    Result<ScanAnswer, TableError>,
    Result<ScanAnswer, TableError>,
)
    ensures one { IsScanned (table_of table.now) (map steps_of paths.now) predicate.now result.0 }
    ensures other { IsScanned (table_of table.now) (map steps_of others.now) predicate.now
        result.1 }
    ensures law { CoverTheSame (map names_of (map steps_of paths.now))
        (map names_of (map steps_of others.now))
        → OnBoth AreSame result.0 result.1 }
{
    covers_tell_answers();
    let by_paths = table.scan(alloc, paths, predicate);
    let by_others = table.scan(alloc, others, predicate);
    (by_paths, by_others)
}

/// A scan, an append and the scan again: it answers the earlier rows, and then those of the batch
/// that it selects.
pub fn scan_around_append(
    alloc: Global,
    table: &mut Table,
    batch_dtype: &DType,
    values: &[Option<ScalarValue>],
    layouts: &[Layout],
    paths: &[FieldPath],
    predicate: &Expression,
) -> (
    Result<ScanAnswer, TableError>,
    Result<(), TableError>,
    Result<ScanAnswer, TableError>,
)
    ensures before { IsScanned (table_of table.old) (map steps_of paths.now) predicate.now
        result.0 }
    ensures append { Appends (table_of table.old) (type_of batch_dtype.now) values.now result.1
        (table_of table.new) }
    ensures after { IsScanned (table_of table.new) (map steps_of paths.now) predicate.now
        result.2 }
    ensures law { OnOk result.1 (OnBoth (HasMoreRows (map
        (cut_row (map names_of (map steps_of paths.now)) (table_of table.old).kind)
        (filter (selects (table_of table.old).kind predicate.now)
        (map content_of (map raw_in values.now))))) result.0 result.2) }
{
    appends_answer_behind();
    let before = table.scan(alloc, paths, predicate);
    let appended = table.append(batch_dtype, values, layouts);
    let after = table.scan(alloc, paths, predicate);
    (before, appended, after)
}

/// A scan, a compaction and the scan again: it answers the same, and skips the same chunks.
pub fn scan_around_compact(
    alloc: Global,
    table: &mut Table,
    paths: &[FieldPath],
    predicate: &Expression,
) -> (
    Result<ScanAnswer, TableError>,
    Result<(), TableError>,
    Result<ScanAnswer, TableError>,
)
    ensures before { IsScanned (table_of table.old) (map steps_of paths.now) predicate.now
        result.0 }
    ensures compact { IsCompactedBy table.old table.new result.1 }
    ensures after { IsScanned (table_of table.new) (map steps_of paths.now) predicate.now
        result.2 }
    ensures law { OnBoth AreSame result.0 result.2 }
{
    let before = table.scan(alloc, paths, predicate);
    let compacted = table.compact();
    let after = table.scan(alloc, paths, predicate);
    (before, compacted, after)
}

/// Compactions of two tables. Of two list views that records alone lead to, in chunks of one table
/// or of both, which are not known to be end to end and have equal rows of their own, those under
/// null records too, they leave list views with equal offsets, sizes and rows of elements. Nothing
/// is claimed of chunks with lists under null records that are too long together.
pub fn compact_two_tables(
    one: &mut Table,
    other: &mut Table,
) -> (Result<(), TableError>, Result<(), TableError>)
    ensures one { IsCompactedBy one.old one.new result.0 }
    ensures other { IsCompactedBy other.old other.new result.1 }
    ensures law { OnOk result.0 (OnOk result.1 (LeaveAlike
        (arrays_of one.old ++ arrays_of other.old) (arrays_of one.new ++ arrays_of other.new))) }
{
    let of_one = one.compact();
    let of_other = other.compact();
    (of_one, of_other)
}

/// What retyping one table in two steps and another at once gave.
#[derive(Drop)]
pub struct Retypes {
    /// To the type on the way.
    pub first: Result<(), TableError>,
    /// From there to the last type.
    pub second: Result<(), TableError>,
    /// To the last type at once.
    pub at_once: Result<(), TableError>,
}

/// Retypes one table in two steps and another at once. Of tables that show the same, where both
/// steps are accepted, so is retyping at once, but for memory that runs out and totals that are
/// passed, and the tables show the same again.
pub fn retype_in_two_steps(
    alloc: Global,
    stepwise: &mut Table,
    direct: &mut Table,
    through: DType,
    dtype: DType,
) -> Result<Retypes, AllocError>
    ensures steps { IfOk result (λ all. (mid : _)
        × IsRetyped (table_of stepwise.old) (type_of through) all.first mid
        × IsRetyped mid (type_of dtype) all.second (table_of stepwise.new)) }
    ensures at_once { IfOk result (λ all.
        IsRetyped (table_of direct.old) (type_of dtype) all.at_once (table_of direct.new)) }
    ensures law { IfOk result (λ all. table_of stepwise.old ≡ table_of direct.old
        → OnOk all.first (OnOk all.second
        ((refusal (table_of direct.old) (retype (type_of dtype)) ≡ None)
        × OnOk all.at_once (table_of direct.new ≡ table_of stepwise.new)))) }
    ensures unchanged { OnErr result
        ((stepwise.new ≡ stepwise.old) × (direct.new ≡ direct.old)) }
{
    retyping_twice_is_retyping_at_once();
    let again = dtype.clone()?;
    let first = stepwise.retype(through);
    let second = stepwise.retype(dtype);
    let at_once = direct.retype(again);
    Ok(Retypes {
        first,
        second,
        at_once,
    })
}

/// Tables of one type and with the same bound lengths that are put end to end answer each scan as
/// the whole does: rows, type, chunks that are skipped and taken whole, counts.
pub fn parts_answer_as_the_whole()
    ensures { PartsAnswerAsTheWhole }
{}

/// What scanning the parts of a table and the whole gave.
#[derive(Drop)]
pub struct PartScans {
    /// Of each part, in order.
    pub parts: Vec<Result<ScanAnswer, TableError>>,
    /// Of the whole.
    pub whole: Result<ScanAnswer, TableError>,
}

// A scan of each table, in order.
fn scan_each(
    alloc: Global,
    tables: &[Table],
    paths: &[FieldPath],
    predicate: &Expression,
) -> Result<Vec<Result<ScanAnswer, TableError>>, AllocError>
    ensures { IfOk result (λ all. AllZip
        (λ table r. IsScanned (table_of table) (map steps_of paths.now) predicate.now r)
        tables.now all.items) }
{
    let mut all = Vec::new(alloc);
    for table in tables {
        let found = table.scan(alloc, paths, predicate);
        all.push(found)?;
    }
    Ok(all)
}

/// One scan of each part and of the whole. Where the whole is the parts put end to end, its answer
/// is the answers of the parts put end to end.
pub fn scan_parts(
    alloc: Global,
    parts: &[Table],
    whole: &Table,
    paths: &[FieldPath],
    predicate: &Expression,
) -> Result<PartScans, AllocError>
    ensures parts { IfOk result (λ all. AllZip
        (λ part r. IsScanned (table_of part) (map steps_of paths.now) predicate.now r)
        parts.now all.parts.items) }
    ensures whole { IfOk result (λ all.
        IsScanned (table_of whole.now) (map steps_of paths.now) predicate.now all.whole) }
    ensures law { IfOk result (λ all. ArePartsOf (map table_of parts.now) (table_of whole.now)
        → OnAll (λ answers. IfOk all.whole (λ a.
        IsAnswerOfParts (map table_of parts.now) (table_of whole.now) (map answer_of answers)
        (answer_of a))) all.parts.items) }
{
    parts_answer_as_the_whole();
    let of_parts = scan_each(alloc, parts, paths, predicate)?;
    let of_whole = whole.scan(alloc, paths, predicate);
    Ok(PartScans {
        parts: of_parts,
        whole: of_whole,
    })
}
