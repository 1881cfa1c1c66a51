//! Tables from arrays, and the arrays of their chunks.
ghost use Rattle.std.specs.Prelude.{◌≡◌, None, map, IfOk, IfErr, IsErrOf};
ghost use Rattle.vortex_arrays_model.specs.Layout.{array_type_of, rows_of};
ghost use Rattle.vortex_table_schema.specs.Error.{Explains};
ghost use Rattle.vortex_table_chunk.specs.Chunk.{chunk_rows};
ghost use Rattle.vortex_table_layout.specs.Compacted.{HasTooManyItems, IsCompactedAs};
ghost use Rattle.vortex_table_layout.specs.TooManyElements.{HasTooManyElements};
ghost use Rattle.vortex_table_schema.specs.declared.error.TableError.TheVariants.{Total};
ghost use Rattle.vortex_table_core.specs.WithArrays.{IsWithArray, AreWithArrays};

use crate::table::Table;
use std::alloc::Global;
use std::borrow::CowSlice;
use vortex_arrays_core::array::ArrayRef;
use vortex_arrays_view::error::ArrayError;
use vortex_model::laws::tests_of_validity_are_right;
use vortex_table_chunk::chunk::Chunk;
use vortex_table_layout::compact::compact_array;
use vortex_table_layout::hint::hint_array;
use vortex_table_layout::keep::keeps_layout;
use vortex_table_layout::rows::row_values;
use vortex_table_schema::append::convert_rows;
use vortex_table_schema::check::check_type;
use vortex_table_schema::error::TableError;
use vortex_table_schema::layout::Layout;

impl Table {
    ghost use Rattle.std.specs.Prelude.{◌≡◌, None, Some, map, option_map, slice_get, IfOk, OnOk, IfErr, OnErr, IsErrOf};
    ghost use Rattle.std.specs.List.{Any};
    ghost use Rattle.vortex_model_table.specs.Command.{append_array, compact, refusal, after, first_unconvertible};
    ghost use Rattle.vortex_model_table.specs.Reply.{RowsPass};
    ghost use Rattle.vortex_dtype_core.specs.View.{type_of};
    ghost use Rattle.vortex_arrays_model.specs.Layout.{array_type_of, rows_of};
    ghost use Rattle.vortex_table_layout.specs.Compacted.{HasTooManyItems};
    ghost use Rattle.vortex_table_layout.specs.Kept.{KeepsLayout};
    ghost use Rattle.vortex_table_layout.specs.TooLarge.{AreTooLarge};
    ghost use Rattle.vortex_table_schema.specs.Error.{Explains};
    ghost use Rattle.vortex_table_schema.specs.declared.error.TableError.TheVariants.{Total};
    ghost use Rattle.vortex_table_core.specs.Append.{AppendsArray};
    ghost use Rattle.vortex_table_core.specs.Arrays.{arrays_of, AddsArray, IsTakenAs, IsTakenBy, AreAllCompacted};
    ghost use Rattle.vortex_table_core.specs.Kept.{AddsAChunk, ShowsTheSame};
    ghost use Rattle.vortex_table_core.specs.TableView.{table_of};
    ghost use Rattle.vortex_table_core.specs.Totals.{PassesTotal};

    /// Keeps the rows of an array of records as one new chunk, as `append` does: no rows make none,
    /// and after an error the table is as before. The array is dropped, also where it is refused.
    ///
    /// Its layout stays where its type is the table's and each record that is reached through
    /// records alone has a column for each field. Else the rows are laid out plain. No value that
    /// the rows don't have counts for statistics.
    ///
    /// Refused, in this order: where a table can't hold the array's type; `NotConvertible` with the
    /// first row that the type can't hold; `Total` as in `append`. What stays is only counted.
    pub fn append_array(&mut self, array: ArrayRef) -> Result<(), TableError>
        ensures appends { AppendsArray (table_of self.old) (array_type_of array) (rows_of array)
            result (table_of self.new) }
        ensures layout { OnOk result (AddsArray (IsTakenAs (type_of self.old.dtype) array)
            (arrays_of self.old) (arrays_of self.new)) }
        ensures kept { KeepsLayout (type_of self.old.dtype) array → IsErrOf result Total → RowsPass
            (Some (table_of self.old)) (append_array (array_type_of array) (rows_of array)) }
        ensures added { OnOk result (AddsAChunk self.old self.new) }
        ensures unchanged { OnErr result (ShowsTheSame self.old self.new) }
    {
        self.append_hinted(array, &[])
    }

    /// Keeps the rows of an array of records as `append_array` does, with a hint for each column,
    /// in the order of the table's fields, of how it is to be laid out.
    ///
    /// Where the array's type is the table's and each record that is reached through records alone
    /// has a column for each field, a column stays as it is if its hint is plain or doesn't fit or
    /// there is none. Else the rows are laid out by the hints as in `append`.
    pub fn append_hinted(&mut self, array: ArrayRef, layouts: &[Layout]) -> Result<(), TableError>
        ensures appends { AppendsArray (table_of self.old) (array_type_of array) (rows_of array)
            result (table_of self.new) }
        ensures layout { OnOk result (AddsArray (IsTakenBy (type_of self.old.dtype) layouts.now
            array) (arrays_of self.old) (arrays_of self.new)) }
        ensures kept { KeepsLayout (type_of self.old.dtype) array → IsErrOf result Total → RowsPass
            (Some (table_of self.old)) (append_array (array_type_of array) (rows_of array)) }
        ensures added { OnOk result (AddsAChunk self.old self.new) }
        ensures unchanged { OnErr result (ShowsTheSame self.old self.new) }
    {
        let alloc = *self.chunks.allocator();
        check_type(alloc, array.dtype())?;
        let taken = self.take_array(alloc, array, layouts)?;
        self.push_array(alloc, taken)?;
        Ok(())
    }

    // The rows of the array, of a type that a table can hold, as an array of the table's type.
    fn take_array(
        &self,
        alloc: Global,
        array: ArrayRef,
        layouts: &[Layout],
    ) -> Result<ArrayRef, TableError>
        ensures dtype { IfOk result (λ taken. array_type_of taken ≡ type_of self.now.dtype) }
        ensures rows { IfOk result (λ taken. rows_of taken ≡ rows_of array) }
        ensures layout { IfOk result
            (λ taken. IsTakenBy (type_of self.now.dtype) layouts.now array taken) }
        ensures converts { OnOk result (first_unconvertible 0 (array_type_of array)
            (type_of self.now.dtype) (rows_of array) ≡ None) }
        ensures refused { IfErr result (λ e. Explains
            (AreTooLarge (type_of self.now.dtype) (rows_of array)) (first_unconvertible 0
            (array_type_of array) (type_of self.now.dtype) (rows_of array)) e) }
        ensures total { IsErrOf result Total → first_unconvertible 0 (array_type_of array)
            (type_of self.now.dtype) (rows_of array) ≡ None }
        ensures kept { KeepsLayout (type_of self.now.dtype) array → ¬ IsErrOf result Total }
    {
        if keeps_layout(&self.dtype, &array) {
            // Both show the prover that the rows are of the array's type.
            let _rows = array.len();
            tests_of_validity_are_right();
            let taken = hint_array(alloc, &array, layouts)?;
            return Ok(taken);
        }
        let values = row_values(alloc, &array)?;
        let rows = convert_rows(alloc, array.dtype(), &self.dtype, CowSlice::Owned(values))?;
        self.lay_out(alloc, &rows, layouts)
    }

    /// Rebuilds the list views of all chunks that are reached through records alone: their lists
    /// are end to end then, and are known to be. Rows, statistics and groups stay. After an error
    /// the table is as before. Lists under null records become empty where else they are too many.
    ///
    /// Refused, `Total`, where the lists of a column have too many elements in a chunk to count.
    pub fn compact(&mut self) -> Result<(), TableError>
        ensures compacted { OnOk result (AreAllCompacted (arrays_of self.old)
            (arrays_of self.new)) }
        ensures rows { OnOk result (table_of self.new ≡ after (table_of self.old) compact) }
        ensures statistics { OnOk result (map (λ c. c.bounds.items) self.new.chunks.items
            ≡ map (λ c. c.bounds.items) self.old.chunks.items) }
        ensures groups { OnOk result (self.new.groups ≡ self.old.groups) }
        ensures refused { IfErr result
            (λ e. Explains (PassesTotal (Some (table_of self.old)) compact)
            (refusal (table_of self.old) compact) e) }
        ensures kept { IsErrOf result Total → Any HasTooManyItems (arrays_of self.old) }
        ensures unchanged { OnErr result (self.new ≡ self.old) }
    {
        let alloc = *self.chunks.allocator();
        let arrays = self.compacted_arrays(alloc)?;
        put_arrays(&mut self.chunks, arrays);
        Ok(())
    }

    // The arrays of all chunks, compacted.
    #[tactic(auto, using(crate::proofs::Rearrayed::arrays))]
    fn compacted_arrays(&self, alloc: Global) -> Result<Vec<ArrayRef>, TableError>
        ensures compacted { IfOk result (λ new. AreAllCompacted (arrays_of self.now) new.items) }
        ensures rows { IfOk result
            (λ new. map rows_of new.items ≡ map rows_of (arrays_of self.now)) }
        ensures types { IfOk result
            (λ new. map array_type_of new.items ≡ map array_type_of (arrays_of self.now)) }
        ensures refused { IfErr result
            (λ e. Explains (PassesTotal (Some (table_of self.now)) compact) None e) }
        ensures kept { IsErrOf result Total → Any HasTooManyItems (arrays_of self.now) }
    {
        let mut arrays = Vec::with_capacity(alloc, self.chunks.len())?;
        for chunk in &self.chunks {
            let array = compacted(alloc, &chunk.array)?;
            arrays.push(array)?;
        }
        Ok(arrays)
    }

    /// The rows of a chunk, as they are laid out.
    pub fn chunk(&self, index: usize) -> Option<&ArrayRef>
        ensures { option_map (λ array. array.now) result ≡ slice_get (arrays_of self.now) index }
    {
        match self.chunks.get(index) {
            Some(chunk) => Some(&chunk.array),
            None => None,
        }
    }
}

fn compacted(alloc: Global, array: &ArrayRef) -> Result<ArrayRef, TableError>
    ensures compacted { IfOk result (λ new. IsCompactedAs array.now new) }
    ensures rows { IfOk result (λ new. rows_of new ≡ rows_of array.now) }
    ensures dtype { IfOk result (λ new. array_type_of new ≡ array_type_of array.now) }
    ensures refused { IfErr result (λ e. Explains
        (HasTooManyElements (array_type_of array.now) (rows_of array.now)) None e) }
    ensures kept { IsErrOf result Total → HasTooManyItems array.now }
{
    match compact_array(alloc, array) {
        Ok(array) => Ok(array),
        Err(ArrayError::Memory) => Err(TableError::Memory),
        Err(ArrayError::Total) => Err(TableError::Total),
        Err(_) => unreachable!(),
    }
}

// Puts each of the arrays, which have the rows of the chunks, in its chunk.
#[tactic(auto, using(crate::proofs::Rearrayed::placed))]
fn put_arrays(chunks: &mut Vec<Chunk>, arrays: Vec<ArrayRef>)
    requires rows { map rows_of arrays.items ≡ map chunk_rows chunks.old.items }
    requires types { map array_type_of arrays.items
        ≡ map (λ c. array_type_of c.array) chunks.old.items }
    ensures { AreWithArrays chunks.old.items arrays.items chunks.new.items }
{
    let mut index = 0;
    for array in arrays {
        put_array(&mut chunks[index], array);
        index += 1;
    }
}

// The columns that are kept would hold on to the old array.
fn put_array(chunk: &mut Chunk, array: ArrayRef)
    requires rows { rows_of array ≡ chunk_rows chunk.old }
    requires kind { array_type_of array ≡ array_type_of chunk.old.array }
    ensures { IsWithArray chunk.old array chunk.new }
{
    // Both show the prover that the rows are of the array's type.
    let rows = array.len();
    tests_of_validity_are_right();
    chunk.columns.clear();
    chunk.rows = rows;
    chunk.array = array;
}
