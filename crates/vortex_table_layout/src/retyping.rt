//! Chunks of one type as chunks of another.
use crate::retype_rows::{convert_chunk, convert_rows};
use std::alloc::Global;
use std::rc::Rc;
use vortex_arrays_cast::ranges::LeafRange;
use vortex_arrays_core::array::ArrayRef;
use vortex_dtype_core::dtype::DType;
use vortex_table_chunk::chunk::Chunk;
use vortex_table_chunk::retyped::retyped_chunk;
use vortex_table_schema::error::TableError;
use vortex_table_schema::leaves::LeafPath;
use vortex_table_schema::lengths::BoundLengths;

// The rows of the last of the chunks.
fn last_array(chunks: &[Chunk]) -> Option<&ArrayRef> {
    match chunks.last() {
        Some(chunk) => Some(&chunk.array),
        None => None,
    }
}

/// A conversion of the chunks of a table to another type.
#[derive(Clone, Copy, Drop)]
pub struct Retyping<'a> {
    /// The type of the rows before.
    pub source: &'a DType,
    /// The type that they are converted to.
    pub target: &'a DType,
    /// The bound lengths of the table.
    pub bound_lengths: &'a BoundLengths,
    /// The paths of the target's leaf columns.
    pub leaves: &'a Rc<Vec<LeafPath>>,
    /// The bound length of each of `leaves`.
    pub lengths: &'a Rc<Vec<usize>>,
}

impl Retyping<'_> {
    ghost use Rattle.std.specs.Prelude.{◌≡◌, ◌<◌, ◌+◌, ◌^◌, None, map, flat_map, IfOk, OnOk, IfErr, IsErrOf, IsTrue};
    ghost use Rattle.std.specs.List.{All, list_all};
    ghost use Rattle.vortex_model_table.specs.Command.{first_unconvertible};
    ghost use Rattle.vortex_arrays_model.specs.Layout.{len_of};
    ghost use Rattle.vortex_arrays_builder.specs.Types.{IsPlainLayout};
    ghost use Rattle.vortex_table_chunk.specs.Chunk.{chunk_rows, row_count};
    ghost use Rattle.vortex_table_chunk.specs.Formed.{is_formed};
    ghost use Rattle.vortex_table_schema.specs.Error.{Explains};
    ghost use Rattle.vortex_table_schema.specs.declared.error.TableError.TheVariants.{Total};
    ghost use Rattle.vortex_table_layout.specs.Retyping.{IsRetyping, source_of, target_of, lengths_of};
    ghost use Rattle.vortex_arrays_builder.specs.TooLarge.{AreTooLarge};
    ghost use Rattle.vortex_table_layout.specs.AnyTooLarge.{AnyTooLarge};

    // `first` is the index of the chunk's first row in the table. Names are shared with `other`
    // where that has the same ones, and `ranges` is a buffer. It is not inlined, so that its work
    // on a chunk uses a small frame instead of that of all commands.
    #[inline(never)]
    fn retype_chunk<'a>(
        &self,
        alloc: Global,
        ranges: &mut Vec<LeafRange<'a>>,
        first: usize,
        chunk: &'a Chunk,
        other: Option<&ArrayRef>,
    ) -> Result<Chunk, TableError>
        requires retyping { IsRetyping self.now }
        requires formed { IsTrue (is_formed (lengths_of self.now) (source_of self.now) chunk.now) }
        requires fits { first + len_of chunk.now.array < 2 ^ 64 }
        ensures formed { IfOk result
            (λ new. IsTrue (is_formed (lengths_of self.now) (target_of self.now) new)) }
        ensures rows { IfOk result (λ new. chunk_rows new ≡ chunk_rows chunk.now) }
        ensures layout { IfOk result (λ new. IsPlainLayout new.array) }
        ensures converts { OnOk result (first_unconvertible first (source_of self.now)
            (target_of self.now) (chunk_rows chunk.now) ≡ None) }
        ensures refused { IfErr result (λ e. Explains
            (AreTooLarge (target_of self.now) (chunk_rows chunk.now)) (first_unconvertible first
            (source_of self.now) (target_of self.now) (chunk_rows chunk.now)) e) }
    {
        let array = convert_chunk(alloc, ranges, self.target, first, chunk, other)?;
        let new = retyped_chunk(alloc, chunk, self.leaves, self.lengths, array)?;
        Ok(new)
    }

    // Tests the rows of the chunk, and drops the results.
    fn test_chunk(&self, alloc: Global, first: usize, chunk: &Chunk) -> Result<(), TableError>
        requires retyping { IsRetyping self.now }
        requires formed { IsTrue (is_formed (lengths_of self.now) (source_of self.now) chunk.now) }
        requires fits { first + len_of chunk.now.array < 2 ^ 64 }
        ensures converts { OnOk result (first_unconvertible first (source_of self.now)
            (target_of self.now) (chunk_rows chunk.now) ≡ None) }
        ensures refused { IfErr result (λ e. Explains ⊥ (first_unconvertible first
            (source_of self.now) (target_of self.now) (chunk_rows chunk.now)) e) }
    {
        let _rows = convert_rows(alloc, self.target, first, &chunk.array)?;
        Ok(())
    }

    // Tests the rows of all chunks. Rows are counted over all chunks.
    fn test_chunks(&self, alloc: Global, chunks: &[Chunk]) -> Result<(), TableError>
        requires retyping { IsRetyping self.now }
        requires formed { IsTrue
            (list_all (is_formed (lengths_of self.now) (source_of self.now)) chunks.now) }
        requires fits { row_count chunks.now < 2 ^ 64 }
        ensures converts { OnOk result (first_unconvertible 0 (source_of self.now)
            (target_of self.now) (flat_map (λ chunk. chunk) (map chunk_rows chunks.now)) ≡ None) }
        ensures refused { IfErr result (λ e. Explains ⊥ (first_unconvertible 0
            (source_of self.now) (target_of self.now)
            (flat_map (λ chunk. chunk) (map chunk_rows chunks.now))) e) }
    {
        let mut first = 0;
        for chunk in chunks {
            self.test_chunk(alloc, first, chunk)?;
            first += chunk.array.len();
        }
        Ok(())
    }

    // The chunks converted, up to the first that can't be.
    fn convert_chunks(&self, alloc: Global, chunks: &[Chunk]) -> Result<Vec<Chunk>, TableError>
        requires retyping { IsRetyping self.now }
        requires formed { IsTrue
            (list_all (is_formed (lengths_of self.now) (source_of self.now)) chunks.now) }
        requires fits { row_count chunks.now < 2 ^ 64 }
        ensures formed { IfOk result (λ new. IsTrue
            (list_all (is_formed (lengths_of self.now) (target_of self.now)) new.items)) }
        ensures rows { IfOk result
            (λ new. map chunk_rows new.items ≡ map chunk_rows chunks.now) }
        ensures layout { IfOk result (λ new. All (λ c. IsPlainLayout c.array) new.items) }
        ensures converts { OnOk result (first_unconvertible 0 (source_of self.now)
            (target_of self.now) (flat_map (λ chunk. chunk) (map chunk_rows chunks.now)) ≡ None) }
        ensures refused { IfErr result (λ e. Explains
            (AnyTooLarge (target_of self.now) (map chunk_rows chunks.now)) (first_unconvertible 0
            (source_of self.now) (target_of self.now)
            (flat_map (λ chunk. chunk) (map chunk_rows chunks.now))) e) }
    {
        let mut converted = Vec::with_capacity(alloc, chunks.len())?;
        let mut ranges = Vec::with_capacity(alloc, self.leaves.len())?;
        let mut first = 0;
        for chunk in chunks {
            let other = last_array(&converted);
            let new = self.retype_chunk(alloc, &mut ranges, first, chunk, other)?;
            converted.push(new)?;
            first += chunk.array.len();
        }
        Ok(converted)
    }

    /// The chunks, one for each, with their rows converted and the statistics of the target's leaf
    /// columns. `NotConvertible` has the index, over all chunks, of the first row that the target
    /// can't have. `Total` where a column of strings or bytes of a chunk is too large for views and
    /// buffers.
    pub fn retype_chunks(&self, alloc: Global, chunks: &[Chunk]) -> Result<Vec<Chunk>, TableError>
        requires retyping { IsRetyping self.now }
        requires formed { IsTrue
            (list_all (is_formed (lengths_of self.now) (source_of self.now)) chunks.now) }
        requires fits { row_count chunks.now < 2 ^ 64 }
        ensures formed { IfOk result (λ new. IsTrue
            (list_all (is_formed (lengths_of self.now) (target_of self.now)) new.items)) }
        ensures rows { IfOk result
            (λ new. map chunk_rows new.items ≡ map chunk_rows chunks.now) }
        ensures layout { IfOk result (λ new. All (λ c. IsPlainLayout c.array) new.items) }
        ensures converts { OnOk result (first_unconvertible 0 (source_of self.now)
            (target_of self.now) (flat_map (λ chunk. chunk) (map chunk_rows chunks.now)) ≡ None) }
        ensures refused { IfErr result (λ e. Explains
            (AnyTooLarge (target_of self.now) (map chunk_rows chunks.now)) (first_unconvertible 0
            (source_of self.now) (target_of self.now)
            (flat_map (λ chunk. chunk) (map chunk_rows chunks.now))) e) }
        ensures total { IsErrOf result Total → first_unconvertible 0 (source_of self.now)
            (target_of self.now) (flat_map (λ chunk. chunk) (map chunk_rows chunks.now)) ≡ None }
    {
        match self.convert_chunks(alloc, chunks) {
            Ok(converted) => Ok(converted),
            // A row that can't be converted is reported even if it comes after rows that are too
            // large.
            Err(TableError::Total) => {
                self.test_chunks(alloc, chunks)?;
                Err(TableError::Total)
            }
            Err(error) => Err(error),
        }
    }
}
