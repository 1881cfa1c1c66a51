//! Tables, and the commands that make and fill them.
ghost use Rattle.std.specs.Prelude.{◌≡◌, IsTrue, is_none, map};
ghost use Rattle.std.specs.List.{list_all};
ghost use Rattle.vortex_model.specs.Kept.{type_fault};
ghost use Rattle.vortex_dtype_core.specs.View.{type_of};
ghost use Rattle.vortex_table_chunk.specs.Chunk.{row_count};
ghost use Rattle.vortex_table_schema.specs.Leaves.{leaf_positions};
ghost use Rattle.vortex_table_core.specs.Group.{AreGroups, AreGroups-prop};
ghost use Rattle.vortex_table_chunk.specs.Formed.{is_formed, eq_leaves, are_lengths_of};
ghost use Rattle.vortex_table_schema.specs.Lengths.{length_in};
ghost use Rattle.vortex_table_zonemaps.specs.Stats.{zone_of};
ghost use Rattle.vortex_table_zonemaps.specs.Zones.{AreZoneMaps, AreZoneMaps-prop};

use crate::group::Group;
use std::alloc::{AllocError, Global};
use std::borrow::CowSlice;
use std::rc::Rc;
use vortex_arrays_core::array::ArrayRef;
use vortex_dtype_core::dtype::DType;
use vortex_dtype_path::path::FieldPath;
use vortex_scalar_value::scalar_value::ScalarValue;
use vortex_table_chunk::chunk::{Chunk, new_chunk};
use vortex_table_io::block_list::BlockList;
use vortex_table_layout::hint::hint_array;
use vortex_table_layout::rows::plain_rows;
use vortex_table_schema::append::{check_batch, convert_rows};
use vortex_table_schema::check::check_type;
use vortex_table_schema::error::TableError;
use vortex_table_schema::layout::Layout;
use vortex_table_schema::leaves::{LeafPath, leaf_positions};
use vortex_table_schema::lengths::{BoundLengths, check_lengths};
use vortex_table_zonemaps::zone_maps::ZoneMaps;

/// A table: rows of one type in chunks, each the rows of one append, and the chunks in groups of
/// neighbours. It has statistics of the leaf columns of each chunk and of each group.
#[derive(Drop)]
pub struct Table {
    pub(crate) dtype: DType,
    pub(crate) bound_lengths: BoundLengths,
    pub(crate) leaves: Rc<Vec<LeafPath>>,
    // The bound length of each of the leaves.
    pub(crate) lengths: Rc<Vec<usize>>,
    pub(crate) len: usize,
    pub(crate) chunks: Vec<Chunk>,
    pub(crate) groups: BlockList<Group>,
    // The statistics of the chunks that scans read, by leaf.
    pub(crate) zones: ZoneMaps,
    pub ghost kept: { IsTrue (is_none (type_fault (type_of dtype))) },
    pub ghost led: { IsTrue (eq_leaves leaves.value.items (leaf_positions (type_of dtype))) },
    pub ghost measured: { IsTrue (are_lengths_of (length_in bound_lengths) (type_of dtype)
        lengths.value.items) },
    pub ghost formed: { IsTrue (list_all (is_formed (length_in bound_lengths) (type_of dtype))
        chunks.items) },
    pub ghost counted: { row_count chunks.items ≡ len },
    pub ghost grouped: { AreGroups (type_of dtype) (length_in bound_lengths) 0 groups
        chunks.items } by { AreGroups-prop (type_of dtype) (length_in bound_lengths) 0 groups
            chunks.items },
    pub ghost zoned: { AreZoneMaps zones (map zone_of chunks.items) } by { AreZoneMaps-prop zones
        (map zone_of chunks.items) },
}

impl Table {
    ghost use Rattle.std.specs.Prelude.{◌≡◌, ◌+◌, ◌^◌, ◌≤◌, [], None, length, map, IfOk, OnOk, IfErr, OnErr, IsTrue, ◌↔◌};
    ghost use Rattle.std.specs.Cow.{cow_slice_items};
    ghost use Rattle.vortex_model_table.specs.Table.{rows_of as table_rows};
    ghost use Rattle.vortex_arrays_model.specs.Layout.{len_of, array_type_of, rows_of};
    ghost use Rattle.vortex_model.specs.Valid.{valid};
    ghost use Rattle.vortex_model_table.specs.Command.{appended, create_fault, created};
    ghost use Rattle.vortex_dtype_core.specs.View.{type_of};
    ghost use Rattle.vortex_scalar_value.specs.View.{raw_of};
    ghost use Rattle.vortex_table_schema.specs.Rows.{row_content};
    ghost use Rattle.vortex_table_core.specs.Append.{Appends};
    ghost use Rattle.vortex_table_core.specs.Arrays.{arrays_of, AddsArray};
    ghost use Rattle.vortex_table_layout.specs.Hinted.{HasHintedColumns};
    ghost use Rattle.vortex_table_layout.specs.TooLarge.{AreTooLarge};
    ghost use Rattle.vortex_table_schema.specs.Error.{Explains};
    ghost use Rattle.vortex_table_schema.specs.Lengths.{entries_in};
    ghost use Rattle.vortex_table_core.specs.Kept.{AddsAChunk, IsCloneOf, ShowsTheSame};
    ghost use Rattle.vortex_table_core.specs.TableView.{table_of};

    /// A table without rows. A bound of a leaf column that is a string or bytes of more bytes than
    /// the column's bound length is shortened: that of its path in `lengths`, and else `default`. A
    /// path is resolved to the positions of its names in the type.
    ///
    /// Refused, in this order: where a table can't hold the type, `NotARecord`, `RepeatedName`,
    /// `UnkeptType`; the first of `lengths` at fault, by its index, `UnknownPath`, `ElementStep`,
    /// `NotALeaf`, `RepeatedPath` where its path is in one before it.
    pub fn create(
        alloc: Global,
        dtype: DType,
        default: usize,
        lengths: &[(FieldPath, usize)],
    ) -> Result<Table, TableError>
        ensures made { IfOk result
            (λ t. table_of t ≡ created (type_of dtype) default (entries_in lengths.now)) }
        ensures accepted { OnOk result
            (create_fault (type_of dtype) (entries_in lengths.now) ≡ None) }
        ensures refused { IfErr result
            (λ e. Explains ⊥ (create_fault (type_of dtype) (entries_in lengths.now)) e) }
    {
        check_type(alloc, &dtype)?;
        let bound_lengths = check_lengths(alloc, &dtype, default, lengths)?;
        let leaves = leaf_positions(alloc, &dtype)?;
        let lengths = bound_lengths.of_leaves(alloc, &leaves)?;
        let zones = ZoneMaps::new(alloc, &dtype, &leaves)?;
        Ok(Table {
            dtype,
            bound_lengths,
            leaves,
            lengths,
            len: 0,
            chunks: Vec::new(alloc),
            groups: BlockList::new(alloc),
            zones,
        })
    }

    /// The table once more, with its chunks, groups and statistics as they are. Rows are shared.
    pub fn clone(&self) -> Result<Table, AllocError>
        ensures { IfOk result (λ new. IsCloneOf self.now new) }
    {
        let alloc = *self.chunks.allocator();
        let dtype = self.dtype.clone()?;
        let bound_lengths = self.bound_lengths.clone()?;
        let leaves = self.leaves.clone()?;
        let lengths = self.lengths.clone()?;
        let chunks = self.chunks.clone()?;
        let groups = self.groups.clone()?;
        let zones = ZoneMaps::of_chunks(alloc, &dtype, &leaves, &chunks)?;
        Ok(Table {
            dtype,
            bound_lengths,
            leaves,
            lengths,
            len: self.len,
            chunks,
            groups,
            zones,
        })
    }

    /// Converts the rows, each a value of the batch's type or null, to the table's type and keeps
    /// them as one new chunk. No rows make none. After an error the table is as before.
    ///
    /// `layouts` has a hint for each column, in the order of the table's fields, of how it is to be
    /// laid out: columns without one are plain, and hints after the last column are ignored. So is
    /// one that doesn't fit: a dictionary fits a column of booleans, integers, strings or bytes
    /// with a value that is not null, a constant one whose rows are all equal.
    ///
    /// Refused, in this order: where a table can't hold the batch's type; `InvalidValue` with the
    /// first row that isn't valid for it; `NotConvertible` with the first that the table's type
    /// can't hold; `Total` where the rows would be more than `usize::MAX`, or a column has strings
    /// or bytes that are too large for views and buffers.
    pub fn append(
        &mut self,
        batch_dtype: &DType,
        values: &[Option<ScalarValue>],
        layouts: &[Layout],
    ) -> Result<(), TableError>
        ensures appends { Appends (table_of self.old) (type_of batch_dtype.now) values.now result
            (table_of self.new) }
        ensures layout { OnOk result (AddsArray (HasHintedColumns layouts.now)
            (arrays_of self.old) (arrays_of self.new)) }
        ensures added { OnOk result (AddsAChunk self.old self.new) }
        ensures unchanged { OnErr result (ShowsTheSame self.old self.new) }
    {
        self.append_rows(batch_dtype, CowSlice::Borrowed(values), layouts)
    }

    /// As `append`, of rows that are handed over: each is freed once it is converted.
    pub fn append_owned(
        &mut self,
        batch_dtype: &DType,
        values: Vec<Option<ScalarValue>>,
        layouts: &[Layout],
    ) -> Result<(), TableError>
        ensures appends { Appends (table_of self.old) (type_of batch_dtype.now) values.items result
            (table_of self.new) }
        ensures layout { OnOk result (AddsArray (HasHintedColumns layouts.now)
            (arrays_of self.old) (arrays_of self.new)) }
        ensures added { OnOk result (AddsAChunk self.old self.new) }
        ensures unchanged { OnErr result (ShowsTheSame self.old self.new) }
    {
        self.append_rows(batch_dtype, CowSlice::Owned(values), layouts)
    }

    fn append_rows(
        &mut self,
        batch_dtype: &DType,
        values: CowSlice<'_, Option<ScalarValue>>,
        layouts: &[Layout],
    ) -> Result<(), TableError>
        ensures appends { Appends (table_of self.old) (type_of batch_dtype.now)
            (cow_slice_items values.entry) result (table_of self.new) }
        ensures layout { OnOk result (AddsArray (HasHintedColumns layouts.now)
            (arrays_of self.old) (arrays_of self.new)) }
        ensures added { OnOk result (AddsAChunk self.old self.new) }
        ensures unchanged { OnErr result (ShowsTheSame self.old self.new) }
    {
        let alloc = *self.chunks.allocator();
        check_batch(alloc, batch_dtype, values.as_slice())?;
        let rows = convert_rows(alloc, batch_dtype, &self.dtype, values)?;
        let array = self.lay_out(alloc, &rows, layouts)?;
        self.push_array(alloc, array)?;
        Ok(())
    }

    // The rows, which are of the table's type, as an array.
    pub(crate) fn lay_out(
        &self,
        alloc: Global,
        rows: &[ScalarValue],
        layouts: &[Layout],
    ) -> Result<ArrayRef, TableError>
        requires { IsTrue
            (list_all (λ row. valid (type_of self.now.dtype) (raw_of row)) rows.now) }
        ensures dtype { IfOk result (λ array. array_type_of array ≡ type_of self.now.dtype) }
        ensures rows { IfOk result (λ array. rows_of array ≡ map row_content rows.now) }
        ensures layout { IfOk result (λ array. HasHintedColumns layouts.now array) }
        ensures refused { IfErr result (λ e. Explains
            (AreTooLarge (type_of self.now.dtype) (map row_content rows.now)) None e) }
    {
        let plain = plain_rows(alloc, &self.dtype, rows)?;
        let array = hint_array(alloc, &plain, layouts)?;
        Ok(array)
    }

    // Keeps the rows of the array, which is of the table's type, as one new chunk in a group of its
    // own. No rows make none.
    pub(crate) fn push_array(&mut self, alloc: Global, array: ArrayRef) -> Result<(), TableError>
        requires { array_type_of array ≡ type_of self.old.dtype }
        ensures appended { OnOk result
            (table_of self.new ≡ appended (table_of self.old) (rows_of array)) }
        ensures array { OnOk result
            (AddsArray (λ a. a ≡ array) (arrays_of self.old) (arrays_of self.new)) }
        ensures refused { IfErr result (λ e. Explains
            (2 ^ 64 ≤ length (table_rows (table_of self.old)) + len_of array) None e) }
        ensures added { OnOk result (AddsAChunk self.old self.new) }
        ensures unchanged { OnErr result (ShowsTheSame self.old self.new) }
    {
        let rows = array.len();
        let Some(len) = self.len.checked_add(rows) else {
            return Err(TableError::Total);
        };
        if rows == 0 {
            return Ok(());
        }
        let index = self.chunks.len();
        let group = Group {
            first: index,
            chunks: 1,
            rows,
            joined: None,
        };
        let chunk = new_chunk(alloc, &self.leaves, &self.lengths, array)?;
        // Once there is room for the chunk, its group is the last that memory can be short of. A
        // zone that is put after those of the chunks counts from then on.
        self.chunks.reserve(1)?;
        self.zones.put(index, &chunk.bounds, rows)?;
        self.groups.push(group)?;
        self.chunks.push(chunk)?;
        self.len = len;
        Ok(())
    }

    /// The type of the rows.
    pub fn dtype(&self) -> &DType
        ensures { type_of result.now ≡ (table_of self.now).kind }
    {
        &self.dtype
    }

    /// The number of rows.
    pub fn len(&self) -> usize
        ensures { result ≡ length (table_rows (table_of self.now)) }
    {
        self.len
    }

    /// Whether there are no rows.
    pub fn is_empty(&self) -> bool
        ensures { IsTrue result ↔ (table_rows (table_of self.now) ≡ []) }
    {
        self.len == 0
    }

    /// The number of chunks.
    pub fn chunk_count(&self) -> usize
        ensures { result ≡ length (table_of self.now).chunks }
    {
        self.chunks.len()
    }
}
