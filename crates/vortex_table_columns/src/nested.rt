//! A column of any type that tables can hold, which grows cell by cell.
ghost use Rattle.std.specs.Prelude.{◌≡◌, ◌≤◌, ◌*◌, List, [], length, IfOk, OnOk};
ghost use Rattle.vortex_model.specs.Content.{Raw, raw_null};
ghost use Rattle.vortex_dtype_core.specs.View.{type_of, fields_of};
ghost use Rattle.vortex_table_columns.specs.Cells.{IsColumn};
ghost use Rattle.vortex_table_columns.specs.Nested.{column_of, columns_of, Holds, HaveFields, IsOf, AreOf, Gains, GainsAll, EachGains, AreArrays};

use crate::DoesNotFit;
use crate::column::ColumnBuilder;
use crate::inside::{of_fixed_lists, of_lists, of_records};
use std::alloc::Global;
use vortex_arrays_core::array::ArrayRef;
use vortex_dtype_core::dtype::DType;
use vortex_dtype_core::struct_fields::StructField;

/// The deepest nesting of a column.
const MAX_DEPTH: usize = 128;

/// The most items of a null fixed-size list, so that few bytes of a line take little memory.
const MAX_FILLED: u32 = 64;

/// A column of leaves, of structs or of lists. A null may be added to any column: the nullability
/// is checked when it becomes an array.
#[cycle(nested)]
pub enum NestedBuilder {
    /// Booleans, integers, strings or bytes.
    Leaf(ColumnBuilder),
    /// Structs: which are not null, and a column for each field, which has cells in null structs
    /// too.
    Records(Vec<Option<()>>, Vec<NestedBuilder>),
    /// Lists: the size of each, and the items of all, end to end.
    Lists(Vec<Option<u64>>, Box<NestedBuilder>),
    /// Fixed-size lists: the size, which are not null, and the items of all, end to end, also those
    /// of null lists.
    FixedLists(u32, Vec<Option<()>>, Box<NestedBuilder>),
}

impl Drop for NestedBuilder {
    #[cycle(drop_nested)]
    fn drop(self) {
        match self {
            NestedBuilder::Leaf(_column) => {}
            NestedBuilder::Records(_present, _columns) => {}
            NestedBuilder::Lists(_sizes, _items) => {}
            NestedBuilder::FixedLists(_, _present, _items) => {}
        }
    }
}

// The number of items in `lists` null lists of this size.
fn items_filled(lists: u32, size: u32) -> Result<u32, DoesNotFit>
    ensures { IfOk result (λ items. (items ≡ lists * size) × (items ≤ 64)) }
{
    let items = lists.checked_mul(size).ok_or(DoesNotFit)?;
    if items > MAX_FILLED {
        return Err(DoesNotFit);
    }
    Ok(items)
}

impl NestedBuilder {
    /// An empty column of the type. There is none for a type with leaves other than booleans,
    /// integers, strings and bytes.
    pub fn new(alloc: Global, dtype: &DType) -> Result<NestedBuilder, DoesNotFit>
        ensures { IfOk result (λ c. Holds (column_of c) (type_of dtype.now) []) }
    {
        NestedBuilder::of_type(alloc, dtype, MAX_DEPTH)
    }

    // A column of the type, nested at most `depth` deep.
    #[cycle(new)]
    #[tactic(auto, using(crate::proofs::NestedLemmas::one_level))]
    fn of_type(alloc: Global, dtype: &DType, depth: usize) -> Result<NestedBuilder, DoesNotFit>
        ensures { IfOk result (λ c. Holds (column_of c) (type_of dtype.now) []) }
    {
        if depth == 0 {
            return Err(DoesNotFit);
        }
        match dtype {
            DType::Struct(fields, _) => {
                let columns = NestedBuilder::of_fields(alloc, fields.as_slice(), depth - 1)?;
                Ok(NestedBuilder::Records(Vec::new(alloc), columns))
            }
            DType::List(element, _) => {
                let items = NestedBuilder::of_type(alloc, element, depth - 1)?;
                Ok(NestedBuilder::Lists(Vec::new(alloc), Box::new(alloc, items)?))
            }
            DType::FixedSizeList(element, size, _) => {
                let items = NestedBuilder::of_type(alloc, element, depth - 1)?;
                let items = Box::new(alloc, items)?;
                Ok(NestedBuilder::FixedLists(*size, Vec::new(alloc), items))
            }
            DType::Bool(_) | DType::Primitive(_, _) | DType::Utf8(_) | DType::Binary(_) => {
                let column = ColumnBuilder::new(alloc, dtype)?;
                Ok(NestedBuilder::Leaf(column))
            }
            DType::Null | DType::Decimal(_, _) | DType::Variant(_) => Err(DoesNotFit),
            DType::Map(_, _) | DType::Union(_, _) | DType::Extension(_) => Err(DoesNotFit),
        }
    }

    // A column for each field.
    #[cycle(new)]
    #[tactic(auto, using(crate::proofs::NestedLemmas::one_level))]
    fn of_fields(
        alloc: Global,
        fields: &[StructField],
        depth: usize,
    ) -> Result<Vec<NestedBuilder>, DoesNotFit>
        ensures { IfOk result
            (λ cs. HaveFields (columns_of cs.items) (fields_of fields.now) []) }
    {
        if depth == 0 {
            return Err(DoesNotFit);
        }
        let mut columns = Vec::with_capacity(alloc, fields.len())?;
        for field in fields {
            let column = NestedBuilder::of_type(alloc, &field.dtype, depth - 1)?;
            columns.push(column)?;
        }
        Ok(columns)
    }

    /// Adds a null. It doesn't fit if it would need too many items of fixed-size lists.
    #[tactic(auto, using(crate::proofs::NestedLemmas::one_level))]
    pub fn push_null(&mut self) -> Result<(), DoesNotFit>
        ensures { OnOk result (Gains (column_of self.old) raw_null (column_of self.new)) }
    {
        match self {
            NestedBuilder::Leaf(column) => column.push_null(),
            NestedBuilder::Records(present, columns) => {
                fill_all(columns, 1, MAX_DEPTH)?;
                present.push(None)?;
                Ok(())
            }
            NestedBuilder::Lists(sizes, _items) => {
                sizes.push(None)?;
                Ok(())
            }
            NestedBuilder::FixedLists(size, present, items) => {
                fill_times(items, *size, 1, MAX_DEPTH)?;
                present.push(None)?;
                Ok(())
            }
        }
    }

    /// The cells as an array of the type. A null doesn't fit in a type without null.
    pub fn finish(self, alloc: Global, dtype: &DType) -> Result<ArrayRef, DoesNotFit>
        requires { IsOf (column_of self) (type_of dtype.now) }
        ensures { IfOk result (λ array. (rs : List Raw)
            → Holds (column_of self) (type_of dtype.now) rs
            → IsColumn (type_of dtype.now) rs array) }
    {
        self.finish_deep(alloc, dtype, MAX_DEPTH)
    }

    // The cells of a column, nested at most `depth` deep, as an array of the type.
    #[cycle(finish)]
    #[tactic(auto, using(crate::proofs::NestedLemmas::one_level))]
    fn finish_deep(self, alloc: Global, dtype: &DType, depth: usize) -> Result<ArrayRef, DoesNotFit>
        requires { IsOf (column_of self) (type_of dtype.now) }
        ensures { IfOk result (λ array. (rs : List Raw)
            → Holds (column_of self) (type_of dtype.now) rs
            → IsColumn (type_of dtype.now) rs array) }
    {
        if depth == 0 {
            return Err(DoesNotFit);
        }
        match self {
            NestedBuilder::Leaf(column) => column.finish(alloc),
            NestedBuilder::Records(present, columns) => {
                let DType::Struct(fields, nullability) = dtype else {
                    return Err(DoesNotFit);
                };
                let arrays = finish_all(alloc, columns, fields.as_slice(), depth - 1)?;
                of_records(alloc, fields, *nullability, arrays, present.as_slice())
            }
            NestedBuilder::Lists(sizes, items) => {
                let DType::List(element, nullability) = dtype else {
                    return Err(DoesNotFit);
                };
                let items = Box::into_inner(items).finish_deep(alloc, element, depth - 1)?;
                of_lists(alloc, *nullability, items, sizes.as_slice())
            }
            NestedBuilder::FixedLists(size, present, items) => {
                let DType::FixedSizeList(element, _size, nullability) = dtype else {
                    return Err(DoesNotFit);
                };
                let items = Box::into_inner(items).finish_deep(alloc, element, depth - 1)?;
                of_fixed_lists(alloc, *nullability, items, size, present.as_slice())
            }
        }
    }
}

// Adds an arbitrary cell inside of a null, as one of `filled`.
#[cycle(fill)]
#[tactic(auto, using(crate::proofs::NestedLemmas::one_level))]
fn fill(column: &mut NestedBuilder, filled: u32, depth: usize) -> Result<(), DoesNotFit>
    ensures { OnOk result ((cell : Raw)
        × Gains (column_of column.old) cell (column_of column.new)) }
{
    if depth == 0 {
        return Err(DoesNotFit);
    }
    match column {
        NestedBuilder::Leaf(leaf) => leaf.fill(),
        NestedBuilder::Records(present, columns) => {
            fill_all(columns, filled, depth - 1)?;
            present.push(Some(()))?;
            Ok(())
        }
        NestedBuilder::Lists(sizes, _items) => {
            sizes.push(Some(0))?;
            Ok(())
        }
        NestedBuilder::FixedLists(size, present, items) => {
            fill_times(items, *size, filled, depth - 1)?;
            present.push(Some(()))?;
            Ok(())
        }
    }
}

// Adds an arbitrary cell to each column, inside of a null with `filled` of them.
#[cycle(fill)]
#[tactic(auto, using(crate::proofs::NestedLemmas::one_level))]
fn fill_all(columns: &mut Vec<NestedBuilder>, filled: u32, depth: usize) -> Result<(), DoesNotFit>
    ensures { OnOk result ((cells : List Raw)
        × EachGains columns.old.items cells columns.new.items) }
{
    if depth == 0 {
        return Err(DoesNotFit);
    }
    for i in 0..columns.len() {
        fill(&mut columns[i], filled, depth - 1)?;
    }
    Ok(())
}

// Adds `count` arbitrary cells, inside of each of `lists` null lists.
#[cycle(fill)]
#[tactic(auto, using(crate::proofs::NestedLemmas::one_level))]
fn fill_times(
    column: &mut NestedBuilder,
    count: u32,
    lists: u32,
    depth: usize,
) -> Result<(), DoesNotFit>
    ensures { OnOk result ((cells : List Raw) × (length cells ≡ count)
        × GainsAll (column_of column.old) cells (column_of column.new)) }
{
    if depth == 0 {
        return Err(DoesNotFit);
    }
    let filled = items_filled(lists, count)?;
    for _ in 0..count {
        fill(column, filled, depth - 1)?;
    }
    Ok(())
}

// The array that each column becomes, of the type of the field at its index.
#[cycle(finish)]
#[tactic(auto, using(crate::proofs::NestedLemmas::one_level))]
fn finish_all(
    alloc: Global,
    columns: Vec<NestedBuilder>,
    fields: &[StructField],
    depth: usize,
) -> Result<Vec<ArrayRef>, DoesNotFit>
    requires { AreOf (columns_of columns.items) (fields_of fields.now) }
    ensures { IfOk result (λ arrays. (rows : List (List Raw))
        → HaveFields (columns_of columns.items) (fields_of fields.now) rows
        → AreArrays (fields_of fields.now) rows arrays.items) }
{
    if depth == 0 {
        return Err(DoesNotFit);
    }
    let mut arrays = Vec::with_capacity(alloc, columns.len())?;
    for column in columns {
        let Some(field) = fields.get(arrays.len()) else {
            return Err(DoesNotFit);
        };
        let array = column.finish_deep(alloc, &field.dtype, depth - 1)?;
        arrays.push(array)?;
    }
    Ok(arrays)
}
