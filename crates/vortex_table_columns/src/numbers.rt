//! Cells of integers of one type.
ghost use Rattle.std.specs.Prelude.{◌≡◌, [], true, map, option_map, IfSome, IfOk, OnOk};
ghost use Rattle.vortex_model.specs.LogicalType.{integer_type};
ghost use Rattle.vortex_model.specs.Content.{raw_number};
ghost use Rattle.vortex_model.specs.Valid.{in_range};
ghost use Rattle.vortex_dtype_ptype.specs.Numbers.{integral};
ghost use Rattle.vortex_dtype_ptype.specs.View.{nullability_of_flag, number_kind_of};
ghost use Rattle.vortex_table_columns.specs.Cells.{cell_raw, IsColumn};
ghost use Rattle.vortex_table_columns.specs.Numbers.{kind_in, cells_by, integers_in, Pushes, IsPushed};

use crate::DoesNotFit;
use crate::cells::of_integers;
use std::alloc::Global;
use vortex_arrays_buffer::element::Element;
use vortex_arrays_core::array::ArrayRef;
use vortex_dtype_ptype::nullability::Nullability;
use vortex_dtype_ptype::ptype::PType;

/// Integers of one type, and `None` for null.
pub enum NumberCells {
    U8(Vec<Option<u8>>),
    U16(Vec<Option<u16>>),
    U32(Vec<Option<u32>>),
    U64(Vec<Option<u64>>),
    I8(Vec<Option<i8>>),
    I16(Vec<Option<i16>>),
    I32(Vec<Option<i32>>),
    I64(Vec<Option<i64>>),
}

impl Drop for NumberCells {
    fn drop(self) {
        match self {
            NumberCells::U8(_cells) => {}
            NumberCells::U16(_cells) => {}
            NumberCells::U32(_cells) => {}
            NumberCells::U64(_cells) => {}
            NumberCells::I8(_cells) => {}
            NumberCells::I16(_cells) => {}
            NumberCells::I32(_cells) => {}
            NumberCells::I64(_cells) => {}
        }
    }
}

// The integer, which fits if it is within the type, or null.
fn item_of<T: Element>(cell: Option<i128>) -> Result<Option<T>, DoesNotFit>
    ensures held { IfOk result (λ _. IfSome cell (λ z. in_range T.kind z ≡ true)) }
    ensures item { IfOk result (λ item. option_map T.integer item ≡ cell) }
{
    match cell {
        None => Ok(None),
        Some(number) => match T::of(number) {
            Some(item) => Ok(Some(item)),
            None => Err(DoesNotFit),
        },
    }
}

fn push<T: Element>(cells: &mut Vec<Option<T>>, cell: Option<i128>) -> Result<(), DoesNotFit>
    ensures { OnOk result (Pushes T.kind (cells_by T.integer cells.old.items) cell
        (cells_by T.integer cells.new.items)) }
{
    let item = item_of(cell)?;
    cells.push(item)?;
    Ok(())
}

impl NumberCells {
    /// No cells of an integer type. There are none for float types.
    pub fn new(alloc: Global, ptype: PType) -> Result<NumberCells, DoesNotFit>
        ensures kind { IfOk result (λ cells. integral (kind_in cells) ≡ number_kind_of ptype) }
        ensures empty { IfOk result (λ cells. integers_in cells ≡ []) }
    {
        match ptype {
            PType::U8 => Ok(NumberCells::U8(Vec::new(alloc))),
            PType::U16 => Ok(NumberCells::U16(Vec::new(alloc))),
            PType::U32 => Ok(NumberCells::U32(Vec::new(alloc))),
            PType::U64 => Ok(NumberCells::U64(Vec::new(alloc))),
            PType::I8 => Ok(NumberCells::I8(Vec::new(alloc))),
            PType::I16 => Ok(NumberCells::I16(Vec::new(alloc))),
            PType::I32 => Ok(NumberCells::I32(Vec::new(alloc))),
            PType::I64 => Ok(NumberCells::I64(Vec::new(alloc))),
            PType::F16 | PType::F32 | PType::F64 => Err(DoesNotFit),
        }
    }

    /// Adds an integer, which fits if it is within the type, or null.
    pub fn push(&mut self, cell: Option<i128>) -> Result<(), DoesNotFit>
        ensures { OnOk result (IsPushed self.old cell self.new) }
    {
        match self {
            NumberCells::U8(cells) => push(cells, cell),
            NumberCells::U16(cells) => push(cells, cell),
            NumberCells::U32(cells) => push(cells, cell),
            NumberCells::U64(cells) => push(cells, cell),
            NumberCells::I8(cells) => push(cells, cell),
            NumberCells::I16(cells) => push(cells, cell),
            NumberCells::I32(cells) => push(cells, cell),
            NumberCells::I64(cells) => push(cells, cell),
        }
    }

    /// The cells as an array. A null doesn't fit in a type without null.
    pub fn finish(self, alloc: Global, nullability: Nullability) -> Result<ArrayRef, DoesNotFit>
        ensures { IfOk result (λ array. IsColumn
            (integer_type (kind_in self) (nullability_of_flag nullability))
            (map (cell_raw (raw_number (kind_in self))) (integers_in self)) array) }
    {
        match self {
            NumberCells::U8(cells) => of_integers(alloc, nullability, cells.as_slice()),
            NumberCells::U16(cells) => of_integers(alloc, nullability, cells.as_slice()),
            NumberCells::U32(cells) => of_integers(alloc, nullability, cells.as_slice()),
            NumberCells::U64(cells) => of_integers(alloc, nullability, cells.as_slice()),
            NumberCells::I8(cells) => of_integers(alloc, nullability, cells.as_slice()),
            NumberCells::I16(cells) => of_integers(alloc, nullability, cells.as_slice()),
            NumberCells::I32(cells) => of_integers(alloc, nullability, cells.as_slice()),
            NumberCells::I64(cells) => of_integers(alloc, nullability, cells.as_slice()),
        }
    }
}
