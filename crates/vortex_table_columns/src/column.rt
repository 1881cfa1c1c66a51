//! A column of a leaf type that grows cell by cell.
ghost use Rattle.std.specs.Prelude.{◌≡◌, [], Some, IfOk, OnOk};
ghost use Rattle.vortex_model.specs.Content.{Raw, raw_null};
ghost use Rattle.vortex_dtype_core.specs.View.{type_of};
ghost use Rattle.vortex_table_columns.specs.Cells.{IsColumn};
ghost use Rattle.vortex_table_columns.specs.Columns.{column_type, cells_of, boolean_cell, number_cell, text_cell, Takes};

use crate::DoesNotFit;
use crate::byte_string::ByteCells;
use crate::cells::of_booleans;
use crate::numbers::NumberCells;
use crate::text::TextCells;
use std::alloc::Global;
use vortex_arrays_core::array::ArrayRef;
use vortex_dtype_core::dtype::DType;
use vortex_dtype_ptype::nullability::Nullability;

/// A column of booleans, of integers of one type, of strings or of bytes. A null may be added to
/// any column: the nullability is checked when it becomes an array.
#[derive(Drop)]
pub enum ColumnBuilder {
    /// Booleans.
    Booleans(Nullability, Vec<Option<bool>>),
    /// Integers of one type.
    Integers(Nullability, NumberCells),
    /// Strings.
    Texts(Nullability, TextCells),
    /// Bytes.
    Bytes(Nullability, ByteCells),
}

impl ColumnBuilder {
    /// An empty column of the type. There is none for a type other than those of booleans,
    /// integers, strings and bytes.
    #[tactic(auto, using(vortex_dtype_core::proofs::Views::one_level))]
    pub fn new(alloc: Global, dtype: &DType) -> Result<ColumnBuilder, DoesNotFit>
        ensures kind { IfOk result (λ column. column_type column ≡ type_of dtype.now) }
        ensures empty { IfOk result (λ column. cells_of column ≡ []) }
    {
        match dtype {
            DType::Bool(nullability) => {
                Ok(ColumnBuilder::Booleans(*nullability, Vec::new(alloc)))
            }
            DType::Primitive(ptype, nullability) => {
                let cells = NumberCells::new(alloc, *ptype)?;
                Ok(ColumnBuilder::Integers(*nullability, cells))
            }
            DType::Utf8(nullability) => {
                Ok(ColumnBuilder::Texts(*nullability, TextCells::new(alloc)))
            }
            DType::Binary(nullability) => {
                Ok(ColumnBuilder::Bytes(*nullability, ByteCells::new(alloc)))
            }
            DType::Null | DType::Decimal(_, _) => Err(DoesNotFit),
            DType::List(_, _) | DType::FixedSizeList(_, _, _) => Err(DoesNotFit),
            DType::Map(_, _) | DType::Struct(_, _) | DType::Union(_, _) => Err(DoesNotFit),
            DType::Variant(_) | DType::Extension(_) => Err(DoesNotFit),
        }
    }

    /// Adds a null.
    #[tactic(auto, using(crate::proofs::ColumnLemmas::taken))]
    pub fn push_null(&mut self) -> Result<(), DoesNotFit>
        ensures { OnOk result (Takes self.old raw_null self.new) }
    {
        match self {
            ColumnBuilder::Booleans(_, cells) => {
                cells.push(None)?;
                Ok(())
            }
            ColumnBuilder::Integers(_, cells) => {
                cells.push(None)?;
                Ok(())
            }
            ColumnBuilder::Texts(_, texts) => {
                texts.push_null()?;
                Ok(())
            }
            ColumnBuilder::Bytes(_, bytes) => {
                bytes.push_null()?;
                Ok(())
            }
        }
    }

    /// Adds a boolean.
    #[tactic(auto, using(crate::proofs::ColumnLemmas::taken))]
    pub fn push_boolean(&mut self, truth: bool) -> Result<(), DoesNotFit>
        ensures { OnOk result ((cell : Raw)
            × (boolean_cell (column_type self.old) truth ≡ Some cell)
            × Takes self.old cell self.new) }
    {
        match self {
            ColumnBuilder::Booleans(_, cells) => {
                cells.push(Some(truth))?;
                Ok(())
            }
            ColumnBuilder::Integers(_, _) => Err(DoesNotFit),
            ColumnBuilder::Texts(_, _) | ColumnBuilder::Bytes(_, _) => Err(DoesNotFit),
        }
    }

    /// Adds an integer, which fits if it is within the type.
    #[tactic(auto, using(crate::proofs::ColumnLemmas::taken))]
    pub fn push_number(&mut self, number: i128) -> Result<(), DoesNotFit>
        ensures { OnOk result ((cell : Raw)
            × (number_cell (column_type self.old) number ≡ Some cell)
            × Takes self.old cell self.new) }
    {
        match self {
            ColumnBuilder::Integers(_, cells) => {
                cells.push(Some(number))?;
                Ok(())
            }
            ColumnBuilder::Booleans(_, _) => Err(DoesNotFit),
            ColumnBuilder::Texts(_, _) | ColumnBuilder::Bytes(_, _) => Err(DoesNotFit),
        }
    }

    /// Adds a string, or the bytes of a string of hexadecimal digits.
    #[tactic(auto, using(crate::proofs::ColumnLemmas::taken))]
    pub fn push_text(&mut self, text: &str) -> Result<(), DoesNotFit>
        ensures { OnOk result ((cell : Raw)
            × (text_cell (column_type self.old) text.now ≡ Some cell)
            × Takes self.old cell self.new) }
    {
        match self {
            ColumnBuilder::Texts(_, texts) => {
                texts.push(text)?;
                Ok(())
            }
            ColumnBuilder::Bytes(_, bytes) => {
                bytes.push_digits(text)?;
                Ok(())
            }
            ColumnBuilder::Booleans(_, _) | ColumnBuilder::Integers(_, _) => Err(DoesNotFit),
        }
    }

    /// Adds an arbitrary cell, for the inside of a null.
    pub(crate) fn fill(&mut self) -> Result<(), DoesNotFit>
        ensures { OnOk result ((cell : Raw) × Takes self.old cell self.new) }
    {
        match self {
            ColumnBuilder::Booleans(_, cells) => {
                cells.push(Some(false))?;
                Ok(())
            }
            ColumnBuilder::Integers(_, cells) => {
                cells.push(Some(0))?;
                Ok(())
            }
            ColumnBuilder::Texts(_, texts) => {
                texts.push("")?;
                Ok(())
            }
            ColumnBuilder::Bytes(_, bytes) => {
                bytes.push_digits("")?;
                Ok(())
            }
        }
    }

    /// The cells as an array. A null doesn't fit in a type without null.
    pub fn finish(self, alloc: Global) -> Result<ArrayRef, DoesNotFit>
        ensures { IfOk result (λ array. IsColumn (column_type self) (cells_of self) array) }
    {
        match self {
            ColumnBuilder::Booleans(nullability, cells) => {
                of_booleans(alloc, nullability, cells.as_slice())
            }
            ColumnBuilder::Integers(nullability, cells) => cells.finish(alloc, nullability),
            ColumnBuilder::Texts(nullability, texts) => texts.finish(alloc, nullability),
            ColumnBuilder::Bytes(nullability, bytes) => bytes.finish(alloc, nullability),
        }
    }
}
