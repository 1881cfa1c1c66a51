//! Leaf columns of arrays, and as columns that are compared.
ghost use Rattle.std.specs.Prelude.{◌≡◌, List, Bool, Option, map, IfOk, IfSome};
ghost use Rattle.vortex_arrays_model.specs.Layout.{rows_of, string_content};
ghost use Rattle.vortex_arrays_core.specs.LayoutOf.{strings_of};
ghost use Rattle.vortex_arrays_view.specs.Views.{value_of};
ghost use Rattle.vortex_stats_mask.specs.Columns.{contents_of, column_of};
ghost use Rattle.vortex_stats_mask.specs.Headed.{AreHeaded, ViewsHaveHeads};
ghost use Rattle.vortex_stats_select.specs.Headed.{IsHeaded};
ghost use Rattle.vortex_stats_select.specs.Leaves.{leaf_values, leaf_rows};

use crate::leaf::{Leaf, LeafItems};
use crate::validity::{shared_valid_rows, valid_rows_of};
use bytes::Bytes;
use std::alloc::{AllocError, Global};
use std::rc::Rc;
use vortex_arrays_buffer::Buffer;
use vortex_arrays_core::array::{ArrayLayout, ArrayRef, StringKind};
use vortex_arrays_view::view::BinaryView;
use vortex_stats_mask::column::{Column, Items, Strings, ValidRows};
use vortex_stats_mask::items::numbers_of;
use vortex_stats_match::buffers::Buffers;

impl LeafItems {
    fn as_items(&self) -> Items<'_>
        ensures values { contents_of result ≡ leaf_values self.now }
        ensures headed { (valid : Option (List Bool)) → IsHeaded self.now valid
            → AreHeaded result valid }
    {
        match self {
            LeafItems::Bools(items) => Items::Bools(items),
            LeafItems::Numbers(numbers) => Items::Numbers(numbers_of(numbers)),
            LeafItems::Texts(views, buffers) => Items::Texts(Strings {
                views: views.as_slice(),
                buffers: Buffers::Shared(buffers.as_slice()),
            }),
            LeafItems::Binaries(views, buffers) => Items::Binaries(Strings {
                views: views.as_slice(),
                buffers: Buffers::Shared(buffers.as_slice()),
            }),
        }
    }
}

impl Leaf {
    /// The column, lent.
    pub fn as_column(&self) -> Column<'_>
        ensures { column_of result ≡ leaf_rows self.now }
    {
        let validity = match &self.validity {
            Some(rows) => ValidRows::Bits(rows),
            None => ValidRows::All,
        };
        Column {
            items: self.items.as_items(),
            validity,
        }
    }
}

// The items of an array as a leaf column. `None` where it isn't laid out plain, or its values are
// lists or records.
pub(crate) fn leaf_of(alloc: Global, array: &ArrayRef) -> Result<Option<Leaf>, AllocError>
    ensures { IfOk result
        (λ found. IfSome found (λ leaf. leaf_rows leaf ≡ rows_of array.now)) }
{
    match array.layout() {
        ArrayLayout::Bool(bits, validity) => {
            let validity = valid_rows_of(alloc, validity, bits.len())?;
            let items = LeafItems::Bools(bits.to_bools(alloc)?);
            Ok(Some(Leaf { items, validity }))
        }
        ArrayLayout::Primitive(numbers, validity) => {
            let validity = valid_rows_of(alloc, validity, numbers.len())?;
            let items = LeafItems::Numbers(numbers.clone()?);
            Ok(Some(Leaf { items, validity }))
        }
        ArrayLayout::VarBinView(kind, views, buffers, validity) => {
            let validity = valid_rows_of(alloc, validity, views.len())?;
            let items = string_items(*kind, views.clone()?, buffers.clone()?);
            Ok(Some(Leaf { items, validity }))
        }
        ArrayLayout::Constant(_, _) => Ok(None),
        ArrayLayout::Dict(_, _, _) => Ok(None),
        ArrayLayout::FixedSizeList(_, _, _, _) => Ok(None),
        ArrayLayout::ListView(_, _, _, _, _) => Ok(None),
        ArrayLayout::Struct(_, _, _, _) => Ok(None),
    }
}

/// The items of an array as a leaf column that shares them all. `None` also where something would
/// have to be made: booleans, and validities that aren't laid out plain.
pub fn shared_leaf(array: &ArrayRef) -> Result<Option<Leaf>, AllocError>
    ensures { IfOk result
        (λ found. IfSome found (λ leaf. leaf_rows leaf ≡ rows_of array.now)) }
{
    match array.layout() {
        ArrayLayout::Primitive(numbers, validity) => {
            let Some(validity) = shared_valid_rows(validity, numbers.len())? else {
                return Ok(None);
            };
            let items = LeafItems::Numbers(numbers.clone()?);
            Ok(Some(Leaf { items, validity }))
        }
        ArrayLayout::VarBinView(kind, views, buffers, validity) => {
            let Some(validity) = shared_valid_rows(validity, views.len())? else {
                return Ok(None);
            };
            let items = string_items(*kind, views.clone()?, buffers.clone()?);
            Ok(Some(Leaf { items, validity }))
        }
        ArrayLayout::Bool(_, _) => Ok(None),
        ArrayLayout::Constant(_, _) => Ok(None),
        ArrayLayout::Dict(_, _, _) => Ok(None),
        ArrayLayout::FixedSizeList(_, _, _, _) => Ok(None),
        ArrayLayout::ListView(_, _, _, _, _) => Ok(None),
        ArrayLayout::Struct(_, _, _, _) => Ok(None),
    }
}

fn string_items(kind: StringKind, views: Buffer<BinaryView>, buffers: Rc<Vec<Bytes>>) -> LeafItems
    ensures values { leaf_values result ≡ map (string_content (strings_of kind))
        (map (λ v. value_of v buffers.value.items) views) }
    ensures headed { (valid : Option (List Bool)) →
        ViewsHaveHeads valid views buffers.value.items → IsHeaded result valid }
{
    match kind {
        StringKind::Utf8 => LeafItems::Texts(views, buffers),
        StringKind::Binary => LeafItems::Binaries(views, buffers),
    }
}
