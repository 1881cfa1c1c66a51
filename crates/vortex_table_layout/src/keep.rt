//! Which arrays a table keeps in their layout.
ghost use Rattle.std.specs.Prelude.{◌≡◌, ◌↔◌, IsTrue};
ghost use Rattle.std.specs.List.{list_all};
ghost use Rattle.vortex_dtype_core.specs.View.{type_of};
ghost use Rattle.vortex_table_layout.specs.Kept.{has_record_columns, KeepsLayout};

use vortex_arrays_core::array::{ArrayLayout, ArrayRef};
use vortex_dtype_core::dtype::DType;

/// Whether a table of the type keeps the array's layout: the array is of the type, and each part of
/// a struct type that is reached only through structs is a struct array.
pub fn keeps_layout(dtype: &DType, array: &ArrayRef) -> bool
    ensures { IsTrue result ↔ KeepsLayout (type_of dtype.now) array.now }
{
    *array.dtype() == *dtype && has_record_columns(array)
}

#[cycle(keep)]
#[tactic(auto, using(crate::proofs::KeepLemmas::records))]
fn has_record_columns(array: &ArrayRef) -> bool
    ensures { result ≡ has_record_columns array.now }
{
    match array.layout() {
        ArrayLayout::Struct(_, fields, _, _) => have_record_columns(fields),
        ArrayLayout::Bool(_, _) | ArrayLayout::Primitive(_, _) => true,
        ArrayLayout::VarBinView(_, _, _, _) => true,
        ArrayLayout::FixedSizeList(_, _, _, _) | ArrayLayout::ListView(_, _, _, _, _) => true,
        ArrayLayout::Constant(_, _) | ArrayLayout::Dict(_, _, _) => !array.dtype().is_struct(),
    }
}

#[cycle(keep)]
#[tactic(auto, using(crate::proofs::KeepLemmas::fields))]
fn have_record_columns(fields: &Vec<ArrayRef>) -> bool
    ensures { result ≡ list_all has_record_columns fields.now.items }
{
    for field in fields {
        if !has_record_columns(field) {
            return false;
        }
    }
    true
}
