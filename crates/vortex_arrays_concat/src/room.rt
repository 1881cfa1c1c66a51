//! Whether views and buffers have room for the strings and bytes of an array, whatever its layout.
ghost use Rattle.std.specs.Prelude.{◌≤◌, ◌+◌, IsTrue, IfSome};
ghost use Rattle.vortex_arrays_model.specs.Layout.{array_type_of, rows_of};
ghost use Rattle.vortex_arrays_builder.specs.Types.{IsPlainLayout};
ghost use Rattle.vortex_arrays_builder.specs.TooLarge.{AreTooLarge};
ghost use Rattle.vortex_arrays_concat.specs.Room.{array_weight, fields_weight, views_weight};

use vortex_arrays_core::array::{ArrayLayout, ArrayRef};
use vortex_arrays_view::build::MAX_BUFFER_LEN;
use vortex_arrays_view::view::BinaryView;

// The number of buffers that a view's index can number.
const MAX_BUFFERS: usize = 4_294_967_296;

/// Whether, in an array in plain layout, no string or bytes value at any depth is longer than a
/// buffer can be, and there are at most 2^32 of them, so that each could have its own buffer.
pub(crate) fn have_room(array: &ArrayRef) -> bool
    requires { IsPlainLayout array.now }
    ensures { IsTrue result → ¬ AreTooLarge (array_type_of array.now) (rows_of array.now) }
{
    // Proves that its parts fit together.
    let _rows = array.len();
    left_by(array, MAX_BUFFERS).is_some()
}

// The number of buffers that are left of `left` after each string or bytes value took one. `None`
// where they are too few, or a value is longer than a buffer can be.
#[cycle(room)]
#[tactic(auto, using(crate::proofs::ArrayRoom::columns))]
fn left_by(array: &ArrayRef, left: usize) -> Option<usize>
    ensures { IfSome result (λ rest. array_weight array.now + rest ≤ left) }
{
    match array.layout() {
        ArrayLayout::VarBinView(_, views, _, _) => left_by_views(views.as_slice(), left),
        ArrayLayout::FixedSizeList(elements, _, _, _) => left_by(elements, left),
        ArrayLayout::ListView(elements, _, _, _, _) => left_by(elements, left),
        ArrayLayout::Struct(_, fields, _, _) => left_by_fields(fields, left),
        ArrayLayout::Bool(_, _) | ArrayLayout::Primitive(_, _) => Some(left),
        ArrayLayout::Constant(_, _) | ArrayLayout::Dict(_, _, _) => Some(left),
    }
}

#[cycle(room)]
#[tactic(auto, using(crate::proofs::ArrayRoom::fields))]
fn left_by_fields(fields: &Vec<ArrayRef>, left: usize) -> Option<usize>
    ensures { IfSome result (λ rest. fields_weight fields.now.items + rest ≤ left) }
{
    let mut rest = left;
    for field in fields {
        match left_by(field, rest) {
            Some(fewer) => rest = fewer,
            None => return None,
        }
    }
    Some(rest)
}

#[tactic(auto, using(crate::proofs::ArrayRoom::views))]
fn left_by_views(views: &[BinaryView], left: usize) -> Option<usize>
    ensures { IfSome result (λ rest. views_weight views.now + rest ≤ left) }
{
    let mut rest = left;
    for view in views {
        if rest == 0 || view.len() as usize > MAX_BUFFER_LEN {
            return None;
        }
        rest -= 1;
    }
    Some(rest)
}
