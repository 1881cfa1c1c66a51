//! Arrays encoded as dictionaries.
ghost use Rattle.std.specs.Prelude.{◌≡◌, true, is_some, IfOk, IfSome};
ghost use Rattle.vortex_arrays_model.specs.Layout.{array_type_of, rows_of};
ghost use Rattle.vortex_arrays_model.specs.Parts.{valid_in};
ghost use Rattle.vortex_arrays_core.specs.LayoutOf.{valid_of};
ghost use Rattle.vortex_arrays_builder.specs.Types.{IsPlainLayout};
ghost use Rattle.vortex_arrays_dictionary.specs.Dictionary.{IsDictionaryOf};
ghost use Rattle.vortex_arrays_dictionary.specs.Columns.{is_plain_leaf, IsColumnNumbered, IsDictionaryFrom};

use crate::codes::codes_of;
use crate::firsts::{Firsts, number_rows};
use crate::values::rows_at;
use std::alloc::{AllocError, Global};
use vortex_arrays_core::array::{ArrayLayout, ArrayRef, Validity};

/// The rows of an array of booleans, integers, strings or bytes as a dictionary, as Vortex's
/// `dict_encode`, with the layout of `build_dictionary`. It makes no value of a row: the rows are
/// numbered by the array's items, strings and bytes share its buffers, and the codes its validity.
/// `None` where the array is not in plain layout. It takes time linear in the rows, except for rows
/// that were picked to collide under the map's hash, whose seed is fixed.
pub fn dict_encode(alloc: Global, array: &ArrayRef) -> Result<Option<ArrayRef>, AllocError>
    ensures when { IfOk result (λ found. is_some found ≡ is_plain_leaf array.now) }
    ensures dtype { IfOk result
        (λ found. IfSome found (λ made. array_type_of made ≡ array_type_of array.now)) }
    ensures rows { IfOk result (λ found. IfSome found (λ made. rows_of made ≡ rows_of array.now)) }
    ensures layout { IfOk result
        (λ found. IfSome found (λ made. IsDictionaryOf (rows_of array.now) made)) }
{
    let Some(firsts) = number_rows(alloc, array)? else {
        return Ok(None);
    };
    let values = rows_at(alloc, array, firsts.places.as_slice())?;
    let made = with_codes(alloc, array, &firsts, values)?;
    Ok(Some(made))
}

// The dictionary with these numbers of the array's rows and these values.
fn with_codes(
    alloc: Global,
    array: &ArrayRef,
    firsts: &Firsts,
    values: ArrayRef,
) -> Result<ArrayRef, AllocError>
    requires numbered { IsColumnNumbered array.now firsts.now.places.items firsts.now.numbers.items
        values }
    requires plain { IsPlainLayout values }
    ensures { IfOk result (λ made. IsDictionaryFrom array.now made) }
{
    // Proves that its parts fit together.
    let _rows = array.len();
    let nulls = validity_of(array)?;
    let numbers = firsts.numbers.as_slice();
    let codes = codes_of(alloc, numbers, firsts.places.len(), nulls)?;
    let made = ArrayRef::of_dict(alloc, codes, values, false)?;
    Ok(made)
}

// Which rows of a plain column are null.
fn validity_of(array: &ArrayRef) -> Result<Validity, AllocError>
    requires { is_plain_leaf array.now ≡ true }
    ensures { IfOk result (λ validity. valid_of validity ≡ valid_in array.now) }
{
    match array.layout() {
        ArrayLayout::Bool(_, validity) => validity.clone(),
        ArrayLayout::Primitive(_, validity) => validity.clone(),
        ArrayLayout::VarBinView(_, _, _, validity) => validity.clone(),
        _ => unreachable!(),
    }
}
