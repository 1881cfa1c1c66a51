//! Parts of struct arrays by paths of positions.
ghost use Rattle.std.specs.Prelude.{◌≡◌, ◌∷◌, [], ℕ, length, None, IfOk, IfSome, MatchOption};
ghost use Rattle.vortex_model.specs.Path.{type_at};
ghost use Rattle.vortex_arrays_model.specs.Layout.{array_type_of, constant, records, IsSound};
ghost use Rattle.vortex_arrays_model.specs.Column.{IsPart};
ghost use Rattle.vortex_arrays_model.specs.Parts.{columns_of};
ghost use Rattle.vortex_arrays_core.specs.Flags.{flags_of, flags_at, KeepsDictionaryFlag};
ghost use Rattle.vortex_arrays_core.specs.LayoutOf.{valid_of};
ghost use Rattle.vortex_scalar_core.specs.Scalar.{scalar_type, scalar_raw};
ghost use Rattle.vortex_scalar_value.specs.Parts.{raw_part};
ghost use Rattle.vortex_scalar_value.specs.View.{raw_at};

use crate::mask::mask;
use std::alloc::{AllocError, Global};
use vortex_arrays_core::array::{ArrayLayout, ArrayRef, Validity};
use vortex_dtype_ptype::field_names::FieldNames;
use vortex_scalar_core::scalar::Scalar;
use vortex_scalar_value::clone::clone_value;
use vortex_scalar_value::scalar_value::ScalarValue;

/// The part at a path of positions, null where a struct on the way is, and `None` where the type
/// has none there. The empty path gives the array itself. Values are shared and not copied.
pub fn part_at_positions(
    alloc: Global,
    array: &ArrayRef,
    positions: &[usize],
) -> Result<Option<ArrayRef>, AllocError>
    ensures { IfOk result (λ found. MatchOption found
        (type_at (array_type_of array.now) positions.now ≡ None)
        (λ part. IsPart array.now positions.now part)) }
{
    let _ = array.len();
    let mut part = array.clone()?;
    for position in positions {
        let Some(field) = field_of(alloc, &part, *position)? else {
            return Ok(None);
        };
        part = field;
    }
    Ok(Some(part))
}

/// The part at one position. That of a dictionary is a dictionary with the same flag, and list
/// views keep their flags.
pub(crate) fn field_of(
    alloc: Global,
    array: &ArrayRef,
    position: usize,
) -> Result<Option<ArrayRef>, AllocError>
    ensures made { IfOk result (λ found. MatchOption found
        (type_at (array_type_of array.now) (position ∷ []) ≡ None)
        (λ field. IsPart array.now (position ∷ []) field)) }
    ensures flag { IfOk result (λ found.
        IfSome found (λ field. KeepsDictionaryFlag array.now field)) }
    ensures flags { IfOk result (λ found. IfSome found (λ field. flags_of field
        ≡ flags_at (flags_of array.now) (position ∷ []))) }
{
    match array.layout() {
        ArrayLayout::Struct(names, fields, len, validity) => {
            field_of_records(alloc, names, fields, *len, validity, position)
        }
        ArrayLayout::Dict(codes, values, all_values_referenced) => {
            let Some(field) = field_of(alloc, values, position)? else {
                return Ok(None);
            };
            let codes = codes.clone()?;
            let picked = ArrayRef::of_dict(alloc, codes, field, *all_values_referenced)?;
            Ok(Some(picked))
        }
        ArrayLayout::Constant(scalar, len) => {
            let Some(field) = field_of_scalar(scalar, position)? else {
                return Ok(None);
            };
            let repeated = ArrayRef::of_constant(alloc, field, *len)?;
            Ok(Some(repeated))
        }
        ArrayLayout::Bool(_, _) => Ok(None),
        ArrayLayout::Primitive(_, _) => Ok(None),
        ArrayLayout::VarBinView(_, _, _, _) => Ok(None),
        ArrayLayout::FixedSizeList(_, _, _, _) => Ok(None),
        ArrayLayout::ListView(_, _, _, _, _) => Ok(None),
    }
}

// A field of a struct array, with the struct's nulls.
fn field_of_records(
    alloc: Global,
    names: &FieldNames,
    fields: &[ArrayRef],
    len: usize,
    validity: &Validity,
    position: usize,
) -> Result<Option<ArrayRef>, AllocError>
    requires named { length names.now ≡ length fields.now }
    requires sound { IsSound
        (records (columns_of names.now fields.now) len (valid_of validity.now)) }
    ensures made { IfOk result (λ found. MatchOption found
        (type_at (array_type_of
        (records (columns_of names.now fields.now) len (valid_of validity.now)))
        (position ∷ []) ≡ None)
        (λ field. IsPart (records (columns_of names.now fields.now) len (valid_of validity.now))
        (position ∷ []) field)) }
    ensures flags { IfOk result (λ found. IfSome found (λ field. flags_of field
        ≡ flags_at (flags_of (records (columns_of names.now fields.now) len
        (valid_of validity.now))) (position ∷ []))) }
{
    match fields.get(position) {
        Some(field) => {
            let masked = mask(alloc, validity, field)?;
            Ok(Some(masked))
        }
        None => Ok(None),
    }
}

// A field of a constant struct, null where the struct is.
fn field_of_scalar(scalar: &Scalar, position: usize) -> Result<Option<Scalar>, AllocError>
    ensures { IfOk result (λ found. MatchOption found
        (type_at (scalar_type scalar.now) (position ∷ []) ≡ None)
        (λ field. (n : ℕ) → IsPart (constant (scalar_type scalar.now) (scalar_raw scalar.now) n)
        (position ∷ []) (constant (scalar_type field) (scalar_raw field) n))) }
{
    let Some(fields) = scalar.dtype().as_struct_fields_opt() else {
        return Ok(None);
    };
    let Some(dtype) = fields.field_by_index(position) else {
        return Ok(None);
    };
    let dtype = dtype.union_nullability(scalar.dtype().nullability())?;
    let value = clone_value(value_at(scalar.value(), position))?;
    Ok(Some(Scalar::new_unchecked(dtype, value)))
}

// The value of a field, and null for null.
fn value_at(value: Option<&ScalarValue>, position: usize) -> Option<&ScalarValue>
    ensures { raw_at result ≡ raw_part (raw_at value.entry) position }
{
    value?.child_at(position)
}
