//! Casts of arrays of any layout.
ghost use Rattle.std.specs.Prelude.{◌≡◌, length, IfOk, IfSome, IsTrue};
ghost use Rattle.std.specs.List.{All, list_all};
ghost use Rattle.vortex_model.specs.Content.{tuple};
ghost use Rattle.vortex_model.specs.Convert.{converts};
ghost use Rattle.vortex_dtype_core.specs.View.{type_of, fields_of};
ghost use Rattle.vortex_dtype_fields.specs.Records.{names_of};
ghost use Rattle.vortex_arrays_model.specs.Layout.{array_type_of, rows_of, records, fixed_lists, list_views, row_at, IsSound, HasLength, HaveLength};
ghost use Rattle.vortex_arrays_model.specs.Parts.{columns_of};
ghost use Rattle.vortex_arrays_core.specs.LayoutOf.{valid_of};
ghost use Rattle.vortex_arrays_builder.specs.Types.{IsPlainLayout};
ghost use Rattle.vortex_arrays_cast.specs.Cast.{IsCast, AreCast};
ghost use Rattle.vortex_arrays_cast.specs.Ranges.{AreRangesOf, IsRangeIn};

use crate::dictionaries::cast_dictionary;
use crate::leaves::{cast_bools, cast_numbers, cast_strings, cast_validity};
use crate::lists::{are_laid_out, even_offsets, even_sizes, stand_evenly};
use crate::names::field_in;
use crate::ranges::{LeafRange, field_ranges, in_field, own_range};
use crate::records::of_columns;
use std::alloc::{AllocError, Global};
use vortex_arrays_core::array::{ArrayLayout, ArrayRef, Validity};
use vortex_dtype_core::dtype::DType;
use vortex_dtype_core::struct_fields::StructField;
use vortex_dtype_ptype::field_names::FieldNames;

/// The rows as an array of another type, column by column, in plain layout. Parts that don't change
/// are shared.
///
/// Of a dictionary of booleans, integers, strings or bytes only the values that its codes refer to
/// are cast.
///
/// `None` where a cast by columns is not possible, so that a caller has to cast row by row: a
/// value, maybe one in a null row, might not be one of the type, or a column is a constant or a
/// dictionary of other values, or lists become fixed-size lists or the other way round and some
/// list would have to move.
#[tactic(auto, using(crate::proofs::CastLemmas::rows))]
pub fn cast_array(
    alloc: Global,
    array: &ArrayRef,
    target: &DType,
) -> Result<Option<ArrayRef>, AllocError>
    ensures dtype { IfOk result
        (λ cast. IfSome cast (λ r. array_type_of r ≡ type_of target.now)) }
    ensures rows { IfOk result (λ cast. IfSome cast (λ r. rows_of r ≡ rows_of array.now)) }
    ensures converts { IfOk result (λ cast. IfSome cast (λ _. IsTrue (list_all
        (converts (array_type_of array.now) (type_of target.now)) (rows_of array.now)))) }
    ensures layout { IfOk result (λ cast. IfSome cast (λ r. IsPlainLayout r)) }
{
    cast_array_within(alloc, array, target, &[], None)
}

/// The rows as an array of another type, as `cast_array`, where the integers of some leaf columns
/// are known to be within a range. They are not tested where the target has all of the range. The
/// ranges are sorted by their positions.
///
/// The names of fields are shared with the array `other`, where that has the same ones in the same
/// structs.
#[tactic(auto, using(crate::proofs::CastLemmas::rows))]
pub fn cast_array_within(
    alloc: Global,
    array: &ArrayRef,
    target: &DType,
    ranges: &[LeafRange<'_>],
    other: Option<&ArrayRef>,
) -> Result<Option<ArrayRef>, AllocError>
    requires { AreRangesOf 0 array.now ranges.now }
    ensures dtype { IfOk result
        (λ cast. IfSome cast (λ r. array_type_of r ≡ type_of target.now)) }
    ensures rows { IfOk result (λ cast. IfSome cast (λ r. rows_of r ≡ rows_of array.now)) }
    ensures converts { IfOk result (λ cast. IfSome cast (λ _. IsTrue (list_all
        (converts (array_type_of array.now) (type_of target.now)) (rows_of array.now)))) }
    ensures layout { IfOk result (λ cast. IfSome cast (λ r. IsPlainLayout r)) }
{
    cast_part(alloc, array, target, ranges, 0, other)
}

// `ranges` are of leaves in this array, which is `depth` steps down.
#[cycle(cast)]
#[tactic(auto, using(crate::proofs::CastLemmas::layouts))]
fn cast_part(
    alloc: Global,
    array: &ArrayRef,
    target: &DType,
    ranges: &[LeafRange<'_>],
    depth: usize,
    other: Option<&ArrayRef>,
) -> Result<Option<ArrayRef>, AllocError>
    requires { AreRangesOf depth array.now ranges.now }
    ensures { IfOk result (λ cast. IfSome cast (IsCast (type_of target.now) array.now)) }
{
    match array.layout() {
        ArrayLayout::Bool(bits, validity) => cast_bools(alloc, bits, validity, target),
        ArrayLayout::Primitive(items, validity) => {
            cast_numbers(alloc, items, validity, target, own_range(ranges, depth))
        }
        ArrayLayout::VarBinView(kind, views, buffers, validity) => {
            cast_strings(alloc, *kind, views, buffers, validity, target)
        }
        ArrayLayout::FixedSizeList(elements, size, len, validity) => {
            cast_any_fixed_lists(alloc, elements, *size, *len, validity, target)
        }
        ArrayLayout::ListView(elements, offsets, sizes, follow, validity) => {
            cast_any_lists(alloc, elements, offsets, sizes, *follow, validity, target)
        }
        ArrayLayout::Struct(names, fields, len, validity) => {
            cast_records(
                alloc, names, fields, *len, validity, target, ranges, depth, other,
            )
        }
        ArrayLayout::Dict(codes, values, _) => {
            cast_dictionary(alloc, codes, values, target, own_range(ranges, depth))
        }
        ArrayLayout::Constant(_, _) => Ok(None),
    }
}

// A struct array with each column cast and the names of the target's fields.
#[cycle(cast)]
#[tactic(auto, using(crate::proofs::CastLemmas::layouts))]
fn cast_records(
    alloc: Global,
    names: &FieldNames,
    fields: &Vec<ArrayRef>,
    len: usize,
    validity: &Validity,
    target: &DType,
    ranges: &[LeafRange<'_>],
    depth: usize,
    other: Option<&ArrayRef>,
) -> Result<Option<ArrayRef>, AllocError>
    requires fit { HaveLength (columns_of names.now fields.now.items) len }
    requires validity { HasLength (valid_of validity.now) len }
    requires ranges { AreRangesOf depth
        (records (columns_of names.now fields.now.items) len (valid_of validity.now)) ranges.now }
    ensures { IfOk result (λ cast. IfSome cast (IsCast (type_of target.now)
        (records (columns_of names.now fields.now.items) len (valid_of validity.now)))) }
{
    let DType::Struct(targets, nullability) = target else {
        return Ok(None);
    };
    let ranges = field_ranges(ranges, validity);
    let Some(validity) = cast_validity(validity, *nullability, len)? else {
        return Ok(None);
    };
    let Some(columns) = cast_fields(
        alloc,
        names,
        fields,
        len,
        targets.as_slice(),
        ranges,
        depth,
        other,
    )?
    else {
        return Ok(None);
    };
    let cast = of_columns(alloc, target, targets, columns, len, validity, other)?;
    Ok(Some(cast))
}

// The columns by position. `None` where columns and fields differ in number, or a column is not
// cast.
#[cycle(cast)]
#[tactic(auto, using(crate::proofs::CastLemmas::fields))]
fn cast_fields(
    alloc: Global,
    names: &FieldNames,
    fields: &Vec<ArrayRef>,
    len: usize,
    targets: &[StructField],
    ranges: &[LeafRange<'_>],
    depth: usize,
    other: Option<&ArrayRef>,
) -> Result<Option<Vec<ArrayRef>>, AllocError>
    requires fit { HaveLength (columns_of names.now fields.now.items) len }
    requires ranges { All (IsRangeIn depth len
        (λ i. tuple (row_at (columns_of names.now fields.now.items) i))) ranges.now }
    ensures cast { IfOk result (λ cast. IfSome cast (λ columns.
        AreCast (fields_of targets.now) (columns_of names.now fields.now.items)
        (columns_of (names_of (fields_of targets.now)) columns.items))) }
    ensures named { IfOk result (λ cast. IfSome cast (λ columns.
        length (names_of (fields_of targets.now)) ≡ length columns.items)) }
    ensures fit { IfOk result (λ cast. IfSome cast (λ columns.
        HaveLength (columns_of (names_of (fields_of targets.now)) columns.items) len)) }
{
    if fields.len() != targets.len() {
        return Ok(None);
    }
    let Some(below) = depth.checked_add(1) else {
        return Ok(None);
    };
    let mut columns = Vec::with_capacity(alloc, fields.len())?;
    let mut from = 0;
    for i in 0..fields.len() {
        let own = in_field(ranges, from, depth, i);
        from += own.len();
        let field = field_in(other, i);
        let Some(column) = cast_part(alloc, &fields[i], &targets[i].dtype, own, below, field)?
        else {
            return Ok(None);
        };
        columns.push(column)?;
    }
    Ok(Some(columns))
}

// Fixed-size lists with their elements cast, to lists of the same size.
#[cycle(cast)]
#[tactic(auto, using(crate::proofs::ListLemmas::fixed))]
fn cast_fixed_lists(
    alloc: Global,
    elements: &ArrayRef,
    size: u32,
    len: usize,
    validity: &Validity,
    target: &DType,
) -> Result<Option<ArrayRef>, AllocError>
    requires { IsSound (fixed_lists elements.now size len (valid_of validity.now)) }
    ensures { IfOk result (λ cast. IfSome cast (IsCast (type_of target.now)
        (fixed_lists elements.now size len (valid_of validity.now)))) }
{
    let DType::FixedSizeList(element, wanted, nullability) = target else {
        return Ok(None);
    };
    if *wanted != size {
        return Ok(None);
    }
    let Some(validity) = cast_validity(validity, *nullability, len)? else {
        return Ok(None);
    };
    let Some(elements) = cast_part(alloc, elements, element, &[], 0, None)? else {
        return Ok(None);
    };
    let cast = ArrayRef::of_fixed_lists(alloc, elements, size, len, validity)?;
    Ok(Some(cast))
}

// List views with their elements cast, where their layout is plain.
#[cycle(cast)]
#[tactic(auto, using(crate::proofs::ListLemmas::views))]
fn cast_lists(
    alloc: Global,
    elements: &ArrayRef,
    offsets: &ArrayRef,
    sizes: &ArrayRef,
    follow: bool,
    validity: &Validity,
    target: &DType,
) -> Result<Option<ArrayRef>, AllocError>
    requires { IsSound
        (list_views elements.now offsets.now sizes.now follow (valid_of validity.now)) }
    ensures { IfOk result (λ cast. IfSome cast (IsCast (type_of target.now)
        (list_views elements.now offsets.now sizes.now follow (valid_of validity.now)))) }
{
    let DType::List(element, nullability) = target else {
        return Ok(None);
    };
    if !are_laid_out(elements, offsets, sizes, follow, validity) {
        return Ok(None);
    }
    let Some(validity) = cast_validity(validity, *nullability, offsets.len())? else {
        return Ok(None);
    };
    let Some(elements) = cast_part(alloc, elements, element, &[], 0, None)? else {
        return Ok(None);
    };
    let offsets = offsets.clone()?;
    let sizes = sizes.clone()?;
    let cast = ArrayRef::of_list_views(alloc, elements, offsets, sizes, follow, validity)?;
    Ok(Some(cast))
}

// Fixed-size lists as lists of the same size or of any.
#[cycle(cast)]
#[tactic(auto, using(crate::proofs::EvenLemmas::views))]
fn cast_any_fixed_lists(
    alloc: Global,
    elements: &ArrayRef,
    size: u32,
    len: usize,
    validity: &Validity,
    target: &DType,
) -> Result<Option<ArrayRef>, AllocError>
    requires { IsSound (fixed_lists elements.now size len (valid_of validity.now)) }
    ensures { IfOk result (λ cast. IfSome cast (IsCast (type_of target.now)
        (fixed_lists elements.now size len (valid_of validity.now)))) }
{
    if !target.is_list() {
        return cast_fixed_lists(alloc, elements, size, len, validity, target);
    }
    // Proves how many elements there can be.
    let _count = elements.len();
    let offsets = even_offsets(alloc, size, len)?;
    let sizes = even_sizes(alloc, size, len)?;
    // Proves that these are `u64`.
    let _counts = (offsets.len(), sizes.len());
    cast_lists(alloc, elements, &offsets, &sizes, true, validity, target)
}

// List views as lists of any size or of one.
#[cycle(cast)]
#[tactic(auto, using(crate::proofs::EvenLemmas::fixed))]
fn cast_any_lists(
    alloc: Global,
    elements: &ArrayRef,
    offsets: &ArrayRef,
    sizes: &ArrayRef,
    follow: bool,
    validity: &Validity,
    target: &DType,
) -> Result<Option<ArrayRef>, AllocError>
    requires { IsSound
        (list_views elements.now offsets.now sizes.now follow (valid_of validity.now)) }
    ensures { IfOk result (λ cast. IfSome cast (IsCast (type_of target.now)
        (list_views elements.now offsets.now sizes.now follow (valid_of validity.now)))) }
{
    let DType::FixedSizeList(_, size, _) = target else {
        return cast_lists(alloc, elements, offsets, sizes, follow, validity, target);
    };
    if !stand_evenly(elements, offsets, sizes, *size) {
        return Ok(None);
    }
    cast_fixed_lists(alloc, elements, *size, offsets.len(), validity, target)
}
