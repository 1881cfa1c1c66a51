//! The statistics of an array of any layout.
ghost use Rattle.std.specs.Prelude.{◌≡◌, IfOk, IfSome, MatchOption, Bool, None, length, false, map};
ghost use Rattle.vortex_model.specs.Kept.{is_leaf};
ghost use Rattle.vortex_model_table.specs.ZoneMap.{zone_of};
ghost use Rattle.vortex_dtype_ptype.specs.View.{number_kind_of};
ghost use Rattle.vortex_arrays_buffer.specs.PrimitiveBuffers.{kind_of_numbers, integers_of};
ghost use Rattle.vortex_arrays_model.specs.Layout.{bools, numbers, strings, dictionary, array_type_of, len_of, rows_of, IsInteger, IsSound};
ghost use Rattle.vortex_arrays_model.specs.Parts.{AreWithin};
ghost use Rattle.vortex_arrays_core.specs.LayoutOf.{valid_of, strings_of};
ghost use Rattle.vortex_stats_array.specs.Arrays.{IsIntegerOf, IsOfKind};
ghost use Rattle.vortex_stats_array.specs.Asked.{AreStatsOf};
ghost use Rattle.vortex_stats_array.specs.Counted.{CountsEach};
ghost use Rattle.vortex_stats_array.specs.Zones.{zone_in, AreOfType};

use crate::array_stats::ArrayStats;
use crate::asked::Asked;
use crate::counting::count_codes;
use crate::counts::Counts;
use crate::referenced::{
    referenced_bools, referenced_byte_strings, referenced_numbers, referenced_texts,
};
use crate::rows::{seen_bools, seen_byte_strings, seen_numbers, seen_texts};
use bytes::Bytes;
use std::alloc::{AllocError, Global};
use vortex_arrays_buffer::{BitBuffer, PrimitiveBuffer};
use vortex_arrays_core::array::{ArrayLayout, ArrayRef, StringKind, Validity};
use vortex_arrays_view::view::BinaryView;
use vortex_dtype_core::dtype::DType;
use vortex_dtype_native::native::NativePType;
use vortex_dtype_ptype::ptype::PType;

// Statistics of an array, if it is one of booleans, integers, strings or bytes.
type Found = Result<Option<ArrayStats>, AllocError>;

/// The statistics of the rows of an array of booleans, integers, strings or bytes, and `None` for
/// another one. Each row is read once: for a dictionary only its code, and then each value that a
/// code refers to, and for a constant a single row. Only the two bounds are copied; strings and
/// bytes of more than `max_length` bytes are shortened.
pub fn array_stats(
    alloc: Global,
    array: &ArrayRef,
    max_length: usize,
) -> Result<Option<ArrayStats>, AllocError>
    ensures zone { IfOk result (λ found. MatchOption found
        (is_leaf (array_type_of array.now) ≡ false)
        (λ stats. zone_in stats
        ≡ zone_of (array_type_of array.now) max_length (rows_of array.now))) }
    ensures types { IfOk result
        (λ found. IfSome found (λ stats. AreOfType (array_type_of array.now) stats)) }
{
    if !array.dtype().is_leaf() {
        return Ok(None);
    }
    let asked = Asked {
        dtype: array.dtype(),
        row_count: array.len(),
        max_length,
        alloc,
    };
    let stats = stats_of_rows(array, &asked)?;
    Ok(stats)
}

// The statistics of the rows of an array, with no counts given.
fn stats_of_rows(array: &ArrayRef, asked: &Asked<'_>) -> Found
    ensures { IfOk result (λ found. MatchOption found
        (is_leaf (array_type_of array.now) ≡ false)
        (λ stats. AreStatsOf asked.now None array.now stats)) }
{
    match array.layout() {
        ArrayLayout::Dict(codes, values, _) => {
            // Few rows of many values are better read one by one.
            if values.len() <= codes.len() {
                stats_of_dictionary(codes, values, asked)
            } else {
                stats_of_any(array, None, asked)
            }
        }
        _ => stats_of_leaf(array, None, asked),
    }
}

// The statistics of a dictionary, by how often its codes refer to each value.
fn stats_of_dictionary(codes: &ArrayRef, values: &ArrayRef, asked: &Asked<'_>) -> Found
    requires kind { IsInteger (array_type_of codes.now) }
    requires within { AreWithin codes.now (len_of values.now) }
    ensures { (f : Bool) → IfOk result (λ found. MatchOption found
        (is_leaf (array_type_of values.now) ≡ false)
        (λ stats. AreStatsOf asked.now None (dictionary codes.now values.now f) stats)) }
{
    let counts = count_codes(asked.alloc, codes, values.len())?;
    let stats = stats_of_leaf(values, Some(&counts), asked)?;
    Ok(stats)
}

// The statistics of the rows in which the values of an array occur.
fn stats_of_leaf(array: &ArrayRef, counts: Option<&Counts>, asked: &Asked<'_>) -> Found
    requires { CountsEach counts (len_of array.now) }
    ensures { IfOk result (λ found. MatchOption found
        (is_leaf (array_type_of array.now) ≡ false)
        (λ stats. AreStatsOf asked.now counts.entry array.now stats)) }
{
    match array.layout() {
        ArrayLayout::Bool(bits, validity) => {
            let stats = stats_of_bools(bits, validity, counts, asked)?;
            Ok(Some(stats))
        }
        ArrayLayout::Primitive(items, validity) => {
            let stats = stats_of_numbers(items, validity, counts, asked)?;
            Ok(Some(stats))
        }
        ArrayLayout::VarBinView(kind, views, buffers, validity) => {
            let (views, buffers) = (views.as_slice(), buffers.as_slice());
            let stats = stats_of_views(*kind, views, buffers, validity, counts, asked)?;
            Ok(Some(stats))
        }
        ArrayLayout::Constant(_, _) => stats_of_any(array, counts, asked),
        ArrayLayout::Dict(_, _, _) => stats_of_any(array, counts, asked),
        ArrayLayout::FixedSizeList(_, _, _, _) => Ok(None),
        ArrayLayout::ListView(_, _, _, _, _) => Ok(None),
        ArrayLayout::Struct(_, _, _, _) => Ok(None),
    }
}

// The statistics of booleans as packed bits.
fn stats_of_bools(
    bits: &BitBuffer,
    validity: &Validity,
    counts: Option<&Counts>,
    asked: &Asked<'_>,
) -> Result<ArrayStats, AllocError>
    requires sound { IsSound (bools bits.now (valid_of validity.now)) }
    requires counted { CountsEach counts (length bits.now) }
    ensures { IfOk result
        (λ stats. AreStatsOf asked.now counts.entry (bools bits.now (valid_of validity.now))
        stats) }
{
    let stats = seen_bools(bits, validity, counts).stats(asked)?;
    Ok(stats)
}

// The statistics of integers, whose type is matched once.
#[tactic(auto, using(vortex_arrays_buffer::proofs::NumberLemmas::eq_numbers))]
fn stats_of_numbers(
    items: &PrimitiveBuffer,
    validity: &Validity,
    counts: Option<&Counts>,
    asked: &Asked<'_>,
) -> Result<ArrayStats, AllocError>
    requires sound { IsSound (numbers (kind_of_numbers items.now) (integers_of items.now)
        (valid_of validity.now)) }
    requires counted { CountsEach counts (length (integers_of items.now)) }
    ensures { IfOk result (λ stats. AreStatsOf asked.now counts.entry
        (numbers (kind_of_numbers items.now) (integers_of items.now) (valid_of validity.now))
        stats) }
{
    match items {
        PrimitiveBuffer::U8(items) => of_kind(items.as_slice(), validity, counts, asked),
        PrimitiveBuffer::U16(items) => of_kind(items.as_slice(), validity, counts, asked),
        PrimitiveBuffer::U32(items) => of_kind(items.as_slice(), validity, counts, asked),
        PrimitiveBuffer::U64(items) => of_kind(items.as_slice(), validity, counts, asked),
        PrimitiveBuffer::I8(items) => of_kind(items.as_slice(), validity, counts, asked),
        PrimitiveBuffer::I16(items) => of_kind(items.as_slice(), validity, counts, asked),
        PrimitiveBuffer::I32(items) => of_kind(items.as_slice(), validity, counts, asked),
        PrimitiveBuffer::I64(items) => of_kind(items.as_slice(), validity, counts, asked),
    }
}

fn of_kind<T: NativePType>(
    items: &[T],
    validity: &Validity,
    counts: Option<&Counts>,
    asked: &Asked<'_>,
) -> Result<ArrayStats, AllocError>
    requires sound { IsSound (numbers T.kind (map T.integer items.now) (valid_of validity.now)) }
    requires counted { CountsEach counts (length (map T.integer items.now)) }
    ensures { IfOk result (λ stats. AreStatsOf asked.now counts.entry
        (numbers T.kind (map T.integer items.now) (valid_of validity.now)) stats) }
{
    let stats = seen_numbers(items, validity, counts).stats(asked)?;
    Ok(stats)
}

// The statistics of strings or bytes by views.
fn stats_of_views(
    kind: StringKind,
    views: &[BinaryView],
    buffers: &[Bytes],
    validity: &Validity,
    counts: Option<&Counts>,
    asked: &Asked<'_>,
) -> Result<ArrayStats, AllocError>
    requires sound { IsSound (strings (strings_of kind) views.now buffers.now
        (valid_of validity.now)) }
    requires counted { CountsEach counts (length views.now) }
    ensures { IfOk result (λ stats. AreStatsOf asked.now counts.entry
        (strings (strings_of kind) views.now buffers.now (valid_of validity.now)) stats) }
{
    match kind {
        StringKind::Utf8 => {
            let texts = seen_texts(views, buffers, validity, counts);
            let stats = texts.stats(asked)?;
            Ok(stats)
        }
        StringKind::Binary => {
            let bytes = seen_byte_strings(views, buffers, validity, counts);
            let stats = bytes.stats(asked)?;
            Ok(stats)
        }
    }
}

// The statistics of a constant or a dictionary, whose rows are read through what they refer to.
#[tactic(auto, using(crate::proofs::Compared::of_any))]
fn stats_of_any(array: &ArrayRef, counts: Option<&Counts>, asked: &Asked<'_>) -> Found
    requires { CountsEach counts (len_of array.now) }
    ensures { IfOk result (λ found. MatchOption found
        (is_leaf (array_type_of array.now) ≡ false)
        (λ stats. AreStatsOf asked.now counts.entry array.now stats)) }
{
    match array.dtype() {
        DType::Bool(_) => {
            let stats = referenced_bools(array, counts).stats(asked)?;
            Ok(Some(stats))
        }
        DType::Primitive(ptype, _) => stats_of_any_numbers(array, *ptype, counts, asked),
        DType::Utf8(_) => {
            let stats = referenced_texts(array, counts).stats(asked)?;
            Ok(Some(stats))
        }
        DType::Binary(_) => {
            let stats = referenced_byte_strings(array, counts).stats(asked)?;
            Ok(Some(stats))
        }
        DType::Null | DType::Decimal(_, _) | DType::Variant(_) => Ok(None),
        DType::List(_, _) | DType::FixedSizeList(_, _, _) | DType::Map(_, _) => Ok(None),
        DType::Struct(_, _) | DType::Union(_, _) | DType::Extension(_) => Ok(None),
    }
}

// The statistics of integers of any layout, whose type is matched once for all rows.
#[tactic(auto, using(crate::proofs::Compared::of_kinds))]
fn stats_of_any_numbers(
    array: &ArrayRef,
    ptype: PType,
    counts: Option<&Counts>,
    asked: &Asked<'_>,
) -> Found
    requires kind { IsOfKind (number_kind_of ptype) (array_type_of array.now) }
    requires counted { CountsEach counts (len_of array.now) }
    ensures { IfOk result (λ found. MatchOption found
        (is_leaf (array_type_of array.now) ≡ false)
        (λ stats. AreStatsOf asked.now counts.entry array.now stats)) }
{
    match ptype {
        PType::U8 => stats_of_any_kind::<u8>(array, counts, asked),
        PType::U16 => stats_of_any_kind::<u16>(array, counts, asked),
        PType::U32 => stats_of_any_kind::<u32>(array, counts, asked),
        PType::U64 => stats_of_any_kind::<u64>(array, counts, asked),
        PType::I8 => stats_of_any_kind::<i8>(array, counts, asked),
        PType::I16 => stats_of_any_kind::<i16>(array, counts, asked),
        PType::I32 => stats_of_any_kind::<i32>(array, counts, asked),
        PType::I64 => stats_of_any_kind::<i64>(array, counts, asked),
        PType::F16 | PType::F32 | PType::F64 => Ok(None),
    }
}

fn stats_of_any_kind<T: NativePType>(
    array: &ArrayRef,
    counts: Option<&Counts>,
    asked: &Asked<'_>,
) -> Found
    requires kind { IsIntegerOf T.kind (array_type_of array.now) }
    requires counted { CountsEach counts (len_of array.now) }
    ensures { IfOk result (λ found. MatchOption found
        (is_leaf (array_type_of array.now) ≡ false)
        (λ stats. AreStatsOf asked.now counts.entry array.now stats)) }
{
    let stats = referenced_numbers::<T>(array, counts).stats(asked)?;
    Ok(Some(stats))
}
