//! Integers in the narrowest type of their signedness.
ghost use Rattle.std.specs.Prelude.{◌≤ℤ◌, pos, true, false, IfOk};
ghost use Rattle.vortex_model.specs.LogicalType.{u64, i64};
ghost use Rattle.vortex_model.specs.Valid.{InRange};
ghost use Rattle.vortex_dtype_ptype.specs.Numbers.{Has};
ghost use Rattle.vortex_dtype_ptype.specs.View.{number_kind_of};
ghost use Rattle.vortex_arrays_dictionary.specs.Narrowed.{IsNarrowed, IsNarrowKind, IsNarrowestOf};

use crate::cast::cast_numbers;
use crate::extremes::extremes;
use std::alloc::{AllocError, Global};
use vortex_arrays_leaf::primitive_array::PrimitiveArray;
use vortex_dtype_ptype::ptype::PType;

/// The array in the narrowest type of its signedness that has the integer of each row that is not
/// null. An array of this type is shared.
#[tactic(auto, using(crate::proofs::NarrowLemmas::narrowed))]
pub(crate) fn narrow(alloc: Global, array: &PrimitiveArray) -> Result<PrimitiveArray, AllocError>
    ensures { IfOk result (λ r. IsNarrowed array.now r) }
{
    let _rows = array.as_array().len();
    let numbers = array.to_numbers()?;
    let validity = array.validity()?;
    let (least, greatest) = extremes(alloc, &numbers, &validity)?;
    let ptype = narrowest(numbers.ptype(), least, greatest);
    if ptype == numbers.ptype() {
        let same = array.clone()?;
        return Ok(same);
    }
    let cast = cast_numbers(alloc, ptype, &numbers)?;
    let narrowed = PrimitiveArray::new_unchecked(alloc, cast, validity)?;
    Ok(narrowed)
}

// The narrowest type of the signedness of `ptype` that has both integers, as `ptype` does.
#[tactic(auto, using(crate::proofs::NarrowLemmas::widened))]
fn narrowest(ptype: PType, least: i128, greatest: i128) -> PType
    requires low { least ≤ℤ pos 0 }
    requires high { pos 0 ≤ℤ greatest }
    requires first { Has (number_kind_of ptype) least }
    requires second { Has (number_kind_of ptype) greatest }
    ensures { IsNarrowestOf (number_kind_of ptype) least greatest (number_kind_of result) }
{
    if ptype.is_unsigned_int() {
        narrowest_unsigned(least, greatest)
    } else {
        narrowest_signed(least, greatest)
    }
}

// The narrowest unsigned type that has both.
#[tactic(auto, using(crate::proofs::NarrowLemmas::unsigned))]
fn narrowest_unsigned(least: i128, greatest: i128) -> PType
    requires low { least ≤ℤ pos 0 }
    requires high { pos 0 ≤ℤ greatest }
    requires first { InRange u64 least }
    requires second { InRange u64 greatest }
    ensures { IsNarrowKind true least greatest (number_kind_of result) }
{
    let _least = least;
    if greatest <= 0xff {
        PType::U8
    } else if greatest <= 0xffff {
        PType::U16
    } else if greatest <= 0xffff_ffff {
        PType::U32
    } else {
        PType::U64
    }
}

// The narrowest signed type that has both.
#[tactic(auto, using(crate::proofs::NarrowLemmas::signed))]
fn narrowest_signed(least: i128, greatest: i128) -> PType
    requires low { least ≤ℤ pos 0 }
    requires high { pos 0 ≤ℤ greatest }
    requires first { InRange i64 least }
    requires second { InRange i64 greatest }
    ensures { IsNarrowKind false least greatest (number_kind_of result) }
{
    if -0x80 <= least && greatest <= 0x7f {
        PType::I8
    } else if -0x8000 <= least && greatest <= 0x7fff {
        PType::I16
    } else if -0x8000_0000 <= least && greatest <= 0x7fff_ffff {
        PType::I32
    } else {
        PType::I64
    }
}
