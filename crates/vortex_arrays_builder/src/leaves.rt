//! Columns of leaf values.
ghost use Rattle.std.specs.Prelude.{◌≡◌, ◌<◌, true, false, length, map, slice_index_or, IfOk, IsTrue, All};
ghost use Rattle.vortex_model.specs.LogicalType.{nullable, boolean_type, integer_type};
ghost use Rattle.vortex_model.specs.Valid.{in_range, InRange};
ghost use Rattle.vortex_dtype_ptype.specs.Numbers.{integral, is_integral, type_of_numbers};
ghost use Rattle.vortex_dtype_ptype.specs.View.{nullability_of_flag, number_kind_of};
ghost use Rattle.vortex_scalar_value.specs.Numbers.{holds_number};
ghost use Rattle.vortex_scalar_value.specs.View.{raw_at};
ghost use Rattle.vortex_arrays_core.specs.LayoutOf.{valid_of};
ghost use Rattle.vortex_arrays_buffer.specs.PrimitiveBuffers.{kind_of_numbers, integers_of};
ghost use Rattle.vortex_arrays_builder.specs.Plain.{is_held, is_there, boolean_or_false, whole_or_zero, MarksNulls, IsPlain};

use std::alloc::{AllocError, Global};
use vortex_arrays_buffer::bit_buffer::BitBuffer;
use vortex_arrays_buffer::buffer::Buffer;
use vortex_arrays_buffer::element::Element;
use vortex_arrays_buffer::primitive_buffer::PrimitiveBuffer;
use vortex_arrays_core::array::{ArrayRef, Validity};
use vortex_dtype_native::native::NativePType;
use vortex_dtype_ptype::nullability::Nullability;
use vortex_dtype_ptype::ptype::PType;
use vortex_scalar_value::scalar_value::ScalarValue;

/// The validity whose null rows are those without a value, if the nullability has null. It
/// allocates nothing where there is a value in each row.
#[tactic(auto, using(crate::proofs::LeafLemmas::nulls_marked))]
pub fn nulls_of(
    alloc: Global,
    nullability: Nullability,
    values: &[Option<&ScalarValue>],
) -> Result<Validity, AllocError>
    ensures { IfOk result (λ validity. MarksNulls (nullability_of_flag nullability)
        (map raw_at values.now) (valid_of validity)) }
{
    match nullability {
        Nullability::NonNullable => Ok(Validity::NonNullable),
        Nullability::Nullable => {
            if are_present(values) {
                return Ok(Validity::AllValid);
            }
            let bits = present_bits(alloc, values)?;
            let array = ArrayRef::of_bools(alloc, bits, Validity::NonNullable)?;
            Ok(Validity::Array(array))
        }
    }
}

// Whether each row has a value.
#[tactic(auto, using(crate::proofs::LeafLemmas::present))]
fn are_present(values: &[Option<&ScalarValue>]) -> bool
    ensures { result ≡ true
        → All (λ r. is_there nullable r ≡ true) (map raw_at values.now) }
{
    for value in values {
        if !is_present(*value) {
            return false;
        }
    }
    true
}

// A bit for each row, true where it has a value.
fn present_bits(alloc: Global, values: &[Option<&ScalarValue>]) -> Result<BitBuffer, AllocError>
    ensures { IfOk result (λ bits. bits ≡ map (is_there nullable) (map raw_at values.now)) }
{
    BitBuffer::collect_bool(alloc, values.len(), |i| is_present_at(values, i))
}

fn is_present_at(values: &[Option<&ScalarValue>], i: usize) -> bool
    requires { i < length values.now }
    ensures { result ≡ slice_index_or (map (is_there nullable) (map raw_at values.now)) i false }
{
    is_present(values[i])
}

// Whether there is a value.
#[tactic(auto, using(vortex_scalar_value::proofs::Nulls::never_null))]
fn is_present(value: Option<&ScalarValue>) -> bool
    ensures { result ≡ is_there nullable (raw_at value.entry) }
{
    match value {
        Some(_) => true,
        None => false,
    }
}

/// An array of booleans.
#[tactic(auto, using(crate::proofs::LeafLemmas::plain_booleans))]
pub fn of_booleans(
    alloc: Global,
    nullability: Nullability,
    values: &[Option<&ScalarValue>],
) -> Result<ArrayRef, AllocError>
    ensures { IfOk result (λ array. IsPlain (boolean_type (nullability_of_flag nullability))
        (map raw_at values.now) array) }
{
    let bits = boolean_bits(alloc, values)?;
    let validity = nulls_of(alloc, nullability, values)?;
    let array = ArrayRef::of_bools(alloc, bits, validity)?;
    Ok(array)
}

// The booleans, false where there is none.
fn boolean_bits(alloc: Global, values: &[Option<&ScalarValue>]) -> Result<BitBuffer, AllocError>
    ensures { IfOk result (λ bits. bits ≡ map boolean_or_false (map raw_at values.now)) }
{
    BitBuffer::collect_bool(alloc, values.len(), |i| boolean_at(values, i))
}

fn boolean_at(values: &[Option<&ScalarValue>], i: usize) -> bool
    requires { i < length values.now }
    ensures { result ≡ slice_index_or (map boolean_or_false (map raw_at values.now)) i false }
{
    boolean_or_false(values[i])
}

// The boolean, and false where there is none.
#[tactic(auto, using(crate::proofs::LeafLemmas::truths))]
fn boolean_or_false(value: Option<&ScalarValue>) -> bool
    ensures { result ≡ boolean_or_false (raw_at value.entry) }
{
    match value {
        Some(value) => value.as_bool().unwrap_or(false),
        None => false,
    }
}

// The integer, and 0 where there is none.
#[tactic(auto, using(crate::proofs::LeafLemmas::whole_numbers))]
fn number_or_zero<T: NativePType>(value: Option<&ScalarValue>) -> T
    requires { in_range T.kind (whole_or_zero (raw_at value)) ≡ true }
    ensures { T.integer result ≡ whole_or_zero (raw_at value.entry) }
{
    let number = match value {
        Some(value) => value.as_primitive(),
        None => None,
    };
    let number = match number {
        Some(number) => number.get(),
        None => 0,
    };
    match T::of(number) {
        Some(number) => number,
        None => unreachable!(),
    }
}

// The integers, 0 where there is none.
fn numbers_of<T: Element>(
    alloc: Global,
    values: &[Option<&ScalarValue>],
) -> Result<PrimitiveBuffer, AllocError>
    requires { All (λ value. in_range T.kind (whole_or_zero (raw_at value)) ≡ true) values.now }
    ensures kind { IfOk result (λ numbers. kind_of_numbers numbers ≡ T.kind) }
    ensures numbers { IfOk result (λ numbers. integers_of numbers
        ≡ map whole_or_zero (map raw_at values.now)) }
    ensures held { IfOk result
        (λ numbers. All (InRange (kind_of_numbers numbers)) (integers_of numbers)) }
{
    let items: Vec<T> = items_of(alloc, values)?;
    let items = Buffer::from_vec(items)?;
    Ok(PrimitiveBuffer::from_buffer(items))
}

fn items_of<T: NativePType>(
    alloc: Global,
    values: &[Option<&ScalarValue>],
) -> Result<Vec<T>, AllocError>
    requires { All (λ value. in_range T.kind (whole_or_zero (raw_at value)) ≡ true) values.now }
    ensures { IfOk result
        (λ items. map T.integer items.items ≡ map whole_or_zero (map raw_at values.now)) }
{
    values
        .iter()
        .map(|value| number_or_zero(*value))
        .collect(alloc)
}

// The integers of a given type, 0 where there is none.
fn numbers_of_kind(
    alloc: Global,
    ptype: PType,
    values: &[Option<&ScalarValue>],
) -> Result<PrimitiveBuffer, AllocError>
    requires kind { IsTrue (is_integral (number_kind_of ptype)) }
    requires held { All (λ value. holds_number (number_kind_of ptype) (whole_or_zero (raw_at value))
        ≡ true) values.now }
    ensures kind { IfOk result (λ numbers. integral (kind_of_numbers numbers)
        ≡ number_kind_of ptype) }
    ensures numbers { IfOk result (λ numbers. integers_of numbers
        ≡ map whole_or_zero (map raw_at values.now)) }
    ensures held { IfOk result
        (λ numbers. All (InRange (kind_of_numbers numbers)) (integers_of numbers)) }
{
    match ptype {
        PType::U8 => numbers_of::<u8>(alloc, values),
        PType::U16 => numbers_of::<u16>(alloc, values),
        PType::U32 => numbers_of::<u32>(alloc, values),
        PType::U64 => numbers_of::<u64>(alloc, values),
        PType::I8 => numbers_of::<i8>(alloc, values),
        PType::I16 => numbers_of::<i16>(alloc, values),
        PType::I32 => numbers_of::<i32>(alloc, values),
        PType::I64 => numbers_of::<i64>(alloc, values),
        PType::F16 | PType::F32 | PType::F64 => unreachable!(),
    }
}

/// An array of integers.
#[tactic(auto, using(crate::proofs::LeafLemmas::integers))]
pub fn of_integers(
    alloc: Global,
    ptype: PType,
    nullability: Nullability,
    values: &[Option<&ScalarValue>],
) -> Result<ArrayRef, AllocError>
    requires kind { IsTrue (is_integral (number_kind_of ptype)) }
    requires held { All
        (λ r. is_held (type_of_numbers (number_kind_of ptype) (nullability_of_flag nullability)) r
        ≡ true) (map raw_at values.now) }
    ensures { IfOk result
        (λ array. IsPlain (type_of_numbers (number_kind_of ptype) (nullability_of_flag nullability))
        (map raw_at values.now) array) }
{
    let items = numbers_of_kind(alloc, ptype, values)?;
    let validity = nulls_of(alloc, nullability, values)?;
    let array = ArrayRef::of_numbers(alloc, items, validity)?;
    Ok(array)
}
