//! Codes from value numbers.
ghost use Rattle.std.specs.Prelude.{◌≡◌, ◌≤◌, ◌-◌, true, pos, length, map, IfOk, IsTrue, All};
ghost use Rattle.vortex_model.specs.Valid.{in_range};
ghost use Rattle.vortex_dtype_ptype.specs.Numbers.{integral, is_unsigned, Has};
ghost use Rattle.vortex_dtype_ptype.specs.View.{number_kind_of};
ghost use Rattle.vortex_arrays_model.specs.Layout.{HasLength};
ghost use Rattle.vortex_arrays_core.specs.LayoutOf.{valid_of};
ghost use Rattle.vortex_arrays_buffer.specs.PrimitiveBuffers.{kind_of_numbers, integers_of};
ghost use Rattle.vortex_arrays_dictionary.specs.Codes.{AreCodes};

use std::alloc::{AllocError, Global};
use vortex_arrays_buffer::buffer::Buffer;
use vortex_arrays_buffer::element::Element;
use vortex_arrays_buffer::primitive_buffer::PrimitiveBuffer;
use vortex_arrays_core::array::{ArrayRef, Validity};
use vortex_dtype_native::match_each_unsigned_integer_ptype;
use vortex_dtype_native::native::NativePType;
use vortex_dtype_ptype::ptype::PType;

/// The numbers of `count` values as codes, in the narrowest unsigned type that has them all.
#[tactic(auto, using(crate::proofs::CodeLemmas::narrow))]
pub(crate) fn codes_of(
    alloc: Global,
    numbers: &[u64],
    count: usize,
    nulls: Validity,
) -> Result<ArrayRef, AllocError>
    requires small { All (λ n. n ≤ count - 1) numbers.now }
    requires fits { HasLength (valid_of nulls) (length numbers.now) }
    ensures { IfOk result (λ array. AreCodes numbers.now count (valid_of nulls) array) }
{
    let last = (count as u64).saturating_sub(1);
    let ptype = PType::min_unsigned_ptype_for_value(last);
    let items = cast_numbers(alloc, ptype, numbers)?;
    let array = ArrayRef::of_numbers(alloc, items, nulls)?;
    Ok(array)
}

// The numbers in an unsigned type that has them.
#[tactic(auto, using(crate::proofs::CodeLemmas::held))]
fn cast_numbers(alloc: Global, ptype: PType, numbers: &[u64]) -> Result<PrimitiveBuffer, AllocError>
    requires kind { IsTrue (is_unsigned (number_kind_of ptype)) }
    requires held { All (λ n. Has (number_kind_of ptype) (pos n)) numbers.now }
    ensures kind { IfOk result (λ r. integral (kind_of_numbers r) ≡ number_kind_of ptype) }
    ensures integers { IfOk result (λ r. integers_of r ≡ map pos numbers.now) }
{
    match_each_unsigned_integer_ptype!(ptype, cast_to(alloc, numbers))
}

// The numbers in a native type that has them.
fn cast_to<T: Element>(alloc: Global, numbers: &[u64]) -> Result<PrimitiveBuffer, AllocError>
    requires { All (λ n. in_range T.kind (pos n) ≡ true) numbers.now }
    ensures kind { IfOk result (λ r. kind_of_numbers r ≡ T.kind) }
    ensures integers { IfOk result (λ r. integers_of r ≡ map pos numbers.now) }
{
    let items: Vec<T> = cast_items(alloc, numbers)?;
    let items = Buffer::from_vec(items)?;
    Ok(PrimitiveBuffer::from_buffer(items))
}

fn cast_items<T: NativePType>(alloc: Global, numbers: &[u64]) -> Result<Vec<T>, AllocError>
    requires { All (λ n. in_range T.kind (pos n) ≡ true) numbers.now }
    ensures { IfOk result (λ items. map T.integer items.items ≡ map pos numbers.now) }
{
    numbers.iter().map(|number| cast(*number)).collect(alloc)
}

// The number in a native type that has it.
fn cast<T: NativePType>(number: u64) -> T
    requires { in_range T.kind (pos number) ≡ true }
    ensures { T.integer result ≡ pos number }
{
    match T::of(i128::from(number)) {
        Some(cast) => cast,
        None => unreachable!(),
    }
}
