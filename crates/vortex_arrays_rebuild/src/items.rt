//! The items of runs, copied range by range.
ghost use Rattle.std.specs.Prelude.{◌≡◌, ◌≤◌, ◌+◌, ◌++◌, length, take, IfOk};
ghost use Rattle.vortex_arrays_buffer.specs.PrimitiveBuffers.{integers_of, kind_of_numbers};
ghost use Rattle.vortex_arrays_rebuild.specs.Runs.{items_in, items_of_run, LiesWithin};

use crate::runs::{Run, Runs};
use std::alloc::{AllocError, Global};
use vortex_arrays_buffer::bit_buffer::BitBuffer;
use vortex_arrays_buffer::buffer::Buffer;
use vortex_arrays_buffer::primitive_buffer::PrimitiveBuffer;

/// The items of the runs.
#[tactic(auto, using(crate::proofs::ItemLemmas::copied))]
pub(crate) fn copy_items<T: Copy + Drop>(
    alloc: Global,
    items: &[T],
    runs: &Runs,
) -> Result<Buffer<T>, AllocError>
    requires { runs.now.limit ≡ length items.now }
    ensures { IfOk result (λ copied. copied ≡ items_in items.now runs.now.list.items) }
{
    let _count = items.len();
    let mut copied = Vec::with_capacity(alloc, runs.len)?;
    for i in 0..runs.list.len() {
        let run = runs.list[i];
        copied.extend_from_slice(&items[run.start..run.start + run.len])?;
    }
    Buffer::from_vec(copied)
}

/// The integers of the runs, of the same type.
#[tactic(auto, using(crate::proofs::ItemLemmas::naturals))]
pub(crate) fn copy_numbers(
    alloc: Global,
    numbers: &PrimitiveBuffer,
    runs: &Runs,
) -> Result<PrimitiveBuffer, AllocError>
    requires { runs.now.limit ≡ length (integers_of numbers.now) }
    ensures kind { IfOk result (λ r. kind_of_numbers r ≡ kind_of_numbers numbers.now) }
    ensures copied { IfOk result
        (λ r. integers_of r ≡ items_in (integers_of numbers.now) runs.now.list.items) }
{
    match numbers {
        PrimitiveBuffer::U8(items) => {
            Ok(PrimitiveBuffer::U8(copy_items(alloc, items.as_slice(), runs)?))
        }
        PrimitiveBuffer::U16(items) => {
            Ok(PrimitiveBuffer::U16(copy_items(alloc, items.as_slice(), runs)?))
        }
        PrimitiveBuffer::U32(items) => {
            Ok(PrimitiveBuffer::U32(copy_items(alloc, items.as_slice(), runs)?))
        }
        PrimitiveBuffer::U64(items) => {
            Ok(PrimitiveBuffer::U64(copy_items(alloc, items.as_slice(), runs)?))
        }
        PrimitiveBuffer::I8(items) => {
            Ok(PrimitiveBuffer::I8(copy_items(alloc, items.as_slice(), runs)?))
        }
        PrimitiveBuffer::I16(items) => {
            Ok(PrimitiveBuffer::I16(copy_items(alloc, items.as_slice(), runs)?))
        }
        PrimitiveBuffer::I32(items) => {
            Ok(PrimitiveBuffer::I32(copy_items(alloc, items.as_slice(), runs)?))
        }
        PrimitiveBuffer::I64(items) => {
            Ok(PrimitiveBuffer::I64(copy_items(alloc, items.as_slice(), runs)?))
        }
    }
}

/// The bits of the runs.
#[tactic(auto, using(crate::proofs::ItemLemmas::written))]
pub(crate) fn copy_bits(
    alloc: Global,
    bits: &BitBuffer,
    runs: &Runs,
) -> Result<BitBuffer, AllocError>
    requires { runs.now.limit ≡ length bits.now }
    ensures { IfOk result (λ copied. copied ≡ items_in bits.now runs.now.list.items) }
{
    let mut copied = vec![in alloc; false; runs.len]?;
    let mut next = 0;
    for i in 0..runs.list.len() {
        let run = runs.list[i];
        put_bits(&mut copied, next, bits, run);
        next += run.len;
    }
    BitBuffer::from_bools(alloc, &copied)
}

// Writes the bits of a run from an index on.
fn put_bits(copied: &mut Vec<bool>, at: usize, bits: &BitBuffer, run: Run)
    requires room { at + run.len ≤ length copied.old.items }
    requires within { LiesWithin (length bits.now) run }
    ensures front { take (at + run.len) copied.new.items
        ≡ take at copied.old.items ++ items_of_run bits.now run }
    ensures same { length copied.new.items ≡ length copied.old.items }
{
    let _count = bits.len();
    for j in 0..run.len {
        copied[at + j] = bits.value(run.start + j);
    }
}
