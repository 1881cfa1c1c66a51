//! Bits unpacked into booleans, sixteen at once where two bytes are within the range as a whole.
ghost use Rattle.std.specs.Prelude.{◌≡◌, ◌<◌, ◌≤◌, ◌+◌, ◌-◌, ◌*◌, ◌^◌, ◌++◌, length, take, IfOk, OnOk};
ghost use Rattle.vortex_arrays_buffer.specs.Bits.{bits_of};

use crate::bit::{bit, sixteen_bits};
use std::alloc::{AllocError, Global};

/// The bits from one index to another, a byte for each.
pub(crate) fn unpack(
    alloc: Global,
    bytes: &[u8],
    start: usize,
    end: usize,
) -> Result<Vec<bool>, AllocError>
    requires order { start ≤ end }
    requires within { end ≤ 8 * length bytes.now }
    ensures { IfOk result (λ items. items.items ≡ bits_of bytes.now start (end - start)) }
{
    let first = start.div_ceil(8);
    if end / 8 < first {
        return (start..end).map(|i| bit(bytes, i)).collect(alloc);
    }
    let pairs = (end / 8 - first) / 2;
    let mut bits = Vec::with_capacity(alloc, end - start)?;
    push_bits(&mut bits, bytes, start, 8 * first)?;
    push_pairs(&mut bits, alloc, bytes, first, pairs)?;
    push_bits(&mut bits, bytes, 8 * (first + 2 * pairs), end)?;
    Ok(bits)
}

// Adds the bits from one index to another, one by one.
fn push_bits(bits: &mut Vec<bool>, bytes: &[u8], start: usize, end: usize) -> Result<(), AllocError>
    requires order { start ≤ end }
    requires within { end ≤ 8 * length bytes.now }
    ensures { OnOk result
        (bits.new.items ≡ bits.old.items ++ bits_of bytes.now start (end - start)) }
{
    for i in start..end {
        bits.push(bit(bytes, i))?;
    }
    Ok(())
}

// Adds the bits of several pairs of bytes. The list grows before, so that the bits of a pair are
// written together.
#[tactic(auto, using(crate::proofs::ByteLemmas::unpacked))]
fn push_pairs(
    bits: &mut Vec<bool>,
    alloc: Global,
    bytes: &[u8],
    first: usize,
    pairs: usize,
) -> Result<(), AllocError>
    requires within { first + 2 * pairs ≤ length bytes.now }
    requires small { 16 * pairs < 2 ^ 64 }
    ensures { OnOk result
        (bits.new.items ≡ bits.old.items ++ bits_of bytes.now (8 * first) (16 * pairs)) }
{
    let mut flags = vec![in alloc; false; 16 * pairs]?;
    for j in 0..pairs {
        put_pair(&mut flags, 16 * j, bytes, first + 2 * j);
    }
    bits.extend_from_slice(&flags)?;
    Ok(())
}

// Writes the bits of a pair of bytes from an index on.
#[inline(always)]
fn put_pair(flags: &mut Vec<bool>, at: usize, bytes: &[u8], k: usize)
    requires room { at + 16 ≤ length flags.old.items }
    requires within { k + 1 < length bytes.now }
    ensures front { take (at + 16) flags.new.items
        ≡ take at flags.old.items ++ bits_of bytes.now (8 * k) 16 }
    ensures same { length flags.new.items ≡ length flags.old.items }
{
    let sixteen = sixteen_bits(bytes, k);
    for i in 0..16 {
        flags[at + i] = sixteen[i];
    }
}
