//! Lengths and offsets of values that are end to end.
ghost use Rattle.std.specs.Prelude.{◌≡◌, ◌≤◌, ◌<◌, ◌-ℤ◌, pos, map, unsigned_abs, IfSome, IfNone, IfOk, OnOk, IfErr};
ghost use Rattle.std.specs.Int.{IsNonNegative};
ghost use Rattle.vortex_arrays_view.specs.Lengths.{counts_of, lengths_between, AddUp, NeverFall, IsCountFault, IsLengthsFault};

use crate::error::ArrayError;
use std::alloc::Global;
use vortex_dtype_native::native::NativePType;

/// The length from each offset to the next, as Vortex's `offsets_to_lengths`: one length fewer than
/// offsets, and none for no offset.
///
/// `Total` where a length exceeds the offsets' integer type, as it can where the first offset is
/// negative.
pub fn offsets_to_lengths<P: NativePType>(
    alloc: Global,
    offsets: &[P],
) -> Result<Vec<P>, ArrayError>
    requires { NeverFall (map P.integer offsets.now) }
    ensures lengths { IfOk result (λ lengths. map P.integer lengths.items
        ≡ lengths_between (map P.integer offsets.now)) }
    ensures refused { IfErr result
        (λ e. IsLengthsFault e P.kind (lengths_between (map P.integer offsets.now))) }
{
    let count = offsets.len().saturating_sub(1);
    let mut lengths = offsets[..count].to_vec(alloc)?;
    for i in 0..count {
        let Some(length) = P::of(difference(offsets[i + 1], offsets[i])) else {
            return Err(ArrayError::Total);
        };
        lengths[i] = length;
    }
    Ok(lengths)
}

/// The lengths as counts of bytes, where they add up to `total`.
pub(crate) fn counts<P: NativePType>(
    alloc: Global,
    lengths: &[P],
    total: usize,
) -> Result<Vec<usize>, ArrayError>
    ensures counts { IfOk result (λ counts. counts.items ≡ counts_of (map P.integer lengths.now)) }
    ensures add_up { OnOk result (AddUp (map P.integer lengths.now) total) }
    ensures refused { IfErr result (λ e. IsCountFault e (map P.integer lengths.now) total) }
{
    let mut counts = vec![in alloc; 0; lengths.len()]?;
    let mut left = total;
    for i in 0..lengths.len() {
        let Some(count) = count_within(lengths[i].get(), left) else {
            return Err(ArrayError::LengthMismatch);
        };
        left -= count;
        counts[i] = count;
    }
    if left > 0 {
        return Err(ArrayError::LengthMismatch);
    }
    Ok(counts)
}

/// The lengths between offsets as counts of bytes, where they add up to `total`.
pub(crate) fn counts_between<P: NativePType>(
    alloc: Global,
    offsets: &[P],
    total: usize,
) -> Result<Vec<usize>, ArrayError>
    ensures counts { IfOk result
        (λ counts. counts.items ≡ counts_of (lengths_between (map P.integer offsets.now))) }
    ensures add_up { OnOk result (AddUp (lengths_between (map P.integer offsets.now)) total) }
    ensures refused { IfErr result
        (λ e. IsCountFault e (lengths_between (map P.integer offsets.now)) total) }
{
    let steps = offsets.len().saturating_sub(1);
    let mut counts = vec![in alloc; 0; steps]?;
    let mut left = total;
    for i in 0..steps {
        let length = difference(offsets[i + 1], offsets[i]);
        let Some(count) = count_within(length, left) else {
            return Err(ArrayError::LengthMismatch);
        };
        left -= count;
        counts[i] = count;
    }
    if left > 0 {
        return Err(ArrayError::LengthMismatch);
    }
    Ok(counts)
}

// The length as a count of bytes, where at least as many are left.
fn count_within(length: i128, left: usize) -> Option<usize>
    ensures count { IfSome result (λ count. (pos count ≡ length) × (count ≤ left)) }
    ensures refused { IfNone result (IsNonNegative length → left < unsigned_abs length) }
{
    if length < 0 || length > left as i128 {
        return None;
    }
    Some(length as usize)
}

// The distance from an offset to the next.
#[tactic(auto, using(crate::proofs::Counted::differences))]
fn difference<P: NativePType>(next: P, offset: P) -> i128
    ensures { result ≡ P.integer next -ℤ P.integer offset }
{
    next.get() - offset.get()
}
