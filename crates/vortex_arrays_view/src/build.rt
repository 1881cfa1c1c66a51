//! Buffers of bytes, and views of the values in them.
ghost use Rattle.std.specs.Prelude.{◌≡◌, ◌≤◌, length, map, sum, IfOk, OnOk, IfErr};
ghost use Rattle.vortex_arrays_view.specs.Lengths.{counts_of, lengths_between, AddUp};
ghost use Rattle.vortex_arrays_view.specs.Built.{limit_of, AreWithin, IsBuilt, IsPlaceFault, IsLimitFault, IsBuildFault};

use crate::error::ArrayError;
use crate::lengths::{counts, counts_between};
use crate::view::BinaryView;
use bytes::Bytes;
use std::alloc::Global;
use vortex_dtype_native::native::NativePType;

/// The most bytes of a buffer that views refer to.
pub const MAX_BUFFER_LEN: usize = 2_147_483_647;

/// Cuts bytes into the fewest buffers within the limit, and makes a view of each value, as Vortex's
/// `build_views`. The values have these lengths, and are end to end in the bytes, which are cut
/// only where a value ends, and shared, not copied.
///
/// The first buffer has the index `start_buffer_index`. A limit above `MAX_BUFFER_LEN` is taken as
/// `MAX_BUFFER_LEN`.
///
/// `LengthMismatch` where a length is negative or the lengths do not add up to the bytes, and else
/// `Total` where a value is longer than the limit or a buffer's index would exceed 32 bits.
pub fn build_views<P: NativePType>(
    alloc: Global,
    start_buffer_index: u32,
    max_buffer_len: usize,
    bytes: Bytes,
    lengths: &[P],
) -> Result<(Vec<Bytes>, Vec<BinaryView>), ArrayError>
    ensures add_up { OnOk result (AddUp (map P.integer lengths.now) (length bytes)) }
    ensures within { OnOk result (AreWithin (limit_of max_buffer_len)
        (counts_of (map P.integer lengths.now))) }
    ensures built { IfOk result (λ made.
        IsBuilt bytes (counts_of (map P.integer lengths.now)) start_buffer_index
        (limit_of max_buffer_len) made.0.items made.1.items) }
    ensures refused { IfErr result (λ e.
        IsBuildFault e bytes (map P.integer lengths.now) start_buffer_index
        (limit_of max_buffer_len)) }
{
    let counts = counts(alloc, lengths, bytes.len())?;
    build_within(alloc, start_buffer_index, max_buffer_len, &bytes, &counts)
}

/// Buffers and views of the values between offsets, as Vortex's `build_views_from_offsets`. The
/// errors are those of `build_views`.
pub fn build_views_from_offsets<P: NativePType>(
    alloc: Global,
    start_buffer_index: u32,
    max_buffer_len: usize,
    bytes: Bytes,
    offsets: &[P],
) -> Result<(Vec<Bytes>, Vec<BinaryView>), ArrayError>
    ensures add_up { OnOk result
        (AddUp (lengths_between (map P.integer offsets.now)) (length bytes)) }
    ensures within { OnOk result (AreWithin (limit_of max_buffer_len)
        (counts_of (lengths_between (map P.integer offsets.now)))) }
    ensures built { IfOk result (λ made.
        IsBuilt bytes (counts_of (lengths_between (map P.integer offsets.now))) start_buffer_index
        (limit_of max_buffer_len) made.0.items made.1.items) }
    ensures refused { IfErr result (λ e.
        IsBuildFault e bytes (lengths_between (map P.integer offsets.now)) start_buffer_index
        (limit_of max_buffer_len)) }
{
    let counts = counts_between(alloc, offsets, bytes.len())?;
    build_within(alloc, start_buffer_index, max_buffer_len, &bytes, &counts)
}

// Buffers and views of values whose lengths add up to the bytes.
fn build_within(
    alloc: Global,
    first: u32,
    max_buffer_len: usize,
    bytes: &Bytes,
    lengths: &[usize],
) -> Result<(Vec<Bytes>, Vec<BinaryView>), ArrayError>
    requires { sum lengths.now ≡ length bytes.now }
    ensures within { OnOk result (AreWithin (limit_of max_buffer_len) lengths.now) }
    ensures built { IfOk result
        (λ made. IsBuilt bytes.now lengths.now first (limit_of max_buffer_len) made.0.items
        made.1.items) }
    ensures refused { IfErr result
        (λ e. IsLimitFault e bytes.now lengths.now first (limit_of max_buffer_len)) }
{
    let limit = max_buffer_len.min(MAX_BUFFER_LEN);
    if lengths.iter().any(|&length| length > limit) {
        return Err(ArrayError::Total);
    }
    place_values(alloc, first, limit, bytes, lengths)
}

// The bytes in the fewest buffers within the limit, and a view of each value.
fn place_values(
    alloc: Global,
    first: u32,
    limit: usize,
    bytes: &Bytes,
    lengths: &[usize],
) -> Result<(Vec<Bytes>, Vec<BinaryView>), ArrayError>
    requires limit { limit ≤ 2147483647 }
    requires within { AreWithin limit lengths.now }
    requires whole { sum lengths.now ≡ length bytes.now }
    ensures built { IfOk result
        (λ made. IsBuilt bytes.now lengths.now first limit made.0.items made.1.items) }
    ensures refused { IfErr result (λ e. IsPlaceFault e bytes.now lengths.now first limit) }
{
    let all = bytes.as_slice();
    let mut buffers = Vec::new(alloc);
    let mut views = vec![in alloc; BinaryView::empty_view(); lengths.len()]?;
    let mut index = first;
    let mut start = 0;
    let mut stop = 0;
    for i in 0..lengths.len() {
        let end = stop + lengths[i];
        let value = &all[stop..end];
        if end > start + limit {
            let Some(next) = index.checked_add(1) else {
                return Err(ArrayError::Total);
            };
            index = next;
            buffers.push(bytes.slice(start..stop)?)?;
            start = stop;
        }
        views[i] = BinaryView::make_view(value, index, (stop - start) as u32);
        stop = end;
    }
    if start < stop {
        buffers.push(bytes.slice(start..stop)?)?;
    }
    Ok((buffers, views))
}
