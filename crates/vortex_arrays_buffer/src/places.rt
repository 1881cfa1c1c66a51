//! Indices of true bits. A byte that is within the range as a whole is read at once.
ghost use Rattle.std.specs.Prelude.{◌≡◌, ◌<◌, ◌≤◌, ◌+◌, ◌-◌, ◌*◌, ◌^◌, length, count_by};
ghost use Rattle.vortex_arrays_buffer.specs.Bits.{bits_of, positions_of};
ghost use Rattle.vortex_arrays_buffer.specs.Places.{AddsPlaces};

use crate::bit::bit;

/// Writes the indices of the true bits to a list of just that length.
pub(crate) fn place_all(places: &mut [usize], bytes: &[u8], start: usize, end: usize)
    requires order { start ≤ end }
    requires within { end ≤ 8 * length bytes.now }
    requires room { length places.old
        ≡ count_by (λ b. b) (bits_of bytes.now start (end - start)) }
    ensures placed { places.new ≡ positions_of (bits_of bytes.now start (end - start)) }
    ensures length { length places.new ≡ length places.old }
{
    let first = start.div_ceil(8);
    let last = end / 8;
    if last < first {
        place_bits(places, 0, bytes, start, end - start, start);
        return;
    }
    let before = place_bits(places, 0, bytes, start, 8 * first - start, start);
    let inside = place_bytes(places, before, bytes, first, last - first, start);
    place_bits(places, inside, bytes, 8 * last, end - 8 * last, start);
}

// Writes the indices of those of the bits that are true, read bit by bit.
#[tactic(auto, using(crate::proofs::Placed::bits_placed))]
fn place_bits(
    places: &mut [usize],
    n: usize,
    bytes: &[u8],
    start: usize,
    count: usize,
    origin: usize,
) -> usize
    requires order { origin ≤ start }
    requires within { start + count ≤ 8 * length bytes.now }
    requires small { start + count < 2 ^ 64 }
    requires room { n + count_by (λ b. b) (bits_of bytes.now start count) ≤ length places.old }
    ensures { AddsPlaces places.old n (start - origin) (bits_of bytes.now start count)
        places.new result }
{
    let mut next = n;
    for j in 0..count {
        if bit(bytes, start + j) {
            places[next] = start + j - origin;
            next += 1;
        }
    }
    next
}

// Writes the indices of the true bits of several bytes.
#[tactic(auto, using(crate::proofs::Placed::bytes_placed))]
fn place_bytes(
    places: &mut [usize],
    n: usize,
    bytes: &[u8],
    first: usize,
    count: usize,
    origin: usize,
) -> usize
    requires order { origin ≤ 8 * first }
    requires within { first + count ≤ length bytes.now }
    requires small { 8 * (first + count) < 2 ^ 64 }
    requires room { n + count_by (λ b. b) (bits_of bytes.now (8 * first) (8 * count))
        ≤ length places.old }
    ensures { AddsPlaces places.old n (8 * first - origin)
        (bits_of bytes.now (8 * first) (8 * count)) places.new result }
{
    let mut next = n;
    for k in 0..count {
        if bytes[first + k] != 0 {
            next = place_byte(places, next, bytes, first + k, origin);
        }
    }
    next
}

// Writes the indices of the true bits of a byte.
#[tactic(auto, using(crate::proofs::Placed::digits_placed))]
fn place_byte(places: &mut [usize], n: usize, bytes: &[u8], k: usize, origin: usize) -> usize
    requires order { origin ≤ 8 * k }
    requires within { k < length bytes.now }
    requires small { 8 * k + 8 < 2 ^ 64 }
    requires room { n + count_by (λ b. b) (bits_of bytes.now (8 * k) 8) ≤ length places.old }
    ensures { AddsPlaces places.old n (8 * k - origin) (bits_of bytes.now (8 * k) 8)
        places.new result }
{
    if places.len() - n < 8 {
        return place_bits(places, n, bytes, 8 * k, 8, origin);
    }
    let byte = bytes[k];
    let mut next = n;
    for j in 0..8 {
        // Where the bit is false, the next index overwrites this one.
        places[next] = 8 * k - origin + j;
        next += ((byte >> j) & 1) as usize;
    }
    next
}
