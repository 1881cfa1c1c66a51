//! Views: sixteen bytes that represent a string or bytes.
ghost use Rattle.std.specs.Prelude.{◌++◌, ◌≡◌, ◌≤◌, ◌<◌, ◌+◌, ◌^◌, ℕ, List, [], length, take, drop, IsTrue, ◌↔◌, slice_index_or};
ghost use Rattle.std.specs.Int.{w128, to_le_bytes, from_le_bytes};
ghost use Rattle.vortex_arrays_view.specs.Views.{size_of, index_of, offset_of, value_of, HasValue};
ghost use Rattle.vortex_arrays_view.specs.Made.{
  short_view,
  long_view,
  view_of,
  prefix_in,
  head_in,
  order_prefix_in,
  order_tail_in,
  prefix_of,
  head_of,
  order_prefix_of,
  order_tail_of,
  padded,
};

use crate::inlined::Inlined;
use crate::reference::Ref;
use bytes::Bytes;
use std::marker::Model;

/// The most bytes of a value that a view has inline.
pub const MAX_INLINED_SIZE: usize = 12;

/// Sixteen bytes that represent a string or bytes, as Vortex's `BinaryView`. Integers in them are
/// little-endian.
///
/// The first four bytes are the size of the value. A value of at most twelve bytes follows inline,
/// padded with zeros. A longer one is in a buffer: its first four bytes follow, then the index of
/// the buffer, then the offset of the value there, of four bytes each.
///
/// Any sixteen bytes are a view. Two views are equal where their bytes are, and equal ones have
/// equal hashes.
#[derive(Clone, Copy, Debug, PartialEq, Eq, Hash)]
pub struct BinaryView {
    bytes: [u8; 16],
}

impl Model for BinaryView {
    ghost Value = { List ℕ };

    ghost view = { λ v. v.bytes };

    ghost invariant = { λ v. length v.bytes ≡ 16 };

    ghost inverse = { λ b. record { bytes = b } };
}

impl BinaryView {
    /// The view of a value, as Vortex's `make_view`: the value itself if it has at most twelve
    /// bytes, and else its size, its first four bytes and where it is, which is not checked.
    pub fn make_view(value: &[u8], buffer_index: u32, offset: u32) -> BinaryView
        requires { length value.now < 2 ^ 32 }
        ensures { result ≡ view_of value.now buffer_index offset }
    {
        if value.len() <= MAX_INLINED_SIZE {
            BinaryView::new_inlined(value)
        } else {
            let prefix = [value[0], value[1], value[2], value[3]];
            BinaryView::new_ref(value.len() as u32, prefix, buffer_index, offset)
        }
    }

    /// The view of no bytes: sixteen zeros.
    pub fn empty_view() -> BinaryView
        ensures { result ≡ short_view [] }
    {
        BinaryView { bytes: [0; 16] }
    }

    /// The view with this size and prefix, of a value at the offset of this buffer.
    pub fn new_ref(size: u32, prefix: [u8; 4], buffer_index: u32, offset: u32) -> BinaryView
        ensures { result ≡ long_view size prefix buffer_index offset }
    {
        let bytes = joined(
            size.to_le_bytes(),
            prefix,
            buffer_index.to_le_bytes(),
            offset.to_le_bytes(),
        );
        BinaryView { bytes }
    }

    /// The view of a value of at most twelve bytes: its size, the value, and zeros.
    pub fn new_inlined(value: &[u8]) -> BinaryView
        requires { length value.now ≤ 12 }
        ensures { result ≡ short_view value.now }
    {
        let size = (value.len() as u32).to_le_bytes();
        let data: [u8; 12] = padded(value);
        let mut bytes = [0u8; 16];
        bytes[..4].copy_from_slice(&size);
        bytes[4..].copy_from_slice(&data);
        BinaryView { bytes }
    }

    /// The length of the value in bytes.
    pub fn len(&self) -> u32
        ensures { result ≡ size_of self.now }
    {
        u32::from_le_bytes([self.bytes[0], self.bytes[1], self.bytes[2], self.bytes[3]])
    }

    /// Whether the value is empty.
    pub fn is_empty(&self) -> bool
        ensures { IsTrue result ↔ (size_of self.now ≡ 0) }
    {
        self.len() == 0
    }

    /// Whether the view has its value inline, as one of at most twelve bytes.
    pub fn is_inlined(&self) -> bool
        ensures { IsTrue result ↔ (size_of self.now ≤ 12) }
    {
        self.len() as usize <= MAX_INLINED_SIZE
    }

    /// The parts of a view that has its value inline, which `is_inlined` tests.
    pub fn as_inlined(&self) -> Inlined
        requires { size_of self.now ≤ 12 }
        ensures size { result.size ≡ size_of self.now }
        ensures twelve { result.data ≡ drop 4 self.now }
    {
        let mut data = [0u8; 12];
        data.copy_from_slice(&self.bytes[4..]);
        Inlined {
            size: self.len(),
            data,
        }
    }

    /// The parts of a view that has its value in a buffer, as where `is_inlined` is false.
    pub fn as_view(&self) -> Ref
        requires { 12 < size_of self.now }
        ensures size { result.size ≡ size_of self.now }
        ensures prefix { result.prefix ≡ prefix_in self.now }
        ensures buffer_index { result.buffer_index ≡ index_of self.now }
        ensures offset { result.offset ≡ offset_of self.now }
    {
        Ref {
            size: self.len(),
            prefix: self.prefix(),
            buffer_index: self.buffer_index(),
            offset: self.offset(),
        }
    }

    /// Makes this the view of a value of more than twelve bytes in a buffer. It replaces Vortex's
    /// `as_view_mut`.
    pub fn set_ref(&mut self, reference: Ref)
        requires { 12 < reference.size }
        ensures { self.new ≡ long_view reference.size reference.prefix reference.buffer_index
            reference.offset }
    {
        *self = BinaryView::from(reference);
    }

    // The index of a long value's buffer.
    fn buffer_index(&self) -> u32
        ensures { result ≡ index_of self.now }
    {
        u32::from_le_bytes([self.bytes[8], self.bytes[9], self.bytes[10], self.bytes[11]])
    }

    // The offset of a long value in its buffer.
    fn offset(&self) -> u32
        ensures { result ≡ offset_of self.now }
    {
        u32::from_le_bytes([
            self.bytes[12],
            self.bytes[13],
            self.bytes[14],
            self.bytes[15],
        ])
    }

    /// The value: bytes of the view, or of one of the buffers. A long value has to be within its
    /// buffer, which `has_value` tests.
    pub fn bytes<'a>(&'a self, buffers: &'a [Bytes]) -> &'a [u8]
        requires there { 12 < size_of self.now → index_of self.now < length buffers.now }
        requires inside { 12 < size_of self.now → offset_of self.now + size_of self.now
            ≤ length (slice_index_or buffers.now (index_of self.now) []) }
        ensures { result.now ≡ value_of self.now buffers.now }
    {
        let size = self.len() as usize;
        if size <= MAX_INLINED_SIZE {
            return &self.bytes[4..4 + size];
        }
        let start = self.offset() as usize;
        let buffer = &buffers[self.buffer_index() as usize];
        let bytes = buffer.as_slice();
        &bytes[start..start + size]
    }

    /// Whether a long value is within one of the buffers and begins with the prefix. It is true of
    /// a short value.
    pub fn has_value(&self, buffers: &[Bytes]) -> bool
        ensures { IsTrue result ↔ HasValue self.now buffers.now }
    {
        if self.is_inlined() {
            return true;
        }
        let index = self.buffer_index() as usize;
        if index >= buffers.len() {
            return false;
        }
        let buffer = buffers[index].as_slice();
        let start = self.offset() as usize;
        let end = start + self.len() as usize;
        let prefix = self.prefix();
        end <= buffer.len() && prefix[..] == buffer[start..start + 4]
    }

    /// The four bytes after the size: the first four of the value, padded with zeros.
    pub fn prefix(&self) -> [u8; 4]
        ensures { result ≡ prefix_in self.now }
    {
        [self.bytes[4], self.bytes[5], self.bytes[6], self.bytes[7]]
    }

    /// The first eight bytes, size and prefix, as one integer. Where these differ, so do the
    /// values.
    pub fn head(&self) -> u64
        ensures { result ≡ head_in self.now }
    {
        let b = &self.bytes;
        u64::from_le_bytes([b[0], b[1], b[2], b[3], b[4], b[5], b[6], b[7]])
    }

    /// The prefix as a big-endian integer: where these differ, the lower one belongs to the lower
    /// value.
    pub fn order_prefix(&self) -> u32
        ensures { result ≡ order_prefix_in self.now }
    {
        u32::from_be_bytes(self.prefix())
    }

    /// The last eight bytes as a big-endian integer. Short values with equal order prefixes compare
    /// by their tails, and then by their sizes.
    pub fn order_tail(&self) -> u64
        ensures { result ≡ order_tail_in self.now }
    {
        let b = &self.bytes;
        u64::from_be_bytes([b[8], b[9], b[10], b[11], b[12], b[13], b[14], b[15]])
    }

    /// The prefix of a view of the value: its first four bytes, padded with zeros.
    pub fn prefix_of(value: &[u8]) -> [u8; 4]
        ensures { result ≡ prefix_of value.now }
    {
        padded(value)
    }

    /// The head of a view of the value: its size and its prefix.
    pub fn head_of(value: &[u8]) -> u64
        requires { length value.now < 2 ^ 32 }
        ensures { result ≡ head_of value.now }
    {
        let size = (value.len() as u32).to_le_bytes();
        let prefix = BinaryView::prefix_of(value);
        u64::from_le_bytes([
            size[0], size[1], size[2], size[3], prefix[0], prefix[1], prefix[2], prefix[3],
        ])
    }

    /// The order prefix of a view of the value.
    pub fn order_prefix_of(value: &[u8]) -> u32
        ensures { result ≡ order_prefix_of value.now }
    {
        u32::from_be_bytes(BinaryView::prefix_of(value))
    }

    /// The order tail of a view of the value if it is short: its bytes from the fifth to the
    /// twelfth, padded with zeros.
    pub fn order_tail_of(value: &[u8]) -> u64
        ensures { result ≡ order_tail_of value.now }
    {
        let rest = &value[value.len().min(4)..];
        u64::from_be_bytes(padded(rest))
    }

    /// The sixteen bytes as a little-endian integer.
    pub fn as_u128(&self) -> u128
        ensures { result ≡ from_le_bytes w128 self.now }
    {
        u128::from_le_bytes(self.bytes)
    }
}

// The first N bytes of a value, padded with zeros.
fn padded<const N: usize>(value: &[u8]) -> [u8; N]
    ensures { result ≡ padded N value.now }
{
    let mut bytes = [0u8; N];
    let count = value.len().min(N);
    bytes[..count].copy_from_slice(&value[..count]);
    bytes
}

// The four parts end to end.
fn joined(size: [u8; 4], prefix: [u8; 4], index: [u8; 4], offset: [u8; 4]) -> [u8; 16]
    ensures { result ≡ size ++ (prefix ++ (index ++ offset)) }
{
    let (s, p, i, o) = (size, prefix, index, offset);
    [
        s[0], s[1], s[2], s[3], p[0], p[1], p[2], p[3], i[0], i[1], i[2], i[3], o[0], o[1], o[2],
        o[3],
    ]
}

impl From<u128> for BinaryView {
    ghost from_gives = { λ n v. v ≡ to_le_bytes w128 n };

    fn from(value: u128) -> BinaryView
        ensures { result ≡ to_le_bytes w128 value }
    {
        BinaryView {
            bytes: value.to_le_bytes(),
        }
    }
}

impl From<Ref> for BinaryView {
    ghost from_gives = { λ r v. v ≡ long_view r.size r.prefix r.buffer_index r.offset };

    fn from(reference: Ref) -> BinaryView
        ensures { result ≡ long_view reference.size reference.prefix reference.buffer_index
            reference.offset }
    {
        BinaryView::new_ref(
            reference.size,
            reference.prefix,
            reference.buffer_index,
            reference.offset,
        )
    }
}
