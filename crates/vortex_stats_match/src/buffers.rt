//! Buffers that views lie in, lent.

use bytes::Bytes;

/// The buffers that hold long values of views.
#[derive(Clone, Copy)]
pub enum Buffers<'a> {
    /// The buffers of an array, which others share.
    Shared(&'a [Bytes]),
    /// A single one, at index 0.
    One(&'a [u8]),
}

impl<'a> Buffers<'a> {
    ghost use Rattle.std.specs.Prelude.{◌≡◌, [], slice_index_or};
    ghost use Rattle.vortex_stats_match.specs.Buffers.{buffers_in};

    // The bytes of the buffer at an index, and none where there is no such buffer.
    #[inline(always)]
    pub(crate) fn get(&self, index: usize) -> &'a [u8]
        ensures { result.now ≡ slice_index_or (buffers_in self.now) index [] }
    {
        match self {
            Buffers::Shared(buffers) => match buffers.get(index) {
                Some(buffer) => buffer.as_slice(),
                None => &[],
            },
            Buffers::One(bytes) => { if index == 0 { *bytes } else { &[] } }
        }
    }
}
