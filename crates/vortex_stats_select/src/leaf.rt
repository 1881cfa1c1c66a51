//! Leaf columns, kept while they are compared.
ghost use Rattle.std.specs.Prelude.{◌≡◌};
ghost use Rattle.std.proofs.Math.Logic.{∥∥₁_prop};
ghost use Rattle.vortex_stats_select.specs.Headed.{IsHeaded};

use bytes::Bytes;
use std::rc::Rc;
use vortex_arrays_buffer::{BitBuffer, Buffer, PrimitiveBuffer};
use vortex_arrays_view::view::BinaryView;

/// The values of a leaf column. Those of null rows mean nothing.
pub enum LeafItems {
    Bools(Vec<bool>),
    Numbers(PrimitiveBuffer),
    // Views with the buffers that long values lie in.
    Texts(Buffer<BinaryView>, Rc<Vec<Bytes>>),
    Binaries(Buffer<BinaryView>, Rc<Vec<Bytes>>),
}

impl Drop for LeafItems {
    fn drop(self) {
        match self {
            LeafItems::Bools(_items) => {}
            LeafItems::Numbers(_numbers) => {}
            LeafItems::Texts(_views, _buffers) => {}
            LeafItems::Binaries(_views, _buffers) => {}
        }
    }
}

/// A leaf column: its values, and which of them are valid, a bit for each, shared with the array
/// that it is of. No validity means all.
#[derive(Drop)]
pub struct Leaf {
    pub(crate) items: LeafItems,
    pub(crate) validity: Option<BitBuffer>,
    // The views of valid rows have the first bytes of their values.
    pub(crate) ghost headed: { ∥ IsHeaded items validity ∥₁ } by { ∥∥₁_prop },
}
