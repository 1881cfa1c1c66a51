//! Leaf columns, as slices that stay where they are.
ghost use Rattle.std.specs.Prelude.{◌≡◌};
ghost use Rattle.std.proofs.Math.Logic.{∥∥₁_prop};
ghost use Rattle.vortex_stats_mask.specs.Headed.{AreHeaded};
ghost use Rattle.vortex_stats_mask.specs.Valid.{valid_in};

use vortex_arrays_buffer::bit_buffer::BitBuffer;
use vortex_arrays_view::view::BinaryView;
use vortex_stats_match::buffers::Buffers;

/// Views of sixteen bytes with the buffers that hold their long values.
#[derive(Clone, Copy)]
pub struct Strings<'a> {
    pub views: &'a [BinaryView],
    pub buffers: Buffers<'a>,
}

/// Integers of one type.
#[derive(Clone, Copy)]
pub enum Numbers<'a> {
    U8(&'a [u8]),
    U16(&'a [u16]),
    U32(&'a [u32]),
    U64(&'a [u64]),
    I8(&'a [i8]),
    I16(&'a [i16]),
    I32(&'a [i32]),
    I64(&'a [i64]),
}

/// The values of a column. Those of null rows mean nothing.
#[derive(Clone, Copy)]
pub enum Items<'a> {
    Bools(&'a [bool]),
    Numbers(Numbers<'a>),
    Texts(Strings<'a>),
    Binaries(Strings<'a>),
}

/// Which rows of a column are valid.
#[derive(Clone, Copy)]
pub enum ValidRows<'a> {
    All,
    /// The rows with a true bit.
    Bits(&'a BitBuffer),
    /// The rows with a true byte.
    Flags(&'a [bool]),
}

/// A leaf column: its values, and which of them are valid.
#[derive(Clone, Copy)]
pub struct Column<'a> {
    pub items: Items<'a>,
    pub validity: ValidRows<'a>,
    // The views of valid rows have the first bytes of their values.
    pub ghost headed: { ∥ AreHeaded items (valid_in validity) ∥₁ } by { ∥∥₁_prop },
}
