//! Proofs that each item of a list is within its integer type. Nothing runs.
ghost use Rattle.std.specs.Prelude.{map, pos, All};
ghost use Rattle.vortex_model.specs.LogicalType.{u8, u16, u32, u64, i8, i16, i32, i64};
ghost use Rattle.vortex_model.specs.Valid.{InRange};

pub(crate) fn all_u8(items: &[u8])
    ensures { All (InRange u8) (map pos items.now) }
{}

pub(crate) fn all_u16(items: &[u16])
    ensures { All (InRange u16) (map pos items.now) }
{}

pub(crate) fn all_u32(items: &[u32])
    ensures { All (InRange u32) (map pos items.now) }
{}

pub(crate) fn all_u64(items: &[u64])
    ensures { All (InRange u64) (map pos items.now) }
{}

pub(crate) fn all_i8(items: &[i8])
    ensures { All (InRange i8) items.now }
{}

pub(crate) fn all_i16(items: &[i16])
    ensures { All (InRange i16) items.now }
{}

pub(crate) fn all_i32(items: &[i32])
    ensures { All (InRange i32) items.now }
{}

pub(crate) fn all_i64(items: &[i64])
    ensures { All (InRange i64) items.now }
{}
