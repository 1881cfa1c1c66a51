//! Lengths of lists in casts.
ghost use Rattle.std.specs.Prelude.{◌≡◌};
ghost use Rattle.vortex_dtype_core.specs.View.{type_of};
ghost use Rattle.vortex_scalar_ops.specs.Converting.{takes_length};

use vortex_dtype_core::dtype::DType;

/// Whether lists of the type may have `length` elements: not in fixed-size lists of another length.
#[tactic(auto, using(crate::proofs::ListValues::lists))]
pub(crate) fn takes_length(dtype: &DType, length: usize) -> bool
    ensures { result ≡ takes_length (type_of dtype.now) length }
{
    match dtype {
        DType::FixedSizeList(_, size, _) => length == *size as usize,
        DType::Null | DType::Bool(_) | DType::Primitive(_, _) | DType::Decimal(_, _) => true,
        DType::Utf8(_) | DType::Binary(_) | DType::Variant(_) => true,
        DType::List(_, _) | DType::Map(_, _) | DType::Struct(_, _) => true,
        DType::Union(_, _) | DType::Extension(_) => true,
    }
}
