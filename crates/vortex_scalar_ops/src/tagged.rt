//! Variants of a union by tag.
ghost use Rattle.std.specs.Prelude.{◌≡◌, option_map};
ghost use Rattle.vortex_dtype_core.specs.View.{type_of, variants_of};
ghost use Rattle.vortex_scalar_ops.specs.Tagged.{type_under};

use vortex_dtype_core::dtype::DType;
use vortex_dtype_core::union_variants::UnionVariant;

/// The type of the variant with this tag.
pub(crate) fn dtype_tagged(variants: &[UnionVariant], tag: i8) -> Option<&DType>
    ensures { option_map (λ dtype. type_of dtype.now) result
        ≡ type_under (variants_of variants.now) tag }
{
    for variant in variants {
        if variant.tag == tag {
            return Some(&variant.dtype);
        }
    }
    None
}
