//! Logical types from primitive types, and back.
ghost use Rattle.std.specs.Prelude.{◌≡◌, option_map, IfErr};
ghost use Rattle.std.specs.Result.{result_ok};
ghost use Rattle.vortex_model.specs.LogicalType.{integer_type, non_nullable, u8};
ghost use Rattle.vortex_dtype_ptype.specs.Numbers.{type_of_numbers};
ghost use Rattle.vortex_dtype_ptype.specs.View.{number_kind_of};
ghost use Rattle.vortex_dtype_ptype.specs.declared.error.DTypeError.TheVariants.{Malformed};
ghost use Rattle.vortex_dtype_core.specs.View.{type_of};
ghost use Rattle.vortex_dtype_core.specs.Parts.{numbers_in_type};

use crate::dtype::DType;
use vortex_dtype_ptype::error::DTypeError;
use vortex_dtype_ptype::nullability::Nullability;
use vortex_dtype_ptype::ptype::PType;

impl DType {
    /// Non-nullable `u8`.
    pub const BYTES: DType = DType::Primitive(PType::U8, Nullability::NonNullable);

    /// `BYTES` as a call, since a clause can't name the constant.
    #[tactic(auto, using(crate::proofs::Views::one_level))]
    pub fn bytes() -> DType
        ensures { type_of result ≡ integer_type u8 non_nullable }
    {
        DType::BYTES
    }
}

/// The non-nullable type.
impl From<PType> for DType {
    ghost from_gives = { λ ptype dtype. type_of dtype
        ≡ type_of_numbers (number_kind_of ptype) non_nullable };

    #[tactic(auto, using(crate::proofs::Views::one_level))]
    fn from(ptype: PType) -> DType {
        DType::Primitive(ptype, Nullability::NonNullable)
    }
}

/// The primitive type of a type of integers or floats. `DTypeError::Malformed` for any other.
impl TryFrom<&DType> for PType {
    type Error = DTypeError;

    ghost try_from_gives = { λ dtype result. (option_map number_kind_of (result_ok result)
        ≡ numbers_in_type (type_of dtype.now)) × IfErr result (λ e. e ≡ Malformed) };

    fn try_from(dtype: &DType) -> Result<PType, DTypeError> {
        match dtype.as_ptype_opt() {
            Some(ptype) => Ok(ptype),
            None => Err(DTypeError::Malformed),
        }
    }
}
