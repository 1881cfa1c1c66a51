//! The logical type of a column.
ghost use Rattle.std.specs.Prelude.{◌≡◌, IfOk, IsTrue, Some, option_map};
ghost use Rattle.vortex_model.specs.LogicalType.{nullability_of, either_nullable, is_nullable, with_nullability, non_nullable, nullable};
ghost use Rattle.vortex_dtype_ptype.specs.View.{nullability_of_flag};
ghost use Rattle.vortex_dtype_core.specs.View.{type_of, extension_type, fields_in};
ghost use Rattle.vortex_dtype_core.specs.Parts.{can_be_nonnullable, fields_in_type, extension_in_type, is_struct_type, is_extension_type};

use crate::extension::ExtDTypeRef;
use crate::map_dtype::MapDType;
use crate::struct_fields::StructFields;
use crate::union_variants::UnionVariants;
use std::alloc::AllocError;
use std::rc::Rc;
use vortex_dtype_ptype::decimal::DecimalDType;
use vortex_dtype_ptype::nullability::Nullability;
use vortex_dtype_ptype::ptype::PType;

/// A logical type, as Vortex's `DType`. A clone shares the parts.
#[cycle(dtype)]
pub enum DType {
    /// Only null.
    Null,
    /// Booleans.
    Bool(Nullability),
    /// Integers or floats.
    Primitive(PType, Nullability),
    /// Decimals.
    Decimal(DecimalDType, Nullability),
    /// UTF-8 strings.
    Utf8(Nullability),
    /// Bytes.
    Binary(Nullability),
    /// Lists of any length.
    List(Rc<DType>, Nullability),
    /// Lists of one length.
    FixedSizeList(Rc<DType>, u32, Nullability),
    /// Maps.
    Map(MapDType, Nullability),
    /// Structs: one value for each field.
    Struct(StructFields, Nullability),
    /// Unions: a value of one of several types, with its tag.
    Union(UnionVariants, Nullability),
    /// Values of any type, each with its type.
    Variant(Nullability),
    /// A named type over the values of a storage type.
    Extension(ExtDTypeRef),
}

impl Drop for DType {
    // Written out, since a derived drop is walked variant by variant wherever a type is dropped.
    #[cycle(drop_dtype)]
    fn drop(self) {
        match self {
            DType::Null => {}
            DType::Bool(_) => {}
            DType::Primitive(_, _) => {}
            DType::Decimal(_, _) => {}
            DType::Utf8(_) => {}
            DType::Binary(_) => {}
            DType::List(_element, _) => {}
            DType::FixedSizeList(_element, _, _) => {}
            DType::Map(_map, _) => {}
            DType::Struct(_fields, _) => {}
            DType::Union(_variants, _) => {}
            DType::Variant(_) => {}
            DType::Extension(_extension) => {}
        }
    }
}

impl DType {
    /// The outer nullability. `Null` is nullable, and an extension is where its storage is.
    #[tactic(auto, using(crate::proofs::Views::one_level))]
    pub fn nullability(&self) -> Nullability
        ensures { nullability_of_flag result ≡ nullability_of (type_of self.now) }
    {
        match self {
            DType::Null => Nullability::Nullable,
            DType::Bool(nullability) => *nullability,
            DType::Primitive(_, nullability) => *nullability,
            DType::Decimal(_, nullability) => *nullability,
            DType::Utf8(nullability) => *nullability,
            DType::Binary(nullability) => *nullability,
            DType::List(_, nullability) => *nullability,
            DType::FixedSizeList(_, _, nullability) => *nullability,
            DType::Map(_, nullability) => *nullability,
            DType::Struct(_, nullability) => *nullability,
            DType::Union(_, nullability) => *nullability,
            DType::Variant(nullability) => *nullability,
            DType::Extension(extension) => extension.data.storage.nullability(),
        }
    }

    pub fn is_nullable(&self) -> bool
        ensures { result ≡ is_nullable (nullability_of (type_of self.now)) }
    {
        self.nullability().is_nullable()
    }

    /// Whether a non-nullable form of the type exists: not of `Null`, and of an extension where one
    /// of its storage does.
    #[tactic(auto, using(crate::proofs::Views::one_level))]
    pub fn can_be_nonnullable(&self) -> bool
        ensures { result ≡ can_be_nonnullable (type_of self.now) }
    {
        match self {
            DType::Null => false,
            DType::Bool(_) | DType::Primitive(_, _) | DType::Decimal(_, _) => true,
            DType::Utf8(_) | DType::Binary(_) | DType::Variant(_) => true,
            DType::List(_, _) | DType::FixedSizeList(_, _, _) | DType::Map(_, _) => true,
            DType::Struct(_, _) | DType::Union(_, _) => true,
            DType::Extension(extension) => extension.data.storage.can_be_nonnullable(),
        }
    }

    /// The type with another outer nullability. The types inside stay the same.
    #[tactic(auto, using(crate::proofs::Views::nullabilities))]
    pub fn with_nullability(&self, nullability: Nullability) -> Result<DType, AllocError>
        requires { nullability_of_flag nullability ≡ non_nullable
            → IsTrue (can_be_nonnullable (type_of self.now)) }
        ensures kind { IfOk result (λ dtype. type_of dtype
            ≡ with_nullability (nullability_of_flag nullability) (type_of self.now)) }
        ensures outer { IfOk result (λ dtype. nullability_of (type_of dtype)
            ≡ nullability_of_flag nullability) }
    {
        match self {
            DType::Null => Ok(DType::Null),
            DType::Bool(_) => Ok(DType::Bool(nullability)),
            DType::Primitive(ptype, _) => Ok(DType::Primitive(*ptype, nullability)),
            DType::Decimal(decimal, _) => Ok(DType::Decimal(*decimal, nullability)),
            DType::Utf8(_) => Ok(DType::Utf8(nullability)),
            DType::Binary(_) => Ok(DType::Binary(nullability)),
            DType::List(element, _) => Ok(DType::List(element.clone()?, nullability)),
            DType::FixedSizeList(element, size, _) => {
                Ok(DType::FixedSizeList(element.clone()?, *size, nullability))
            }
            DType::Map(map, _) => Ok(DType::Map(map.clone()?, nullability)),
            DType::Struct(fields, _) => Ok(DType::Struct(fields.clone()?, nullability)),
            DType::Union(variants, _) => Ok(DType::Union(variants.clone()?, nullability)),
            DType::Variant(_) => Ok(DType::Variant(nullability)),
            DType::Extension(extension) => {
                let storage = extension.data.storage.with_nullability(nullability)?;
                Ok(DType::Extension(extension.with_storage(storage)?))
            }
        }
    }

    /// The type, nullable where it or `nullability` is.
    #[tactic(auto, using(crate::proofs::Views::union_can_be))]
    pub fn union_nullability(&self, nullability: Nullability) -> Result<DType, AllocError>
        ensures { IfOk result (λ dtype. type_of dtype ≡ with_nullability
            (either_nullable (nullability_of (type_of self.now)) (nullability_of_flag nullability))
            (type_of self.now)) }
    {
        let either = self.nullability() | nullability;
        let dtype = self.with_nullability(either)?;
        Ok(dtype)
    }

    /// The type, nullable.
    pub fn as_nullable(&self) -> Result<DType, AllocError>
        ensures kind { IfOk result
            (λ dtype. type_of dtype ≡ with_nullability nullable (type_of self.now)) }
        ensures outer { IfOk result (λ dtype. nullability_of (type_of dtype) ≡ nullable) }
    {
        let dtype = self.with_nullability(Nullability::Nullable)?;
        Ok(dtype)
    }

    /// The type, non-nullable.
    pub fn as_nonnullable(&self) -> Result<DType, AllocError>
        requires { IsTrue (can_be_nonnullable (type_of self.now)) }
        ensures kind { IfOk result
            (λ dtype. type_of dtype ≡ with_nullability non_nullable (type_of self.now)) }
        ensures outer { IfOk result (λ dtype. nullability_of (type_of dtype) ≡ non_nullable) }
    {
        let dtype = self.with_nullability(Nullability::NonNullable)?;
        Ok(dtype)
    }
}

impl DType {
    /// The fields of a struct, and `None` of any other type.
    #[tactic(auto, using(crate::proofs::Others::records))]
    pub fn into_struct_fields_opt(self) -> Option<StructFields>
        ensures { option_map fields_in result ≡ fields_in_type (type_of self) }
    {
        match self {
            DType::Struct(fields, _) => Some(fields),
            DType::Null | DType::Bool(_) | DType::Primitive(_, _) | DType::Decimal(_, _) => None,
            DType::Utf8(_) | DType::Binary(_) | DType::Variant(_) => None,
            DType::List(_, _) | DType::FixedSizeList(_, _, _) | DType::Map(_, _) => None,
            DType::Union(_, _) | DType::Extension(_) => None,
        }
    }

    /// The extension, and `None` of any other type.
    #[tactic(auto, using(crate::proofs::Others::extensions))]
    pub fn into_extension_opt(self) -> Option<ExtDTypeRef>
        ensures { option_map extension_type result ≡ extension_in_type (type_of self) }
    {
        match self {
            DType::Extension(extension) => Some(extension),
            DType::Null | DType::Bool(_) | DType::Primitive(_, _) | DType::Decimal(_, _) => None,
            DType::Utf8(_) | DType::Binary(_) | DType::Variant(_) => None,
            DType::List(_, _) | DType::FixedSizeList(_, _, _) | DType::Map(_, _) => None,
            DType::Struct(_, _) | DType::Union(_, _) => None,
        }
    }

    /// The fields of a struct.
    #[tactic(auto, using(crate::proofs::Others::is_there))]
    pub fn into_struct_fields(self) -> StructFields
        requires { IsTrue (is_struct_type (type_of self)) }
        ensures { Some (fields_in result) ≡ fields_in_type (type_of self) }
    {
        self.into_struct_fields_opt().unwrap()
    }

    /// The extension.
    #[tactic(auto, using(crate::proofs::Others::is_there))]
    pub fn into_extension(self) -> ExtDTypeRef
        requires { IsTrue (is_extension_type (type_of self)) }
        ensures { Some (extension_type result) ≡ extension_in_type (type_of self) }
    {
        self.into_extension_opt().unwrap()
    }
}

impl Clone for DType {
    ghost is_clone = { λ old new. type_of new ≡ type_of old };

    #[tactic(auto, using(crate::proofs::Views::one_level))]
    fn clone(&self) -> Result<DType, AllocError> {
        match self {
            DType::Null => Ok(DType::Null),
            DType::Bool(nullability) => Ok(DType::Bool(*nullability)),
            DType::Primitive(ptype, nullability) => Ok(DType::Primitive(*ptype, *nullability)),
            DType::Decimal(decimal, nullability) => Ok(DType::Decimal(*decimal, *nullability)),
            DType::Utf8(nullability) => Ok(DType::Utf8(*nullability)),
            DType::Binary(nullability) => Ok(DType::Binary(*nullability)),
            DType::List(element, nullability) => Ok(DType::List(element.clone()?, *nullability)),
            DType::FixedSizeList(element, size, nullability) => {
                Ok(DType::FixedSizeList(element.clone()?, *size, *nullability))
            }
            DType::Map(map, nullability) => Ok(DType::Map(map.clone()?, *nullability)),
            DType::Struct(fields, nullability) => Ok(DType::Struct(fields.clone()?, *nullability)),
            DType::Union(variants, nullability) => {
                Ok(DType::Union(variants.clone()?, *nullability))
            }
            DType::Variant(nullability) => Ok(DType::Variant(*nullability)),
            DType::Extension(extension) => Ok(DType::Extension(extension.clone()?)),
        }
    }
}
