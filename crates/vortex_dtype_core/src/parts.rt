//! The parts of a type. Calls with `_opt` return `None` for types of another kind, and the others
//! require the kind.
ghost use Rattle.std.specs.Prelude.{◌≡◌, Some, IsTrue, option_map};
ghost use Rattle.vortex_model.specs.LogicalType.{stored};
ghost use Rattle.vortex_dtype_ptype.specs.View.{number_kind_of};
ghost use Rattle.vortex_dtype_core.specs.View.{type_of, extension_type, entries_in, fields_in, variants_in};
ghost use Rattle.vortex_dtype_core.specs.Parts.{
  numbers_in_type,
  decimal_in_type,
  element_in_type,
  fixed_element_in_type,
  list_element,
  entries_in_type,
  fields_in_type,
  variants_in_type,
  extension_in_type,
  is_primitive_type,
  is_struct_type,
  is_extension_type,
};

use crate::dtype::DType;
use crate::extension::ExtDTypeRef;
use crate::map_dtype::MapDType;
use crate::struct_fields::StructFields;
use crate::union_variants::UnionVariants;
use std::rc::Rc;
use vortex_dtype_ptype::decimal::DecimalDType;
use vortex_dtype_ptype::ptype::PType;

impl DType {
    /// The primitive type, of integers and floats.
    #[tactic(auto, using(crate::proofs::Others::numbers))]
    pub fn as_ptype_opt(&self) -> Option<PType>
        ensures { option_map number_kind_of result ≡ numbers_in_type (type_of self.now) }
    {
        match self {
            DType::Primitive(ptype, _) => Some(*ptype),
            _ => None,
        }
    }

    #[tactic(auto, using(crate::proofs::Others::decimals))]
    pub fn as_decimal_opt(&self) -> Option<&DecimalDType>
        ensures { option_map (λ decimal. (decimal.now.precision, decimal.now.scale)) result
            ≡ decimal_in_type (type_of self.now) }
    {
        match self {
            DType::Decimal(decimal, _) => Some(decimal),
            _ => None,
        }
    }

    /// The element type of a list of any length.
    #[tactic(auto, using(crate::proofs::Others::lists))]
    pub fn as_list_element_opt(&self) -> Option<&Rc<DType>>
        ensures { option_map (λ element. type_of element.now.value) result
            ≡ element_in_type (type_of self.now) }
    {
        match self {
            DType::List(element, _) => Some(element),
            _ => None,
        }
    }

    /// The element type of a list of one length.
    #[tactic(auto, using(crate::proofs::Others::fixed_lists))]
    pub fn as_fixed_size_list_element_opt(&self) -> Option<&Rc<DType>>
        ensures { option_map (λ element. type_of element.now.value) result
            ≡ fixed_element_in_type (type_of self.now) }
    {
        match self {
            DType::FixedSizeList(element, _, _) => Some(element),
            _ => None,
        }
    }

    /// The element type of a list, of any length or of one.
    #[tactic(auto, using(crate::proofs::Others::any_lists))]
    pub fn as_any_size_list_element_opt(&self) -> Option<&DType>
        ensures { option_map (λ element. type_of element.now) result
            ≡ list_element (type_of self.now) }
    {
        match self {
            DType::List(element, _) => Some(element),
            DType::FixedSizeList(element, _, _) => Some(element),
            DType::Null | DType::Bool(_) | DType::Primitive(_, _) | DType::Decimal(_, _) => None,
            DType::Utf8(_) | DType::Binary(_) | DType::Variant(_) => None,
            DType::Map(_, _) | DType::Struct(_, _) => None,
            DType::Union(_, _) | DType::Extension(_) => None,
        }
    }

    /// The type whose values are stored: the storage of an extension, which is unwrapped as often
    /// as extensions are nested, and any other type itself.
    #[tactic(auto, using(crate::proofs::Others::unwrapped))]
    pub fn stored_dtype(&self) -> &DType
        ensures { type_of result.now ≡ stored (type_of self.now) }
    {
        match self {
            DType::Extension(extension) => extension.data.storage.stored_dtype(),
            DType::Null | DType::Bool(_) | DType::Primitive(_, _) | DType::Decimal(_, _) => self,
            DType::Utf8(_) | DType::Binary(_) | DType::Variant(_) => self,
            DType::List(_, _) | DType::FixedSizeList(_, _, _) | DType::Map(_, _) => self,
            DType::Struct(_, _) | DType::Union(_, _) => self,
        }
    }

    #[tactic(auto, using(crate::proofs::Others::maps))]
    pub fn as_map_opt(&self) -> Option<&MapDType>
        ensures { option_map (λ map. entries_in map.now) result
            ≡ entries_in_type (type_of self.now) }
    {
        match self {
            DType::Map(map, _) => Some(map),
            _ => None,
        }
    }

    #[tactic(auto, using(crate::proofs::Others::records))]
    pub fn as_struct_fields_opt(&self) -> Option<&StructFields>
        ensures { option_map (λ fields. fields_in fields.now) result
            ≡ fields_in_type (type_of self.now) }
    {
        match self {
            DType::Struct(fields, _) => Some(fields),
            _ => None,
        }
    }

    #[tactic(auto, using(crate::proofs::Others::unions))]
    pub fn as_union_variants_opt(&self) -> Option<&UnionVariants>
        ensures { option_map (λ variants. variants_in variants.now) result
            ≡ variants_in_type (type_of self.now) }
    {
        match self {
            DType::Union(variants, _) => Some(variants),
            _ => None,
        }
    }

    #[tactic(auto, using(crate::proofs::Others::extensions))]
    pub fn as_extension_opt(&self) -> Option<&ExtDTypeRef>
        ensures { option_map (λ extension. extension_type extension.now) result
            ≡ extension_in_type (type_of self.now) }
    {
        match self {
            DType::Extension(extension) => Some(extension),
            _ => None,
        }
    }

    #[tactic(auto, using(crate::proofs::Others::is_there))]
    pub fn as_ptype(&self) -> PType
        requires { IsTrue (is_primitive_type (type_of self.now)) }
        ensures { Some (number_kind_of result) ≡ numbers_in_type (type_of self.now) }
    {
        self.as_ptype_opt().unwrap()
    }

    #[tactic(auto, using(crate::proofs::Others::is_there))]
    pub fn as_struct_fields(&self) -> &StructFields
        requires { IsTrue (is_struct_type (type_of self.now)) }
        ensures { Some (fields_in result.now) ≡ fields_in_type (type_of self.now) }
    {
        self.as_struct_fields_opt().unwrap()
    }

    #[tactic(auto, using(crate::proofs::Others::is_there))]
    pub fn as_extension(&self) -> &ExtDTypeRef
        requires { IsTrue (is_extension_type (type_of self.now)) }
        ensures { Some (extension_type result.now) ≡ extension_in_type (type_of self.now) }
    {
        self.as_extension_opt().unwrap()
    }
}
