//! Tests for the kind of a type.
ghost use Rattle.std.specs.Prelude.{◌≡◌};
ghost use Rattle.vortex_model.specs.Kept.{is_leaf};
ghost use Rattle.vortex_dtype_core.specs.View.{type_of};
ghost use Rattle.vortex_dtype_core.specs.Parts.{
  is_boolean_type,
  is_primitive_type,
  is_decimal_type,
  is_utf8_type,
  is_binary_type,
  is_list_type,
  is_fixed_list_type,
  is_map_type,
  is_struct_type,
  is_union_type,
  is_variant_type,
  is_extension_type,
  is_integer_type,
  is_float_type,
};

use crate::dtype::DType;

impl DType {
    #[tactic(auto, using(crate::proofs::Others::other_than_booleans))]
    pub fn is_boolean(&self) -> bool
        ensures { result ≡ is_boolean_type (type_of self.now) }
    {
        matches!(self, DType::Bool(_))
    }

    /// Whether the values are integers or floats.
    #[tactic(auto, using(crate::proofs::Others::kept_some))]
    pub fn is_primitive(&self) -> bool
        ensures { result ≡ is_primitive_type (type_of self.now) }
    {
        self.as_ptype_opt().is_some()
    }

    #[tactic(auto, using(crate::proofs::Others::kept_some))]
    pub fn is_decimal(&self) -> bool
        ensures { result ≡ is_decimal_type (type_of self.now) }
    {
        self.as_decimal_opt().is_some()
    }

    #[tactic(auto, using(crate::proofs::Others::other_than_texts))]
    pub fn is_utf8(&self) -> bool
        ensures { result ≡ is_utf8_type (type_of self.now) }
    {
        matches!(self, DType::Utf8(_))
    }

    #[tactic(auto, using(crate::proofs::Others::other_than_bytes))]
    pub fn is_binary(&self) -> bool
        ensures { result ≡ is_binary_type (type_of self.now) }
    {
        matches!(self, DType::Binary(_))
    }

    /// Whether the values are lists of any length, as opposed to a fixed one.
    #[tactic(auto, using(crate::proofs::Others::kept_some))]
    pub fn is_list(&self) -> bool
        ensures { result ≡ is_list_type (type_of self.now) }
    {
        self.as_list_element_opt().is_some()
    }

    #[tactic(auto, using(crate::proofs::Others::kept_some))]
    pub fn is_fixed_size_list(&self) -> bool
        ensures { result ≡ is_fixed_list_type (type_of self.now) }
    {
        self.as_fixed_size_list_element_opt().is_some()
    }

    #[tactic(auto, using(crate::proofs::Others::kept_some))]
    pub fn is_map(&self) -> bool
        ensures { result ≡ is_map_type (type_of self.now) }
    {
        self.as_map_opt().is_some()
    }

    #[tactic(auto, using(crate::proofs::Others::kept_some))]
    pub fn is_struct(&self) -> bool
        ensures { result ≡ is_struct_type (type_of self.now) }
    {
        self.as_struct_fields_opt().is_some()
    }

    #[tactic(auto, using(crate::proofs::Others::kept_some))]
    pub fn is_union(&self) -> bool
        ensures { result ≡ is_union_type (type_of self.now) }
    {
        self.as_union_variants_opt().is_some()
    }

    #[tactic(auto, using(crate::proofs::Others::other_than_variants))]
    pub fn is_variant(&self) -> bool
        ensures { result ≡ is_variant_type (type_of self.now) }
    {
        matches!(self, DType::Variant(_))
    }

    #[tactic(auto, using(crate::proofs::Others::kept_some))]
    pub fn is_extension(&self) -> bool
        ensures { result ≡ is_extension_type (type_of self.now) }
    {
        self.as_extension_opt().is_some()
    }

    #[tactic(auto, using(crate::proofs::Others::is_int))]
    pub fn is_int(&self) -> bool
        ensures { result ≡ is_integer_type (type_of self.now) }
    {
        match self {
            DType::Primitive(ptype, _) => ptype.is_int(),
            _ => false,
        }
    }

    #[tactic(auto, using(crate::proofs::Others::is_float))]
    pub fn is_float(&self) -> bool
        ensures { result ≡ is_float_type (type_of self.now) }
    {
        match self {
            DType::Primitive(ptype, _) => ptype.is_float(),
            _ => false,
        }
    }

    /// Whether the type is a leaf type, of whose columns tables keep statistics: booleans,
    /// integers, strings and bytes, but no floats, decimals or extensions.
    #[tactic(auto, using(crate::proofs::Others::leaves))]
    pub fn is_leaf(&self) -> bool
        ensures { result ≡ is_leaf (type_of self.now) }
    {
        match self {
            DType::Bool(_) | DType::Utf8(_) | DType::Binary(_) => true,
            DType::Primitive(ptype, _) => ptype.is_int(),
            DType::Null | DType::Decimal(_, _) | DType::Variant(_) => false,
            DType::List(_, _) | DType::FixedSizeList(_, _, _) | DType::Map(_, _) => false,
            DType::Struct(_, _) | DType::Union(_, _) | DType::Extension(_) => false,
        }
    }
}
