//! Types made of their parts in one call.
ghost use Rattle.std.specs.Prelude.{◌≡◌, map, IfOk};
ghost use Rattle.vortex_model.specs.LogicalType.{list, fixed_list, struct};
ghost use Rattle.vortex_dtype_ptype.specs.View.{nullability_of_flag};
ghost use Rattle.vortex_dtype_core.specs.View.{type_of, field_of, fields_in, fields_from, named_type};

use crate::dtype::DType;
use crate::struct_fields::{StructField, StructFields};
use std::alloc::{AllocError, Global};
use std::rc::Rc;
use vortex_dtype_ptype::field_names::FieldName;
use vortex_dtype_ptype::nullability::Nullability;

impl StructFields {
    /// The fields of these names and types, in order, as Vortex's `StructFields::from_iter`. A name
    /// may be repeated.
    pub fn from_pairs(alloc: Global, pairs: &[(&str, DType)]) -> Result<StructFields, AllocError>
        ensures { IfOk result (λ all. fields_in all ≡ fields_from (map named_type pairs.now)) }
    {
        let mut fields = Vec::with_capacity(alloc, pairs.len())?;
        for pair in pairs {
            let field = named_field(alloc, pair)?;
            fields.push(field)?;
        }
        let all = StructFields::from_vec(fields)?;
        Ok(all)
    }
}

#[tactic(auto, using(crate::proofs::Views::built))]
fn named_field(alloc: Global, pair: &(&str, DType)) -> Result<StructField, AllocError>
    ensures { IfOk result (λ field. field_of field ≡ named_type pair.now) }
{
    let name = FieldName::new(alloc, pair.0)?;
    let dtype = pair.1.clone()?;
    Ok(StructField { name, dtype })
}

impl DType {
    /// Structs with fields of these names and types, in order, as Vortex's `DType::struct_`.
    #[tactic(auto, using(crate::proofs::Views::one_level))]
    pub fn struct_(
        alloc: Global,
        pairs: &[(&str, DType)],
        nullability: Nullability,
    ) -> Result<DType, AllocError>
        ensures { IfOk result (λ dtype. type_of dtype
            ≡ struct (fields_from (map named_type pairs.now)) (nullability_of_flag nullability)) }
    {
        let fields = StructFields::from_pairs(alloc, pairs)?;
        Ok(DType::Struct(fields, nullability))
    }

    /// Lists of any length with these elements, as Vortex's `DType::list`.
    #[tactic(auto, using(crate::proofs::Views::one_level))]
    pub fn list(
        alloc: Global,
        element: DType,
        nullability: Nullability,
    ) -> Result<DType, AllocError>
        ensures { IfOk result (λ dtype. type_of dtype
            ≡ list (type_of element) (nullability_of_flag nullability)) }
    {
        let element = Rc::new(alloc, element)?;
        Ok(DType::List(element, nullability))
    }

    /// Lists of `size` elements each.
    #[tactic(auto, using(crate::proofs::Views::one_level))]
    pub fn fixed_size_list(
        alloc: Global,
        element: DType,
        size: u32,
        nullability: Nullability,
    ) -> Result<DType, AllocError>
        ensures { IfOk result (λ dtype. type_of dtype
            ≡ fixed_list (type_of element) size (nullability_of_flag nullability)) }
    {
        let element = Rc::new(alloc, element)?;
        Ok(DType::FixedSizeList(element, size, nullability))
    }
}
