//! The entries of maps as structs.
ghost use Rattle.std.specs.Prelude.{◌≡◌, [], ◌∷◌, IfOk};
ghost use Rattle.vortex_dtype_core.specs.View.{EntryTypes, type_of, field_of, fields_of, fields_in, entries_in};
ghost use Rattle.vortex_dtype_fields.specs.Records.{entry_type};

use std::alloc::{AllocError, Global};
use vortex_dtype_core::dtype::DType;
use vortex_dtype_core::map_dtype::MapDType;
use vortex_dtype_core::struct_fields::{StructField, StructFields};
use vortex_dtype_ptype::field_names::FieldName;
use vortex_dtype_ptype::nullability::Nullability;

/// Calls on a map type, which are methods of Vortex's `MapDType`.
pub trait MapDTypeExt {
    ghost entries: { Self → EntryTypes };

    /// The type of an entry: a non-nullable struct of `key` and `value`.
    fn entries_dtype(&self, alloc: Global) -> Result<DType, AllocError>
        ensures { IfOk result (λ dtype. type_of dtype ≡ entry_type (entries self.now)) };
}

impl MapDTypeExt for MapDType {
    ghost entries = { entries_in };

    #[tactic(auto, using(vortex_dtype_core::proofs::Views::built))]
    fn entries_dtype(&self, alloc: Global) -> Result<DType, AllocError> {
        let key = named(alloc, "key", self.key_dtype())?;
        let value = named(alloc, "value", self.value_dtype())?;
        let fields = both(alloc, key, value)?;
        Ok(DType::Struct(fields, Nullability::NonNullable))
    }
}

#[tactic(auto, using(vortex_dtype_core::proofs::Views::built))]
fn both(alloc: Global, key: StructField, value: StructField) -> Result<StructFields, AllocError>
    ensures { IfOk result (λ fields. fields_in fields ≡ fields_of (key ∷ value ∷ [])) }
{
    let mut fields = Vec::with_capacity(alloc, 2)?;
    fields.push(key)?;
    fields.push(value)?;
    StructFields::from_vec(fields)
}

#[tactic(auto, using(vortex_dtype_core::proofs::Views::built))]
fn named(alloc: Global, name: &str, dtype: &DType) -> Result<StructField, AllocError>
    ensures { IfOk result (λ made. field_of made ≡ (name.now, type_of dtype.now)) }
{
    let name = FieldName::new(alloc, name)?;
    let dtype = dtype.clone()?;
    Ok(StructField { name, dtype })
}
