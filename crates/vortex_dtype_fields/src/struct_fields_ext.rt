//! Fields of structs by name, and structs made from the fields of others.
ghost use Rattle.std.specs.Prelude.{◌≡◌, ◌≢◌, ◌++◌, ◌<◌, length, map, option_map, Some, None, true, false, IfOk, OnOk, IfErr};
ghost use Rattle.std.specs.List.{zip};
ghost use Rattle.vortex_model.specs.LogicalType.{Fields};
ghost use Rattle.vortex_model.specs.Path.{position_named};
ghost use Rattle.vortex_dtype_ptype.specs.declared.error.DTypeError.TheVariants.{Memory, NoSuchField, RepeatedName};
ghost use Rattle.vortex_dtype_core.specs.View.{type_of, field_of, fields_in, fields_of, fields_from};
ghost use Rattle.vortex_dtype_fields.specs.Iterators.{value_of, types_left, dtypes_left};
ghost use Rattle.vortex_dtype_fields.specs.Records.{names_of, types_of, type_named, fields_without, joined, projected, shares_name, HasNames};

use crate::field_dtype::{FieldDType, FieldDTypesIter, FieldTypesIter};
use std::alloc::{AllocError, Global};
use std::collections::BTreeSet;
use vortex_dtype_core::dtype::DType;
use vortex_dtype_core::struct_fields::{StructField, StructFields};
use vortex_dtype_ptype::error::DTypeError;
use vortex_dtype_ptype::field_names::{FieldName, FieldNames};

/// Calls on a struct's fields, which are methods of Vortex's `StructFields`. A name refers to the
/// first field that has it.
pub trait StructFieldsExt {
    ghost fields: { Self → Fields };

    /// The fields of these names, each with the type at the same index.
    fn from_fields(names: FieldNames, dtypes: Vec<FieldDType<'_>>) -> Result<Self, AllocError>
        requires { length names ≡ length dtypes.items }
        ensures { IfOk result
            (λ all. fields all
            ≡ fields_from
            (zip names (map (λ dtype. type_of (value_of dtype)) dtypes.entry.items))) };

    fn names(&self, alloc: Global) -> Result<FieldNames, AllocError>
        ensures { IfOk result (λ names. names ≡ names_of (fields self.now)) };

    fn field(&self, name: &FieldName) -> Option<&DType>
        ensures { option_map (λ dtype. type_of dtype.now) result
            ≡ type_named (fields self.now) name.now };

    fn fields(&self) -> FieldTypesIter<'_>
        ensures { map type_of (types_left result) ≡ types_of (fields self.now) };

    fn field_dtypes(&self) -> FieldDTypesIter<'_>
        ensures { map type_of (dtypes_left result) ≡ types_of (fields self.now) };

    /// The field of each of these names, in the order of the names. `DTypeError::NoSuchField` where
    /// a name has no field.
    fn project(&self, alloc: Global, names: &[FieldName]) -> Result<Self, DTypeError>
        ensures made { IfOk result (λ all. Some (fields all)
            ≡ projected (fields self.now) names.now) }
        ensures refused { IfErr result (λ e. e ≢ Memory → (e ≡ NoSuchField)
            × (projected (fields self.now) names.now ≡ None)) };

    /// All other fields. `DTypeError::NoSuchField` where the name has none.
    fn without_field(&self, alloc: Global, name: &FieldName) -> Result<Self, DTypeError>
        ensures made { IfOk result (λ all. Some (fields all)
            ≡ option_map (fields_without (fields self.now))
            (position_named (fields self.now) name.now)) }
        ensures refused { IfErr result (λ e. e ≢ Memory → (e ≡ NoSuchField)
            × (position_named (fields self.now) name.now ≡ None)) };

    /// The fields of this struct, and then those of `other`. `DTypeError::RepeatedName` where a
    /// name is in both. Takes time n log n for n fields.
    fn disjoint_merge(&self, alloc: Global, other: &Self) -> Result<Self, DTypeError>
        ensures made { IfOk result
            (λ all. fields all ≡ joined (fields self.now) (fields other.now)) }
        ensures accepted { OnOk result (shares_name (fields self.now) (fields other.now) ≡ false) }
        ensures refused { IfErr result (λ e. e ≢ Memory → (e ≡ RepeatedName)
            × (shares_name (fields self.now) (fields other.now) ≡ true)) };
}

impl StructFieldsExt for StructFields {
    ghost fields = { fields_in };

    fn from_fields(
        names: FieldNames,
        dtypes: Vec<FieldDType<'_>>,
    ) -> Result<StructFields, AllocError> {
        let dtypes = values(dtypes)?;
        let all = StructFields::new(names, dtypes)?;
        Ok(all)
    }

    fn names(&self, alloc: Global) -> Result<FieldNames, AllocError> {
        let names = names_in(alloc, self.as_slice())?;
        Ok(FieldNames::new(names))
    }

    fn field(&self, name: &FieldName) -> Option<&DType> {
        let place = self.find(name)?;
        self.field_by_index(place)
    }

    fn fields(&self) -> FieldTypesIter<'_> {
        FieldTypesIter::new(self.as_slice())
    }

    fn field_dtypes(&self) -> FieldDTypesIter<'_> {
        FieldDTypesIter::new(FieldTypesIter::new(self.as_slice()))
    }

    fn project(&self, alloc: Global, names: &[FieldName]) -> Result<StructFields, DTypeError> {
        let fields = projection(alloc, self, names)?;
        let all = StructFields::from_vec(fields)?;
        Ok(all)
    }

    #[tactic(auto, using(crate::proofs::Pieces::placed))]
    fn without_field(&self, alloc: Global, name: &FieldName) -> Result<StructFields, DTypeError> {
        let Some(place) = self.find(name) else {
            return Err(DTypeError::NoSuchField);
        };
        let fields = all_but(alloc, self.as_slice(), place)?;
        let all = StructFields::from_vec(fields)?;
        Ok(all)
    }

    fn disjoint_merge(
        &self,
        alloc: Global,
        other: &StructFields,
    ) -> Result<StructFields, DTypeError> {
        if have_shared_name(alloc, self.as_slice(), other.as_slice())? {
            return Err(DTypeError::RepeatedName);
        }
        let fields = both(alloc, self.as_slice(), other.as_slice())?;
        let all = StructFields::from_vec(fields)?;
        Ok(all)
    }
}

fn values(dtypes: Vec<FieldDType<'_>>) -> Result<Vec<DType>, AllocError>
    ensures { IfOk result (λ values. map type_of values.items
        ≡ map (λ dtype. type_of (value_of dtype)) dtypes.entry.items) }
{
    let mut values = Vec::with_capacity(*dtypes.allocator(), dtypes.len())?;
    for dtype in &dtypes {
        values.push(dtype.value()?)?;
    }
    Ok(values)
}

#[tactic(auto, using(crate::proofs::Pieces::names_in_order))]
fn names_in(alloc: Global, fields: &[StructField]) -> Result<Vec<FieldName>, AllocError>
    ensures { IfOk result (λ names. names.items ≡ names_of (fields_of fields.now)) }
{
    let mut names = Vec::with_capacity(alloc, fields.len())?;
    for field in fields {
        names.push(field.name.clone()?)?;
    }
    Ok(names)
}

fn projection(
    alloc: Global,
    fields: &StructFields,
    names: &[FieldName],
) -> Result<Vec<StructField>, DTypeError>
    ensures made { IfOk result (λ all. Some (fields_of all.items)
        ≡ projected (fields_in fields.now) names.now) }
    ensures refused { IfErr result (λ e. e ≢ Memory → (e ≡ NoSuchField)
        × (projected (fields_in fields.now) names.now ≡ None)) }
{
    let mut all = Vec::with_capacity(alloc, names.len())?;
    for name in names {
        let Some(dtype) = fields.field(name) else {
            return Err(DTypeError::NoSuchField);
        };
        let dtype = dtype.clone()?;
        let name = name.clone()?;
        all.push(StructField { name, dtype })?;
    }
    Ok(all)
}

#[tactic(auto, using(crate::proofs::Pieces::placed))]
fn all_but(
    alloc: Global,
    fields: &[StructField],
    place: usize,
) -> Result<Vec<StructField>, AllocError>
    requires { place < length fields.now }
    ensures { IfOk result (λ all. fields_of all.items
        ≡ fields_without (fields_of fields.now) place) }
{
    let front = Vec::with_capacity(alloc, fields.len() - 1)?;
    let front = extended(front, &fields[..place])?;
    let all = extended(front, &fields[place + 1..])?;
    Ok(all)
}

#[tactic(auto, using(crate::proofs::Pieces::placed))]
fn both(
    alloc: Global,
    front: &[StructField],
    back: &[StructField],
) -> Result<Vec<StructField>, AllocError>
    ensures { IfOk result (λ all. fields_of all.items
        ≡ joined (fields_of front.now) (fields_of back.now)) }
{
    let all = Vec::with_capacity(alloc, front.len())?;
    let all = extended(all, front)?;
    let all = extended(all, back)?;
    Ok(all)
}

// `all`, and copies of `more` after it.
fn extended(all: Vec<StructField>, more: &[StructField]) -> Result<Vec<StructField>, AllocError>
    ensures { IfOk result (λ both. map field_of both.items ≡ map field_of all.items
        ++ map field_of more.now) }
{
    let mut both = all;
    both.reserve(more.len())?;
    for field in more {
        let name = field.name.clone()?;
        let dtype = field.dtype.clone()?;
        both.push(StructField { name, dtype })?;
    }
    Ok(both)
}

#[tactic(auto, using(crate::proofs::Pieces::names_met))]
fn have_shared_name(
    alloc: Global,
    fields: &[StructField],
    others: &[StructField],
) -> Result<bool, AllocError>
    ensures { IfOk result
        (λ shared. shared ≡ shares_name (fields_of fields.now) (fields_of others.now)) }
{
    let names = names_met(alloc, fields)?;
    for other in others {
        if names.contains(other.name.as_str()) {
            return Ok(true);
        }
    }
    Ok(false)
}

#[tactic(auto, using(crate::proofs::Pieces::names_met))]
fn names_met(alloc: Global, fields: &[StructField]) -> Result<BTreeSet<&str>, AllocError>
    ensures { IfOk result (λ names. HasNames names (fields_of fields.now)) }
{
    let mut names = BTreeSet::new(alloc);
    for field in fields {
        names.insert(field.name.as_str())?;
    }
    Ok(names)
}
