//! The type of a zone.
ghost use Rattle.std.specs.Prelude.{◌≡◌, IfOk};
ghost use Rattle.vortex_model.specs.LogicalType.{struct, non_nullable};
ghost use Rattle.vortex_model.specs.Kept.{CanHold};
ghost use Rattle.vortex_dtype_core.specs.View.{type_of, field_of, fields_of};
ghost use Rattle.vortex_table_zones.specs.Types.{known_type, known_fields, leaf_known, zone_type};

use std::alloc::{AllocError, Global};
use vortex_dtype_core::dtype::DType;
use vortex_dtype_core::struct_fields::{StructField, StructFields};
use vortex_dtype_ptype::field_names::FieldName;
use vortex_dtype_ptype::nullability::Nullability;
use vortex_dtype_ptype::ptype::PType;

// The type of a statistic of a column: its null count, or a bound.
fn leaf_dtype(dtype: &DType, counts: bool) -> Result<DType, AllocError>
    ensures { IfOk result (λ known. type_of known ≡ leaf_known counts (type_of dtype.now)) }
{
    if counts {
        return Ok(DType::Primitive(PType::U64, Nullability::Nullable));
    }
    let bound = dtype.as_nullable()?;
    Ok(bound)
}

#[tactic(auto, using(vortex_dtype_core::proofs::Views::built))]
fn record_dtype(fields: Vec<StructField>) -> Result<DType, AllocError>
    ensures { IfOk result (λ dtype. type_of dtype ≡ struct (fields_of fields.items) non_nullable) }
{
    let fields = StructFields::from_vec(fields)?;
    Ok(DType::Struct(fields, Nullability::NonNullable))
}

// The type of a statistic of each column, in records as the rows are.
#[cycle(known)]
#[tactic(auto, using(crate::proofs::TypeLemmas::levels))]
fn known_dtype(alloc: Global, dtype: &DType, counts: bool) -> Result<DType, AllocError>
    ensures { IfOk result (λ known. type_of known ≡ known_type counts (type_of dtype.now)) }
{
    match dtype.as_struct_fields_opt() {
        Some(fields) => {
            let known = known_fields(alloc, fields.as_slice(), counts)?;
            let record = record_dtype(known)?;
            Ok(record)
        }
        None => {
            let leaf = leaf_dtype(dtype, counts)?;
            Ok(leaf)
        }
    }
}

#[cycle(known)]
fn known_fields(
    alloc: Global,
    fields: &[StructField],
    counts: bool,
) -> Result<Vec<StructField>, AllocError>
    ensures { IfOk result
        (λ known. fields_of known.items ≡ known_fields counts (fields_of fields.now)) }
{
    let mut known = Vec::new(alloc);
    for field in fields {
        let name = field.name.clone()?;
        let dtype = known_dtype(alloc, &field.dtype, counts)?;
        known.push(StructField { name, dtype })?;
    }
    Ok(known)
}

#[tactic(auto, using(vortex_dtype_core::proofs::Views::built))]
fn field(alloc: Global, name: &str, dtype: DType) -> Result<StructField, AllocError>
    ensures { IfOk result (λ field. field_of field ≡ (name.now, type_of dtype)) }
{
    let name = FieldName::new(alloc, name)?;
    Ok(StructField { name, dtype })
}

/// The type of a zone of rows of this type: a record of `rows`, a `u64`, and three records, each
/// with the fields of the rows: `lower` and `upper` have the columns' types, all nullable, and
/// `nulls` has nullable `u64`. A column of records is a record there too. A table that can hold the
/// rows can hold their zones.
#[tactic(auto, using(crate::proofs::KeptZones::kept))]
pub fn zone_dtype(alloc: Global, dtype: &DType) -> Result<DType, AllocError>
    ensures dtype { IfOk result (λ zone. type_of zone ≡ zone_type (type_of dtype.now)) }
    ensures kept { CanHold (type_of dtype.now) → CanHold (zone_type (type_of dtype.now)) }
{
    let count = DType::Primitive(PType::U64, Nullability::NonNullable);
    let bounds = known_dtype(alloc, dtype, false)?;
    let counts = known_dtype(alloc, dtype, true)?;
    let rows = field(alloc, "rows", count)?;
    let lower = field(alloc, "lower", bounds.clone()?)?;
    let upper = field(alloc, "upper", bounds)?;
    let nulls = field(alloc, "nulls", counts)?;
    let zone = record_dtype(vec![in alloc; rows, lower, upper, nulls]?)?;
    Ok(zone)
}
