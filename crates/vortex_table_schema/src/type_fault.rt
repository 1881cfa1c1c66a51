//! Types that a table can hold, and the fault of one that it can't.
ghost use Rattle.std.specs.Prelude.{◌≡◌, not, IfOk, option_map};
ghost use Rattle.vortex_model.specs.LogicalType.{struct, non_nullable};
ghost use Rattle.vortex_model.specs.Kept.{type_fault, part_fault, fields_fault, names_distinct};
ghost use Rattle.vortex_dtype_core.specs.View.{type_of, fields_of};
ghost use Rattle.vortex_dtype_ptype.specs.View.{number_kind_of};
ghost use Rattle.vortex_table_schema.specs.Fault.{refusal_of_fault, fault_of_numbers};

use std::alloc::{AllocError, Global};
use std::collections::BTreeSet;
use vortex_dtype_core::dtype::DType;
use vortex_dtype_core::struct_fields::StructField;
use vortex_dtype_ptype::nullability::Nullability;
use vortex_dtype_ptype::ptype::PType;

/// Why a table can't hold a type.
#[derive(Clone, Copy, Debug, PartialEq, Eq)]
pub enum TypeFault {
    /// The type is no record, or a nullable one.
    NotARecord,
    /// A part has a type that tables don't hold: anything but booleans, integers, strings, bytes,
    /// lists and records.
    UnkeptType,
    /// Two fields of a record have one name.
    RepeatedName,
}

/// The first fault of a table's type, and `None` where a table can hold it. The root is judged
/// first, then its parts from left to right, and the names of a record before its parts. It takes
/// time n log n in the number n of fields.
#[tactic(auto, using(crate::proofs::KeptParts::roots))]
pub fn type_fault(alloc: Global, dtype: &DType) -> Result<Option<TypeFault>, AllocError>
    ensures { IfOk result (λ fault. option_map refusal_of_fault fault
        ≡ type_fault (type_of dtype.now)) }
{
    match dtype {
        DType::Struct(fields, Nullability::NonNullable) => record_fault(alloc, fields.as_slice()),
        DType::Struct(_, Nullability::Nullable) => Ok(Some(TypeFault::NotARecord)),
        DType::Null | DType::Bool(_) | DType::Primitive(_, _) | DType::Decimal(_, _) => {
            Ok(Some(TypeFault::NotARecord))
        }
        DType::Utf8(_) | DType::Binary(_) | DType::Variant(_) => Ok(Some(TypeFault::NotARecord)),
        DType::List(_, _) | DType::FixedSizeList(_, _, _) | DType::Map(_, _) => {
            Ok(Some(TypeFault::NotARecord))
        }
        DType::Union(_, _) | DType::Extension(_) => Ok(Some(TypeFault::NotARecord)),
    }
}

// Integers are held and floats aren't.
fn number_fault(ptype: PType) -> Option<TypeFault>
    ensures { option_map refusal_of_fault result ≡ fault_of_numbers (number_kind_of ptype) }
{
    if ptype.is_float() {
        return Some(TypeFault::UnkeptType);
    }
    None
}

#[cycle(kept)]
#[tactic(auto, using(crate::proofs::KeptParts::parts))]
fn part_fault(alloc: Global, dtype: &DType) -> Result<Option<TypeFault>, AllocError>
    ensures { IfOk result (λ fault. option_map refusal_of_fault fault
        ≡ part_fault (type_of dtype.now)) }
{
    match dtype {
        DType::Struct(fields, _) => {
            let fault = record_fault(alloc, fields.as_slice())?;
            Ok(fault)
        }
        DType::Primitive(ptype, _) => Ok(number_fault(*ptype)),
        DType::Bool(_) | DType::Binary(_) => Ok(None),
        DType::Utf8(_) => Ok(None),
        DType::Null | DType::Decimal(_, _) | DType::Variant(_) => Ok(Some(TypeFault::UnkeptType)),
        DType::List(element, _) => {
            let fault = part_fault(alloc, element)?;
            Ok(fault)
        }
        DType::FixedSizeList(element, _, _) => {
            let fault = part_fault(alloc, element)?;
            Ok(fault)
        }
        DType::Map(_, _) => Ok(Some(TypeFault::UnkeptType)),
        DType::Union(_, _) | DType::Extension(_) => Ok(Some(TypeFault::UnkeptType)),
    }
}

// Names are judged before types.
#[cycle(kept)]
#[tactic(auto, using(crate::proofs::KeptParts::parts))]
fn record_fault(alloc: Global, fields: &[StructField]) -> Result<Option<TypeFault>, AllocError>
    ensures { IfOk result (λ fault. option_map refusal_of_fault fault
        ≡ part_fault (struct (fields_of fields.now) non_nullable)) }
{
    if has_repeated_name(alloc, fields)? {
        return Ok(Some(TypeFault::RepeatedName));
    }
    let fault = fields_fault(alloc, fields)?;
    Ok(fault)
}

#[cycle(kept)]
#[tactic(auto, using(crate::proofs::KeptParts::parts))]
fn fields_fault(alloc: Global, fields: &[StructField]) -> Result<Option<TypeFault>, AllocError>
    ensures { IfOk result (λ fault. option_map refusal_of_fault fault
        ≡ fields_fault (fields_of fields.now)) }
{
    for field in fields {
        let fault = part_fault(alloc, &field.dtype)?;
        if fault.is_some() {
            return Ok(fault);
        }
    }
    Ok(None)
}

#[tactic(auto, using(crate::proofs::Distinct::seen_more))]
fn has_repeated_name(alloc: Global, fields: &[StructField]) -> Result<bool, AllocError>
    ensures { IfOk result (λ found. found ≡ not (names_distinct (fields_of fields.now))) }
{
    let mut seen = BTreeSet::new(alloc);
    let mut rest = fields.len();
    while rest > 0 {
        rest -= 1;
        let name = fields[rest].name.as_str();
        if !seen.insert(name)? {
            return Ok(true);
        }
    }
    Ok(false)
}
