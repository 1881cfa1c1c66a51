//! Validities end to end.
ghost use Rattle.std.specs.Prelude.{◌≡◌, ◌<◌, ◌≤◌, ◌^◌, ◌++◌, length, map, true, IfOk, OnOk, IfErr, MatchOption, All};
ghost use Rattle.std.specs.List.{list_all};
ghost use Rattle.vortex_model.specs.LogicalType.{boolean_type, non_nullable};
ghost use Rattle.vortex_dtype_ptype.specs.View.{nullability_of_flag};
ghost use Rattle.vortex_dtype_core.specs.View.{type_of};
ghost use Rattle.vortex_arrays_model.specs.Layout.{Valid, nullability_by, HasLength};
ghost use Rattle.vortex_arrays_core.specs.LayoutOf.{valid_of};
ghost use Rattle.vortex_arrays_validity.specs.Validities.{valid_rows, rows_of_all, lengths_of_all, shows_no_null, shows_all_null};
ghost use Rattle.vortex_arrays_concat.specs.EndToEnd.{parts_of, nullability_of_all, HaveLengths, IsEndToEnd, IsEndToEndFault};

use std::alloc::{AllocError, Global};
use vortex_arrays_buffer::bit_buffer::BitBuffer;
use vortex_arrays_core::array::Validity;
use vortex_arrays_validity::validity_ext::ValidityExt;
use vortex_arrays_view::error::ArrayError;
use vortex_dtype_core::dtype::DType;
use vortex_dtype_ptype::nullability::Nullability;

/// The calls of Vortex's `Validity` on its array and on several validities.
pub trait ValidityConcat: Sized {
    // Which rows are null.
    ghost valid: { Self → Valid };

    /// The type of a validity's array: booleans without null.
    const DTYPE: DType;

    /// `DTYPE`, which no clause can name.
    fn array_dtype() -> DType
        ensures { type_of result ≡ boolean_type non_nullable };

    /// The validities, each of its number of rows, one after another, and `None` where there is
    /// none. A row can be null where it can in one of them. Where all show without reading an array
    /// that no row is null, or that each is, so does the result.
    ///
    /// `Total` where there are 2^64 rows or more.
    fn concat(alloc: Global, parts: &[(Self, usize)]) -> Result<Option<Self>, ArrayError>
        requires { HaveLengths (map (λ part. (valid part.0, part.1)) parts.now) }
        ensures made { IfOk result (λ found. MatchOption found (length parts.now ≡ 0)
            (λ v. (0 < length parts.now)
            × IsEndToEnd (map (λ part. (valid part.0, part.1)) parts.now) (valid v))) }
        ensures accepted { OnOk result
            (lengths_of_all (map (λ part. (valid part.0, part.1)) parts.now) < 2 ^ 64) }
        ensures refused { IfErr result
            (λ e. IsEndToEndFault e (map (λ part. (valid part.0, part.1)) parts.now)) };
}

impl ValidityConcat for Validity {
    ghost valid = { valid_of };

    const DTYPE: DType = DType::Bool(Nullability::NonNullable);

    fn array_dtype() -> DType {
        Self::DTYPE
    }

    #[tactic(auto, using(crate::proofs::ValidityLemmas::whole))]
    fn concat(alloc: Global, parts: &[(Validity, usize)]) -> Result<Option<Validity>, ArrayError> {
        if parts.is_empty() {
            return Ok(None);
        }
        let Some(rows) = count_rows(parts) else {
            return Err(ArrayError::Total);
        };
        let joined = join(alloc, parts, rows)?;
        Ok(Some(joined))
    }
}

// The number of rows of all validities, and `None` where it is 2^64 or more.
#[tactic(auto, using(crate::proofs::ValidityLemmas::counted))]
fn count_rows(parts: &[(Validity, usize)]) -> Option<usize>
    ensures { MatchOption result (2 ^ 64 ≤ lengths_of_all (parts_of parts.now))
        (λ rows. rows ≡ lengths_of_all (parts_of parts.now)) }
{
    let mut rows: usize = 0;
    for part in parts {
        match rows.checked_add(part.1) {
            Some(sum) => rows = sum,
            None => return None,
        }
    }
    Some(rows)
}

/// The validities end to end, of `rows` rows.
#[tactic(auto, using(crate::proofs::ValidityLemmas::joined))]
pub(crate) fn join(
    alloc: Global,
    parts: &[(Validity, usize)],
    rows: usize,
) -> Result<Validity, AllocError>
    requires some { 0 < length parts.now }
    requires fit { HaveLengths (parts_of parts.now) }
    requires count { rows ≡ lengths_of_all (parts_of parts.now) }
    ensures { IfOk result (λ v. IsEndToEnd (parts_of parts.now) (valid_of v)) }
{
    if show_no_null(parts) {
        return Ok(all_valid(nullability_of(parts)));
    }
    if show_all_null(parts) {
        return Ok(Validity::AllInvalid);
    }
    let bits = rows_of_all(alloc, parts, rows)?;
    let bits = BitBuffer::from_bools(alloc, bits.as_slice())?;
    let joined: Validity = ValidityExt::from_bit_buffer(alloc, bits, Nullability::Nullable)?;
    Ok(joined)
}

fn all_valid(nullability: Nullability) -> Validity
    ensures kind { nullability_by (valid_of result) ≡ nullability_of_flag nullability }
    ensures none { shows_no_null (valid_of result) ≡ true }
{
    match nullability {
        Nullability::NonNullable => Validity::NonNullable,
        Nullability::Nullable => Validity::AllValid,
    }
}

// Whether one of the validities can have null.
#[tactic(auto, using(crate::proofs::ValidityLemmas::either))]
fn nullability_of(parts: &[(Validity, usize)]) -> Nullability
    ensures { nullability_of_flag result ≡ nullability_of_all (parts_of parts.now) }
{
    let mut nullability = Nullability::NonNullable;
    for part in parts {
        nullability = nullability | part.0.nullability();
    }
    nullability
}

#[tactic(auto, using(crate::proofs::ValidityLemmas::shown))]
fn show_no_null(parts: &[(Validity, usize)]) -> bool
    ensures { result ≡ list_all (λ part. shows_no_null part.0) (parts_of parts.now) }
{
    for part in parts {
        if !part.0.definitely_no_nulls() {
            return false;
        }
    }
    true
}

#[tactic(auto, using(crate::proofs::ValidityLemmas::shown))]
fn show_all_null(parts: &[(Validity, usize)]) -> bool
    ensures { result ≡ list_all (λ part. shows_all_null part.0) (parts_of parts.now) }
{
    for part in parts {
        if !part.0.definitely_all_null() {
            return false;
        }
    }
    true
}

// For each row of the validities, whether it is not null.
#[tactic(auto, using(crate::proofs::ValidityLemmas::gathered))]
fn rows_of_all(
    alloc: Global,
    parts: &[(Validity, usize)],
    rows: usize,
) -> Result<Vec<bool>, AllocError>
    requires { HaveLengths (parts_of parts.now) }
    ensures { IfOk result (λ all. all.items ≡ rows_of_all (parts_of parts.now)) }
{
    let mut all = Vec::with_capacity(alloc, rows)?;
    for part in parts {
        push_rows(&mut all, alloc, &part.0, part.1)?;
    }
    Ok(all)
}

fn push_rows(
    all: &mut Vec<bool>,
    alloc: Global,
    validity: &Validity,
    rows: usize,
) -> Result<(), AllocError>
    requires { HasLength (valid_of validity.now) rows }
    ensures { OnOk result
        (all.new.items ≡ all.old.items ++ valid_rows (valid_of validity.now) rows) }
{
    let mask = validity.to_mask(alloc, rows)?;
    let bits = mask.bit_buffer().to_bools(alloc)?;
    all.extend_from_slice(&bits)?;
    Ok(())
}
