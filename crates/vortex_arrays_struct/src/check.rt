//! Whether parts make a struct array.
ghost use Rattle.std.specs.Prelude.{◌≡◌, ◌≢◌, ◌↔◌, IsTrue, OnOk, IfErr, All};
ghost use Rattle.vortex_arrays_model.specs.Layout.{IsSound, len_of, records};
ghost use Rattle.vortex_arrays_model.specs.Parts.{columns_of};
ghost use Rattle.vortex_arrays_core.specs.LayoutOf.{valid_of};
ghost use Rattle.vortex_arrays_view.specs.declared.error.ArrayError.TheVariants.{Memory};
ghost use Rattle.vortex_arrays_struct.specs.RecordFaults.{TellsNulls, FitTogether, IsRecordsFault};

use vortex_arrays_core::array::{ArrayRef, Validity};
use vortex_arrays_view::error::ArrayError;
use vortex_dtype_ptype::field_names::FieldNames;

/// Tests that the parts make a struct array of `len` rows, as Vortex's `StructData::validate`.
///
/// `WrongType` where the validity's array does not have the type of booleans without null, else
/// `LengthMismatch` where names and fields differ in number, or a field or the validity does not
/// have `len` rows.
#[tactic(auto, using(crate::proofs::Fitting::fitting))]
pub fn validate(
    names: &FieldNames,
    fields: &[ArrayRef],
    len: usize,
    validity: &Validity,
) -> Result<(), ArrayError>
    ensures nulls { OnOk result (TellsNulls (valid_of validity.now)) }
    ensures fit { OnOk result (FitTogether names.now fields.now len (valid_of validity.now)) }
    ensures sound { OnOk result
        (IsSound (records (columns_of names.now fields.now) len (valid_of validity.now))) }
    ensures refused { IfErr result
        (λ e. IsRecordsFault e names.now fields.now len (valid_of validity.now)) }
    ensures memory { IfErr result (λ e. e ≢ Memory) }
{
    validity.check_len(len)?;
    if names.len() != fields.len() {
        return Err(ArrayError::LengthMismatch);
    }
    if !have_rows(fields, len) {
        return Err(ArrayError::LengthMismatch);
    }
    Ok(())
}

// Whether each of the fields has `len` rows.
fn have_rows(fields: &[ArrayRef], len: usize) -> bool
    ensures rows { IsTrue result ↔ All (λ a. len_of a ≡ len) fields.now }
    ensures sound { IsTrue result → All IsSound fields.now }
{
    for field in fields {
        if field.len() != len {
            return false;
        }
    }
    true
}
