//! What comes before and after the rows in the answer of a scan.
ghost use Rattle.std.specs.Prelude.{◌≡◌, ◌++◌, OnOk};
ghost use Rattle.vortex_dtype_core.specs.View.{type_of};
ghost use Rattle.vortex_table_response.specs.Text.{scan_front_text, scan_end_text};

use crate::type_texts::{push_dtype, push_number};
use crate::values::push_numbers;
use std::alloc::AllocError;
use vortex_dtype_core::dtype::DType;

/// Writes what comes before the rows.
pub fn push_scan_front(out: &mut Vec<u8>, dtype: &DType, proofs: u64) -> Result<(), AllocError>
    ensures { OnOk result (out.new.items ≡ out.old.items
        ++ scan_front_text (type_of dtype.now) proofs) }
{
    out.extend_from_slice(b"{\"dtype\":")?;
    push_dtype(out, dtype)?;
    out.extend_from_slice(b",\"ok\":true,\"proofs\":")?;
    push_number(out, proofs)?;
    out.extend_from_slice(b",\"rows\":[")?;
    Ok(())
}

/// Writes what comes after the rows.
pub fn push_scan_end(
    out: &mut Vec<u8>,
    rows_tested: u64,
    skipped: &[usize],
    whole: &[usize],
) -> Result<(), AllocError>
    ensures { OnOk result (out.new.items ≡ out.old.items
        ++ scan_end_text rows_tested skipped.now whole.now) }
{
    out.extend_from_slice(b"],\"rows_tested\":")?;
    push_number(out, rows_tested)?;
    out.extend_from_slice(b",\"skipped\":[")?;
    push_numbers(out, skipped)?;
    out.extend_from_slice(b"],\"whole\":[")?;
    push_numbers(out, whole)?;
    out.extend_from_slice(b"]}")?;
    Ok(())
}
