//! The answer of a scan: the selected rows, and counts of the work that found them.

use std::alloc::AllocError;
use vortex_dtype_core::dtype::DType;
use vortex_scalar_core::scalar::Scalar;

/// The rows that a scan selected, and which chunks it had to test for them.
#[derive(Drop)]
pub struct ScanAnswer {
    /// The selected rows in the order of the table, each with the asked columns alone.
    pub rows: Vec<Scalar>,
    /// The type of the rows.
    pub dtype: DType,
    /// The indices of the chunks that were skipped, since no row could pass, ascending.
    pub skipped: Vec<usize>,
    /// The indices of the chunks that were taken whole, since every row passes, ascending.
    pub whole: Vec<usize>,
    /// The number of rows that the predicate was evaluated at, or `u64::MAX` where it was more.
    pub rows_tested: u64,
    /// The number of proofs that were evaluated, or `u64::MAX` where it was more.
    pub proofs: u64,
}

impl ScanAnswer {
    ghost use Rattle.std.specs.Prelude.{IfOk};
    ghost use Rattle.vortex_table_schema.specs.Answer.{IsSameAnswer};

    /// The answer once more.
    pub fn clone(&self) -> Result<ScanAnswer, AllocError>
        ensures { IfOk result (λ new. IsSameAnswer self.now new) }
    {
        let rows = self.rows.clone()?;
        let dtype = self.dtype.clone()?;
        let skipped = self.skipped.clone()?;
        let whole = self.whole.clone()?;
        Ok(ScanAnswer {
            rows,
            dtype,
            skipped,
            whole,
            rows_tested: self.rows_tested,
            proofs: self.proofs,
        })
    }
}
