//! Tests of rows one by one, in runs of sixteen without a branch.
ghost use Rattle.std.specs.Prelude.{◌≡◌, ◌<◌, ◌≤◌, ◌+◌, ◌^◌, ℕ, Bool, false, length, slice_index_or, IfOk};
ghost use Rattle.vortex_stats_mask.specs.Runs.{Says};

use std::alloc::{AllocError, Global};

/// The answer of `f` for each of `len` rows.
#[tactic(auto, using(crate::proofs::RunLemmas::said))]
pub(crate) fn test_rows<F: Fn(usize) -> bool>(
    alloc: Global,
    len: usize,
    f: F,
) -> Result<Vec<bool>, AllocError>
    requires { (i : ℕ) → i < len → F.pre f i }
    ensures count { IfOk result (λ mask. length mask.items ≡ len) }
    ensures rows { IfOk result
        (λ mask. (i : ℕ) → i < len → F.post f i (slice_index_or mask.items i false)) }
{
    let mut mask = vec![in alloc; false; len]?;
    let runs = len / 16;
    for k in 0..runs {
        test_run(&mut mask, &f, 16 * k, 16);
    }
    test_run(&mut mask, &f, 16 * runs, len - 16 * runs);
    Ok(mask)
}

// Tests `n` rows from `first` on, where those before are tested.
#[tactic(auto, using(crate::proofs::RunLemmas::said))]
#[inline(always)]
fn test_run<F: Fn(usize) -> bool>(mask: &mut Vec<bool>, f: &F, first: usize, n: usize)
    requires room { first + n ≤ length mask.old.items }
    requires calls { (j : ℕ) → j < n → F.pre f.now (first + j) }
    requires before { Says (λ i b. F.post f.now i b) mask.old.items first (length mask.old.items) }
    ensures { Says (λ i b. F.post f.now i b) mask.new.items (first + n) (length mask.old.items) }
{
    for j in 0..n {
        mask[first + j] = f(first + j);
    }
}

/// Sets each row of a mask to the answer of `f` for it and for what the mask had.
#[tactic(auto, using(crate::proofs::RunLemmas::retold))]
#[inline(always)]
pub(crate) fn retell_rows<F: Fn(usize, bool) -> bool>(mask: &mut Vec<bool>, f: F)
    requires { (i : ℕ) (row : Bool) → i < length mask.old.items → F.pre f i row }
    ensures count { length mask.new.items ≡ length mask.old.items }
    ensures rows { (i : ℕ) → i < length mask.old.items → F.post f i
        (slice_index_or mask.old.items i false) (slice_index_or mask.new.items i false) }
{
    for i in 0..mask.len() {
        mask[i] = f(i, mask[i]);
    }
}
