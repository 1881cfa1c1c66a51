//! Several proofs in one.
ghost use Rattle.std.specs.Prelude.{◌≡◌, [], ◌∷◌, ◌++◌, IfOk, OnOk};
ghost use Rattle.vortex_stats_rules.specs.Table.{unboxed, all_unboxed, as_list, paired, joined_proofs, either_there, both_there};

use crate::stats::Proof;
use std::alloc::{AllocError, Global};
use vortex_stats_bind::bound::{bound_and, bound_or};

/// The proof by one of the two, as far as they are there.
pub(crate) fn either_proof(
    alloc: Global,
    left: Option<Proof>,
    right: Option<Proof>,
) -> Result<Option<Proof>, AllocError>
    ensures { IfOk result
        (λ proof. unboxed proof ≡ either_there (unboxed left) (unboxed right)) }
{
    match (left, right) {
        (Some(x), Some(y)) => {
            let proof = bound_or(alloc, x, y)?;
            Ok(Some(proof))
        }
        (Some(x), None) => Ok(Some(x)),
        (None, y) => Ok(y),
    }
}

/// The proof by both. There is none unless both are there.
pub(crate) fn both_proofs(
    alloc: Global,
    left: Option<Proof>,
    right: Option<Proof>,
) -> Result<Option<Proof>, AllocError>
    ensures { IfOk result (λ proof. unboxed proof ≡ both_there (unboxed left) (unboxed right)) }
{
    match left.zip(right) {
        Some((x, y)) => {
            let proof = bound_and(alloc, x, y)?;
            Ok(Some(proof))
        }
        None => Ok(None),
    }
}

/// The proof by one of them: neighbours are joined by OR in rounds, and an odd last one passes to
/// the next round, as Vortex's `try_reduce_balanced`. `None` where there is none.
#[tactic(auto, using(crate::proofs::Rounds::joined))]
pub(crate) fn join_proofs(alloc: Global, proofs: Vec<Proof>) -> Result<Option<Proof>, AllocError>
    ensures { IfOk result (λ proof. unboxed proof ≡ joined_proofs (all_unboxed proofs.items)) }
{
    let mut left = proofs;
    while left.len() > 1 {
        left = pair_up(alloc, left)?;
    }
    Ok(left.pop())
}

// One round.
fn pair_up(alloc: Global, proofs: Vec<Proof>) -> Result<Vec<Proof>, AllocError>
    ensures { IfOk result
        (λ joined. all_unboxed joined.items ≡ paired (all_unboxed proofs.items)) }
{
    let mut joined = Vec::with_capacity(alloc, proofs.len().div_ceil(2))?;
    let mut rest = proofs.into_iter();
    while let Some(first) = rest.next() {
        push_pair(alloc, &mut joined, first, rest.next())?;
    }
    Ok(joined)
}

fn push_pair(
    alloc: Global,
    joined: &mut Vec<Proof>,
    first: Proof,
    second: Option<Proof>,
) -> Result<(), AllocError>
    ensures { OnOk result (all_unboxed joined.new.items
        ≡ all_unboxed joined.old.items ++ paired (first.value ∷ as_list (unboxed second))) }
{
    let proof = match second {
        Some(second) => bound_or(alloc, first, second)?,
        None => first,
    };
    joined.push(proof)?;
    Ok(())
}

pub(crate) fn one(alloc: Global, proof: Proof) -> Result<Vec<Proof>, AllocError>
    ensures { IfOk result (λ proofs. all_unboxed proofs.items ≡ proof.value ∷ []) }
{
    let mut proofs = Vec::with_capacity(alloc, 1)?;
    proofs.push(proof)?;
    Ok(proofs)
}

pub(crate) fn two(alloc: Global, first: Proof, second: Proof) -> Result<Vec<Proof>, AllocError>
    ensures { IfOk result
        (λ proofs. all_unboxed proofs.items ≡ first.value ∷ second.value ∷ []) }
{
    let mut proofs = Vec::with_capacity(alloc, 2)?;
    proofs.push(first)?;
    proofs.push(second)?;
    Ok(proofs)
}

/// The proof, where there is one, as a list.
pub(crate) fn as_list(alloc: Global, proof: Option<Proof>) -> Result<Vec<Proof>, AllocError>
    ensures { IfOk result (λ proofs. all_unboxed proofs.items ≡ as_list (unboxed proof)) }
{
    match proof {
        Some(proof) => one(alloc, proof),
        None => Ok(Vec::new(alloc)),
    }
}
