//! Several predicates as one: a balanced tree, so that a walk of it goes no deeper than it has to.
ghost use Rattle.std.specs.Prelude.{◌≡◌, ◌∷◌, ◌++◌, map, option_map, IfOk, IfSome, OnOk};
ghost use Rattle.std.specs.List.{reduce};
ghost use Rattle.vortex_model_table.specs.Expression.{both, either};
ghost use Rattle.vortex_model_table.specs.Truth.{Given, evaluate, kleene_and, kleene_or};
ghost use Rattle.vortex_stats_expr.specs.Tree.{combined};
ghost use Rattle.vortex_stats_expr.specs.Collect.{paired, collected, as_list, IsShallow};

use crate::expression::{Expression, binary};
use crate::operator::Operator;
use std::alloc::{AllocError, Global};

/// The AND of predicates, as Vortex's `and_collect`, and `None` where there is none. Neighbours are
/// joined in rounds, and an odd last one passes to the next round.
pub fn and_collect(
    alloc: Global,
    predicates: Vec<Expression>,
) -> Result<Option<Expression>, AllocError>
    ensures tree { IfOk result (λ all. all ≡ collected both predicates.items) }
    ensures truth { IfOk result (λ all. (g : Given) →
        option_map (evaluate g) all ≡ reduce kleene_and (map (evaluate g) predicates.items)) }
    ensures depth { IfOk result (λ all. IfSome all (IsShallow predicates.items)) }
{
    let all = collect(alloc, Operator::And, predicates)?;
    Ok(all)
}

/// The OR of predicates, as Vortex's `or_collect`, and `None` where there is none. Neighbours are
/// joined in rounds, and an odd last one passes to the next round.
pub fn or_collect(
    alloc: Global,
    predicates: Vec<Expression>,
) -> Result<Option<Expression>, AllocError>
    ensures tree { IfOk result (λ all. all ≡ collected either predicates.items) }
    ensures truth { IfOk result (λ all. (g : Given) →
        option_map (evaluate g) all ≡ reduce kleene_or (map (evaluate g) predicates.items)) }
    ensures depth { IfOk result (λ all. IfSome all (IsShallow predicates.items)) }
{
    let all = collect(alloc, Operator::Or, predicates)?;
    Ok(all)
}

#[tactic(auto, using(crate::proofs::Collected::rounded))]
fn collect(
    alloc: Global,
    operator: Operator,
    predicates: Vec<Expression>,
) -> Result<Option<Expression>, AllocError>
    ensures { IfOk result (λ all. all ≡ collected (combined operator) predicates.items) }
{
    let mut left = predicates;
    while left.len() > 1 {
        left = pair_up(alloc, operator, left)?;
    }
    Ok(left.pop())
}

// One round.
fn pair_up(
    alloc: Global,
    operator: Operator,
    predicates: Vec<Expression>,
) -> Result<Vec<Expression>, AllocError>
    ensures { IfOk result (λ pairs. pairs.items ≡ paired (combined operator) predicates.items) }
{
    let mut pairs = Vec::with_capacity(alloc, predicates.len().div_ceil(2))?;
    let mut rest = predicates.into_iter();
    while let Some(first) = rest.next() {
        push_pair(alloc, operator, &mut pairs, first, rest.next())?;
    }
    Ok(pairs)
}

fn push_pair(
    alloc: Global,
    operator: Operator,
    pairs: &mut Vec<Expression>,
    first: Expression,
    second: Option<Expression>,
) -> Result<(), AllocError>
    ensures { OnOk result (pairs.new.items
        ≡ pairs.old.items ++ paired (combined operator) (first ∷ as_list second)) }
{
    let pair = match second {
        Some(second) => binary(alloc, operator, first, second)?,
        None => first,
    };
    pairs.push(pair)?;
    Ok(())
}
