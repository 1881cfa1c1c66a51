//! Copies of bound expressions. Strings and bytes in them are shared and not copied.
ghost use Rattle.std.specs.Prelude.{◌≡◌, IfOk};
ghost use Rattle.vortex_stats_bind.specs.BoundTree.{bound_tree};

use crate::bound::{BoundExpression, BoundNode};
use std::alloc::AllocError;

impl Clone for BoundExpression {
    ghost is_clone = { λ old new. new ≡ old };

    fn clone(&self) -> Result<BoundExpression, AllocError> {
        let node = copy_of(&self.node)?;
        Ok(BoundExpression { node })
    }
}

impl Clone for BoundNode {
    ghost is_clone = { λ old new. bound_tree new ≡ bound_tree old };

    fn clone(&self) -> Result<BoundNode, AllocError> {
        copy_of(self)
    }
}

#[cycle(copy)]
fn copy_of(node: &BoundNode) -> Result<BoundNode, AllocError>
    ensures { IfOk result (λ copy. bound_tree copy ≡ bound_tree node.now) }
{
    match node {
        BoundNode::Literal(value) => {
            let value = value.clone()?;
            Ok(BoundNode::Literal(value))
        }
        BoundNode::Column(column) => {
            let column = column.clone()?;
            Ok(BoundNode::Column(column))
        }
        BoundNode::Compare(comparison, x, y) => {
            let (left, right) = copy_both(x, y)?;
            Ok(BoundNode::Compare(*comparison, left, right))
        }
        BoundNode::And(x, y) => {
            let (left, right) = copy_both(x, y)?;
            Ok(BoundNode::And(left, right))
        }
        BoundNode::Or(x, y) => {
            let (left, right) = copy_both(x, y)?;
            Ok(BoundNode::Or(left, right))
        }
        BoundNode::Not(x) => {
            let input = copy_boxed(x)?;
            Ok(BoundNode::Not(input))
        }
        BoundNode::IsNull(x) => {
            let input = copy_boxed(x)?;
            Ok(BoundNode::IsNull(input))
        }
        BoundNode::IsNotNull(x) => {
            let input = copy_boxed(x)?;
            Ok(BoundNode::IsNotNull(input))
        }
        BoundNode::IsNan(x) => {
            let input = copy_boxed(x)?;
            Ok(BoundNode::IsNan(input))
        }
        BoundNode::Between(x, lower, upper, options) => {
            let value = copy_boxed(x)?;
            let (lower, upper) = copy_both(lower, upper)?;
            Ok(BoundNode::Between(value, lower, upper, *options))
        }
        BoundNode::Like(x, pattern, options) => {
            let (value, pattern) = copy_both(x, pattern)?;
            Ok(BoundNode::Like(value, pattern, *options))
        }
        BoundNode::RowCount => Ok(BoundNode::RowCount),
        BoundNode::Stat(aggregate, x, dtype) => {
            let input = copy_boxed(x)?;
            let dtype = dtype.clone()?;
            Ok(BoundNode::Stat(*aggregate, input, dtype))
        }
    }
}

#[cycle(copy)]
fn copy_both(
    left: &Box<BoundExpression>,
    right: &Box<BoundExpression>,
) -> Result<(Box<BoundExpression>, Box<BoundExpression>), AllocError>
    ensures left { IfOk result (λ copies. copies.0.value ≡ left.now.value) }
    ensures right { IfOk result (λ copies. copies.1.value ≡ right.now.value) }
{
    let first = copy_boxed(left)?;
    let second = copy_boxed(right)?;
    Ok((first, second))
}

#[cycle(copy)]
fn copy_boxed(tree: &Box<BoundExpression>) -> Result<Box<BoundExpression>, AllocError>
    ensures { IfOk result (λ copy. copy.value ≡ tree.now.value) }
{
    let node = copy_of(&tree.node)?;
    Ok(Box::new(*Box::allocator(tree), BoundExpression { node })?)
}
