//! Rows that one part of AND or OR leaves open, so that the other part decides.
ghost use Rattle.std.specs.Prelude.{◌≡◌, List, Bool, Some};
ghost use Rattle.vortex_stats_select.specs.Asked.{leaves_open, is_match, is_late, open_rows, seen};

use vortex_stats_bind::bound::{BoundExpression, BoundNode};

// The rows that a mask leaves open: where it has this truth.
#[derive(Clone, Copy)]
pub(crate) struct Asked<'a> {
    pub(crate) mask: &'a [bool],
    pub(crate) at: bool,
}

pub(crate) fn is_open(at: bool, row: bool) -> bool
    ensures { result ≡ leaves_open at row }
{
    if at { row } else { !row }
}

// The rows that the mask of one part leaves open.
pub(crate) fn open_behind(at: bool, mask: &[bool]) -> Asked<'_>
    ensures { (rows : List Bool) → seen (Some result) rows ≡ open_rows at mask.now rows }
{
    Asked { mask, at }
}

fn is_match(e: &BoundExpression) -> bool
    ensures { result ≡ is_match e.now }
{
    match &e.node {
        BoundNode::Like(_, _, _) => true,
        _ => false,
    }
}

// Whether the test of a row costs so much that the other part of AND or OR is better tested first.
pub(crate) fn is_late(e: &BoundExpression) -> bool
    ensures { result ≡ is_late e.now }
{
    match &e.node {
        BoundNode::Not(x) => is_match(x),
        _ => is_match(e),
    }
}
