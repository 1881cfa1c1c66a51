//! The tree of steps that holds the paths of a set. Its nodes are in one list, the root first, and
//! edges lead to nodes by index, so that iterating over the paths allocates nothing.
ghost use Rattle.std.specs.Prelude.{◌≡◌, ◌≤◌, ◌<◌, ◌+◌, ◌↔◌, ◌++◌, ◌∷◌, ◌^◌, ◌-◌, [], List, map, take, drop, length, not, true, false, Some, Ok, None, IfOk, OnOk, OnErr, IsTrue, slice_get, is_some, vec_len};
ghost use Rattle.std.specs.Bool.{OnTrue};
ghost use Rattle.std.specs.List.{filter};
ghost use Rattle.std.specs.Vec.{vec_capacity};
ghost use Rattle.vortex_model.specs.Path.{Step};
ghost use Rattle.vortex_dtype_path.specs.Steps.{is_among, lies_inside, outermost_among};
ghost use Rattle.vortex_dtype_path.specs.View.{step_of, steps_of, paths_of};
ghost use Rattle.vortex_dtype_path.specs.Tree.{nodes_of, node_of, edge_of, edge_to, child_of, walk, reached, path_at, kept_paths, IsTree, AddsPath, branch, link};

use crate::field::Field;
use crate::path::FieldPath;
use std::alloc::{AllocError, Global};

/// A node: the path that ends here, where the set has it, and the edges to longer paths.
#[derive(Drop)]
pub struct PathNode {
    pub(crate) path: Option<FieldPath>,
    pub(crate) edges: Vec<StepEdge>,
}

/// An edge: a step, and the index of the node that it leads to.
#[derive(Drop)]
pub struct StepEdge {
    pub(crate) step: Field,
    pub(crate) node: usize,
}

// The node that a step leads to by these edges.
fn edge_to(edges: &[StepEdge], step: &Field) -> Option<usize>
    ensures { result ≡ edge_to (map edge_of edges.now) (step_of step.now) }
{
    for edge in edges {
        if edge.step == *step {
            return Some(edge.node);
        }
    }
    None
}

// The node that a step leads to from node `at`.
fn child_of(nodes: &[PathNode], at: usize, step: &Field) -> Option<usize>
    ensures { result ≡ child_of (nodes_of nodes.now) at (step_of step.now) }
{
    match nodes.get(at) {
        Some(node) => edge_to(node.edges.as_slice(), step),
        None => None,
    }
}

// Whether a path of the set ends at node `at`.
fn keeps(nodes: &[PathNode], at: usize) -> bool
    ensures { result ≡ is_some (path_at (nodes_of nodes.now) at) }
{
    match nodes.get(at) {
        Some(node) => node.path.is_some(),
        None => false,
    }
}

// Whether a path of the set ends at the node that the steps lead to.
pub(crate) fn is_kept(nodes: &[PathNode], steps: &[Field]) -> bool
    requires { IsTree (nodes_of nodes.now) }
    ensures { result ≡ is_among (kept_paths (nodes_of nodes.now)) (map step_of steps.now) }
{
    let (at, taken) = walk_down(nodes, steps);
    if taken < steps.len() {
        return false;
    }
    keeps(nodes, at)
}

// The last node on the way along the steps, and the number of steps that lead to it.
pub(crate) fn walk_down(nodes: &[PathNode], steps: &[Field]) -> (usize, usize)
    ensures part { result.1 ≤ length steps.now }
    ensures led { reached (nodes_of nodes.now) (take result.1 (map step_of steps.now))
        ≡ Some result.0 }
    ensures ends { (s : Step) → slice_get (map step_of steps.now) result.1 ≡ Some s
        → child_of (nodes_of nodes.now) result.0 s ≡ None }
{
    let mut at = 0;
    for taken in 0..steps.len() {
        match child_of(nodes, at, &steps[taken]) {
            Some(next) => at = next,
            None => return (at, taken),
        }
    }
    (at, steps.len())
}

// Whether a path of the set is a proper prefix of the steps.
fn is_inside(nodes: &[PathNode], steps: &[Field]) -> bool
    requires { IsTree (nodes_of nodes.now) }
    ensures { result ≡ lies_inside (kept_paths (nodes_of nodes.now)) (map step_of steps.now) }
{
    let mut at = 0;
    for step in steps {
        if keeps(nodes, at) {
            return true;
        }
        match child_of(nodes, at, step) {
            Some(next) => at = next,
            None => return false,
        }
    }
    false
}

// Adds the node's path to the list, if it has one and no other path is a prefix of it.
fn add_outermost(
    outermost: &mut Vec<FieldPath>,
    nodes: &[PathNode],
    node: &PathNode,
) -> Result<(), AllocError>
    requires { IsTree (nodes_of nodes.now) }
    ensures { OnOk result (paths_of outermost.new.items ≡ paths_of outermost.old.items
        ++ filter (λ p. not (lies_inside (kept_paths (nodes_of nodes.now)) p))
        (kept_paths (nodes_of (node.now ∷ [])))) }
{
    let Some(path) = &node.path else {
        return Ok(());
    };
    if is_inside(nodes, path.parts()) {
        return Ok(());
    }
    outermost.push(path.clone()?)?;
    Ok(())
}

// The outermost paths, in the order of their nodes.
pub(crate) fn outermost_of(alloc: Global, nodes: &[PathNode]) -> Result<Vec<FieldPath>, AllocError>
    requires { IsTree (nodes_of nodes.now) }
    ensures { IfOk result (λ kept. paths_of kept.items
        ≡ outermost_among (kept_paths (nodes_of nodes.now))) }
{
    let mut outermost = Vec::new(alloc);
    for node in nodes {
        add_outermost(&mut outermost, nodes, node)?;
    }
    Ok(outermost)
}

fn one_edge(alloc: Global, step: &Field, node: usize) -> Result<Vec<StepEdge>, AllocError>
    ensures { IfOk result (λ edges. map edge_of edges.items ≡ (step_of step.now, node) ∷ []) }
{
    let mut edges = Vec::with_capacity(alloc, 1)?;
    let step = step.clone()?;
    edges.push(StepEdge { step, node })?;
    Ok(edges)
}

// Nodes from index `first` on, each with an edge to the next by one of the path's steps from `from`
// on. The path ends at the last of them.
fn branch_of(
    alloc: Global,
    first: usize,
    path: FieldPath,
    from: usize,
) -> Result<Vec<PathNode>, AllocError>
    requires part { from ≤ length (steps_of path) }
    requires room { first + (length (steps_of path) - from) < 2 ^ 64 }
    ensures branch { IfOk result (λ nodes. nodes_of nodes.items
        ≡ branch first (steps_of path) (drop from (steps_of path))) }
    ensures len { IfOk result (λ nodes. vec_len nodes + from ≡ length (steps_of path) + 1) }
{
    let mut nodes = Vec::new(alloc);
    let steps = path.parts();
    for i in from..steps.len() {
        let edges = one_edge(alloc, &steps[i], first + (i - from) + 1)?;
        nodes.push(PathNode { path: None, edges })?;
    }
    let edges = Vec::new(alloc);
    nodes.push(PathNode {
        path: Some(path),
        edges,
    })?;
    Ok(nodes)
}

// Adds an edge to node `at`.
fn link(nodes: &mut Vec<PathNode>, at: usize, edge: StepEdge) -> Result<(), AllocError>
    requires { at < vec_len nodes.old }
    ensures ok { OnOk result (nodes_of nodes.new.items
        ≡ link (nodes_of nodes.old.items) at (step_of edge.step) edge.node) }
    ensures err { OnErr result (nodes_of nodes.new.items ≡ nodes_of nodes.old.items) }
    ensures len { vec_len nodes.new ≡ vec_len nodes.old }
    ensures room { vec_capacity nodes.new ≡ vec_capacity nodes.old }
{
    nodes[at].edges.push(edge)?;
    Ok(())
}

// Ends the path at the node that its steps lead to.
pub(crate) fn keep(nodes: &mut Vec<PathNode>, at: usize, path: FieldPath)
    requires tree { IsTree (nodes_of nodes.old.items) }
    requires there { at < vec_len nodes.old }
    requires ends { reached (nodes_of nodes.old.items) (steps_of path) ≡ Some at }
    requires free { path_at (nodes_of nodes.old.items) at ≡ None }
    ensures { AddsPath (nodes_of nodes.old.items) (nodes_of nodes.new.items) (steps_of path) }
{
    nodes[at].path = Some(path);
}

// Adds a branch for the rest of the path's steps to the last node on the way along them. All that
// allocates comes before the edge to the branch.
pub(crate) fn hang(
    nodes: &mut Vec<PathNode>,
    at: usize,
    taken: usize,
    path: FieldPath,
) -> Result<(), AllocError>
    requires tree { IsTree (nodes_of nodes.old.items) }
    requires there { at < vec_len nodes.old }
    requires part { taken < length (steps_of path) }
    requires led { reached (nodes_of nodes.old.items) (take taken (steps_of path)) ≡ Some at }
    requires ends { (s : Step) → slice_get (steps_of path) taken ≡ Some s
        → child_of (nodes_of nodes.old.items) at s ≡ None }
    ensures ok { OnOk result
        (AddsPath (nodes_of nodes.old.items) (nodes_of nodes.new.items) (steps_of path)) }
    ensures err { OnErr result (nodes_of nodes.new.items ≡ nodes_of nodes.old.items) }
{
    let alloc = *nodes.allocator();
    let first = nodes.len();
    let step = path.parts()[taken].clone()?;
    nodes.reserve(path.parts().len() - taken)?;
    let mut branch = branch_of(alloc, first, path, taken + 1)?;
    let edge = StepEdge { step, node: first };
    link(nodes, at, edge)?;
    if nodes.append(&mut branch).is_err() {
        unreachable!();
    }
    Ok(())
}

// Adds the root to a tree without nodes.
pub(crate) fn plant(nodes: &mut Vec<PathNode>) -> Result<(), AllocError>
    requires { IsTree (nodes_of nodes.old.items) }
    ensures tree { IsTree (nodes_of nodes.new.items) }
    ensures same { kept_paths (nodes_of nodes.new.items) ≡ kept_paths (nodes_of nodes.old.items) }
    ensures root { OnOk result (0 < vec_len nodes.new) }
    ensures none { OnErr result (kept_paths (nodes_of nodes.old.items) ≡ []) }
{
    if nodes.is_empty() {
        let edges = Vec::new(*nodes.allocator());
        nodes.push(PathNode { path: None, edges })?;
    }
    Ok(())
}

// Adds the path, and reports whether it is new. All new nodes are built before the tree changes.
pub(crate) fn insert_in(nodes: &mut Vec<PathNode>, path: FieldPath) -> Result<bool, AllocError>
    requires { IsTree (nodes_of nodes.old.items) }
    ensures fresh { IfOk result (λ fresh. fresh
        ≡ not (is_among (kept_paths (nodes_of nodes.old.items)) (steps_of path))) }
    ensures ok { IfOk result (λ fresh. OnTrue fresh
        (AddsPath (nodes_of nodes.old.items) (nodes_of nodes.new.items) (steps_of path))) }
    ensures tree { IsTree (nodes_of nodes.new.items) }
    ensures same { ¬ (result ≡ Ok true) → kept_paths (nodes_of nodes.new.items)
        ≡ kept_paths (nodes_of nodes.old.items) }
    ensures refused { OnErr result
        (is_among (kept_paths (nodes_of nodes.old.items)) (steps_of path) ≡ false) }
{
    plant(nodes)?;
    let (at, taken) = walk_down(nodes.as_slice(), path.parts());
    if taken < path.parts().len() {
        hang(nodes, at, taken, path)?;
        return Ok(true);
    }
    if keeps(nodes.as_slice(), at) {
        return Ok(false);
    }
    keep(nodes, at, path);
    Ok(true)
}

impl Clone for StepEdge {
    ghost is_clone = { λ old new. edge_of new ≡ edge_of old };

    fn clone(&self) -> Result<StepEdge, AllocError> {
        let step = self.step.clone()?;
        Ok(StepEdge {
            step,
            node: self.node,
        })
    }
}

fn copy_edges(edges: &Vec<StepEdge>) -> Result<Vec<StepEdge>, AllocError>
    ensures { IfOk result (λ copy. map edge_of copy.items ≡ map edge_of edges.now.items) }
{
    let mut copy = Vec::with_capacity(*edges.allocator(), edges.len())?;
    for edge in edges {
        copy.push(edge.clone()?)?;
    }
    Ok(copy)
}

impl Clone for PathNode {
    ghost is_clone = { λ old new. node_of new ≡ node_of old };

    fn clone(&self) -> Result<PathNode, AllocError> {
        let edges = copy_edges(&self.edges)?;
        let path = match &self.path {
            Some(path) => Some(path.clone()?),
            None => None,
        };
        Ok(PathNode { path, edges })
    }
}

// A copy of the nodes.
pub(crate) fn copy_nodes(nodes: &Vec<PathNode>) -> Result<Vec<PathNode>, AllocError>
    ensures { IfOk result (λ copy. nodes_of copy.items ≡ nodes_of nodes.now.items) }
{
    let mut copy = Vec::with_capacity(*nodes.allocator(), nodes.len())?;
    for node in nodes {
        copy.push(node.clone()?)?;
    }
    Ok(copy)
}
