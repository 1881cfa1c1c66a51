//! Sets of paths.
ghost use Rattle.std.specs.Prelude.{◌≡◌, ◌↔◌, ◌||◌, ◌++◌, ◌∷◌, [], List, map, not, false, length, None, IsTrue, IfOk, OnOk, OnErr};
ghost use Rattle.std.specs.Iterator.{IsFinite, Drains, Yields, YieldsThen, YieldsFirstRef, item_count};
ghost use Rattle.std.specs.Vec.Iter.{into_iter_items};
ghost use Rattle.std.proofs.Props.{props};
ghost use Rattle.vortex_model.specs.Path.{Step};
ghost use Rattle.vortex_dtype_path.specs.Steps.{eq_steps, is_among, AreDistinct};
ghost use Rattle.vortex_dtype_path.specs.Coverage.{IsOutermost};
ghost use Rattle.vortex_dtype_path.specs.View.{steps_of, paths_of};
ghost use Rattle.vortex_dtype_path.specs.Tree.{IsTree, nodes_of, kept_paths};
ghost use Rattle.vortex_dtype_path.specs.declared.path.FieldPath.{FieldPath};

use crate::path::FieldPath;
use crate::path_tree::{PathNode, copy_nodes, insert_in, is_kept, outermost_of};
use std::alloc::{AllocError, Global};
use std::vec::IntoIter;

/// A set of paths, as Vortex's `FieldPathSet`: a tree of steps with a node for each prefix of a
/// path.
#[derive(Drop)]
pub struct FieldPathSet {
    nodes: Vec<PathNode>,
    count: usize,
    pub ghost tree: { IsTree (nodes_of nodes.items) } by { Prim.hlevel props },
    pub ghost counted: { count ≡ length (kept_paths (nodes_of nodes.items)) },
}

impl FieldPathSet {
    ghost use Rattle.vortex_dtype_path.specs.Sets.{is_inserted, paths_left, Counts};

    pub fn new(alloc: Global) -> FieldPathSet
        ensures { (q : List Step) → is_inserted result q ≡ false }
    {
        FieldPathSet {
            nodes: Vec::new(alloc),
            count: 0,
        }
    }

    /// The number of paths.
    pub fn len(&self) -> usize
        ensures { Counts self.now result }
    {
        self.count
    }

    pub fn is_empty(&self) -> bool
        ensures { IsTrue result ↔ ((q : List Step) → is_inserted self.now q ≡ false) }
    {
        self.count == 0
    }

    /// Whether the path is in the set. Allocates nothing.
    pub fn contains(&self, path: &FieldPath) -> bool
        ensures { result ≡ is_inserted self.now (steps_of path.now) }
    {
        is_kept(self.nodes.as_slice(), path.parts())
    }

    /// Adds the path, and reports whether it is new. Where memory runs out the set stays as it was.
    pub fn insert(&mut self, path: FieldPath) -> Result<bool, AllocError>
        ensures fresh { IfOk result (λ fresh. fresh ≡ not (is_inserted self.old (steps_of path))) }
        ensures ok { OnOk result ((q : List Step) → is_inserted self.new q
            ≡ (eq_steps q (steps_of path) || is_inserted self.old q)) }
        ensures err { OnErr result ((q : List Step) → is_inserted self.new q
            ≡ is_inserted self.old q) }
    {
        self.insert_path(path)
    }

    /// Adds the paths one after another. Where memory runs out, the paths before the one that it
    /// ran out for stay added, and the iterator isn't called again.
    pub fn extend<I: Iterator<Item = FieldPath> + Drop>(
        &mut self,
        paths: I,
    ) -> Result<(), AllocError>
        requires can { I.can_next paths }
        requires ends { IsFinite (I.remaining paths) }
        ensures ok { OnOk result ((xs : List FieldPath) × Drains I.next_gives paths xs
            × ((q : List Step) → is_inserted self.new q
            ≡ (is_among (paths_of xs) q || is_inserted self.old q))) }
        ensures err { OnErr result ((xs : List FieldPath) × (refused : FieldPath) × (t : I)
            × Yields I.next_gives paths (xs ++ refused ∷ []) t
            × ((q : List Step) → is_inserted self.new q
            ≡ (is_among (paths_of xs) q || is_inserted self.old q))
            × (is_inserted self.new (steps_of refused) ≡ false)) }
    {
        let mut paths = paths;
        self.insert_each(&mut paths)?;
        Ok(())
    }

    // Adds the paths one after another, up to one that memory runs out for, which is the last one
    // taken from the iterator.
    fn insert_each<I: Iterator<Item = FieldPath> + Drop>(
        &mut self,
        paths: &mut I,
    ) -> Result<(), AllocError>
        requires can { I.can_next paths.old }
        requires ends { IsFinite (I.remaining paths.old) }
        ensures ok { OnOk result ((xs : List FieldPath)
            × YieldsThen I.next_gives paths.old xs None paths.new
            × ((q : List Step) → is_inserted self.new q
            ≡ (is_among (paths_of xs) q || is_inserted self.old q))) }
        ensures err { OnErr result ((xs : List FieldPath) × (refused : FieldPath)
            × Yields I.next_gives paths.old (xs ++ refused ∷ []) paths.new
            × ((q : List Step) → is_inserted self.new q
            ≡ (is_among (paths_of xs) q || is_inserted self.old q))
            × (is_inserted self.new (steps_of refused) ≡ false)) }
    {
        while let Some(path) = paths.next() {
            self.insert_path(path)?;
        }
        Ok(())
    }

    // Adds the path, and reports whether it is new. Memory can only run out for a new path.
    fn insert_path(&mut self, path: FieldPath) -> Result<bool, AllocError>
        ensures fresh { IfOk result (λ fresh. fresh ≡ not (is_inserted self.old (steps_of path))) }
        ensures ok { OnOk result ((q : List Step) → is_inserted self.new q
            ≡ (eq_steps q (steps_of path) || is_inserted self.old q)) }
        ensures err { OnErr result ((q : List Step) → is_inserted self.new q
            ≡ is_inserted self.old q) }
        ensures refused { OnErr result (is_inserted self.old (steps_of path) ≡ false) }
    {
        let is_new = insert_in(&mut self.nodes, path)?;
        if is_new {
            self.count += 1;
        }
        Ok(is_new)
    }

    /// The paths, each once, in an order that isn't defined.
    pub fn iter(&self) -> FieldPathSetIter<'_>
        ensures listed { (q : List Step) → is_among (paths_of (paths_left result)) q
            ≡ is_inserted self.now q }
        ensures once { AreDistinct (paths_of (paths_left result)) }
    {
        FieldPathSetIter {
            rest: self.nodes.as_slice(),
        }
    }

    /// The outermost paths, of which no other path of the set is a prefix: each once, in an order
    /// that isn't defined.
    pub fn into_iter(self) -> Result<IntoIter<FieldPath>, AllocError>
        ensures listed { IfOk result
            (λ it. (q : List Step) → IsTrue (is_among (paths_of (into_iter_items it)) q)
            ↔ IsOutermost (is_inserted self) q) }
        ensures once { IfOk result (λ it. AreDistinct (paths_of (into_iter_items it))) }
    {
        let outermost = outermost_of(*self.nodes.allocator(), self.nodes.as_slice())?;
        Ok(outermost.into_iter())
    }
}

/// A set with the same paths. Allocates for each node of the tree.
impl Clone for FieldPathSet {
    ghost use Rattle.vortex_dtype_path.specs.Sets.{is_inserted};

    ghost is_clone = { λ old new. (q : List Step) → is_inserted new q ≡ is_inserted old q };

    fn clone(&self) -> Result<FieldPathSet, AllocError> {
        let nodes = copy_nodes(&self.nodes)?;
        Ok(FieldPathSet {
            nodes,
            count: self.count,
        })
    }
}

/// Yields the paths of a set by reference.
#[derive(Drop)]
pub struct FieldPathSetIter<'a> {
    rest: &'a [PathNode],
}

impl<'a> Iterator for FieldPathSetIter<'a> {
    ghost use Rattle.vortex_dtype_path.specs.Sets.{paths_left};

    type Item = &'a FieldPath;

    ghost next_gives = { YieldsFirstRef paths_left };

    ghost remaining = { item_count paths_left };

    fn next(&mut self) -> Option<&'a FieldPath> {
        let nodes = self.rest;
        for i in 0..nodes.len() {
            if let Some(path) = &nodes[i].path {
                self.rest = &nodes[i + 1..];
                return Some(path);
            }
        }
        self.rest = &nodes[nodes.len()..];
        None
    }
}
