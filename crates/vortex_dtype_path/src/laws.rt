//! Laws over the definitions, and of calls. Each function's clause is a law.
ghost use Rattle.std.specs.Prelude.{◌≡◌, ◌↔◌, ◌∷◌, [], List, codes, IfOk, IsTrue};
ghost use Rattle.std.specs.Vec.Iter.{into_iter_items};
ghost use Rattle.vortex_model.specs.Path.{Step, name};
ghost use Rattle.vortex_dtype_path.specs.Steps.{is_among};
ghost use Rattle.vortex_dtype_path.specs.Coverage.{Covers, IsOutermost};
ghost use Rattle.vortex_dtype_path.specs.View.{steps_of, paths_of};
ghost use Rattle.vortex_dtype_path.specs.Sets.{is_inserted};
ghost use Rattle.vortex_dtype_path.specs.Laws.{
  EqualStepsPass,
  EqualPathsPass,
  OverlapsAreShared,
  CoverageTellsOutermost,
  OutermostCoverAll,
  OutermostAreNeeded,
  ResolvingGoesOn,
  BeginningsExist,
};

use crate::field_path;
use crate::path::FieldPath;
use crate::path_set::FieldPathSet;
use std::alloc::{AllocError, Global};
use std::vec::IntoIter;

/// `field_path!` makes the path of its names in order.
pub fn field_path_is_of_its_names(alloc: Global) -> Result<FieldPath, AllocError>
    ensures { IfOk result
        (λ path. steps_of path ≡ name (codes "outer") ∷ name (codes "inner") ∷ []) }
{
    let path = field_path!(in alloc; outer.inner)?;
    Ok(path)
}

/// Two sets give equal outermost paths exactly where they cover the same paths. Only the two calls
/// allocate.
pub fn coverage_tells_iteration(
    left: FieldPathSet,
    right: FieldPathSet,
) -> Result<(IntoIter<FieldPath>, IntoIter<FieldPath>), AllocError>
    ensures left { IfOk result
        (λ both. (q : List Step) → IsTrue (is_among (paths_of (into_iter_items both.0)) q)
        ↔ IsOutermost (is_inserted left) q) }
    ensures right { IfOk result
        (λ both. (q : List Step) → IsTrue (is_among (paths_of (into_iter_items both.1)) q)
        ↔ IsOutermost (is_inserted right) q) }
    ensures tells { IfOk result
        (λ both. ((q : List Step) → IsTrue (is_among (paths_of (into_iter_items both.0)) q)
        ↔ IsTrue (is_among (paths_of (into_iter_items both.1)) q))
        ↔ ((q : List Step) → Covers (is_inserted left) q ↔ Covers (is_inserted right) q)) }
{
    let lefts = left.into_iter()?;
    let rights = right.into_iter()?;
    Ok((lefts, rights))
}

/// Steps are equal exactly where the test for it passes.
pub fn equal_steps_pass()
    ensures { EqualStepsPass }
{}

/// Paths are equal exactly where the test for it passes.
pub fn equal_paths_pass()
    ensures { EqualPathsPass }
{}

/// Two paths overlap exactly where some path has both as prefixes.
pub fn overlaps_are_shared()
    ensures { OverlapsAreShared }
{}

/// Two sets have equal outermost paths exactly where they cover the same paths.
pub fn coverage_tells_outermost()
    ensures { CoverageTellsOutermost }
{}

/// The outermost paths of a set cover what the set covers.
pub fn outermost_cover_all()
    ensures { OutermostCoverAll }
{}

/// The outermost paths of a set are in each set that covers the same paths.
pub fn outermost_are_needed()
    ensures { OutermostAreNeeded }
{}

/// The type at one path and then another is the type at both as one path.
pub fn resolving_goes_on()
    ensures { ResolvingGoesOn }
{}

/// Each prefix of a path that exists in a type exists in it.
pub fn beginnings_exist()
    ensures { BeginningsExist }
{}
