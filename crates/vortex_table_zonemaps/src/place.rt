//! The columns of zone maps, and their positions in a row.
ghost use Rattle.std.specs.Prelude.{◌≡◌, ◌∷◌, [], IfOk};
ghost use Rattle.vortex_table_zonemaps.specs.Zone.{stat_of, positions_of};

use std::alloc::{AllocError, Global};

/// A column of zone maps.
#[derive(Clone, Copy, Drop)]
pub enum ZoneStat {
    /// The low of the leaf column at an index.
    Low(usize),
    High(usize),
    NullCount(usize),
    /// The number of rows.
    Rows,
}

fn leaf_stat(leaf: usize, part: usize) -> Option<ZoneStat>
    ensures { result ≡ stat_of (0 ∷ leaf ∷ part ∷ []) }
{
    match part {
        0 => Some(ZoneStat::Low(leaf)),
        1 => Some(ZoneStat::High(leaf)),
        2 => Some(ZoneStat::NullCount(leaf)),
        _ => None,
    }
}

/// The column at these positions of a row of zone maps. A row is a record of two: a record of the
/// leaf columns, each a record of its low, its high and its null count, and the number of rows.
pub(crate) fn stat_at(path: &[usize]) -> Option<ZoneStat>
    ensures { result ≡ stat_of path.now }
{
    if path.len() == 1 && path[0] == 1 {
        return Some(ZoneStat::Rows);
    }
    if path.len() == 3 && path[0] == 0 {
        return leaf_stat(path[1], path[2]);
    }
    None
}

/// The positions of the column in a row.
pub(crate) fn positions_of(alloc: Global, stat: ZoneStat) -> Result<Vec<usize>, AllocError>
    ensures { IfOk result (λ path. path.items ≡ positions_of stat) }
{
    match stat {
        ZoneStat::Low(leaf) => Ok(vec![in alloc; 0, leaf, 0]?),
        ZoneStat::High(leaf) => Ok(vec![in alloc; 0, leaf, 1]?),
        ZoneStat::NullCount(leaf) => Ok(vec![in alloc; 0, leaf, 2]?),
        ZoneStat::Rows => Ok(vec![in alloc; 1]?),
    }
}
