//! Bound lengths: the greatest number of bytes that a bound of a leaf column has where it is a
//! string or bytes, by the position of the column.
ghost use Rattle.std.specs.Prelude.{◌≡◌, ◌++◌, ◌∷◌, [], None, map, IfOk, OnOk, IfErr};
ghost use Rattle.std.specs.List.{list_any};
ghost use Rattle.vortex_model.specs.Path.{eq_positions};
ghost use Rattle.vortex_model_table.specs.Command.{positions_of, entry_fault, entries_fault};
ghost use Rattle.vortex_dtype_core.specs.View.{type_of};
ghost use Rattle.vortex_dtype_path.specs.View.{steps_of};
ghost use Rattle.vortex_table_schema.specs.Error.{Explains};
ghost use Rattle.vortex_table_schema.specs.Lengths.{entries_in};

use crate::error::TableError;
use crate::leaf::leaf_at;
use crate::leaves::LeafPath;
use std::alloc::{AllocError, Global};
use std::marker::Model;
use std::rc::Rc;
use vortex_dtype_core::dtype::DType;
use vortex_dtype_path::path::FieldPath;

/// The positions of a leaf column and its bound length.
#[derive(Clone, Drop)]
pub struct LeafLength {
    positions: Vec<usize>,
    length: usize,
}

impl Model for LeafLength {
    ghost use Rattle.std.specs.Prelude.{ℕ, List};

    ghost Value = { List ℕ × ℕ };

    ghost view = { λ e. (e.positions.items, e.length) };
}

impl LeafLength {
    fn is_at(&self, positions: &[usize]) -> bool
        ensures { result ≡ eq_positions self.now.0 positions.now }
    {
        self.positions.as_slice() == positions
    }

    fn length(&self) -> usize
        ensures { result ≡ self.now.1 }
    {
        self.length
    }
}

/// The bound lengths of a table: those of single positions, whether or not a leaf is there now, and
/// a default for all others.
#[derive(Clone, Drop)]
pub struct BoundLengths {
    pub default: usize,
    pub entries: Vec<LeafLength>,
}

impl BoundLengths {
    ghost use Rattle.std.specs.Prelude.{◌≡◌, map, IfOk};
    ghost use Rattle.vortex_table_schema.specs.Lengths.{length_in};

    // The length of the leaf at these positions.
    fn at(&self, positions: &[usize]) -> usize
        ensures { result ≡ length_in self.now positions.now }
    {
        for entry in &self.entries {
            if entry.is_at(positions) {
                return entry.length();
            }
        }
        self.default
    }

    /// The length of each of the leaves, in the same order.
    pub fn of_leaves(
        &self,
        alloc: Global,
        leaves: &[LeafPath],
    ) -> Result<Rc<Vec<usize>>, AllocError>
        ensures { IfOk result
            (λ lengths. lengths.value.items ≡ map (length_in self.now) leaves.now) }
    {
        let mut lengths = Vec::with_capacity(alloc, leaves.len())?;
        for leaf in leaves {
            let length = self.at(leaf.as_slice());
            lengths.push(length)?;
        }
        let lengths = Rc::new(alloc, lengths)?;
        Ok(lengths)
    }
}

fn is_among(positions: &[usize], entries: &[LeafLength]) -> bool
    ensures { result ≡ list_any (eq_positions positions.now) (map (λ e. e.0) entries.now) }
{
    for entry in entries {
        if entry.is_at(positions) {
            return true;
        }
    }
    false
}

// Adds the entry of this index, once it is judged, to those before it.
fn push_entry(
    alloc: Global,
    index: usize,
    dtype: &DType,
    entry: &(FieldPath, usize),
    entries: &mut Vec<LeafLength>,
) -> Result<(), TableError>
    ensures accepted { OnOk result (entry_fault index (type_of dtype.now)
        (map (λ e. e.0) entries.old.items) (steps_of entry.now.0) ≡ None) }
    ensures pushed { OnOk result (entries.new.items ≡ entries.old.items
        ++ (positions_of (type_of dtype.now) (steps_of entry.now.0), entry.now.1) ∷ []) }
    ensures refused { IfErr result (λ e. Explains ⊥ (entry_fault index (type_of dtype.now)
        (map (λ e. e.0) entries.old.items) (steps_of entry.now.0)) e) }
{
    let positions = leaf_at(alloc, index, dtype, &entry.0)?;
    if is_among(&positions, entries) {
        return Err(TableError::RepeatedPath(index));
    }
    let length = entry.1;
    entries.push(LeafLength { positions, length })?;
    Ok(())
}

/// The bound lengths by the paths of leaf columns of a type, and a default for all other positions.
/// A path is resolved to the positions of its names in the type.
///
/// The entries are judged in order, each by its index: `UnknownPath` or `ElementStep`, `NotALeaf`,
/// and `RepeatedPath` where its path is in one before it.
pub fn check_lengths(
    alloc: Global,
    dtype: &DType,
    default: usize,
    lengths: &[(FieldPath, usize)],
) -> Result<BoundLengths, TableError>
    ensures default { IfOk result (λ kept. kept.default ≡ default) }
    ensures entries { IfOk result (λ kept. kept.entries.items
        ≡ map (λ entry. (positions_of (type_of dtype.now) entry.0, entry.1))
        (entries_in lengths.now)) }
    ensures accepted { OnOk result
        (entries_fault 0 (type_of dtype.now) [] (entries_in lengths.now) ≡ None) }
    ensures refused { IfErr result (λ e. Explains ⊥
        (entries_fault 0 (type_of dtype.now) [] (entries_in lengths.now)) e) }
{
    let mut entries = Vec::with_capacity(alloc, lengths.len())?;
    for (index, entry) in lengths.iter().enumerate() {
        push_entry(alloc, index, dtype, entry, &mut entries)?;
    }
    Ok(BoundLengths { default, entries })
}
