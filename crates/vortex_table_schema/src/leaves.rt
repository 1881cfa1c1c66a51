//! Paths to the leaf columns of a type, of which a table keeps statistics.
ghost use Rattle.std.specs.Prelude.{◌≡◌, ◌++◌, ◌∷◌, [], IfOk, OnOk};
ghost use Rattle.vortex_model.specs.Path.{eq_positions};
ghost use Rattle.vortex_dtype_core.specs.View.{type_of, fields_of};
ghost use Rattle.vortex_table_schema.specs.Leaves.{leaves_in, leaves_among, leaf_positions};

use std::alloc::{AllocError, Global};
use std::marker::Model;
use std::rc::Rc;
use vortex_dtype_core::dtype::DType;
use vortex_dtype_core::struct_fields::StructField;

/// A path to a leaf column: at each step from the root the index of a field in its record.
#[derive(Drop)]
pub struct LeafPath {
    steps: Vec<usize>,
}

impl Model for LeafPath {
    ghost use Rattle.std.specs.Prelude.{ℕ, List};

    ghost Value = { List ℕ };

    ghost view = { λ p. p.steps.items };
}

impl LeafPath {
    /// The indices from the root on.
    pub fn as_slice(&self) -> &[usize]
        ensures { result.now ≡ self.now }
    {
        self.steps.as_slice()
    }

    /// Whether the path has these indices.
    pub fn equals(&self, steps: &[usize]) -> bool
        ensures { result ≡ eq_positions self.now steps.now }
    {
        self.as_slice() == steps
    }
}

fn further(alloc: Global, here: &[usize], position: usize) -> Result<Vec<usize>, AllocError>
    ensures { IfOk result (λ there. there.items ≡ here.now ++ position ∷ []) }
{
    let mut there = Vec::with_capacity(alloc, here.len() + 1)?;
    there.extend_from_slice(here)?;
    there.push(position)?;
    Ok(there)
}

// `here` is the path to the part of this type.
#[cycle(leaves)]
#[tactic(auto, using(crate::proofs::Places::parts))]
fn add_leaves(
    alloc: Global,
    dtype: &DType,
    here: Vec<usize>,
    leaves: &mut Vec<LeafPath>,
) -> Result<(), AllocError>
    ensures { OnOk result (leaves.new.items ≡ leaves.old.items
        ++ leaves_in here.items (type_of dtype.now)) }
{
    if let DType::Struct(fields, _) = dtype {
        add_fields(alloc, fields.as_slice(), &here, leaves)?;
        return Ok(());
    }
    if dtype.is_leaf() {
        leaves.push(LeafPath { steps: here })?;
    }
    Ok(())
}

#[cycle(leaves)]
fn add_fields(
    alloc: Global,
    fields: &[StructField],
    here: &[usize],
    leaves: &mut Vec<LeafPath>,
) -> Result<(), AllocError>
    ensures { OnOk result (leaves.new.items ≡ leaves.old.items
        ++ leaves_among here.now 0 (fields_of fields.now)) }
{
    for (position, field) in fields.iter().enumerate() {
        let there = further(alloc, here, position)?;
        add_leaves(alloc, &field.dtype, there, leaves)?;
    }
    Ok(())
}

/// The paths to the leaf columns of a type in the order of its fields. Only records are walked: a
/// list, a map or a union has none. It takes time in the order of the parts times their depth.
pub fn leaf_positions(alloc: Global, dtype: &DType) -> Result<Rc<Vec<LeafPath>>, AllocError>
    ensures { IfOk result (λ leaves. leaves.value.items ≡ leaf_positions (type_of dtype.now)) }
{
    let mut leaves = Vec::new(alloc);
    add_leaves(alloc, dtype, Vec::new(alloc), &mut leaves)?;
    let leaves = Rc::new(alloc, leaves)?;
    Ok(leaves)
}
