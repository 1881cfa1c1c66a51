//! Values of a column, pushed onto the lists of rows.
ghost use Rattle.std.specs.Prelude.{◌≡◌, ℕ, length, map, IfOk, OnOk, All};
ghost use Rattle.vortex_model.specs.Content.{Raw};
ghost use Rattle.vortex_scalar_value.specs.View.{raw_in};
ghost use Rattle.vortex_table_select.specs.Lists.{with_each, lists_of};

use std::alloc::{AllocError, Global};
use vortex_scalar_value::scalar_value::ScalarValue;

/// A column whose layout is known, read row by row.
pub(crate) trait Values {
    // The value of a row.
    ghost raw_at: { Self → ℕ → Raw };

    // Which rows it has.
    ghost has_row: { Self → ℕ → Type 0 };

    /// The value of a row, and `None` for null.
    fn value(&self, alloc: Global, row: usize) -> Result<Option<ScalarValue>, AllocError>
        requires { has_row self.now row }
        ensures { IfOk result (λ value. raw_in value ≡ raw_at self.now row) };
}

/// Pushes onto each list the value of its row.
pub(crate) fn push_values<V: Values>(
    alloc: Global,
    values: &V,
    rows: &[usize],
    lists: &mut [Vec<Option<ScalarValue>>],
) -> Result<(), AllocError>
    requires within { All (V.has_row values.now) rows.now }
    requires many { length lists.old ≡ length rows.now }
    ensures { OnOk result (lists_of lists.new
        ≡ with_each (lists_of lists.old) (map (V.raw_at values.now) rows.now)) }
{
    for k in 0..rows.len() {
        let value = values.value(alloc, rows[k])?;
        lists[k].push(value)?;
    }
    Ok(())
}

/// The value of each row.
pub(crate) fn read_values<V: Values>(
    alloc: Global,
    values: &V,
    rows: &[usize],
) -> Result<Vec<Option<ScalarValue>>, AllocError>
    requires { All (V.has_row values.now) rows.now }
    ensures { IfOk result
        (λ read. map raw_in read.items ≡ map (V.raw_at values.now) rows.now) }
{
    let mut read = Vec::with_capacity(alloc, rows.len())?;
    for k in 0..rows.len() {
        let value = values.value(alloc, rows[k])?;
        read.push(value)?;
    }
    Ok(read)
}
