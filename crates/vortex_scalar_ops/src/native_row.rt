//! Rows of native values: values of structs from the native values of their fields.
ghost use Rattle.std.specs.Prelude.{◌≡◌, ◌∷◌, ◌++◌, [], List, map, true, IfOk};
ghost use Rattle.vortex_model.specs.LogicalType.{LogicalType, Fields, struct, non_nullable};
ghost use Rattle.vortex_model.specs.Content.{Raw, raw_tuple};
ghost use Rattle.vortex_model.specs.Valid.{valid, all_have};
ghost use Rattle.vortex_dtype_fields.specs.Records.{types_of};
ghost use Rattle.vortex_scalar_value.specs.View.{raw_of, raw_in, raws_in, raws_from};
ghost use Rattle.vortex_scalar_ops.specs.Rows.{AreCells};

use crate::native_value::NativeValue;
use std::alloc::{AllocError, Global};
use vortex_scalar_value::scalar_value::ScalarValue;

/// Native values as the fields of a row, in order: a tuple of one to six. `ScalarValue::tuple`
/// makes rows of other values, and of any number of them.
pub trait NativeRow: Drop {
    // the types of the fields
    ghost types: { List LogicalType };

    // the raw values of the fields
    ghost raws: { Self → List Raw };

    /// The value of each field. `None` is null.
    fn into_cells(self, alloc: Global) -> Result<Vec<Option<ScalarValue>>, AllocError>
        ensures { IfOk result (λ cells. AreCells types (raws self) cells.items) };
}

/// The value of a struct with these fields, as `row(alloc, (1i32, None::<u8>, "x"))`.
#[tactic(auto, using(vortex_scalar_value::proofs::Views::one_level))]
pub fn row<R: NativeRow>(alloc: Global, fields: R) -> Result<ScalarValue, AllocError>
    ensures value { IfOk result (λ made. raw_of made ≡ raw_tuple (raws_from (R.raws fields))) }
    ensures valid { IfOk result (λ made. (fs : Fields) → types_of fs ≡ R.types →
        valid (struct fs non_nullable) (raw_of made) ≡ true) }
{
    let cells = fields.into_cells(alloc)?;
    Ok(ScalarValue::Tuple(cells))
}

/// The value of a struct for each row, in order, as tables take them: `rows(alloc, [(1i32, "a"),
/// (2, "b")])`.
pub fn rows<R: NativeRow, const N: usize>(
    alloc: Global,
    rows: [R; N],
) -> Result<Vec<Option<ScalarValue>>, AllocError>
    ensures values { IfOk result (λ made. map raw_in made.items
        ≡ map (λ fields. raw_tuple (raws_from (R.raws fields))) rows) }
    ensures valid { IfOk result (λ made. (fs : Fields) → types_of fs ≡ R.types →
        all_have (struct fs non_nullable) (raws_in made.items) ≡ true) }
{
    let rows = Vec::from_array(alloc, rows)?;
    let made = make_rows(alloc, rows)?;
    Ok(made)
}

fn make_rows<R: NativeRow>(
    alloc: Global,
    rows: Vec<R>,
) -> Result<Vec<Option<ScalarValue>>, AllocError>
    ensures values { IfOk result (λ made. map raw_in made.items
        ≡ map (λ fields. raw_tuple (raws_from (R.raws fields))) rows.items) }
    ensures valid { IfOk result (λ made. (fs : Fields) → types_of fs ≡ R.types →
        all_have (struct fs non_nullable) (raws_in made.items) ≡ true) }
{
    let mut made = Vec::with_capacity(alloc, rows.len())?;
    for fields in rows {
        let value = row(alloc, fields)?;
        made.push(Some(value))?;
    }
    Ok(made)
}

fn no_cells(alloc: Global, count: usize) -> Result<Vec<Option<ScalarValue>>, AllocError>
    ensures { IfOk result (λ cells. AreCells [] [] cells.items) }
{
    let cells = Vec::with_capacity(alloc, count)?;
    Ok(cells)
}

// The cells, and one of this value after them.
fn with_cell<T: NativeValue>(
    alloc: Global,
    cells: Vec<Option<ScalarValue>>,
    value: T,
) -> Result<Vec<Option<ScalarValue>>, AllocError>
    ensures { IfOk result (λ all. (ks : List LogicalType) (rs : List Raw) →
        AreCells ks rs cells.items →
        AreCells (ks ++ T.values ∷ []) (rs ++ T.raw value ∷ []) all.items) }
{
    let mut all = cells;
    let cell = value.into_scalar_value(alloc)?;
    all.push(cell)?;
    Ok(all)
}

impl<A: NativeValue> NativeRow for (A,) {
    ghost types = { A.values ∷ [] };

    ghost raws = { λ r. A.raw r.0 ∷ [] };

    fn into_cells(self, alloc: Global) -> Result<Vec<Option<ScalarValue>>, AllocError> {
        let none = no_cells(alloc, 1)?;
        let all = with_cell(alloc, none, self.0)?;
        Ok(all)
    }
}

impl<A: NativeValue, B: NativeValue> NativeRow for (A, B) {
    ghost types = { A.values ∷ B.values ∷ [] };

    ghost raws = { λ r. A.raw r.0 ∷ B.raw r.1 ∷ [] };

    fn into_cells(self, alloc: Global) -> Result<Vec<Option<ScalarValue>>, AllocError> {
        let (a, b) = self;
        let none = no_cells(alloc, 2)?;
        let one = with_cell(alloc, none, a)?;
        let all = with_cell(alloc, one, b)?;
        Ok(all)
    }
}

impl<A: NativeValue, B: NativeValue, C: NativeValue> NativeRow for (A, B, C) {
    ghost types = { A.values ∷ B.values ∷ C.values ∷ [] };

    ghost raws = { λ r. A.raw r.0 ∷ B.raw r.1 ∷ C.raw r.2 ∷ [] };

    fn into_cells(self, alloc: Global) -> Result<Vec<Option<ScalarValue>>, AllocError> {
        let (a, b, c) = self;
        let none = no_cells(alloc, 3)?;
        let one = with_cell(alloc, none, a)?;
        let two = with_cell(alloc, one, b)?;
        let all = with_cell(alloc, two, c)?;
        Ok(all)
    }
}

impl<A: NativeValue, B: NativeValue, C: NativeValue, D: NativeValue> NativeRow for (A, B, C, D) {
    ghost types = { A.values ∷ B.values ∷ C.values ∷ D.values ∷ [] };

    ghost raws = { λ r. A.raw r.0 ∷ B.raw r.1 ∷ C.raw r.2 ∷ D.raw r.3 ∷ [] };

    fn into_cells(self, alloc: Global) -> Result<Vec<Option<ScalarValue>>, AllocError> {
        let (a, b, c, d) = self;
        let none = no_cells(alloc, 4)?;
        let one = with_cell(alloc, none, a)?;
        let two = with_cell(alloc, one, b)?;
        let three = with_cell(alloc, two, c)?;
        let all = with_cell(alloc, three, d)?;
        Ok(all)
    }
}

impl<A: NativeValue, B: NativeValue, C: NativeValue, D: NativeValue, E: NativeValue> NativeRow
    for (A, B, C, D, E) {
    ghost types = { A.values ∷ B.values ∷ C.values ∷ D.values ∷ E.values ∷ [] };

    ghost raws = { λ r. A.raw r.0 ∷ B.raw r.1 ∷ C.raw r.2 ∷ D.raw r.3 ∷ E.raw r.4 ∷ [] };

    fn into_cells(self, alloc: Global) -> Result<Vec<Option<ScalarValue>>, AllocError> {
        let (a, b, c, d, e) = self;
        let none = no_cells(alloc, 5)?;
        let one = with_cell(alloc, none, a)?;
        let two = with_cell(alloc, one, b)?;
        let three = with_cell(alloc, two, c)?;
        let four = with_cell(alloc, three, d)?;
        let all = with_cell(alloc, four, e)?;
        Ok(all)
    }
}

impl<
    A: NativeValue,
    B: NativeValue,
    C: NativeValue,
    D: NativeValue,
    E: NativeValue,
    F: NativeValue,
> NativeRow for (A, B, C, D, E, F) {
    ghost types = { A.values ∷ B.values ∷ C.values ∷ D.values ∷ E.values ∷ F.values ∷ [] };

    ghost raws = { λ r.
        A.raw r.0 ∷ B.raw r.1 ∷ C.raw r.2 ∷ D.raw r.3 ∷ E.raw r.4 ∷ F.raw r.5 ∷ [] };

    fn into_cells(self, alloc: Global) -> Result<Vec<Option<ScalarValue>>, AllocError> {
        let (a, b, c, d, e, f) = self;
        let none = no_cells(alloc, 6)?;
        let one = with_cell(alloc, none, a)?;
        let two = with_cell(alloc, one, b)?;
        let three = with_cell(alloc, two, c)?;
        let four = with_cell(alloc, three, d)?;
        let five = with_cell(alloc, four, e)?;
        let all = with_cell(alloc, five, f)?;
        Ok(all)
    }
}
