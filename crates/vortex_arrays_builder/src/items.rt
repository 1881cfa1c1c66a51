//! The values inside lists and structs, gathered column by column.
ghost use Rattle.std.specs.Prelude.{◌≡◌, ◌++◌, map, replicate, IfOk, OnOk};
ghost use Rattle.std.specs.List.{flat_map};
ghost use Rattle.vortex_model.specs.Content.{raw_null};
ghost use Rattle.vortex_scalar_value.specs.Parts.{raw_part};
ghost use Rattle.vortex_scalar_value.specs.View.{raw_at, raw_in};
ghost use Rattle.vortex_arrays_builder.specs.Items.{raw_items, fixed_items, StandEndToEnd};
ghost use Rattle.vortex_arrays_builder.specs.Plain.{parts_at};

use std::alloc::{AllocError, Global};
use vortex_scalar_value::scalar_value::ScalarValue;

/// Lists end to end: the offset and the size of each, and the items of all. A null list is empty.
#[derive(Drop)]
pub(crate) struct Lists<'a> {
    pub(crate) offsets: Vec<u64>,
    pub(crate) sizes: Vec<u64>,
    pub(crate) items: Vec<Option<&'a ScalarValue>>,
}

/// The lists of the values end to end.
#[tactic(auto, using(crate::proofs::ItemLemmas::lists))]
pub(crate) fn end_to_end<'a>(
    alloc: Global,
    values: &[Option<&'a ScalarValue>],
) -> Result<Lists<'a>, AllocError>
    ensures lists { IfOk result
        (λ lists. StandEndToEnd (map raw_at values.now) lists.offsets.items lists.sizes.items) }
    ensures items { IfOk result
        (λ lists. map raw_at lists.items.items ≡ flat_map raw_items (map raw_at values.now)) }
{
    let mut offsets = vec![in alloc; 0; values.len()]?;
    let mut sizes = vec![in alloc; 0; values.len()]?;
    let mut items = Vec::new(alloc);
    for i in 0..values.len() {
        let list = list_of(values[i]);
        offsets[i] = items.len() as u64;
        sizes[i] = list.len() as u64;
        push_items(&mut items, list)?;
    }
    Ok(Lists {
        offsets,
        sizes,
        items,
    })
}

/// The items of fixed-size lists end to end, with nulls in place of the items of a null list.
#[tactic(auto, using(crate::proofs::ItemLemmas::fixed))]
pub(crate) fn fixed_end_to_end<'a>(
    alloc: Global,
    size: u32,
    values: &[Option<&'a ScalarValue>],
) -> Result<Vec<Option<&'a ScalarValue>>, AllocError>
    ensures { IfOk result
        (λ items. map raw_at items.items ≡ flat_map (fixed_items size) (map raw_at values.now)) }
{
    let mut items = Vec::new(alloc);
    for value in values {
        push_fixed(&mut items, size, *value)?;
    }
    Ok(items)
}

/// The fields of structs at an index, null where the struct is.
pub(crate) fn column_of<'a>(
    alloc: Global,
    values: &[Option<&'a ScalarValue>],
    index: usize,
) -> Result<Vec<Option<&'a ScalarValue>>, AllocError>
    ensures { IfOk result
        (λ column. map raw_at column.items ≡ parts_at index (map raw_at values.now)) }
{
    values
        .iter()
        .map(|value| part_of(*value, index))
        .collect(alloc)
}

// The field of a struct at an index, and null for null.
fn part_of(value: Option<&ScalarValue>, index: usize) -> Option<&ScalarValue>
    ensures { raw_at result ≡ raw_part (raw_at value.entry) index }
{
    value?.child_at(index)
}

// Adds the items of a list of this size, or as many nulls.
#[tactic(auto, using(crate::proofs::ItemLemmas::fixed_row))]
fn push_fixed<'a>(
    all: &mut Vec<Option<&'a ScalarValue>>,
    size: u32,
    value: Option<&'a ScalarValue>,
) -> Result<(), AllocError>
    ensures { OnOk result (map raw_at all.new.items
        ≡ map raw_at all.old.items ++ fixed_items size (raw_at value.entry)) }
{
    let Some(value) = value else {
        return push_absent(all, size);
    };
    push_items(all, list_of(Some(value)))
}

// Adds `size` nulls.
#[tactic(auto, using(crate::proofs::ItemLemmas::nulls))]
fn push_absent(all: &mut Vec<Option<&ScalarValue>>, size: u32) -> Result<(), AllocError>
    ensures { OnOk result (map raw_at all.new.items
        ≡ map raw_at all.old.items ++ replicate size raw_null) }
{
    for _ in 0..size {
        all.push(None)?;
    }
    Ok(())
}

// Adds the items of a list.
fn push_items<'a>(
    all: &mut Vec<Option<&'a ScalarValue>>,
    items: &'a [Option<ScalarValue>],
) -> Result<(), AllocError>
    ensures { OnOk result (map raw_at all.new.items
        ≡ map raw_at all.old.items ++ map raw_in items.now) }
{
    for item in items {
        all.push(item.as_ref())?;
    }
    Ok(())
}

// The items of a list, and none for any other value.
#[tactic(auto, using(crate::proofs::ItemLemmas::listed))]
fn list_of(value: Option<&ScalarValue>) -> &[Option<ScalarValue>]
    ensures { map raw_in result.now ≡ raw_items (raw_at value.entry) }
{
    match value {
        Some(value) => value.as_list().unwrap_or(&[]),
        None => &[],
    }
}
