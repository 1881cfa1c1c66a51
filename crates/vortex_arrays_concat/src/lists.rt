//! The elements, offsets and sizes of lists.
ghost use Rattle.std.specs.Prelude.{◌≡◌, ◌+◌, ◌%◌, ◌^◌, true, pos, map, IfOk, IfSome, All};
ghost use Rattle.vortex_model.specs.LogicalType.{u64};
ghost use Rattle.vortex_model.specs.Valid.{InRange};
ghost use Rattle.vortex_arrays_model.specs.Layout.{list_views, IsSound};
ghost use Rattle.vortex_arrays_model.specs.Canonical.{counts};
ghost use Rattle.vortex_arrays_core.specs.LayoutOf.{valid_of};
ghost use Rattle.vortex_arrays_concat.specs.FixedLists.{elements_in};
ghost use Rattle.vortex_arrays_concat.specs.Lists.{starts_in, sizes_in, AreLists, AreListsOf};

use std::alloc::{AllocError, Global};
use vortex_arrays_buffer::buffer::Buffer;
use vortex_arrays_buffer::primitive_buffer::PrimitiveBuffer;
use vortex_arrays_core::array::{ArrayLayout, ArrayRef, Validity};

/// The lists of arrays: the elements of each array, the offset of each list in the elements of all,
/// its size, and the number of all elements.
#[derive(Drop)]
pub(crate) struct Lists {
    pub(crate) elements: Vec<ArrayRef>,
    pub(crate) offsets: Vec<u64>,
    pub(crate) sizes: Vec<u64>,
    pub(crate) total: usize,
}

/// The `count` lists of the arrays. `None` where some array is not one of list views with plain
/// `u64` offsets and sizes, or the number of elements overflows.
#[tactic(auto, using(crate::proofs::ListLemmas::gathered))]
pub(crate) fn lists_of_all(
    alloc: Global,
    arrays: &[ArrayRef],
    count: usize,
) -> Result<Option<Lists>, AllocError>
    ensures { IfOk result (λ found. IfSome found (λ lists. AreListsOf arrays.now
        lists.elements.items lists.offsets.items lists.sizes.items lists.total)) }
{
    let mut elements = Vec::with_capacity(alloc, arrays.len())?;
    let mut offsets = Vec::with_capacity(alloc, count)?;
    let mut sizes = Vec::with_capacity(alloc, count)?;
    let mut total: usize = 0;
    for array in arrays {
        let Some((own, starts, counts)) = lists_of(array) else {
            return Ok(None);
        };
        let Some(end) = total.checked_add(own.len()) else {
            return Ok(None);
        };
        let starts = moved(alloc, starts, total as u64)?;
        offsets.extend_from_slice(starts.as_slice())?;
        sizes.extend_from_slice(counts)?;
        elements.push(own.clone()?)?;
        total = end;
    }
    Ok(Some(Lists {
        elements,
        offsets,
        sizes,
        total,
    }))
}

#[tactic(auto, using(crate::proofs::ListLemmas::parts_there))]
fn lists_of(array: &ArrayRef) -> Option<(&ArrayRef, &[u64], &[u64])>
    ensures kind { IfSome result (λ parts. AreLists array.now) }
    ensures elements { IfSome result (λ parts. parts.0.now ≡ elements_in array.now) }
    ensures starts { IfSome result (λ parts. parts.1.now ≡ starts_in array.now) }
    ensures sizes { IfSome result (λ parts. parts.2.now ≡ sizes_in array.now) }
{
    match array.layout() {
        ArrayLayout::ListView(elements, offsets, sizes, _, _) => {
            Some((elements, counts_in(offsets)?, counts_in(sizes)?))
        }
        _ => None,
    }
}

// The integers of a plain `u64` array without null.
fn counts_in(array: &ArrayRef) -> Option<&[u64]>
    ensures { IfSome result (λ items. array.now ≡ counts items.now) }
{
    match array.layout() {
        ArrayLayout::Primitive(PrimitiveBuffer::U64(items), Validity::NonNullable) => {
            Some(items.as_slice())
        }
        _ => None,
    }
}

// The offsets of lists after `before` more elements. The sums count elements, so none of them
// wraps.
fn moved(alloc: Global, starts: &[u64], before: u64) -> Result<Vec<u64>, AllocError>
    ensures { IfOk result
        (λ moved. moved.items ≡ map (λ start. (start + before) % 2 ^ 64) starts.now) }
{
    starts
        .iter()
        .map(|start| start.wrapping_add(before))
        .collect(alloc)
}

/// Lists of these elements, end to end.
pub(crate) fn of_lists(
    alloc: Global,
    elements: ArrayRef,
    offsets: Vec<u64>,
    sizes: Vec<u64>,
    validity: Validity,
) -> Result<ArrayRef, AllocError>
    requires { All (InRange u64) (map pos offsets.items) → All (InRange u64) (map pos sizes.items)
        → IsSound elements → IsSound (list_views elements (counts offsets.items)
        (counts sizes.items) true (valid_of validity)) }
    ensures { IfOk result (λ array. array ≡ list_views elements (counts offsets.items)
        (counts sizes.items) true (valid_of validity)) }
{
    let offsets = of_counts(alloc, offsets)?;
    let sizes = of_counts(alloc, sizes)?;
    ArrayRef::of_list_views(alloc, elements, offsets, sizes, true, validity)
}

// An array of these integers, without null.
#[tactic(auto, using(vortex_arrays_builder::proofs::ListLemmas::counted))]
fn of_counts(alloc: Global, items: Vec<u64>) -> Result<ArrayRef, AllocError>
    ensures made { IfOk result (λ array. array ≡ counts items.items) }
    ensures held { IfOk result (λ _. All (InRange u64) (map pos items.items)) }
{
    let items = PrimitiveBuffer::from_buffer(Buffer::from_vec(items)?);
    let array = ArrayRef::of_numbers(alloc, items, Validity::NonNullable)?;
    Ok(array)
}
