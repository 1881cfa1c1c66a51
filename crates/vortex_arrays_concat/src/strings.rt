//! Strings and bytes end to end, over the buffers of all arrays.
ghost use Rattle.std.specs.Prelude.{◌≡◌, ◌<◌, ◌≤◌, ◌+◌, ◌^◌, ◌++◌, ℕ, [], length, slice_index_or, IfOk, OnOk, IfSome};
ghost use Rattle.vortex_arrays_core.specs.LayoutOf.{strings_of};
ghost use Rattle.vortex_arrays_concat.specs.EndToEnd.{rows_in_all};
ghost use Rattle.vortex_arrays_concat.specs.Columns.{IsJoined};
ghost use Rattle.vortex_arrays_concat.specs.Strings.{views_in, buffers_in, AreStrings, IsMoved, AreViewsOf};

use crate::columns::concat_validity;
use bytes::Bytes;
use std::alloc::{AllocError, Global};
use std::rc::Rc;
use vortex_arrays_buffer::buffer::Buffer;
use vortex_arrays_core::array::{ArrayLayout, ArrayRef, StringKind};
use vortex_arrays_view::view::BinaryView;

/// The rows of arrays of strings, or of bytes, by views. Their buffers are shared and not copied.
/// `None` where some array is not of this kind, or there are more buffers than views can number.
#[tactic(auto, using(crate::proofs::StringLemmas::joined))]
pub(crate) fn concat_strings(
    alloc: Global,
    kind: StringKind,
    arrays: &[ArrayRef],
    count: usize,
) -> Result<Option<ArrayRef>, AllocError>
    requires some { 0 < length arrays.now }
    requires count { count ≡ rows_in_all arrays.now }
    ensures { IfOk result (λ found. IfSome found (λ a. IsJoined arrays.now a)) }
{
    let Some((views, buffers)) = views_of_all(alloc, kind, arrays, count)? else {
        return Ok(None);
    };
    let validity = concat_validity(alloc, arrays, count)?;
    let views = Buffer::from_vec(views)?;
    let buffers = Rc::new(alloc, buffers)?;
    let array = ArrayRef::of_strings(alloc, kind, views, buffers, validity)?;
    Ok(Some(array))
}

// The views of the arrays, and the buffers that they refer to, one array after another.
#[tactic(auto, using(crate::proofs::StringLemmas::gathered))]
fn views_of_all(
    alloc: Global,
    kind: StringKind,
    arrays: &[ArrayRef],
    count: usize,
) -> Result<Option<(Vec<BinaryView>, Vec<Bytes>)>, AllocError>
    ensures { IfOk result (λ found. IfSome found
        (λ all. AreViewsOf (strings_of kind) arrays.now all.0.items all.1.items)) }
{
    let mut views = Vec::with_capacity(alloc, count)?;
    let mut buffers = Vec::new(alloc);
    for array in arrays {
        let Some((own_views, own_buffers)) = parts_of(kind, array) else {
            return Ok(None);
        };
        let Some(before) = first_index(buffers.len(), own_buffers.len()) else {
            return Ok(None);
        };
        push_views(&mut views, own_views, before)?;
        push_buffers(&mut buffers, own_buffers)?;
    }
    Ok(Some((views, buffers)))
}

fn parts_of(kind: StringKind, array: &ArrayRef) -> Option<(&[BinaryView], &[Bytes])>
    ensures kind { IfSome result (λ parts. AreStrings (strings_of kind) array.now) }
    ensures views { IfSome result (λ parts. parts.0.now ≡ views_in array.now) }
    ensures buffers { IfSome result (λ parts. parts.1.now ≡ buffers_in array.now) }
{
    match array.layout() {
        ArrayLayout::VarBinView(own, views, buffers, _) if *own == kind => {
            Some((views.as_slice(), buffers.as_slice()))
        }
        _ => None,
    }
}

// The index of the first of `count` buffers after `before` others, where views can number all of
// them.
fn first_index(before: usize, count: usize) -> Option<u32>
    ensures { IfSome result (λ index. (index ≡ before) × (before + count < 2 ^ 32)) }
{
    let end = before.checked_add(count)?;
    if end > u32::MAX as usize {
        return None;
    }
    Some(before as u32)
}

// Adds views whose buffers come after `before` others.
#[tactic(auto, using(crate::proofs::StringLemmas::pushed))]
fn push_views(
    views: &mut Vec<BinaryView>,
    own: &[BinaryView],
    before: u32,
) -> Result<(), AllocError>
    ensures count { OnOk result
        (length views.new.items ≡ length views.old.items + length own.now) }
    ensures front { OnOk result ((i : ℕ) → i < length views.old.items
        → slice_index_or views.new.items i [] ≡ slice_index_or views.old.items i []) }
    ensures moved { OnOk result ((i : ℕ) → i < length own.now
        → IsMoved before (slice_index_or own.now i [])
        (slice_index_or views.new.items (length views.old.items + i) [])) }
{
    let start = views.len();
    views.extend_from_slice(own)?;
    move_views(views, start, before);
    Ok(())
}

// Changes the views from an index on to those of the same values after `before` more buffers.
#[tactic(auto, using(crate::proofs::StringLemmas::moved))]
fn move_views(views: &mut Vec<BinaryView>, start: usize, before: u32)
    ensures count { length views.new.items ≡ length views.old.items }
    ensures front { (i : ℕ) → i < start
        → slice_index_or views.new.items i [] ≡ slice_index_or views.old.items i [] }
    ensures moved { (i : ℕ) → start ≤ i → i < length views.old.items
        → IsMoved before (slice_index_or views.old.items i [])
        (slice_index_or views.new.items i []) }
{
    for i in start..views.len() {
        views[i] = moved(views[i], before);
    }
}

// The view of the same value where `before` more buffers come first. The view of a null row may
// have any index, so the index wraps.
fn moved(view: BinaryView, before: u32) -> BinaryView
    ensures { IsMoved before view result }
{
    if view.is_inlined() {
        return view;
    }
    let place = view.as_view();
    let index = place.buffer_index.wrapping_add(before);
    BinaryView::new_ref(place.size, place.prefix, index, place.offset)
}

fn push_buffers(buffers: &mut Vec<Bytes>, own: &[Bytes]) -> Result<(), AllocError>
    ensures { OnOk result (buffers.new.items ≡ buffers.old.items ++ own.now) }
{
    for buffer in own {
        buffers.push(buffer.clone()?)?;
    }
    Ok(())
}
