//! The contents of arrays of any layout.
ghost use Rattle.std.specs.Prelude.{◌≡◌, ◌<◌, ◌≤◌, ◌+◌, ◌*◌, ◌++◌, [], All, OnOk, false};
ghost use Rattle.vortex_model.specs.Content.{tuple};
ghost use Rattle.vortex_arrays_model.specs.Layout.{content_at, len_of, row_at, span};
ghost use Rattle.vortex_arrays_model.specs.Parts.{columns_of};
ghost use Rattle.vortex_table_response.specs.Text.{content_text, contents_text};

use crate::leaves::{push_integer, push_integers, push_null, push_string, push_truth};
use std::alloc::AllocError;
use vortex_arrays_core::array::{ArrayLayout, ArrayRef};
use vortex_arrays_core::scalar::view_at;
use vortex_table_response::push_cell;
use vortex_table_response::type_texts::push_comma;

/// Writes the row of the array as JSON. An `Err` leaves the buffer with no promise.
#[cycle(content)]
#[tactic(auto, using(crate::proofs::Contents::layouts))]
pub fn push_content(out: &mut Vec<u8>, array: &ArrayRef, i: usize) -> Result<(), AllocError>
    requires { i < len_of array.now }
    ensures { OnOk result
        (out.new.items ≡ out.old.items ++ content_text (content_at array.now i)) }
{
    match array.layout() {
        ArrayLayout::Bool(bits, validity) => push_truth(out, bits, validity, i),
        ArrayLayout::Primitive(items, validity) => push_integer(out, items, validity, i),
        ArrayLayout::VarBinView(kind, views, buffers, validity) => {
            let views = views.as_slice();
            push_string(out, *kind, views, buffers.as_slice(), validity, i)
        }
        ArrayLayout::Constant(scalar, _) => push_cell(out, scalar.value()),
        ArrayLayout::Dict(codes, values, _) => {
            // Shows the prover that the codes are codes of the values.
            let _count = values.len();
            match codes.integer(i) {
                Some(code) => push_content(out, values, code as usize),
                None => push_null(out),
            }
        }
        ArrayLayout::FixedSizeList(elements, size, len, validity) => {
            if !validity.is_valid(i, *len) {
                return push_null(out);
            }
            let start = fixed_start(i, *size, *len, elements.len());
            push_list(out, elements, start, *size as usize)
        }
        ArrayLayout::ListView(elements, offsets, sizes, _, validity) => {
            if !validity.is_valid(i, offsets.len()) {
                return push_null(out);
            }
            let (start, count) = view_at(offsets, sizes, i, elements.len());
            push_list(out, elements, start, count)
        }
        ArrayLayout::Struct(_, fields, len, validity) => {
            if !validity.is_valid(i, *len) {
                return push_null(out);
            }
            push_record(out, fields, i)
        }
    }
}

// Where the elements of list `i` begin, of `len` lists of this size.
#[tactic(auto, using(vortex_arrays_core::proofs::RawRowsLemmas::fixed_within))]
fn fixed_start(i: usize, size: u32, len: usize, count: usize) -> usize
    requires within { i < len }
    requires elements { count ≡ len * size }
    ensures start { result ≡ i * size }
    ensures within { result + size ≤ count }
{
    i * size as usize
}

// Writes the elements of a list, which follow one another from one on, in brackets.
#[cycle(content)]
#[tactic(auto, using(crate::proofs::Contents::brackets))]
fn push_list(
    out: &mut Vec<u8>,
    elements: &ArrayRef,
    start: usize,
    count: usize,
) -> Result<(), AllocError>
    requires { start + count ≤ len_of elements.now }
    ensures { OnOk result (out.new.items ≡ out.old.items
        ++ content_text (tuple (span (λ j. content_at elements.now j) start count))) }
{
    out.push(b'[')?;
    push_items(out, elements, start, count)?;
    out.push(b']')?;
    Ok(())
}

// Writes `count` elements from `start` on, with commas between.
#[cycle(content)]
#[tactic(auto, using(crate::proofs::Contents::layouts))]
fn push_items(
    out: &mut Vec<u8>,
    elements: &ArrayRef,
    start: usize,
    count: usize,
) -> Result<(), AllocError>
    requires { start + count ≤ len_of elements.now }
    ensures { OnOk result (out.new.items ≡ out.old.items
        ++ contents_text false (span (λ j. content_at elements.now j) start count)) }
{
    if let ArrayLayout::Primitive(items, validity) = elements.layout() {
        return push_integers(out, items, validity, start, count);
    }
    // Shows the prover that the elements can be counted.
    let _len = elements.len();
    let mut later = false;
    for k in 0..count {
        push_comma(out, later)?;
        push_content(out, elements, start + k)?;
        later = true;
    }
    Ok(())
}

// Writes the row of each field, in brackets.
#[cycle(content)]
#[tactic(auto, using(crate::proofs::Contents::layouts))]
fn push_record(out: &mut Vec<u8>, fields: &Vec<ArrayRef>, i: usize) -> Result<(), AllocError>
    requires { All (λ field. i < len_of field) fields.now.items }
    ensures { OnOk result (out.new.items ≡ out.old.items
        ++ content_text (tuple (row_at (columns_of [] fields.now.items) i))) }
{
    out.push(b'[')?;
    let mut later = false;
    for field in fields {
        push_comma(out, later)?;
        push_content(out, field, i)?;
        later = true;
    }
    out.push(b']')?;
    Ok(())
}
