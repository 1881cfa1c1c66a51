//! Statistics of the values of an array, each read once.
ghost use Rattle.std.specs.Prelude.{◌<◌, ℕ, List, length, map};
ghost use Rattle.std.specs.List.{range_with_len};
ghost use Rattle.vortex_model.specs.Content.{Content};
ghost use Rattle.vortex_arrays_model.specs.Layout.{len_of, content_at};
ghost use Rattle.vortex_stats_array.specs.Counted.{CountsEach, StandIn, counted_rows};
ghost use Rattle.vortex_stats_array.specs.Running.{ReadsRows, IsSeen};

use crate::counts::Counts;
use crate::leaf_value::LeafValue;
use crate::running::Running;
use vortex_arrays_core::array::{ArrayLayout, ArrayRef};

// Statistics of `len` rows with one value, which `row` reads once, where `None` is null.
fn seen_constant<V: LeafValue, F: Fn(usize) -> Option<V>>(len: usize, row: F) -> Running<V>
    requires { (i : ℕ) → i < len → F.pre row i }
    ensures { (c : Content) → ReadsRows V.said len (λ i v. F.post row i v) (λ i. c)
        → IsSeen V.said result (map (λ i. c) (range_with_len 0 len)) }
{
    let start = Running::none();
    if len == 0 {
        return start;
    }
    start.with_many(row(0), len)
}

// Statistics of `len` rows, each read once by `row`, where `None` is null.
fn seen_rows<V: LeafValue, F: Fn(usize) -> Option<V>>(len: usize, row: F) -> Running<V>
    requires { (i : ℕ) → i < len → F.pre row i }
    ensures { (content : ℕ → Content) → ReadsRows V.said len (λ i v. F.post row i v) content
        → IsSeen V.said result (map content (range_with_len 0 len)) }
{
    // Each row is added before those after it.
    let mut running = Running::none();
    for i in (0..len).rev() {
        running = running.with(row(i));
    }
    running
}

// Statistics of values that occur as often as counted. Each of them is read once by `value`, where
// `None` is null; values that don't occur are not read.
fn seen_counted<V: LeafValue, F: Fn(usize) -> Option<V>>(counts: &Counts, value: F) -> Running<V>
    requires { (j : ℕ) → j < length counts.now.of_values.items → F.pre value j }
    ensures { (content : ℕ → Content)
        → ReadsRows V.said (length counts.now.of_values.items) (λ j v. F.post value j v) content
        → IsSeen V.said result (counted_rows counts.now content) }
{
    let len = counts.len();
    let mut running = Running::of_nulls(counts.nulls);
    for j in (0..len).rev() {
        let n = counts.of_value(j);
        if n > 0 {
            running = running.with_many(value(j), n);
        }
    }
    running
}

/// Statistics of the rows in which `len` values occur: each once, or as often as counted. Each
/// value is read once by `value`, where `None` is null.
pub(crate) fn seen<V: LeafValue, F: Fn(usize) -> Option<V>>(
    len: usize,
    counts: Option<&Counts>,
    value: F,
) -> Running<V>
    requires reads { (i : ℕ) → i < len → F.pre value i }
    requires counted { CountsEach counts len }
    ensures { (content : ℕ → Content) → ReadsRows V.said len (λ i v. F.post value i v) content
        → (rows : List Content) → StandIn counts.entry content len rows
        → IsSeen V.said result rows }
{
    match counts {
        Some(counts) => seen_counted(counts, value),
        None => seen_rows(len, value),
    }
}

/// Statistics of the rows in which the values of an array of any layout occur. The rows of a
/// constant are read by one of them.
pub(crate) fn seen_in<V: LeafValue, F: Fn(usize) -> Option<V>>(
    array: &ArrayRef,
    counts: Option<&Counts>,
    value: F,
) -> Running<V>
    requires reads { (i : ℕ) → i < len_of array.now → F.pre value i }
    requires counted { CountsEach counts (len_of array.now) }
    ensures { ReadsRows V.said (len_of array.now) (λ i v. F.post value i v) (content_at array.now)
        → (rows : List Content)
        → StandIn counts.entry (content_at array.now) (len_of array.now) rows
        → IsSeen V.said result rows }
{
    match (counts, array.layout()) {
        (None, ArrayLayout::Constant(_, len)) => seen_constant(*len, value),
        _ => seen(array.len(), counts, value),
    }
}
