//! LIKE of a column of strings.
ghost use Rattle.std.specs.Prelude.{◌≡◌, Bool, map, false, IfOk, IfSome};
ghost use Rattle.vortex_model.specs.Content.{text};
ghost use Rattle.vortex_model_table.specs.Like.{has_backslash};
ghost use Rattle.vortex_model_table.specs.Truth.{liked};
ghost use Rattle.vortex_arrays_core.specs.LayoutOf.{valid_of};
ghost use Rattle.vortex_arrays_model.specs.Layout.{dictionary, len_of, rows_of, strings, texts, IsSound};
ghost use Rattle.vortex_arrays_model.specs.Parts.{AreWithin};
ghost use Rattle.vortex_stats_bind.specs.Bound.{match_test};
ghost use Rattle.vortex_stats_mask.specs.Wanted.{is_wanted};
ghost use Rattle.vortex_stats_select.specs.Asked.{seen};
ghost use Rattle.vortex_stats_select.specs.Wants.{wanted_match, wanted_rows};

use crate::asked::Asked;
use crate::columns::Columns;
use crate::leaves::leaf_of;
use crate::matches::match_seen;
use crate::spread::spread;
use crate::validity::valid_rows_of;
use bytes::Bytes;
use std::alloc::{AllocError, Global};
use vortex_arrays_core::array::{ArrayLayout, ArrayRef, StringKind, Validity};
use vortex_arrays_view::view::BinaryView;
use vortex_stats_bind::bound::BoundExpression;
use vortex_stats_expr::options::LikeOptions;
use vortex_stats_mask::column::ValidRows;
use vortex_stats_mask::masks::{keep_valid, opposite};
use vortex_stats_match::like::has_backslash;

// From the rows that match, those where LIKE has the wanted truth.
#[tactic(auto, using(crate::proofs::LikeLemmas::unturned))]
fn turned(
    alloc: Global,
    want: bool,
    negated: bool,
    mask: Vec<bool>,
) -> Result<Vec<bool>, AllocError>
    ensures { IfOk result (λ all. all.items ≡ map (wanted_match want negated) mask.items) }
{
    match (want, negated) {
        (true, false) => Ok(mask),
        (true, true) => opposite(alloc, &mask),
        (false, false) => opposite(alloc, &mask),
        (false, true) => Ok(mask),
    }
}

// The rows of strings where LIKE has the wanted truth: where they match, unless negated. A row that
// is not null has a string, so no byte is looked at to see whether it is UTF-8.
fn like_texts(
    alloc: Global,
    want: bool,
    negated: bool,
    pattern: &str,
    views: &[BinaryView],
    buffers: &[Bytes],
    validity: &Validity,
    asked: Option<Asked<'_>>,
) -> Result<Vec<bool>, AllocError>
    requires literal { has_backslash pattern.now ≡ false }
    requires sound { IsSound (strings texts views.now buffers.now (valid_of validity.now)) }
    ensures { IfOk result (λ mask. seen asked.entry mask.items
        ≡ seen asked.entry (map (λ c. is_wanted want (liked c (text pattern.now) negated))
        (rows_of (strings texts views.now buffers.now (valid_of validity.now))))) }
{
    let mask = match_seen(alloc, pattern.as_bytes(), views, buffers, asked)?;
    let mask = turned(alloc, want, negated, mask)?;
    let valid = valid_rows_of(alloc, validity, views.len())?;
    match valid {
        None => Ok(mask),
        Some(rows) => Ok(keep_valid(mask, ValidRows::Bits(&rows))),
    }
}

// `None` of a column that isn't one of strings, or isn't laid out plain.
fn like_column(
    alloc: Global,
    want: bool,
    negated: bool,
    pattern: &str,
    column: &ArrayRef,
    asked: Option<Asked<'_>>,
) -> Result<Option<Vec<bool>>, AllocError>
    requires { has_backslash pattern.now ≡ false }
    ensures { IfOk result (λ found. IfSome found (λ mask. seen asked.entry mask.items
        ≡ seen asked.entry (map (λ c. is_wanted want (liked c (text pattern.now) negated))
        (rows_of column.now)))) }
{
    match column.layout() {
        ArrayLayout::VarBinView(kind, views, buffers, validity) => match kind {
            StringKind::Utf8 => {
                let (views, buffers) = (views.as_slice(), buffers.as_slice());
                let mask = like_texts(
                    alloc, want, negated, pattern, views, buffers, validity, asked,
                )?;
                Ok(Some(mask))
            }
            StringKind::Binary => Ok(None),
        },
        _ => Ok(None),
    }
}

// The rows of a dictionary of strings where LIKE has the wanted truth: each value is looked at
// once.
fn like_coded(
    alloc: Global,
    want: bool,
    negated: bool,
    pattern: &str,
    codes: &ArrayRef,
    values: &ArrayRef,
) -> Result<Option<Vec<bool>>, AllocError>
    requires literal { has_backslash pattern.now ≡ false }
    requires within { AreWithin codes.now (len_of values.now) }
    ensures { (f : Bool) → IfOk result (λ found. IfSome found (λ mask. mask.items
        ≡ map (λ c. is_wanted want (liked c (text pattern.now) negated))
        (rows_of (dictionary codes.now values.now f)))) }
{
    let Some(mask) = like_column(alloc, want, negated, pattern, values, None)? else {
        return Ok(None);
    };
    let Some(codes) = leaf_of(alloc, codes)? else {
        return Ok(None);
    };
    let mask = spread(alloc, &mask, &codes.as_column())?;
    Ok(Some(mask))
}

fn like_array(
    alloc: Global,
    want: bool,
    negated: bool,
    pattern: &str,
    column: &ArrayRef,
    asked: Option<Asked<'_>>,
) -> Result<Option<Vec<bool>>, AllocError>
    requires { has_backslash pattern.now ≡ false }
    ensures { IfOk result (λ found. IfSome found (λ mask. seen asked.entry mask.items
        ≡ seen asked.entry (map (λ c. is_wanted want (liked c (text pattern.now) negated))
        (rows_of column.now)))) }
{
    match column.layout() {
        ArrayLayout::Dict(codes, values, _) => {
            like_coded(alloc, want, negated, pattern, codes, values)
        }
        _ => like_column(alloc, want, negated, pattern, column, asked),
    }
}

// The rows where LIKE has the wanted truth. `None` where it ignores case, the value isn't a column
// of strings that is plain or a dictionary, or the pattern no literal string without a backslash.
pub(crate) fn like_test<S: Columns>(
    alloc: Global,
    want: bool,
    value: &BoundExpression,
    pattern: &BoundExpression,
    options: LikeOptions,
    asked: Option<Asked<'_>>,
    columns: &S,
) -> Result<Option<Vec<bool>>, AllocError>
    ensures { IfOk result (λ found. IfSome found (λ mask. seen asked.entry mask.items
        ≡ seen asked.entry (wanted_rows want (match_test value.now pattern.now options.negated
        options.case_insensitive) (S.rows columns.now)))) }
{
    if options.case_insensitive {
        return Ok(None);
    }
    let Some(pattern) = pattern.as_text() else {
        return Ok(None);
    };
    let pattern = pattern.as_str();
    if has_backslash(pattern) {
        return Ok(None);
    }
    let Some(path) = value.as_column() else {
        return Ok(None);
    };
    let Some(column) = columns.column(alloc, path)? else {
        return Ok(None);
    };
    like_array(alloc, want, options.negated, pattern, &column, asked)
}
