//! A column of strings that grows string by string.
ghost use Rattle.std.specs.Prelude.{◌≡◌, ◌<◌, ◌++◌, ◌∷◌, [], None, Some, map, length, take, IfOk, OnOk};
ghost use Rattle.vortex_model.specs.LogicalType.{utf8};
ghost use Rattle.vortex_model.specs.Content.{raw_text};
ghost use Rattle.vortex_dtype_ptype.specs.View.{nullability_of_flag};
ghost use Rattle.vortex_arrays_model.specs.Layout.{texts};
ghost use Rattle.vortex_table_columns.specs.Cells.{cell_raw, IsColumn};
ghost use Rattle.vortex_table_columns.specs.Views.{values_of, AreValues};

use crate::DoesNotFit;
use crate::views::finish_values;
use std::alloc::{AllocError, Global};
use std::marker::Model;
use vortex_arrays_core::array::{ArrayRef, StringKind};
use vortex_arrays_view::build::MAX_BUFFER_LEN;
use vortex_arrays_view::view::{BinaryView, MAX_INLINED_SIZE};
use vortex_dtype_ptype::nullability::Nullability;

// Appends a value to the bytes if views have no room for it.
fn put_long(bytes: &mut Vec<u8>, value: &[u8]) -> Result<(), AllocError>
    ensures put { OnOk result (12 < length value.now → bytes.new.items
        ≡ bytes.old.items ++ value.now) }
    ensures front { take (length bytes.old.items) bytes.new.items ≡ bytes.old.items }
{
    if value.len() > MAX_INLINED_SIZE {
        bytes.extend_from_slice(value)?;
    }
    Ok(())
}

// Appends a string to the views. It doesn't fit if the buffer would have 2^32 bytes or more.
fn push_text(
    bytes: &mut Vec<u8>,
    views: &mut Vec<Option<BinaryView>>,
    text: &str,
) -> Result<(), DoesNotFit>
    requires { AreValues texts bytes.old.items views.old.items }
    ensures texts { AreValues texts bytes.new.items views.new.items }
    ensures pushed { OnOk result (values_of bytes.new.items views.new.items
        ≡ values_of bytes.old.items views.old.items ++ Some text.now ∷ []) }
{
    let value = text.as_bytes();
    let start = bytes.len();
    if start > MAX_BUFFER_LEN || value.len() > MAX_BUFFER_LEN - start {
        return Err(DoesNotFit);
    }
    put_long(bytes, value)?;
    views.push(Some(BinaryView::make_view(value, 0, start as u32)))?;
    Ok(())
}

/// Strings and nulls: a view for each string, and the bytes of long ones end to end in one buffer.
#[derive(Drop)]
pub struct TextCells {
    bytes: Vec<u8>,
    views: Vec<Option<BinaryView>>,
}

impl Model for TextCells {
    ghost use Rattle.std.specs.Prelude.{ℕ, List, Option};
    ghost use Rattle.vortex_arrays_model.specs.Layout.{texts};
    ghost use Rattle.vortex_table_columns.specs.Views.{values_of, AreValues};

    ghost Value = { List (Option (List ℕ)) };

    ghost view = { λ t. values_of t.bytes.items t.views.items };

    ghost invariant = { λ t. AreValues texts t.bytes.items t.views.items };
}

impl TextCells {
    pub fn new(alloc: Global) -> TextCells
        ensures { result ≡ [] }
    {
        TextCells {
            bytes: Vec::new(alloc),
            views: Vec::new(alloc),
        }
    }

    /// Adds a null.
    #[tactic(auto, using(crate::proofs::ViewLemmas::null_pushed))]
    pub fn push_null(&mut self) -> Result<(), DoesNotFit>
        ensures { OnOk result (self.new ≡ self.old ++ None ∷ []) }
    {
        self.views.push(None)?;
        Ok(())
    }

    /// Adds a string. It doesn't fit if the buffer would have 2^32 bytes or more.
    pub fn push(&mut self, text: &str) -> Result<(), DoesNotFit>
        ensures { OnOk result (self.new ≡ self.old ++ Some text.now ∷ []) }
    {
        push_text(&mut self.bytes, &mut self.views, text)
    }

    /// The strings as an array. A null doesn't fit in a type without null.
    pub fn finish(self, alloc: Global, nullability: Nullability) -> Result<ArrayRef, DoesNotFit>
        ensures { IfOk result (λ array. IsColumn (utf8 (nullability_of_flag nullability))
            (map (cell_raw raw_text) self) array) }
    {
        let TextCells { bytes, views } = self;
        finish_values(
            alloc,
            StringKind::Utf8,
            nullability,
            bytes,
            views.as_slice(),
        )
    }
}
