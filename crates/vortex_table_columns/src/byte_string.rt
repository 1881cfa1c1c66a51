//! A column of bytes that grows by strings of hexadecimal digits.
ghost use Rattle.std.specs.Prelude.{◌≡◌, ◌≤◌, ◌<◌, ◌+◌, ◌/◌, ◌^◌, ◌++◌, ◌∷◌, ℕ, List, [], None, Some, Ok, map, length, take, IfOk, OnOk};
ghost use Rattle.hex.specs.Hex.{decode_of};
ghost use Rattle.vortex_model.specs.LogicalType.{binary};
ghost use Rattle.vortex_model.specs.Content.{raw_byte_string};
ghost use Rattle.vortex_dtype_ptype.specs.View.{nullability_of_flag};
ghost use Rattle.vortex_arrays_model.specs.Layout.{byte_strings};
ghost use Rattle.vortex_table_columns.specs.Cells.{cell_raw, IsColumn};
ghost use Rattle.vortex_table_columns.specs.Views.{values_of, AreValues};

use crate::DoesNotFit;
use crate::views::finish_values;
use std::alloc::Global;
use std::marker::Model;
use vortex_arrays_core::array::{ArrayRef, StringKind};
use vortex_arrays_view::build::MAX_BUFFER_LEN;
use vortex_arrays_view::view::{BinaryView, MAX_INLINED_SIZE};
use vortex_dtype_ptype::nullability::Nullability;

// Appends the bytes of hexadecimal digits, two digits for each byte. They don't fit if there would
// be 2^32 bytes or more, or the string is no such digits.
fn put_digits(bytes: &mut Vec<u8>, digits: &str) -> Result<(), DoesNotFit>
    ensures few { OnOk result (length bytes.new.items < 2 ^ 32) }
    ensures put { OnOk result ((value : List ℕ) × (decode_of digits.now ≡ Ok value)
        × (bytes.new.items ≡ bytes.old.items ++ value)) }
    ensures front { take (length bytes.old.items) bytes.new.items ≡ bytes.old.items }
{
    let start = bytes.len();
    let size = digits.len() / 2;
    if start > MAX_BUFFER_LEN || size > MAX_BUFFER_LEN - start {
        return Err(DoesNotFit);
    }
    bytes.resize(start + size, 0)?;
    match hex::decode_to_slice(digits, &mut bytes[start..]) {
        Ok(()) => Ok(()),
        Err(_) => Err(DoesNotFit),
    }
}

// Drops the bytes from an index on if a view has room for them.
fn keep_long(bytes: &mut Vec<u8>, start: usize)
    requires { start ≤ length bytes.old.items }
    ensures front { take start bytes.new.items ≡ take start bytes.old.items }
    ensures long { 12 + start < length bytes.old.items → bytes.new.items ≡ bytes.old.items }
{
    if bytes.len() - start <= MAX_INLINED_SIZE {
        bytes.truncate(start);
    }
}

// Appends a value, given in hexadecimal digits, to the views. Its bytes stay in the buffer if the
// view has no room for them.
fn push_digits(
    bytes: &mut Vec<u8>,
    views: &mut Vec<Option<BinaryView>>,
    digits: &str,
) -> Result<(), DoesNotFit>
    requires { AreValues byte_strings bytes.old.items views.old.items }
    ensures values { AreValues byte_strings bytes.new.items views.new.items }
    ensures pushed { OnOk result ((value : List ℕ) × (decode_of digits.now ≡ Ok value)
        × (values_of bytes.new.items views.new.items
        ≡ values_of bytes.old.items views.old.items ++ Some value ∷ [])) }
{
    let start = bytes.len();
    put_digits(bytes, digits)?;
    let view = BinaryView::make_view(&bytes[start..], 0, start as u32);
    keep_long(bytes, start);
    views.push(Some(view))?;
    Ok(())
}

/// Bytes and nulls: a view for each, and the bytes of long values end to end in one buffer.
#[derive(Drop)]
pub struct ByteCells {
    bytes: Vec<u8>,
    views: Vec<Option<BinaryView>>,
}

impl Model for ByteCells {
    ghost use Rattle.std.specs.Prelude.{ℕ, List, Option};
    ghost use Rattle.vortex_arrays_model.specs.Layout.{byte_strings};
    ghost use Rattle.vortex_table_columns.specs.Views.{values_of, AreValues};

    ghost Value = { List (Option (List ℕ)) };

    ghost view = { λ t. values_of t.bytes.items t.views.items };

    ghost invariant = { λ t. AreValues byte_strings t.bytes.items t.views.items };
}

impl ByteCells {
    pub fn new(alloc: Global) -> ByteCells
        ensures { result ≡ [] }
    {
        ByteCells {
            bytes: Vec::new(alloc),
            views: Vec::new(alloc),
        }
    }

    /// Adds a null.
    #[tactic(auto, using(crate::proofs::ViewLemmas::null_pushed))]
    pub fn push_null(&mut self) -> Result<(), DoesNotFit>
        ensures { OnOk result (self.new ≡ self.old ++ None ∷ []) }
    {
        self.views.push(None)?;
        Ok(())
    }

    /// Adds the bytes of a string of hexadecimal digits, two digits for each byte, in either case.
    /// Other strings don't fit, and neither do bytes with which the buffer would have 2^32 bytes or
    /// more.
    pub fn push_digits(&mut self, digits: &str) -> Result<(), DoesNotFit>
        ensures { OnOk result ((value : List ℕ) × (decode_of digits.now ≡ Ok value)
            × (self.new ≡ self.old ++ Some value ∷ [])) }
    {
        push_digits(&mut self.bytes, &mut self.views, digits)
    }

    /// The bytes as an array. A null doesn't fit in a type without null.
    pub fn finish(self, alloc: Global, nullability: Nullability) -> Result<ArrayRef, DoesNotFit>
        ensures { IfOk result (λ array. IsColumn (binary (nullability_of_flag nullability))
            (map (cell_raw raw_byte_string) self) array) }
    {
        let ByteCells { bytes, views } = self;
        finish_values(
            alloc,
            StringKind::Binary,
            nullability,
            bytes,
            views.as_slice(),
        )
    }
}
