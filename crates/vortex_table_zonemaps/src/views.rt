//! Views of zones, and the bytes of long ones.
ghost use Rattle.std.specs.Prelude.{◌≡◌, length, take, IfOk, IfSome};
ghost use Rattle.vortex_table_zonemaps.specs.Views.{IsViewIn};

use crate::known::Known;
use bytes::Bytes;
use std::alloc::{AllocError, Global};
use vortex_arrays_core::array::StringKind;
use vortex_arrays_view::view::{BinaryView, MAX_INLINED_SIZE};

/// Views of strings, or of bytes. Long values lie one after another in one buffer, in the order of
/// the zones, so that a look at each zone reads memory in order.
#[derive(Drop)]
pub struct Views {
    pub kind: StringKind,
    pub views: Known<BinaryView>,
    pub bytes: Vec<u8>,
}

// The view of a value, which is put after the bytes if it is long. `None` where its size or its
// offset has more than 32 bits.
fn view_in(bytes: &mut Vec<u8>, value: &[u8]) -> Result<Option<BinaryView>, AllocError>
    ensures grown { take (length bytes.old.items) bytes.new.items ≡ bytes.old.items }
    ensures view { IfOk result
        (λ found. IfSome found (IsViewIn bytes.new.items value.now)) }
{
    if value.len() > u32::MAX as usize {
        return Ok(None);
    }
    let Ok(offset) = u32::try_from(bytes.len()) else {
        return Ok(None);
    };
    if value.len() > MAX_INLINED_SIZE {
        bytes.extend_from_slice(value)?;
    }
    Ok(Some(BinaryView::make_view(value, 0, offset)))
}

impl Views {
    ghost use Rattle.std.specs.Prelude.{◌≡◌, ◌∷◌, ◌++◌, [], ℕ, List, length, true, IfOk, OnOk};
    ghost use Rattle.vortex_model.specs.Content.{Content, null};
    ghost use Rattle.vortex_table_zonemaps.specs.Views.{AreViewsKnown};

    /// The views of no zones.
    pub fn new(alloc: Global, kind: StringKind) -> Views
        ensures { (f : List ℕ → Content) → AreViewsKnown f result [] }
    {
        Views {
            kind,
            views: Known::new(alloc),
            bytes: Vec::new(alloc),
        }
    }

    // Puts a value that is known after those of the first `count` zones. Answers whether it can be
    // held: it is of their kind, and sizes and offsets are of 32 bits.
    pub(crate) fn put(
        &mut self,
        count: usize,
        kind: StringKind,
        value: &Bytes,
    ) -> Result<bool, AllocError>
        ensures kind { self.new.kind ≡ self.old.kind }
        ensures alike { IfOk result (λ is_held. is_held ≡ true → self.old.kind ≡ kind) }
        ensures kept { (f : List ℕ → Content) (cs : List Content) → length cs ≡ count
            → AreViewsKnown f self.old cs → AreViewsKnown f self.new cs }
        ensures put { IfOk result (λ is_held. is_held ≡ true
            → (f : List ℕ → Content) (cs : List Content) → length cs ≡ count
            → AreViewsKnown f self.old cs → AreViewsKnown f self.new (cs ++ f value.now ∷ [])) }
    {
        if self.kind != kind {
            return Ok(false);
        }
        let Some(view) = view_in(&mut self.bytes, value.as_slice())? else {
            return Ok(false);
        };
        self.views.put(count, view, true)?;
        Ok(true)
    }

    // Puts a view that isn't known.
    pub(crate) fn put_null(&mut self, count: usize) -> Result<(), AllocError>
        ensures kind { self.new.kind ≡ self.old.kind }
        ensures kept { (f : List ℕ → Content) (cs : List Content) → length cs ≡ count
            → AreViewsKnown f self.old cs → AreViewsKnown f self.new cs }
        ensures put { OnOk result ((f : List ℕ → Content) (cs : List Content) → length cs ≡ count
            → AreViewsKnown f self.old cs → AreViewsKnown f self.new (cs ++ null ∷ [])) }
    {
        self.views.put(count, BinaryView::empty_view(), false)
    }
}
