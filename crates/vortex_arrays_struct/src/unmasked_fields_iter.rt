//! The iterator of the fields of a struct array. Contracts see it as the list of the arrays that
//! are left.
ghost use Rattle.std.specs.Prelude.{◌≡◌, length, Some, IfSome};
ghost use Rattle.std.specs.Iterator.{YieldsFirstRef, UpTo, item_count};
ghost use Rattle.std.specs.Iterator.SizeHint.{IsWithinCount};

use std::iter::ExactSizeIterator;
use std::marker::Model;
use vortex_arrays_core::array::ArrayRef;

/// The arrays of fields in order, without the struct's nulls, as
/// `StructArray::iter_unmasked_fields` returns them.
#[derive(Drop)]
pub struct UnmaskedFieldsIter<'a> {
    fields: &'a [ArrayRef],
}

impl<'a> Model for UnmaskedFieldsIter<'a> {
    ghost use Rattle.std.specs.Prelude.{List};
    ghost use Rattle.std.specs.Coded.{codes};
    ghost use Rattle.vortex_arrays_model.specs.Layout.{Layout};
    ghost use Rattle.vortex_arrays_model.specs.LayoutCode.{layout_code};

    ghost Value = { List Layout };

    ghost coded = { Prim.hlevel (codes, layout_code) };

    ghost view = { λ rest. rest.fields.now };
}

impl<'a> UnmaskedFieldsIter<'a> {
    pub(crate) fn new(fields: &'a [ArrayRef]) -> UnmaskedFieldsIter<'a>
        ensures { result ≡ fields.now }
    {
        UnmaskedFieldsIter { fields }
    }
}

impl<'a> Iterator for UnmaskedFieldsIter<'a> {
    type Item = &'a ArrayRef;

    ghost next_gives = { YieldsFirstRef (λ rest. rest) };

    ghost remaining = { item_count (λ rest. rest) };

    fn next(&mut self) -> Option<&'a ArrayRef> {
        let (first, others) = self.fields.split_first()?;
        self.fields = others;
        Some(first)
    }

    fn size_hint(&self) -> (usize, Option<usize>)
        ensures lower { IsWithinCount result.0 (item_count (λ rest. rest) self.now) }
        ensures upper { IfSome result.1 (UpTo (item_count (λ rest. rest) self.now)) }
        ensures exact { (result.0 ≡ length self.now) × (result.1 ≡ Some result.0) }
    {
        let len = self.fields.len();
        (len, Some(len))
    }
}

impl<'a> ExactSizeIterator for UnmaskedFieldsIter<'a> {
    fn len(&self) -> usize {
        self.fields.len()
    }
}
