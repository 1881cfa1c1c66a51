//! Iterators over field names. In contracts each is the list of the names that it has left.
ghost use Rattle.std.specs.Prelude.{◌≡◌, ◌++◌, length, Some, IfSome, OnOk};
ghost use Rattle.std.specs.Iterator.{YieldsFirst, YieldsFirstRef, UpTo, item_count};
ghost use Rattle.std.specs.Iterator.SizeHint.{IsWithinCount};

use crate::field_names::FieldName;
use std::alloc::AllocError;
use std::collections::VecDeque;
use std::iter::ExactSizeIterator;
use std::marker::Model;

/// Yields names by reference, as Vortex's `FieldNamesIter`.
#[derive(Drop)]
pub struct FieldNamesIter<'a> {
    names: &'a [FieldName],
}

impl<'a> Model for FieldNamesIter<'a> {
    ghost use Rattle.std.specs.Prelude.{ℕ, List};

    ghost Value = { List (List ℕ) };

    ghost view = { λ rest. rest.names.now };
}

impl<'a> FieldNamesIter<'a> {
    pub(crate) fn new(names: &'a [FieldName]) -> FieldNamesIter<'a>
        ensures { result ≡ names.now }
    {
        FieldNamesIter { names }
    }
}

impl<'a> Iterator for FieldNamesIter<'a> {
    type Item = &'a FieldName;

    ghost next_gives = { YieldsFirstRef (λ rest. rest) };

    ghost remaining = { item_count (λ rest. rest) };

    fn next(&mut self) -> Option<&'a FieldName> {
        let (first, others) = self.names.split_first()?;
        self.names = others;
        Some(first)
    }

    fn size_hint(&self) -> (usize, Option<usize>)
        ensures lower { IsWithinCount result.0 (item_count (λ rest. rest) self.now) }
        ensures upper { IfSome result.1 (UpTo (item_count (λ rest. rest) self.now)) }
        ensures exact { (result.0 ≡ length self.now) × (result.1 ≡ Some result.0) }
    {
        let len = self.names.len();
        (len, Some(len))
    }
}

impl<'a> ExactSizeIterator for FieldNamesIter<'a> {
    fn len(&self) -> usize {
        self.names.len()
    }
}

/// Yields names by value, as Vortex's `FieldNamesIntoIter`.
#[derive(Drop)]
pub struct FieldNamesIntoIter {
    names: VecDeque<FieldName>,
}

impl Model for FieldNamesIntoIter {
    ghost use Rattle.std.specs.Prelude.{ℕ, List};

    ghost Value = { List (List ℕ) };

    ghost view = { λ rest. rest.names.items };
}

impl FieldNamesIntoIter {
    pub(crate) fn new(names: Vec<FieldName>) -> FieldNamesIntoIter
        ensures { result ≡ names.items }
    {
        FieldNamesIntoIter {
            names: VecDeque::from_vec(names),
        }
    }
}

/// A clone yields the names that are left.
impl Clone for FieldNamesIntoIter {
    ghost is_clone = { λ old new. new ≡ old };

    fn clone(&self) -> Result<FieldNamesIntoIter, AllocError> {
        let mut names = Vec::with_capacity(*self.names.allocator(), self.names.len())?;
        let (front, back) = self.names.as_slices();
        push_copies(&mut names, front)?;
        push_copies(&mut names, back)?;
        Ok(FieldNamesIntoIter::new(names))
    }
}

impl Iterator for FieldNamesIntoIter {
    type Item = FieldName;

    ghost next_gives = { YieldsFirst (λ rest. rest) };

    ghost remaining = { item_count (λ rest. rest) };

    fn next(&mut self) -> Option<FieldName> {
        self.names.pop_front()
    }

    fn size_hint(&self) -> (usize, Option<usize>)
        ensures lower { IsWithinCount result.0 (item_count (λ rest. rest) self.now) }
        ensures upper { IfSome result.1 (UpTo (item_count (λ rest. rest) self.now)) }
        ensures exact { (result.0 ≡ length self.now) × (result.1 ≡ Some result.0) }
    {
        let left = self.names.len();
        (left, Some(left))
    }
}

impl ExactSizeIterator for FieldNamesIntoIter {
    fn len(&self) -> usize {
        self.names.len()
    }
}

fn push_copies(names: &mut Vec<FieldName>, more: &[FieldName]) -> Result<(), AllocError>
    ensures { OnOk result (names.new.items ≡ names.old.items ++ more.now) }
{
    for name in more {
        names.push(name.clone()?)?;
    }
    Ok(())
}
