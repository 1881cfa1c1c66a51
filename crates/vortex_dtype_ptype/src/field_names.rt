//! Field names, and lists of them.
ghost use Rattle.std.specs.Prelude.{◌≡◌, ◌==◌, ◌<◌, ◌↔◌, [], length, map, IfOk, IsTrue, option_copied, slice_get, nat_eq, Some, string_bytes};
ghost use Rattle.std.specs.Cmp.{partial_equiv_from_equiv};
ghost use Rattle.std.specs.Cmp.Lexicographic.{pointwise, lists_equiv, nat_list_eq_equiv};
ghost use Rattle.vortex_dtype_ptype.specs.View.{IsFirstPlace};

use crate::field_names_iter::{FieldNamesIntoIter, FieldNamesIter};
use bytes::ByteStr;
use std::alloc::{AllocError, Global};
use std::convert::AsStr;
use std::fmt;
use std::marker::Model;
use std::ops::Index;

/// The name of a struct's field, as Vortex's `FieldName`. Clones share its bytes.
#[derive(Drop)]
pub struct FieldName {
    text: ByteStr,
}

// In contracts a name is its bytes.
impl Model for FieldName {
    ghost use Rattle.std.specs.Prelude.{ℕ, List};

    ghost Value = { List ℕ };

    ghost view = { λ name. name.text };
}

impl FieldName {
    /// Copies the string.
    pub fn new(alloc: Global, text: &str) -> Result<FieldName, AllocError>
        ensures { IfOk result (λ name. name ≡ text.now) }
    {
        let text = ByteStr::copy_from_str(alloc, text)?;
        Ok(FieldName { text })
    }

    pub fn as_str(&self) -> &str
        ensures { result.now ≡ self.now }
    {
        self.text.as_str()
    }

    /// The shared string.
    pub fn inner(&self) -> &ByteStr
        ensures { result.now ≡ self.now }
    {
        &self.text
    }

    pub fn eq_text(&self, text: &str) -> bool
        ensures { IsTrue result ↔ (self.now ≡ text.now) }
    {
        self.text.as_str() == text
    }
}

impl AsStr for FieldName {
    ghost text = { λ name. name };

    fn as_str(&self) -> &str {
        self.text.as_str()
    }
}

/// Copies the string.
impl TryFrom<(Global, &str)> for FieldName {
    type Error = AllocError;

    ghost try_from_gives = { λ p result. IfOk result (λ name. name ≡ p.1.now) };

    fn try_from((alloc, text): (Global, &str)) -> Result<FieldName, AllocError> {
        FieldName::new(alloc, text)
    }
}

/// Takes over the string, and copies no byte.
impl TryFrom<String> for FieldName {
    type Error = AllocError;

    ghost try_from_gives = { λ text result. IfOk result (λ name. name ≡ string_bytes text) };

    fn try_from(text: String) -> Result<FieldName, AllocError> {
        let text = ByteStr::from_string(text)?;
        Ok(FieldName { text })
    }
}

/// Shares the string, and copies no byte.
impl From<ByteStr> for FieldName {
    ghost from_gives = { λ text name. name ≡ text };

    fn from(text: ByteStr) -> FieldName {
        FieldName { text }
    }
}

impl Clone for FieldName {
    ghost is_clone = { λ old new. new ≡ old };

    fn clone(&self) -> Result<FieldName, AllocError> {
        Ok(FieldName {
            text: self.text.clone()?,
        })
    }
}

impl PartialEq for FieldName {
    ghost eq = { pointwise nat_eq };

    ghost laws = { partial_equiv_from_equiv nat_list_eq_equiv };

    fn eq(&self, other: &FieldName) -> bool {
        self.text == other.text
    }
}

impl Eq for FieldName {
    ghost laws = { nat_list_eq_equiv };
}

impl fmt::Display for FieldName {
    ghost output = { λ name. Some name };

    fn fmt<W: fmt::Write>(&self, f: &mut fmt::Formatter<W>) -> fmt::Result {
        fmt::Display::fmt(&self.text, f)
    }
}

/// A list of field names, as Vortex's `FieldNames`. As a path it leads from the outermost struct
/// inward.
#[derive(Drop)]
pub struct FieldNames {
    names: Vec<FieldName>,
}

// In contracts it is the list of the names' bytes.
impl Model for FieldNames {
    ghost use Rattle.std.specs.Prelude.{ℕ, List};

    ghost Value = { List (List ℕ) };

    ghost view = { λ path. path.names.items };
}

impl FieldNames {
    pub fn new(names: Vec<FieldName>) -> FieldNames
        ensures { result ≡ names.items }
    {
        FieldNames { names }
    }

    pub fn empty(alloc: Global) -> FieldNames
        ensures { result ≡ [] }
    {
        FieldNames {
            names: Vec::new(alloc),
        }
    }

    /// Copies the strings, in order.
    pub fn from_names(alloc: Global, names: &[&str]) -> Result<FieldNames, AllocError>
        ensures { IfOk result (λ made. made ≡ map (λ name. name.now) names.now) }
    {
        let mut made = Vec::with_capacity(alloc, names.len())?;
        for name in names {
            made.push(FieldName::new(alloc, name)?)?;
        }
        Ok(FieldNames::new(made))
    }

    pub fn len(&self) -> usize
        ensures { result ≡ length self.now }
    {
        self.names.len()
    }

    pub fn is_empty(&self) -> bool
        ensures { result ≡ (length self.now == 0) }
    {
        self.names.is_empty()
    }

    pub fn as_slice(&self) -> &[FieldName]
        ensures { result.now ≡ self.now }
    {
        self.names.as_slice()
    }

    /// The name at an index, and `None` past the end.
    pub fn get(&self, index: usize) -> Option<&FieldName>
        ensures { option_copied result ≡ slice_get self.now index }
    {
        self.names.get(index)
    }

    /// The index of the first name equal to `text`.
    pub fn find(&self, text: &str) -> Option<usize>
        ensures { IsFirstPlace self.now text.now result }
    {
        for (place, name) in self.names.iter().enumerate() {
            if name.eq_text(text) {
                return Some(place);
            }
        }
        None
    }

    /// An iterator over the names by reference.
    pub fn iter(&self) -> FieldNamesIter<'_>
        ensures { result ≡ self.now }
    {
        FieldNamesIter::new(self.names.as_slice())
    }
}

impl Index<usize> for FieldNames {
    type Output = FieldName;

    ghost can_index = { λ names place. place < length names };

    ghost index_gives = { λ names place name. slice_get names place ≡ Some name };

    fn index(&self, place: usize) -> &FieldName {
        &self.names[place]
    }
}

impl PartialEq for FieldNames {
    ghost eq = { pointwise (pointwise nat_eq) };

    ghost laws = { partial_equiv_from_equiv (lists_equiv nat_list_eq_equiv) };

    fn eq(&self, other: &FieldNames) -> bool {
        self.names == other.names
    }
}

impl Eq for FieldNames {
    ghost laws = { lists_equiv nat_list_eq_equiv };
}

impl<'a> IntoIterator for &'a FieldNames {
    type Item = &'a FieldName;

    type IntoIter = FieldNamesIter<'a>;

    ghost into_iter_gives = { λ names rest. rest ≡ names.now };

    fn into_iter(self) -> FieldNamesIter<'a> {
        self.iter()
    }
}

impl IntoIterator for FieldNames {
    type Item = FieldName;

    type IntoIter = FieldNamesIntoIter;

    ghost into_iter_gives = { λ names rest. rest ≡ names };

    fn into_iter(self) -> FieldNamesIntoIter {
        let FieldNames { names } = self;
        FieldNamesIntoIter::new(names)
    }
}

impl From<Vec<FieldName>> for FieldNames {
    ghost from_gives = { λ names path. path ≡ names.items };

    fn from(names: Vec<FieldName>) -> FieldNames {
        FieldNames::new(names)
    }
}

impl Clone for FieldNames {
    ghost is_clone = { λ old new. new ≡ old };

    fn clone(&self) -> Result<FieldNames, AllocError> {
        let mut names = Vec::with_capacity(*self.names.allocator(), self.names.len())?;
        for name in &self.names {
            names.push(name.clone()?)?;
        }
        Ok(FieldNames { names })
    }
}
