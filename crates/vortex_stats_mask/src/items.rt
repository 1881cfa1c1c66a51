//! The values of leaf columns, by their form.
ghost use Rattle.std.specs.Prelude.{◌≡◌, length, map, false, MatchOption};
ghost use Rattle.vortex_model.specs.Content.{boolean, integer, text, byte_string};
ghost use Rattle.vortex_arrays_buffer.specs.PrimitiveBuffers.{integers_of};
ghost use Rattle.vortex_stats_mask.specs.Integers.{integers_in};
ghost use Rattle.vortex_stats_mask.specs.Columns.{values_of, contents_of, are_bools, are_numbers, are_texts, are_binaries};

use crate::column::{Items, Numbers, Strings};
use vortex_arrays_buffer::primitive_buffer::PrimitiveBuffer;

impl Numbers<'_> {
    /// How many numbers there are.
    pub fn len(&self) -> usize
        ensures { result ≡ length (integers_in self.now) }
    {
        match self {
            Numbers::U8(items) => items.len(),
            Numbers::U16(items) => items.len(),
            Numbers::U32(items) => items.len(),
            Numbers::U64(items) => items.len(),
            Numbers::I8(items) => items.len(),
            Numbers::I16(items) => items.len(),
            Numbers::I32(items) => items.len(),
            Numbers::I64(items) => items.len(),
        }
    }
}

/// The numbers of a buffer, which lends them.
pub fn numbers_of(buffer: &PrimitiveBuffer) -> Numbers<'_>
    ensures { integers_in result ≡ integers_of buffer.now }
{
    match buffer {
        PrimitiveBuffer::U8(items) => Numbers::U8(items.as_slice()),
        PrimitiveBuffer::U16(items) => Numbers::U16(items.as_slice()),
        PrimitiveBuffer::U32(items) => Numbers::U32(items.as_slice()),
        PrimitiveBuffer::U64(items) => Numbers::U64(items.as_slice()),
        PrimitiveBuffer::I8(items) => Numbers::I8(items.as_slice()),
        PrimitiveBuffer::I16(items) => Numbers::I16(items.as_slice()),
        PrimitiveBuffer::I32(items) => Numbers::I32(items.as_slice()),
        PrimitiveBuffer::I64(items) => Numbers::I64(items.as_slice()),
    }
}

impl Items<'_> {
    /// How many values there are.
    pub fn len(&self) -> usize
        ensures { result ≡ length (contents_of self.now) }
    {
        match self {
            Items::Bools(items) => items.len(),
            Items::Numbers(numbers) => numbers.len(),
            Items::Texts(strings) => strings.views.len(),
            Items::Binaries(strings) => strings.views.len(),
        }
    }
}

impl<'a> Items<'a> {
    /// The booleans, where they are such.
    pub fn as_bools(&self) -> Option<&'a [bool]>
        ensures { MatchOption result (are_bools self.now ≡ false)
            (λ items. contents_of self.now ≡ map boolean items.now) }
    {
        match self {
            Items::Bools(items) => Some(*items),
            Items::Numbers(_) | Items::Texts(_) | Items::Binaries(_) => None,
        }
    }

    /// The numbers, where they are such.
    pub fn as_numbers(&self) -> Option<Numbers<'a>>
        ensures { MatchOption result (are_numbers self.now ≡ false)
            (λ numbers. contents_of self.now ≡ map integer (integers_in numbers)) }
    {
        match self {
            Items::Numbers(numbers) => Some(*numbers),
            Items::Bools(_) | Items::Texts(_) | Items::Binaries(_) => None,
        }
    }

    /// The strings, where they are such.
    pub fn as_texts(&self) -> Option<Strings<'a>>
        ensures { MatchOption result (are_texts self.now ≡ false)
            (λ strings. contents_of self.now ≡ map text (values_of strings)) }
    {
        match self {
            Items::Texts(strings) => Some(*strings),
            Items::Bools(_) | Items::Numbers(_) | Items::Binaries(_) => None,
        }
    }

    /// The bytes, where they are such.
    pub fn as_binaries(&self) -> Option<Strings<'a>>
        ensures { MatchOption result (are_binaries self.now ≡ false)
            (λ strings. contents_of self.now ≡ map byte_string (values_of strings)) }
    {
        match self {
            Items::Binaries(strings) => Some(*strings),
            Items::Bools(_) | Items::Numbers(_) | Items::Texts(_) => None,
        }
    }
}
