//! Which values of a dictionary are referenced.
ghost use Rattle.std.specs.Prelude.{◌≡◌, ◌↔◌, length, map, true, IsTrue, IfOk};
ghost use Rattle.std.specs.List.{All};
ghost use Rattle.vortex_arrays_model.specs.Layout.{numbers, required, len_of, array_type_of, AllReferenced, IsInteger};
ghost use Rattle.vortex_arrays_model.specs.Referenced.{MarksReferenced};
ghost use Rattle.vortex_arrays_model.specs.Parts.{AreWithin};
ghost use Rattle.vortex_arrays_buffer.specs.PrimitiveBuffers.{kind_of_numbers, integers_of};
ghost use Rattle.vortex_arrays_nested.specs.Shapes.{codes_in, values_in};

use crate::dict_array::DictArray;
use crate::reach::natural_of;
use std::alloc::{AllocError, Global};
use vortex_arrays_buffer::bit_buffer::BitBuffer;
use vortex_arrays_buffer::element::Element;
use vortex_arrays_buffer::primitive_buffer::PrimitiveBuffer;
use vortex_arrays_core::array::{ArrayLayout, ArrayRef, Validity};
use vortex_arrays_validity::places::places_or;

impl DictArray {
    /// A bit for each value: `referenced` exactly where a code is the value's index, as Vortex's
    /// `DictArrayExt::compute_referenced_values_mask`.
    pub fn compute_referenced_values_mask(
        &self,
        alloc: Global,
        referenced: bool,
    ) -> Result<BitBuffer, AllocError>
        ensures count { IfOk result (λ mask. length mask ≡ len_of (values_in self.now)) }
        ensures marks { IfOk result (λ mask.
            MarksReferenced (codes_in self.now) (len_of (codes_in self.now)) referenced mask) }
    {
        let (codes, values, _) = self.parts();
        let marks = referenced_marks(alloc, codes, values.len(), referenced)?;
        let mask = BitBuffer::from_bools(alloc, marks.as_slice())?;
        Ok(mask)
    }

    /// Whether each value is referenced, as `set_all_values_referenced` requires. Vortex's
    /// `DictArrayExt::validate_all_values_referenced` tests it.
    pub fn are_all_values_referenced(&self, alloc: Global) -> Result<bool, AllocError>
        ensures { IfOk result
            (λ all. IsTrue all ↔ AllReferenced (codes_in self.now) (values_in self.now)) }
    {
        let (codes, values, _) = self.parts();
        let marks = referenced_marks(alloc, codes, values.len(), true)?;
        let all = are_all_true(&marks);
        Ok(all)
    }
}

// `mark` for each value that a code refers to, and its negation for each other value.
#[tactic(auto, using(vortex_arrays_model::proofs::ReferencedLemmas::marks))]
fn referenced_marks(
    alloc: Global,
    codes: &ArrayRef,
    count: usize,
    mark: bool,
) -> Result<Vec<bool>, AllocError>
    requires kind { IsInteger (array_type_of codes.now) }
    requires named { AreWithin codes.now count }
    ensures count { IfOk result (λ marks. length marks.items ≡ count) }
    ensures marks { IfOk result
        (λ marks. MarksReferenced codes.now (len_of codes.now) mark marks.items) }
{
    if let ArrayLayout::Primitive(items, validity) = codes.layout() {
        if let Validity::NonNullable = validity {
            return numbers_marks(alloc, items, count, mark);
        }
    }
    let named = places_or(alloc, codes, count)?;
    let mut marks = vec![in alloc; !mark; count]?;
    for i in 0..named.len() {
        let value = named[i];
        if value < count {
            marks[value] = mark;
        }
    }
    Ok(marks)
}

// Marks the values that integer codes refer to. The integer type is matched once.
#[tactic(auto, using(vortex_arrays_buffer::proofs::NumberLemmas::eq_numbers))]
fn numbers_marks(
    alloc: Global,
    codes: &PrimitiveBuffer,
    count: usize,
    mark: bool,
) -> Result<Vec<bool>, AllocError>
    requires { AreWithin (numbers (kind_of_numbers codes.now) (integers_of codes.now) required)
        count }
    ensures count { IfOk result (λ marks. length marks.items ≡ count) }
    ensures marks { IfOk result
        (λ marks. MarksReferenced (numbers (kind_of_numbers codes.now) (integers_of codes.now)
        required) (length (integers_of codes.now)) mark marks.items) }
{
    match codes {
        PrimitiveBuffer::U8(items) => items_marks(alloc, items.as_slice(), count, mark),
        PrimitiveBuffer::U16(items) => items_marks(alloc, items.as_slice(), count, mark),
        PrimitiveBuffer::U32(items) => items_marks(alloc, items.as_slice(), count, mark),
        PrimitiveBuffer::U64(items) => items_marks(alloc, items.as_slice(), count, mark),
        PrimitiveBuffer::I8(items) => items_marks(alloc, items.as_slice(), count, mark),
        PrimitiveBuffer::I16(items) => items_marks(alloc, items.as_slice(), count, mark),
        PrimitiveBuffer::I32(items) => items_marks(alloc, items.as_slice(), count, mark),
        PrimitiveBuffer::I64(items) => items_marks(alloc, items.as_slice(), count, mark),
    }
}

// As `numbers_marks`, where the type is known.
#[tactic(auto, using(vortex_arrays_model::proofs::ReferencedLemmas::marks))]
fn items_marks<T: Element>(
    alloc: Global,
    codes: &[T],
    count: usize,
    mark: bool,
) -> Result<Vec<bool>, AllocError>
    requires { AreWithin (numbers T.kind (map T.integer codes.now) required) count }
    ensures count { IfOk result (λ marks. length marks.items ≡ count) }
    ensures marks { IfOk result
        (λ marks. MarksReferenced (numbers T.kind (map T.integer codes.now) required)
        (length codes.now) mark marks.items) }
{
    let mut marks = vec![in alloc; !mark; count]?;
    for i in 0..codes.len() {
        let place = natural_of(codes[i]);
        marks[place] = mark;
    }
    Ok(marks)
}

// Whether each bit is true.
fn are_all_true(bits: &[bool]) -> bool
    ensures { IsTrue result ↔ All (λ bit. bit ≡ true) bits.now }
{
    bits.iter().all(|bit| *bit)
}
