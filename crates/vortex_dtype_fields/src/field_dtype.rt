//! The types of a struct's fields, and iterators over them.
ghost use Rattle.std.specs.Prelude.{◌≡◌, map, length, Some, IfOk, IfSome};
ghost use Rattle.std.specs.Iterator.{YieldsFirstBy, YieldsFirstRef, UpTo, item_count};
ghost use Rattle.std.specs.Iterator.SizeHint.{IsWithinCount};
ghost use Rattle.vortex_dtype_core.specs.View.{type_of, fields_of};
ghost use Rattle.vortex_dtype_fields.specs.Records.{types_of};

use std::alloc::AllocError;
use std::iter::ExactSizeIterator;
use vortex_dtype_core::dtype::DType;
use vortex_dtype_core::struct_fields::StructField;

/// The type of a field, as Vortex's `FieldDType`.
#[derive(Drop)]
pub struct FieldDType<'a> {
    dtype: &'a DType,
}

impl<'a> FieldDType<'a> {
    ghost use Rattle.vortex_dtype_fields.specs.Iterators.{value_of};

    /// A clone of the type, which shares its parts.
    pub fn value(&self) -> Result<DType, AllocError>
        ensures { IfOk result (λ dtype. type_of dtype ≡ type_of (value_of self.now)) }
    {
        let dtype = self.dtype.clone()?;
        Ok(dtype)
    }
}

/// Borrows the type.
impl<'a> From<&'a DType> for FieldDType<'a> {
    ghost use Rattle.vortex_dtype_fields.specs.Iterators.{value_of};

    ghost from_gives = { λ dtype field. value_of field ≡ dtype.now };

    fn from(dtype: &'a DType) -> FieldDType<'a> {
        FieldDType { dtype }
    }
}

/// Yields the types of a struct's fields in order.
#[derive(Drop)]
pub struct FieldTypesIter<'a> {
    fields: &'a [StructField],
}

impl<'a> FieldTypesIter<'a> {
    ghost use Rattle.vortex_dtype_fields.specs.Iterators.{types_left};

    #[tactic(auto, using(crate::proofs::Pieces::types_in_order))]
    pub(crate) fn new(fields: &'a [StructField]) -> FieldTypesIter<'a>
        ensures { map type_of (types_left result) ≡ types_of (fields_of fields.now) }
    {
        FieldTypesIter { fields }
    }
}

impl<'a> Iterator for FieldTypesIter<'a> {
    ghost use Rattle.vortex_dtype_fields.specs.Iterators.{types_left};

    type Item = &'a DType;

    ghost next_gives = { YieldsFirstRef types_left };

    ghost remaining = { item_count types_left };

    fn next(&mut self) -> Option<&'a DType> {
        let (first, others) = self.fields.split_first()?;
        self.fields = others;
        Some(&first.dtype)
    }

    fn size_hint(&self) -> (usize, Option<usize>)
        ensures lower { IsWithinCount result.0 (item_count types_left self.now) }
        ensures upper { IfSome result.1 (UpTo (item_count types_left self.now)) }
        ensures exact { (result.0 ≡ length (types_left self.now)) × (result.1 ≡ Some result.0) }
    {
        let len = self.fields.len();
        (len, Some(len))
    }
}

impl<'a> ExactSizeIterator for FieldTypesIter<'a> {
    fn len(&self) -> usize {
        self.fields.len()
    }
}

/// Yields the types of a struct's fields in order, as `FieldDType`s.
#[derive(Drop)]
pub struct FieldDTypesIter<'a> {
    types: FieldTypesIter<'a>,
}

impl<'a> FieldDTypesIter<'a> {
    ghost use Rattle.vortex_dtype_fields.specs.Iterators.{types_left, dtypes_left};

    pub(crate) fn new(types: FieldTypesIter<'a>) -> FieldDTypesIter<'a>
        ensures { dtypes_left result ≡ types_left types.entry }
    {
        FieldDTypesIter { types }
    }
}

impl<'a> Iterator for FieldDTypesIter<'a> {
    ghost use Rattle.vortex_dtype_fields.specs.Iterators.{value_of, dtypes_left};

    type Item = FieldDType<'a>;

    ghost next_gives = { YieldsFirstBy value_of dtypes_left };

    ghost remaining = { item_count dtypes_left };

    fn next(&mut self) -> Option<FieldDType<'a>> {
        let dtype = self.types.next()?;
        Some(FieldDType { dtype })
    }

    fn size_hint(&self) -> (usize, Option<usize>)
        ensures lower { IsWithinCount result.0 (item_count dtypes_left self.now) }
        ensures upper { IfSome result.1 (UpTo (item_count dtypes_left self.now)) }
        ensures exact { (result.0 ≡ length (dtypes_left self.now)) × (result.1 ≡ Some result.0) }
    {
        self.types.size_hint()
    }
}

impl<'a> ExactSizeIterator for FieldDTypesIter<'a> {
    fn len(&self) -> usize {
        self.types.len()
    }
}
