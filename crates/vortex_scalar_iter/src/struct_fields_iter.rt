//! An iterator over the fields of a struct.
ghost use Rattle.std.specs.Prelude.{◌≡◌, IsTrue, Some, IfSome, length};
ghost use Rattle.std.specs.Iterator.{UpTo, item_count};
ghost use Rattle.std.specs.Iterator.SizeHint.{IsWithinCount};
ghost use Rattle.vortex_model.specs.Valid.{fields_have};
ghost use Rattle.vortex_dtype_core.specs.View.{fields_of};
ghost use Rattle.vortex_scalar_value.specs.View.{raws_in};
ghost use Rattle.vortex_scalar_views.specs.Views.{typed_scalar};
ghost use Rattle.vortex_scalar_iter.specs.Records.{each_field};

use std::alloc::AllocError;
use std::iter::ExactSizeIterator;
use vortex_dtype_core::struct_fields::StructField;
use vortex_scalar_core::scalar::Scalar;
use vortex_scalar_value::scalar_value::ScalarValue;
use vortex_scalar_views::copies::scalar_of;

/// Yields clones of a struct's fields in order. After an `Err` for memory it continues with the
/// next field.
#[derive(Drop)]
pub struct StructFieldsIter<'a> {
    fields: &'a [StructField],
    values: &'a [Option<ScalarValue>],
    ghost is_valid: { IsTrue (fields_have (fields_of fields.now) (raws_in values.now)) },
}

impl<'a> StructFieldsIter<'a> {
    ghost use Rattle.vortex_scalar_iter.specs.Iterators.{fields_left};

    /// The fields, each with the type and the value at its index.
    pub(crate) fn new(
        fields: &'a [StructField],
        values: &'a [Option<ScalarValue>],
    ) -> StructFieldsIter<'a>
        requires { IsTrue (fields_have (fields_of fields.now) (raws_in values.now)) }
        ensures { fields_left result ≡ each_field (fields_of fields.now) (raws_in values.now) }
    {
        StructFieldsIter { fields, values }
    }
}

impl<'a> Iterator for StructFieldsIter<'a> {
    ghost use Rattle.vortex_scalar_iter.specs.Iterators.{YieldsCopy, fields_left};

    type Item = Result<Scalar, AllocError>;

    ghost next_gives = { YieldsCopy typed_scalar fields_left };

    ghost remaining = { item_count fields_left };

    #[tactic(auto, using(crate::proofs::Records::first_of))]
    fn next(&mut self) -> Option<Result<Scalar, AllocError>> {
        let (field, fields) = self.fields.split_first()?;
        let (value, values) = self.values.split_first()?;
        *self = StructFieldsIter { fields, values };
        Some(scalar_of(&field.dtype, value.as_ref()))
    }

    #[tactic(auto, using(crate::proofs::Records::counted))]
    fn size_hint(&self) -> (usize, Option<usize>)
        ensures lower { IsWithinCount result.0 (item_count fields_left self.now) }
        ensures upper { IfSome result.1 (UpTo (item_count fields_left self.now)) }
        ensures exact { (result.0 ≡ length (fields_left self.now)) × (result.1 ≡ Some result.0) }
    {
        let len = self.fields.len();
        (len, Some(len))
    }
}

impl<'a> ExactSizeIterator for StructFieldsIter<'a> {
    #[tactic(auto, using(crate::proofs::Records::counted))]
    fn len(&self) -> usize {
        self.fields.len()
    }
}
