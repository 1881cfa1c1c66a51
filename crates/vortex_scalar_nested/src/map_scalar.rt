//! Views of maps.
ghost use Rattle.std.specs.Prelude.{◌≡◌, ◌==◌, IsTrue, Some, IfOk, option_map};
ghost use Rattle.vortex_model.specs.Content.{content_of, is_null};
ghost use Rattle.vortex_model.specs.Valid.{valid};
ghost use Rattle.vortex_dtype_core.specs.Parts.{is_map_type, entries_in_type};
ghost use Rattle.vortex_dtype_core.specs.View.{type_of, entries_in};
ghost use Rattle.vortex_scalar_value.specs.View.{raw_at};
ghost use Rattle.vortex_scalar_views.specs.Forms.{GivesView};
ghost use Rattle.vortex_scalar_views.specs.Views.{typed_scalar};
ghost use Rattle.vortex_scalar_nested.specs.Held.{raw_of_items};
ghost use Rattle.vortex_scalar_nested.specs.Places.{part_count};
ghost use Rattle.vortex_scalar_nested.specs.Entries.{entry_at};

use crate::copies::{pair_of, value_at};
use std::alloc::AllocError;
use vortex_dtype_core::dtype::DType;
use vortex_dtype_core::map_dtype::MapDType;
use vortex_scalar_core::scalar::Scalar;
use vortex_scalar_ops::validate::validate;
use vortex_scalar_value::error::ScalarError;
use vortex_scalar_value::scalar_value::ScalarValue;
use vortex_scalar_views::copies::scalar_of;

/// A map or null with its type, as Vortex's `MapScalar`.
#[derive(Drop)]
pub struct MapScalar<'a> {
    dtype: &'a DType,
    value: Option<&'a ScalarValue>,
    ghost is_map: { IsTrue (is_map_type (type_of dtype.now)) },
    ghost is_valid: { IsTrue (valid (type_of dtype.now) (raw_at value)) },
}

impl<'a> MapScalar<'a> {
    ghost use Rattle.vortex_scalar_nested.specs.Nested.{typed_map};

    /// The view, or `ScalarError::Invalid` where `dtype` isn't a map type, or doesn't have the
    /// value.
    pub fn try_new(
        dtype: &'a DType,
        value: Option<&'a ScalarValue>,
    ) -> Result<MapScalar<'a>, ScalarError>
        ensures { GivesView typed_map is_map_type (type_of dtype.now) (raw_at value.entry) result }
    {
        if !dtype.is_map() || !validate(dtype, value) {
            return Err(ScalarError::Invalid);
        }
        Ok(MapScalar::new(dtype, value))
    }

    /// The view of a value that the type has.
    pub(crate) fn new(dtype: &'a DType, value: Option<&'a ScalarValue>) -> MapScalar<'a>
        requires kind { IsTrue (is_map_type (type_of dtype.now)) }
        requires valid { IsTrue (valid (type_of dtype.now) (raw_at value)) }
        ensures { typed_map result ≡ (type_of dtype.now, raw_at value.entry) }
    {
        MapScalar { dtype, value }
    }

    pub fn dtype(&self) -> &'a DType
        ensures { type_of result.now ≡ (typed_map self.now).0 }
    {
        self.dtype
    }

    /// The map. `None` is null.
    pub fn value(&self) -> Option<&'a ScalarValue>
        ensures value { raw_at result ≡ (typed_map self.now).1 }
        ensures is_valid { IsTrue (valid (typed_map self.now).0 (raw_at result)) }
    {
        self.value
    }

    // The entries, and `None` for null.
    #[tactic(auto, using(crate::proofs::Pairs::held))]
    fn items(&self) -> Option<&'a [Option<ScalarValue>]>
        ensures value { raw_of_items result ≡ (typed_map self.now).1 }
        ensures is_valid { IsTrue (valid (typed_map self.now).0 (raw_of_items result)) }
    {
        match self.value {
            Some(value) => value.as_list(),
            None => None,
        }
    }

    pub fn map_dtype(&self) -> &'a MapDType
        ensures { entries_in_type (typed_map self.now).0 ≡ Some (entries_in result.now) }
    {
        match self.dtype.as_map_opt() {
            Some(map) => map,
            None => unreachable!(),
        }
    }

    #[tactic(auto, using(vortex_scalar_value::proofs::Nulls::never_null))]
    pub fn is_null(&self) -> bool
        ensures { result ≡ is_null (content_of (typed_map self.now).1) }
    {
        self.value.is_none()
    }

    /// The number of entries, and 0 for null.
    #[tactic(auto, using(crate::proofs::Elements::counted))]
    pub fn len(&self) -> usize
        ensures { result ≡ part_count (typed_map self.now).1 }
    {
        match self.items() {
            Some(entries) => entries.len(),
            None => 0,
        }
    }

    /// Whether there are no entries. Null has none.
    pub fn is_empty(&self) -> bool
        ensures { result ≡ (part_count (typed_map self.now).1 == 0) }
    {
        self.len() == 0
    }

    /// Clones of the key and the value of the entry at an index, and `None` past the end, and for
    /// null.
    #[tactic(auto, using(crate::proofs::Pairs::placed))]
    pub fn entry(&self, index: usize) -> Result<Option<(Scalar, Scalar)>, AllocError>
        ensures { IfOk result
            (λ entry. option_map (λ pair. (typed_scalar pair.0, typed_scalar pair.1)) entry
            ≡ entry_at (typed_map self.now) index) }
    {
        let Some(entries) = self.items() else {
            return Ok(None);
        };
        let Some(entry) = value_at(entries, index) else {
            return Ok(None);
        };
        let Some((key, value)) = pair_of(entry) else {
            return Ok(None);
        };
        let types = self.map_dtype();
        let key = scalar_of(types.key_dtype(), key)?;
        let value = scalar_of(types.value_dtype(), value)?;
        Ok(Some((key, value)))
    }
}
