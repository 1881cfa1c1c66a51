//! Constructors of nested scalars.
ghost use Rattle.std.specs.Prelude.{◌≡◌, ◌≢◌, ◌&&◌, true, false, IfOk, IfErr, IsTrue, map, length, nat_le};
ghost use Rattle.vortex_model.specs.LogicalType.{LogicalType, list, fixed_list, mapping, union, extension};
ghost use Rattle.vortex_model.specs.Content.{Raw, raw_tuple, raw_tagged};
ghost use Rattle.vortex_model.specs.Valid.{valid};
ghost use Rattle.vortex_dtype_ptype.specs.View.{nullability_of_flag};
ghost use Rattle.vortex_dtype_core.specs.View.{type_of, extension_type, entries_in, variants_in};
ghost use Rattle.vortex_scalar_value.specs.View.{raws_from, raws_in};
ghost use Rattle.vortex_scalar_value.specs.declared.error.ScalarError.TheVariants.{Memory, Invalid};
ghost use Rattle.vortex_scalar_core.specs.Scalar.{scalar_type, scalar_raw};
ghost use Rattle.vortex_scalar_builders.specs.nested.Children.{GivesNested, all_are, is_record_of, all_are_entries, is_choice, raw_entry};

use crate::nested::children::{all_are, all_are_entries, is_choice, is_record_of};
use crate::nested::values::{entries_of, into_value, values_of};
use std::alloc::Global;
use std::rc::Rc;
use vortex_dtype_core::dtype::DType;
use vortex_dtype_core::extension::ExtDTypeRef;
use vortex_dtype_core::map_dtype::MapDType;
use vortex_dtype_core::union_variants::UnionVariants;
use vortex_dtype_proto::ext_dtype::ExtDType;
use vortex_dtype_proto::vtable::ExtVTable;
use vortex_dtype_ptype::nullability::Nullability;
use vortex_scalar_core::scalar::Scalar;
use vortex_scalar_value::error::ScalarError;
use vortex_scalar_value::scalar_value::ScalarValue;
use vortex_scalar_value::union_value::UnionValue;

/// Constructors of nested scalars from their parts, which are methods of Vortex's `Scalar`. Each
/// moves the parts, and takes time linear in their number and in the sizes of their types.
pub trait NestedScalarConstructors {
    ghost kind: { Self → LogicalType };

    ghost raw: { Self → Raw };

    /// A list, or `ScalarError::Invalid` where an element doesn't have the element type.
    fn list(
        element: Rc<DType>,
        children: Vec<Self>,
        nullability: Nullability,
    ) -> Result<Self, ScalarError>
        ensures { GivesNested kind raw
            (list (type_of element.value) (nullability_of_flag nullability))
            (raw_tuple (raws_from (map raw children.items)))
            (all_are (type_of element.value) (map kind children.items)) result };

    /// A list whose length is in its type. `ScalarError::Invalid` where an element doesn't have the
    /// element type, or there are more than `u32::MAX`.
    fn fixed_size_list(
        element: Rc<DType>,
        children: Vec<Self>,
        nullability: Nullability,
    ) -> Result<Self, ScalarError>
        ensures { GivesNested kind raw
            (fixed_list (type_of element.value) (length children.items)
            (nullability_of_flag nullability))
            (raw_tuple (raws_from (map raw children.items)))
            (nat_le (length children.items) 4294967295 && all_are (type_of element.value)
            (map kind children.items)) result };

    /// A struct's value from those of its fields, in order. `ScalarError::Invalid` where `dtype`
    /// isn't a struct type, or the values don't have the types of its fields.
    fn struct_(dtype: DType, children: Vec<Self>) -> Result<Self, ScalarError>
        ensures { GivesNested kind raw
            (type_of dtype)
            (raw_tuple (raws_from (map raw children.items)))
            (is_record_of (type_of dtype) (map kind children.items)) result };

    /// A struct's value, for a caller that knows that the type has it. Nothing is tested when it
    /// runs.
    fn struct_unchecked(dtype: DType, values: Vec<Option<ScalarValue>>) -> Self
        requires { IsTrue (valid (type_of dtype) (raw_tuple (raws_in values.items))) }
        ensures dtype { kind result ≡ type_of dtype }
        ensures value { raw result ≡ raw_tuple (raws_in values.items) };

    /// A map from its entries, each a key and a value. `ScalarError::Invalid` where one doesn't
    /// have the key type or the value type.
    fn map(
        types: MapDType,
        entries: Vec<(Self, Self)>,
        nullability: Nullability,
    ) -> Result<Self, ScalarError>
        ensures { GivesNested kind raw
            (mapping (entries_in types).key (entries_in types).value (entries_in types).sorted
            (nullability_of_flag nullability))
            (raw_tuple
            (raws_from (map (λ entry. raw_entry (raw entry.0) (raw entry.1)) entries.items)))
            (all_are_entries (entries_in types).key (entries_in types).value
            (map (λ entry. (kind entry.0, kind entry.1)) entries.items)) result };

    /// As `map`, by the name of Vortex's fallible form.
    fn try_map(
        types: MapDType,
        entries: Vec<(Self, Self)>,
        nullability: Nullability,
    ) -> Result<Self, ScalarError>
        ensures { GivesNested kind raw
            (mapping (entries_in types).key (entries_in types).value (entries_in types).sorted
            (nullability_of_flag nullability))
            (raw_tuple
            (raws_from (map (λ entry. raw_entry (raw entry.0) (raw entry.1)) entries.items)))
            (all_are_entries (entries_in types).key (entries_in types).value
            (map (λ entry. (kind entry.0, kind entry.1)) entries.items)) result };

    /// A union's value with its tag. `ScalarError::Invalid` where no variant has the tag, or the
    /// value doesn't have that variant's type.
    fn union(
        alloc: Global,
        variants: UnionVariants,
        type_id: i8,
        child: Self,
        nullability: Nullability,
    ) -> Result<Self, ScalarError>
        ensures { GivesNested kind raw
            (union (variants_in variants) (nullability_of_flag nullability))
            (raw_tagged type_id (raw child))
            (is_choice (variants_in variants) type_id (kind child)) result };

    /// The value as one of the extension with this metadata over its type. `ScalarError::Invalid`
    /// where the type can't be the storage.
    fn extension<V: ExtVTable + Default>(
        alloc: Global,
        metadata: V::Metadata,
        storage: Self,
    ) -> Result<Self, ScalarError>
        ensures made { IfOk result (λ made. (v : V) × V.is_default v
            × (V.fits v metadata (kind storage) ≡ true)
            × (kind made ≡ extension (V.name v) (V.writes v metadata) (kind storage))
            × (raw made ≡ raw storage)) }
        ensures refused { IfErr result (λ e. e ≢ Memory
            → (e ≡ Invalid)
            × ((v : V) × V.is_default v × (V.fits v metadata (kind storage) ≡ false))) };
}

impl NestedScalarConstructors for Scalar {
    ghost kind = { scalar_type };

    ghost raw = { scalar_raw };

    #[tactic(auto, using(crate::proofs::nested::Made::lists))]
    fn list(
        element: Rc<DType>,
        children: Vec<Scalar>,
        nullability: Nullability,
    ) -> Result<Scalar, ScalarError>
        ensures { GivesNested scalar_type scalar_raw
            (list (type_of element.value) (nullability_of_flag nullability))
            (raw_tuple (raws_from (map scalar_raw children.items)))
            (all_are (type_of element.value) (map scalar_type children.items)) result }
    {
        if !all_are(&element, &children) {
            return Err(ScalarError::Invalid);
        }
        let values = values_of(children)?;
        let dtype = DType::List(element, nullability);
        Ok(Scalar::new_unchecked(dtype, Some(ScalarValue::Tuple(values))))
    }

    #[tactic(auto, using(crate::proofs::nested::Made::fixed_lists))]
    fn fixed_size_list(
        element: Rc<DType>,
        children: Vec<Scalar>,
        nullability: Nullability,
    ) -> Result<Scalar, ScalarError>
        ensures { GivesNested scalar_type scalar_raw
            (fixed_list (type_of element.value) (length children.items)
            (nullability_of_flag nullability))
            (raw_tuple (raws_from (map scalar_raw children.items)))
            (nat_le (length children.items) 4294967295 && all_are (type_of element.value)
            (map scalar_type children.items)) result }
    {
        let Ok(size) = u32::try_from(children.len()) else {
            return Err(ScalarError::Invalid);
        };
        if !all_are(&element, &children) {
            return Err(ScalarError::Invalid);
        }
        let values = values_of(children)?;
        let dtype = DType::FixedSizeList(element, size, nullability);
        Ok(Scalar::new_unchecked(dtype, Some(ScalarValue::Tuple(values))))
    }

    #[tactic(auto, using(crate::proofs::nested::Made::records))]
    fn struct_(dtype: DType, children: Vec<Scalar>) -> Result<Scalar, ScalarError>
        ensures { GivesNested scalar_type scalar_raw
            (type_of dtype)
            (raw_tuple (raws_from (map scalar_raw children.items)))
            (is_record_of (type_of dtype) (map scalar_type children.items)) result }
    {
        if !is_record_of(&dtype, &children) {
            return Err(ScalarError::Invalid);
        }
        let values = values_of(children)?;
        Ok(Scalar::new_unchecked(dtype, Some(ScalarValue::Tuple(values))))
    }

    #[tactic(auto, using(crate::proofs::nested::Made::unchecked))]
    fn struct_unchecked(dtype: DType, values: Vec<Option<ScalarValue>>) -> Scalar {
        Scalar::new_unchecked(dtype, Some(ScalarValue::Tuple(values)))
    }

    fn map(
        types: MapDType,
        entries: Vec<(Scalar, Scalar)>,
        nullability: Nullability,
    ) -> Result<Scalar, ScalarError>
        ensures { GivesNested scalar_type scalar_raw
            (mapping (entries_in types).key (entries_in types).value (entries_in types).sorted
            (nullability_of_flag nullability))
            (raw_tuple
            (raws_from
            (map (λ entry. raw_entry (scalar_raw entry.0) (scalar_raw entry.1)) entries.items)))
            (all_are_entries (entries_in types).key (entries_in types).value
            (map (λ entry. (scalar_type entry.0, scalar_type entry.1)) entries.items)) result }
    {
        Scalar::try_map(types, entries, nullability)
    }

    #[tactic(auto, using(crate::proofs::nested::Made::maps))]
    fn try_map(
        types: MapDType,
        entries: Vec<(Scalar, Scalar)>,
        nullability: Nullability,
    ) -> Result<Scalar, ScalarError>
        ensures { GivesNested scalar_type scalar_raw
            (mapping (entries_in types).key (entries_in types).value (entries_in types).sorted
            (nullability_of_flag nullability))
            (raw_tuple
            (raws_from
            (map (λ entry. raw_entry (scalar_raw entry.0) (scalar_raw entry.1)) entries.items)))
            (all_are_entries (entries_in types).key (entries_in types).value
            (map (λ entry. (scalar_type entry.0, scalar_type entry.1)) entries.items)) result }
    {
        if !all_are_entries(&types, &entries) {
            return Err(ScalarError::Invalid);
        }
        let values = entries_of(entries)?;
        let dtype = DType::Map(types, nullability);
        Ok(Scalar::new_unchecked(dtype, Some(ScalarValue::Tuple(values))))
    }

    #[tactic(auto, using(crate::proofs::nested::Made::unions))]
    fn union(
        alloc: Global,
        variants: UnionVariants,
        type_id: i8,
        child: Scalar,
        nullability: Nullability,
    ) -> Result<Scalar, ScalarError> {
        if !is_choice(variants.as_slice(), type_id, &child) {
            return Err(ScalarError::Invalid);
        }
        let value = UnionValue::try_new(alloc, type_id, into_value(child))?;
        let dtype = DType::Union(variants, nullability);
        Ok(Scalar::new_unchecked(dtype, Some(ScalarValue::Union(value))))
    }

    #[tactic(auto, using(crate::proofs::nested::Made::extensions))]
    fn extension<V: ExtVTable + Default>(
        alloc: Global,
        metadata: V::Metadata,
        storage: Scalar,
    ) -> Result<Scalar, ScalarError> {
        let extension = extension_of::<V>(alloc, metadata, storage.dtype())?;
        let dtype = DType::Extension(extension);
        Ok(Scalar::new_unchecked(dtype, into_value(storage)))
    }
}

// The extension with this metadata over the type.
fn extension_of<V: ExtVTable + Default>(
    alloc: Global,
    metadata: V::Metadata,
    storage: &DType,
) -> Result<ExtDTypeRef, ScalarError>
    ensures made { IfOk result (λ made. (v : V) × V.is_default v
        × (V.fits v metadata (type_of storage.now) ≡ true)
        × (extension_type made ≡ extension (V.name v) (V.writes v metadata)
        (type_of storage.now))) }
    ensures refused { IfErr result (λ e. e ≢ Memory
        → (e ≡ Invalid)
        × ((v : V) × V.is_default v × (V.fits v metadata (type_of storage.now) ≡ false))) }
{
    let storage = storage.clone()?;
    let Ok(extension) = ExtDType::<V>::try_new(metadata, storage) else {
        return Err(ScalarError::Invalid);
    };
    let made = extension.erased(alloc)?;
    Ok(made)
}
