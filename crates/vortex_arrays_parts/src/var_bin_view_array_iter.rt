//! Arrays of strings and of bytes from iterators over their values, and their values in order.
ghost use Rattle.std.specs.Prelude.{◌≡◌, ◌⊎◌, ◌<◌, ℕ, List, Option, Some, map, option_map, IfOk, IfErr};
ghost use Rattle.std.specs.Iterator.{Drains, IsFinite};
ghost use Rattle.vortex_model.specs.LogicalType.{utf8, binary, nullable, non_nullable};
ghost use Rattle.vortex_dtype_core.specs.View.{type_of};
ghost use Rattle.vortex_arrays_view.specs.declared.error.ArrayError.TheVariants.{Memory};
ghost use Rattle.vortex_arrays_model.specs.Layout.{Layout, len_of};
ghost use Rattle.vortex_arrays_parts.specs.Values.{lent, value_at, values_of, IsOfValues, IsValuesFault};

use crate::of_items::{of_bytes, of_some_bytes, of_some_texts, of_texts, of_typed};
use std::alloc::{AllocError, Global};
use std::convert::{AsSlice, AsStr};
use vortex_arrays_leaf::view_array::VarBinViewArray;
use vortex_arrays_view::error::ArrayError;
use vortex_dtype_core::dtype::DType;

/// The calls of Vortex's `VarBinViewArray` that iterate over values. An iterator is consumed to its
/// end; values of at most twelve bytes are copied into their views, the others into buffers.
/// `Total` where a value is longer than a buffer can be, or there would be more than 2^32 buffers.
pub trait VarBinViewArrayIter: Sized {
    // The layout of the array.
    ghost layout: { Self → Layout };

    /// An array of this type of the iterator's values, with null for each `None`, as Vortex's
    /// `VarBinViewArray::from_iter`.
    ///
    /// `WrongType` where the type is neither `Utf8` nor `Binary`, else `NullInNonNullable` where
    /// there is a `None` and the type has no null, else `Total`, else `NotUtf8` where the type is
    /// `Utf8` and a value is not UTF-8.
    fn from_iter<T: AsSlice<u8> + Drop, I: IntoIterator<Item = Option<T>>>(
        alloc: Global,
        iter: I,
        dtype: DType,
    ) -> Result<Self, ArrayError>
        requires { (it : I.IntoIter) → I.into_iter_gives iter it
            → I.IntoIter.can_next it × IsFinite (I.IntoIter.remaining it) }
        ensures made { IfOk result (λ a. (it : I.IntoIter) × (xs : List (Option T))
            × I.into_iter_gives iter it × Drains I.IntoIter.next_gives it xs
            × IsOfValues (type_of dtype) (map (option_map T.items) xs) (layout a)) }
        ensures refused { IfErr result (λ e. (e ≡ Memory)
            ⊎ ((it : I.IntoIter) × (xs : List (Option T))
            × I.into_iter_gives iter it × Drains I.IntoIter.next_gives it xs
            × IsValuesFault e (type_of dtype) (map (option_map T.items) xs))) };

    /// An array of the iterator's strings, of the type without null, as Vortex's
    /// `VarBinViewArray::from_iter_str`.
    fn from_iter_str<T: AsStr + Drop, I: IntoIterator<Item = T>>(
        alloc: Global,
        iter: I,
    ) -> Result<Self, ArrayError>
        requires { (it : I.IntoIter) → I.into_iter_gives iter it
            → I.IntoIter.can_next it × IsFinite (I.IntoIter.remaining it) }
        ensures made { IfOk result (λ a. (it : I.IntoIter) × (xs : List T)
            × I.into_iter_gives iter it × Drains I.IntoIter.next_gives it xs
            × IsOfValues (utf8 non_nullable) (map (option_map T.text) (map Some xs)) (layout a)) }
        ensures refused { IfErr result (λ e. (e ≡ Memory)
            ⊎ ((it : I.IntoIter) × (xs : List T)
            × I.into_iter_gives iter it × Drains I.IntoIter.next_gives it xs
            × IsValuesFault e (utf8 non_nullable) (map (option_map T.text) (map Some xs)))) };

    /// An array of the iterator's strings, with null for each `None`, as Vortex's
    /// `VarBinViewArray::from_iter_nullable_str`. Its type is nullable even without a `None`.
    fn from_iter_nullable_str<T: AsStr + Drop, I: IntoIterator<Item = Option<T>>>(
        alloc: Global,
        iter: I,
    ) -> Result<Self, ArrayError>
        requires { (it : I.IntoIter) → I.into_iter_gives iter it
            → I.IntoIter.can_next it × IsFinite (I.IntoIter.remaining it) }
        ensures made { IfOk result (λ a. (it : I.IntoIter) × (xs : List (Option T))
            × I.into_iter_gives iter it × Drains I.IntoIter.next_gives it xs
            × IsOfValues (utf8 nullable) (map (option_map T.text) xs) (layout a)) }
        ensures refused { IfErr result (λ e. (e ≡ Memory)
            ⊎ ((it : I.IntoIter) × (xs : List (Option T))
            × I.into_iter_gives iter it × Drains I.IntoIter.next_gives it xs
            × IsValuesFault e (utf8 nullable) (map (option_map T.text) xs))) };

    /// An array of the iterator's byte strings, of the type without null, as Vortex's
    /// `VarBinViewArray::from_iter_bin`.
    fn from_iter_bin<T: AsSlice<u8> + Drop, I: IntoIterator<Item = T>>(
        alloc: Global,
        iter: I,
    ) -> Result<Self, ArrayError>
        requires { (it : I.IntoIter) → I.into_iter_gives iter it
            → I.IntoIter.can_next it × IsFinite (I.IntoIter.remaining it) }
        ensures made { IfOk result (λ a. (it : I.IntoIter) × (xs : List T)
            × I.into_iter_gives iter it × Drains I.IntoIter.next_gives it xs
            × IsOfValues (binary non_nullable)
            (map (option_map T.items) (map Some xs)) (layout a)) }
        ensures refused { IfErr result (λ e. (e ≡ Memory)
            ⊎ ((it : I.IntoIter) × (xs : List T)
            × I.into_iter_gives iter it × Drains I.IntoIter.next_gives it xs
            × IsValuesFault e (binary non_nullable) (map (option_map T.items) (map Some xs)))) };

    /// An array of the iterator's byte strings, with null for each `None`, as Vortex's
    /// `VarBinViewArray::from_iter_nullable_bin`. Its type is nullable even without a `None`.
    fn from_iter_nullable_bin<T: AsSlice<u8> + Drop, I: IntoIterator<Item = Option<T>>>(
        alloc: Global,
        iter: I,
    ) -> Result<Self, ArrayError>
        requires { (it : I.IntoIter) → I.into_iter_gives iter it
            → I.IntoIter.can_next it × IsFinite (I.IntoIter.remaining it) }
        ensures made { IfOk result (λ a. (it : I.IntoIter) × (xs : List (Option T))
            × I.into_iter_gives iter it × Drains I.IntoIter.next_gives it xs
            × IsOfValues (binary nullable) (map (option_map T.items) xs) (layout a)) }
        ensures refused { IfErr result (λ e. (e ≡ Memory)
            ⊎ ((it : I.IntoIter) × (xs : List (Option T))
            × I.into_iter_gives iter it × Drains I.IntoIter.next_gives it xs
            × IsValuesFault e (binary nullable) (map (option_map T.items) xs))) };

    /// The value of each view, in order, and `None` for null, as Vortex's
    /// `VarBinViewArray::resolved_views`. No value is copied.
    fn resolved_views(&self, alloc: Global) -> Result<Vec<Option<&[u8]>>, AllocError>
        ensures { IfOk result
            (λ values. map lent values.items ≡ values_of (layout self.now)) };
}

impl VarBinViewArrayIter for VarBinViewArray {
    ghost layout = { λ a. a };

    fn from_iter<T: AsSlice<u8> + Drop, I: IntoIterator<Item = Option<T>>>(
        alloc: Global,
        iter: I,
        dtype: DType,
    ) -> Result<VarBinViewArray, ArrayError> {
        let items = Vec::from_iter(alloc, iter)?;
        of_typed(alloc, items.as_slice(), &dtype)
    }

    fn from_iter_str<T: AsStr + Drop, I: IntoIterator<Item = T>>(
        alloc: Global,
        iter: I,
    ) -> Result<VarBinViewArray, ArrayError> {
        let items = Vec::from_iter(alloc, iter)?;
        of_texts(alloc, items.as_slice())
    }

    fn from_iter_nullable_str<T: AsStr + Drop, I: IntoIterator<Item = Option<T>>>(
        alloc: Global,
        iter: I,
    ) -> Result<VarBinViewArray, ArrayError> {
        let items = Vec::from_iter(alloc, iter)?;
        of_some_texts(alloc, items.as_slice())
    }

    fn from_iter_bin<T: AsSlice<u8> + Drop, I: IntoIterator<Item = T>>(
        alloc: Global,
        iter: I,
    ) -> Result<VarBinViewArray, ArrayError> {
        let items = Vec::from_iter(alloc, iter)?;
        of_bytes(alloc, items.as_slice())
    }

    fn from_iter_nullable_bin<T: AsSlice<u8> + Drop, I: IntoIterator<Item = Option<T>>>(
        alloc: Global,
        iter: I,
    ) -> Result<VarBinViewArray, ArrayError> {
        let items = Vec::from_iter(alloc, iter)?;
        of_some_bytes(alloc, items.as_slice())
    }

    fn resolved_views(&self, alloc: Global) -> Result<Vec<Option<&[u8]>>, AllocError> {
        resolve_all(alloc, self)
    }
}

// The values of all rows.
fn resolve_all(alloc: Global, array: &VarBinViewArray) -> Result<Vec<Option<&[u8]>>, AllocError>
    ensures { IfOk result (λ values. map lent values.items ≡ values_of array.now) }
{
    (0..array.len())
        .map(|i| resolved_view(array, i))
        .collect(alloc)
}

// The value of a row's view, and `None` for null.
#[tactic(auto, using(crate::proofs::RowLemmas::resolved))]
fn resolved_view(array: &VarBinViewArray, i: usize) -> Option<&[u8]>
    requires { i < len_of array.now }
    ensures { lent result ≡ value_at array.now i }
{
    if array.as_array().is_invalid(i) {
        return None;
    }
    Some(array.bytes_at(i))
}
