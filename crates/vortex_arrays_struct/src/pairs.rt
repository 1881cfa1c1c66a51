//! Struct arrays from pairs of a name and an array.
ghost use Rattle.std.specs.Prelude.{◌≡◌, ◌⊎◌, ℕ, List, IfOk, IfErr};
ghost use Rattle.std.specs.Iterator.{Drains, IsFinite};
ghost use Rattle.vortex_arrays_view.specs.declared.error.ArrayError.TheVariants.{Memory};
ghost use Rattle.vortex_arrays_model.specs.Layout.{Layout, required};
ghost use Rattle.vortex_arrays_core.specs.LayoutOf.{valid_of};
ghost use Rattle.vortex_arrays_struct.specs.Pairs.{names_of, arrays_of, IsOfPairs, IsPairsFault};

use crate::struct_array::StructArray;
use std::alloc::{AllocError, Global};
use std::rc::Rc;
use vortex_arrays_core::array::{ArrayRef, Validity};
use vortex_arrays_view::error::ArrayError;
use vortex_dtype_ptype::field_names::{FieldName, FieldNames};

impl StructArray {
    /// A struct array with a column for each pair and without null, as Vortex's
    /// `StructArray::from_fields`. `LengthMismatch` where there is no pair, so that the number of
    /// rows is unknown, or where two arrays differ in length.
    pub fn from_fields(
        alloc: Global,
        items: &[(FieldName, ArrayRef)],
    ) -> Result<StructArray, ArrayError>
        ensures made { IfOk result (λ r. IsOfPairs items.now required r) }
        ensures refused { IfErr result (λ e. IsPairsFault e items.now required) }
    {
        StructArray::of_pairs(alloc, items, Validity::NonNullable)
    }

    /// A struct array with a column for each pair of the iterator and without null, as Vortex's
    /// `StructArray::try_from_iter`. The errors are those of `from_fields`.
    pub fn try_from_iter<I: IntoIterator<Item = (FieldName, ArrayRef)>>(
        alloc: Global,
        iter: I,
    ) -> Result<StructArray, ArrayError>
        requires { (it : I.IntoIter) → I.into_iter_gives iter it
            → I.IntoIter.can_next it × IsFinite (I.IntoIter.remaining it) }
        ensures made { IfOk result (λ r. (it : I.IntoIter) × (pairs : List (List ℕ × Layout))
            × I.into_iter_gives iter it × Drains I.IntoIter.next_gives it pairs
            × IsOfPairs pairs required r) }
        ensures refused { IfErr result (λ e. (e ≡ Memory)
            ⊎ ((it : I.IntoIter) × (pairs : List (List ℕ × Layout)) × I.into_iter_gives iter it
            × Drains I.IntoIter.next_gives it pairs × IsPairsFault e pairs required)) }
    {
        let items = Vec::from_iter(alloc, iter)?;
        StructArray::of_pairs(alloc, items.as_slice(), Validity::NonNullable)
    }

    /// A struct array with a column for each pair of the iterator and these nulls, as Vortex's
    /// `StructArray::try_from_iter_with_validity`.
    ///
    /// `WrongType` where the validity's array does not have the type of booleans without null; else
    /// `LengthMismatch` as `from_fields`, or where that array has another length.
    pub fn try_from_iter_with_validity<I: IntoIterator<Item = (FieldName, ArrayRef)>>(
        alloc: Global,
        iter: I,
        validity: Validity,
    ) -> Result<StructArray, ArrayError>
        requires { (it : I.IntoIter) → I.into_iter_gives iter it
            → I.IntoIter.can_next it × IsFinite (I.IntoIter.remaining it) }
        ensures made { IfOk result (λ r. (it : I.IntoIter) × (pairs : List (List ℕ × Layout))
            × I.into_iter_gives iter it × Drains I.IntoIter.next_gives it pairs
            × IsOfPairs pairs (valid_of validity) r) }
        ensures refused { IfErr result (λ e. (e ≡ Memory)
            ⊎ ((it : I.IntoIter) × (pairs : List (List ℕ × Layout)) × I.into_iter_gives iter it
            × Drains I.IntoIter.next_gives it pairs × IsPairsFault e pairs (valid_of validity))) }
    {
        let items = Vec::from_iter(alloc, iter)?;
        StructArray::of_pairs(alloc, items.as_slice(), validity)
    }

    // A struct array with a column for each pair and these nulls.
    #[tactic(auto, using(crate::proofs::PairLemmas::paired))]
    fn of_pairs(
        alloc: Global,
        pairs: &[(FieldName, ArrayRef)],
        validity: Validity,
    ) -> Result<StructArray, ArrayError>
        ensures made { IfOk result (λ r. IsOfPairs pairs.now (valid_of validity) r) }
        ensures refused { IfErr result (λ e. IsPairsFault e pairs.now (valid_of validity)) }
    {
        let Some(first) = pairs.first() else {
            validity.check_len(0)?;
            return Err(ArrayError::LengthMismatch);
        };
        let len = first.1.len();
        let fields = arrays_of_pairs(alloc, pairs)?;
        let names = Rc::new(alloc, FieldNames::new(names_of_pairs(alloc, pairs)?))?;
        StructArray::try_new(alloc, names, fields, len, validity)
    }
}

// The names of the pairs.
fn names_of_pairs(
    alloc: Global,
    pairs: &[(FieldName, ArrayRef)],
) -> Result<Vec<FieldName>, AllocError>
    ensures { IfOk result (λ names. names.items ≡ names_of pairs.now) }
{
    let mut names = Vec::with_capacity(alloc, pairs.len())?;
    for pair in pairs {
        names.push(pair.0.clone()?)?;
    }
    Ok(names)
}

// The arrays of the pairs, shared.
fn arrays_of_pairs(
    alloc: Global,
    pairs: &[(FieldName, ArrayRef)],
) -> Result<Vec<ArrayRef>, AllocError>
    ensures { IfOk result (λ arrays. arrays.items ≡ arrays_of pairs.now) }
{
    let mut arrays = Vec::with_capacity(alloc, pairs.len())?;
    for pair in pairs {
        arrays.push(pair.1.clone()?)?;
    }
    Ok(arrays)
}
