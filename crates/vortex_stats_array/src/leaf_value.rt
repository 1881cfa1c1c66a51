//! Values of leaf columns, as they are in arrays.
ghost use Rattle.std.specs.Prelude.{◌≡◌, ◌^◌, true, false, pos, neg_ℤ, ◌≤ℤ◌, refl, IfOk, IsTrue, IsUtf8};
ghost use Rattle.std.specs.Str.{is_utf8};
ghost use Rattle.vortex_model.specs.Valid.{valid};
ghost use Rattle.vortex_model_table.specs.Bounds.{low, high, is_longer};
ghost use Rattle.vortex_model.specs.LogicalType.{LogicalType};
ghost use Rattle.vortex_model.specs.Content.{Content, boolean, integer, text, byte_string, is_null};
ghost use Rattle.vortex_model_table.specs.Statistics.{is_at_most, number_in};
ghost use Rattle.vortex_model_table.specs.ZoneMap.{bound_of};
ghost use Rattle.vortex_stats_bound.specs.ValueOrder.{value_content};
ghost use Rattle.vortex_scalar_value.specs.View.{raw_of};
ghost use Rattle.vortex_stats_array.specs.Arrays.{IsBooleanType, IsIntegerOf, IsTextType, IsBinaryType};
ghost use Rattle.vortex_stats_array.specs.Zones.{bound_content, high_by, IsBoundIn};

use crate::shortened::{bytes_above, bytes_below, text_above, text_below};
use std::alloc::{AllocError, Global};
use vortex_arrays_view::order::order_bytes;
use vortex_dtype_native::native::NativePType;
use vortex_scalar_value::pvalue::PValue;
use vortex_scalar_value::scalar_value::ScalarValue;
use vortex_stats_bound::precision::Precision;

/// A bound of values of a leaf column.
pub(crate) type Bounded = Result<Precision<ScalarValue>, AllocError>;

/// A value of a leaf column other than null.
pub(crate) trait LeafValue: Copy + Drop {
    ghost said: { Self → Content };

    // The types of such values.
    ghost is_type: { LogicalType → Type 0 };

    ghost never_null: { (v : Self) → is_null (said v) ≡ false };

    // Whether the value is at most the other one.
    fn is_at_most(self, other: Self) -> bool
        ensures { result ≡ is_at_most (said self) (said other) };

    // What the value adds to a sum: true counts 1, false, strings and bytes 0.
    fn number(self) -> i128
        ensures number { result ≡ number_in (said self) }
        ensures least { neg_ℤ (pos (2 ^ 64)) ≤ℤ result }
        ensures greatest { result ≤ℤ pos (2 ^ 64) };

    // A copy that is at most the value. Strings and bytes have at most `max_length` bytes.
    fn below(self, alloc: Global, max_length: usize) -> Bounded
        ensures content { IfOk result (λ below. bound_content below
            ≡ bound_of (is_longer max_length (said self)) (low max_length (said self))) }
        ensures types { IfOk result (λ below. (k : LogicalType) → is_type k → IsBoundIn k below) };

    // A copy that is at least the value, with at most `max_length` bytes for strings and bytes, and
    // absent if there is none.
    fn above(self, alloc: Global, max_length: usize) -> Bounded
        ensures content { IfOk result (λ above. bound_content above
            ≡ high_by max_length (said self) (high max_length (said self))) }
        ensures types { IfOk result (λ above. (k : LogicalType) → is_type k → IsBoundIn k above) };
}

impl LeafValue for bool {
    ghost said = { boolean };

    ghost is_type = { IsBooleanType };

    ghost never_null = { λ v. refl };

    fn is_at_most(self, other: bool) -> bool {
        self <= other
    }

    fn number(self) -> i128 {
        if self { 1 } else { 0 }
    }

    #[tactic(auto, using(crate::proofs::OwnTypes::truths))]
    fn below(self, _alloc: Global, _max_length: usize) -> Bounded {
        Ok(Precision::Exact(ScalarValue::Bool(self)))
    }

    #[tactic(auto, using(crate::proofs::OwnTypes::truths))]
    fn above(self, _alloc: Global, _max_length: usize) -> Bounded {
        Ok(Precision::Exact(ScalarValue::Bool(self)))
    }
}

/// An integer.
#[derive(Clone, Copy)]
pub(crate) struct Number<T>(pub(crate) T);

impl<T: NativePType> LeafValue for Number<T> {
    ghost said = { λ v. integer (T.integer v.0) };

    ghost is_type = { IsIntegerOf T.kind };

    ghost never_null = { λ v. refl };

    fn is_at_most(self, other: Number<T>) -> bool {
        self.0.get() <= other.0.get()
    }

    #[tactic(auto, using(crate::proofs::SumLemmas::numbers))]
    fn number(self) -> i128 {
        self.0.get()
    }

    fn below(self, _alloc: Global, _max_length: usize) -> Bounded {
        Ok(Precision::Exact(number_value(self.0)))
    }

    fn above(self, _alloc: Global, _max_length: usize) -> Bounded {
        Ok(Precision::Exact(number_value(self.0)))
    }
}

#[tactic(auto, using(vortex_scalar_value::proofs::Views::one_level))]
fn number_value<T: NativePType>(number: T) -> ScalarValue
    ensures content { value_content result ≡ integer (T.integer number) }
    ensures types { (k : LogicalType) → IsIntegerOf T.kind k → valid k (raw_of result) ≡ true }
{
    match PValue::of(T::ptype(), number.get()) {
        Some(value) => ScalarValue::Primitive(value),
        None => unreachable!(),
    }
}

/// A UTF-8 string, by its bytes.
#[derive(Clone, Copy)]
pub(crate) struct Text<'a> {
    bytes: &'a [u8],
    ghost is_utf8: { IsTrue (is_utf8 bytes.now) },
}

impl<'a> Text<'a> {
    #[tactic(auto, using(crate::proofs::Utf8::tested))]
    pub(crate) fn new(bytes: &'a [u8]) -> Text<'a>
        requires { IsUtf8 bytes.now }
        ensures { result.bytes.now ≡ bytes.now }
    {
        Text { bytes }
    }
}

impl LeafValue for Text<'_> {
    ghost said = { λ v. text v.bytes.now };

    ghost is_type = { IsTextType };

    ghost never_null = { λ v. refl };

    fn is_at_most(self, other: Text) -> bool {
        order_bytes(self.bytes, other.bytes).is_le()
    }

    fn number(self) -> i128 {
        0
    }

    #[tactic(auto, using(crate::proofs::Utf8::tested))]
    fn below(self, alloc: Global, max_length: usize) -> Bounded {
        text_below(alloc, self.bytes, max_length)
    }

    #[tactic(auto, using(crate::proofs::Utf8::tested))]
    fn above(self, alloc: Global, max_length: usize) -> Bounded {
        text_above(alloc, self.bytes, max_length)
    }
}

/// Bytes.
#[derive(Clone, Copy)]
pub(crate) struct ByteString<'a>(pub(crate) &'a [u8]);

impl LeafValue for ByteString<'_> {
    ghost said = { λ v. byte_string v.0.now };

    ghost is_type = { IsBinaryType };

    ghost never_null = { λ v. refl };

    fn is_at_most(self, other: ByteString) -> bool {
        order_bytes(self.0, other.0).is_le()
    }

    fn number(self) -> i128 {
        0
    }

    fn below(self, alloc: Global, max_length: usize) -> Bounded {
        bytes_below(alloc, self.0, max_length)
    }

    fn above(self, alloc: Global, max_length: usize) -> Bounded {
        bytes_above(alloc, self.0, max_length)
    }
}
