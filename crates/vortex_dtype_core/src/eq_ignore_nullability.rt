//! Equality of types up to nullability at every level.
ghost use Rattle.std.specs.Prelude.{◌≡◌, ◌↔◌, IsTrue};
ghost use Rattle.vortex_model.specs.LogicalType.{EqualIgnoringNullability, equal_ignoring_nullability, bare, bare_fields, bare_variants, eq_type, eq_fields, eq_variants};
ghost use Rattle.vortex_dtype_core.specs.View.{type_of, extension_type, fields_in, fields_of, variants_in, variants_of};

use crate::dtype::DType;
use crate::extension::ExtDTypeRef;
use crate::struct_fields::{StructField, StructFields};
use crate::union_variants::{UnionVariant, UnionVariants};

impl DType {
    /// Whether the types are equal up to nullability at every level.
    #[tactic(auto, using(crate::proofs::Tests::decided))]
    pub fn eq_ignore_nullability(&self, other: &DType) -> bool
        ensures test { result ≡ equal_ignoring_nullability (type_of self.now) (type_of other.now) }
        ensures equal { IsTrue result ↔ EqualIgnoringNullability (type_of self.now)
            (type_of other.now) }
    {
        eq_bare(self, other)
    }
}

impl ExtDTypeRef {
    /// Whether the extensions are equal up to the nullability of the storage at every level.
    #[tactic(auto, using(crate::proofs::Tests::decided))]
    pub fn eq_ignore_nullability(&self, other: &ExtDTypeRef) -> bool
        ensures test { result ≡ equal_ignoring_nullability (extension_type self.now)
            (extension_type other.now) }
        ensures equal { IsTrue result ↔ EqualIgnoringNullability (extension_type self.now)
            (extension_type other.now) }
    {
        eq_bare_extension(self, other)
    }
}

impl StructFields {
    /// Whether the fields are equal up to nullability at every level. Names and order count.
    #[tactic(auto, using(crate::proofs::Tests::decided))]
    pub fn eq_ignore_nullability(&self, other: &StructFields) -> bool
        ensures test { result ≡ eq_fields (bare_fields (fields_in self.now))
            (bare_fields (fields_in other.now)) }
        ensures equal { IsTrue result
            ↔ (bare_fields (fields_in self.now) ≡ bare_fields (fields_in other.now)) }
    {
        eq_bare_parts(self.as_slice(), other.as_slice())
    }
}

impl UnionVariants {
    /// Whether the variants are equal up to nullability at every level. Names, tags and order
    /// count.
    #[tactic(auto, using(crate::proofs::Tests::decided))]
    pub fn eq_ignore_nullability(&self, other: &UnionVariants) -> bool
        ensures test { result ≡ eq_variants (bare_variants (variants_in self.now))
            (bare_variants (variants_in other.now)) }
        ensures equal { IsTrue result
            ↔ (bare_variants (variants_in self.now) ≡ bare_variants (variants_in other.now)) }
    {
        eq_bare_choices(self.as_slice(), other.as_slice())
    }
}

#[cycle(eq_bare)]
#[tactic(auto, using(crate::proofs::Tests::tests))]
fn eq_bare(a: &DType, b: &DType) -> bool
    ensures { result ≡ eq_type (bare (type_of a.now)) (bare (type_of b.now)) }
{
    match (a, b) {
        (DType::Null, DType::Null) => true,
        (DType::Bool(_), DType::Bool(_)) => true,
        (DType::Primitive(p, _), DType::Primitive(q, _)) => p == q,
        (DType::Decimal(d, _), DType::Decimal(e, _)) => {
            d.precision() == e.precision() && d.scale() == e.scale()
        }
        (DType::Utf8(_), DType::Utf8(_)) => true,
        (DType::Binary(_), DType::Binary(_)) => true,
        (DType::List(x, _), DType::List(y, _)) => eq_bare(x, y),
        (DType::FixedSizeList(x, i, _), DType::FixedSizeList(y, j, _)) => {
            eq_bare(x, y) && i == j
        }
        (DType::Map(x, _), DType::Map(y, _)) => {
            eq_bare(&x.entries.key, &y.entries.key)
                && eq_bare(&x.entries.value, &y.entries.value)
                && x.keys_sorted() == y.keys_sorted()
        }
        (DType::Struct(xs, _), DType::Struct(ys, _)) => {
            eq_bare_parts(xs.as_slice(), ys.as_slice())
        }
        (DType::Union(xs, _), DType::Union(ys, _)) => {
            eq_bare_choices(xs.as_slice(), ys.as_slice())
        }
        (DType::Variant(_), DType::Variant(_)) => true,
        (DType::Extension(x), DType::Extension(y)) => {
            x.has_same_name(y) && eq_bare(&x.data.storage, &y.data.storage)
        }
        _ => false,
    }
}

#[cycle(eq_bare)]
#[tactic(auto, using(crate::proofs::Tests::tests))]
fn eq_bare_parts(xs: &[StructField], ys: &[StructField]) -> bool
    ensures { result ≡ eq_fields (bare_fields (fields_of xs.now)) (bare_fields (fields_of ys.now)) }
{
    if xs.len() != ys.len() {
        return false;
    }
    for (i, x) in xs.iter().enumerate() {
        let y = &ys[i];
        if x.name != y.name {
            return false;
        }
        if !eq_bare(&x.dtype, &y.dtype) {
            return false;
        }
    }
    true
}

#[cycle(eq_bare)]
#[tactic(auto, using(crate::proofs::Tests::tests))]
fn eq_bare_choices(xs: &[UnionVariant], ys: &[UnionVariant]) -> bool
    ensures { result ≡ eq_variants (bare_variants (variants_of xs.now))
        (bare_variants (variants_of ys.now)) }
{
    if xs.len() != ys.len() {
        return false;
    }
    for (i, x) in xs.iter().enumerate() {
        let y = &ys[i];
        if x.name != y.name {
            return false;
        }
        if x.tag != y.tag {
            return false;
        }
        if !eq_bare(&x.dtype, &y.dtype) {
            return false;
        }
    }
    true
}

#[tactic(auto, using(crate::proofs::Tests::extensions))]
fn eq_bare_extension(a: &ExtDTypeRef, b: &ExtDTypeRef) -> bool
    ensures { result ≡ eq_type (bare (extension_type a.now)) (bare (extension_type b.now)) }
{
    a.has_same_name(b) && eq_bare(&a.data.storage, &b.data.storage)
}
