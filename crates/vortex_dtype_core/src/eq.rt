//! Equality of types.
ghost use Rattle.std.specs.Prelude.{◌≡◌, ◌↔◌, IsTrue};
ghost use Rattle.std.specs.Cmp.{on_equiv, partial_equiv_from_equiv};
ghost use Rattle.vortex_model.specs.LogicalType.{eq_type, eq_fields, eq_variants};
ghost use Rattle.vortex_dtype_core.specs.View.{type_of, extension_type, entries_in, fields_in, fields_of, variants_in, variants_of, map_type_of, eq_dtype, eq_map, eq_struct_fields, eq_union_variants, eq_extension};
ghost use Rattle.vortex_dtype_core.specs.Equal.{eq_type_equiv, eq_fields_equiv, eq_variants_equiv};

use crate::dtype::DType;
use crate::extension::ExtDTypeRef;
use crate::map_dtype::MapDType;
use crate::struct_fields::{StructField, StructFields};
use crate::union_variants::{UnionVariant, UnionVariants};

/// Names, orders and nullabilities count, at every level.
impl PartialEq for DType {
    ghost eq = { eq_dtype };

    ghost laws = { partial_equiv_from_equiv (on_equiv type_of eq_type_equiv) };

    #[tactic(auto, using(crate::proofs::Tests::decided))]
    fn eq(&self, other: &DType) -> bool
        ensures test { result ≡ eq_dtype self.now other.now }
        ensures equal { IsTrue result ↔ (type_of self.now ≡ type_of other.now) }
    {
        eq_type(self, other)
    }
}

impl Eq for DType {
    ghost laws = { on_equiv type_of eq_type_equiv };
}

impl PartialEq for StructFields {
    ghost eq = { eq_struct_fields };

    ghost laws = { partial_equiv_from_equiv (on_equiv fields_in eq_fields_equiv) };

    #[tactic(auto, using(crate::proofs::Tests::decided))]
    fn eq(&self, other: &StructFields) -> bool
        ensures test { result ≡ eq_struct_fields self.now other.now }
        ensures equal { IsTrue result ↔ (fields_in self.now ≡ fields_in other.now) }
    {
        eq_parts(self.as_slice(), other.as_slice())
    }
}

impl Eq for StructFields {
    ghost laws = { on_equiv fields_in eq_fields_equiv };
}

impl PartialEq for UnionVariants {
    ghost eq = { eq_union_variants };

    ghost laws = { partial_equiv_from_equiv (on_equiv variants_in eq_variants_equiv) };

    #[tactic(auto, using(crate::proofs::Tests::decided))]
    fn eq(&self, other: &UnionVariants) -> bool
        ensures test { result ≡ eq_union_variants self.now other.now }
        ensures equal { IsTrue result ↔ (variants_in self.now ≡ variants_in other.now) }
    {
        eq_choices(self.as_slice(), other.as_slice())
    }
}

impl Eq for UnionVariants {
    ghost laws = { on_equiv variants_in eq_variants_equiv };
}

impl PartialEq for MapDType {
    ghost eq = { eq_map };

    ghost laws = { partial_equiv_from_equiv (on_equiv map_type_of eq_type_equiv) };

    #[tactic(auto, using(crate::proofs::Tests::maps_decided))]
    fn eq(&self, other: &MapDType) -> bool
        ensures test { result ≡ eq_map self.now other.now }
        ensures equal { IsTrue result ↔ (entries_in self.now ≡ entries_in other.now) }
    {
        eq_entries(self, other)
    }
}

impl Eq for MapDType {
    ghost laws = { on_equiv map_type_of eq_type_equiv };
}

impl PartialEq for ExtDTypeRef {
    ghost eq = { eq_extension };

    ghost laws = { partial_equiv_from_equiv (on_equiv extension_type eq_type_equiv) };

    #[tactic(auto, using(crate::proofs::Tests::decided))]
    fn eq(&self, other: &ExtDTypeRef) -> bool
        ensures test { result ≡ eq_extension self.now other.now }
        ensures equal { IsTrue result ↔ (extension_type self.now ≡ extension_type other.now) }
    {
        eq_extension(self, other)
    }
}

impl Eq for ExtDTypeRef {
    ghost laws = { on_equiv extension_type eq_type_equiv };
}

#[cycle(eq_type)]
#[tactic(auto, using(crate::proofs::Tests::tests))]
fn eq_type(a: &DType, b: &DType) -> bool
    ensures { result ≡ eq_type (type_of a.now) (type_of b.now) }
{
    match (a, b) {
        (DType::Null, DType::Null) => true,
        (DType::Bool(n), DType::Bool(m)) => n == m,
        (DType::Primitive(p, n), DType::Primitive(q, m)) => p == q && n == m,
        (DType::Decimal(d, n), DType::Decimal(e, m)) => {
            d.precision() == e.precision() && d.scale() == e.scale() && n == m
        }
        (DType::Utf8(n), DType::Utf8(m)) => n == m,
        (DType::Binary(n), DType::Binary(m)) => n == m,
        (DType::List(x, n), DType::List(y, m)) => eq_type(x, y) && n == m,
        (DType::FixedSizeList(x, i, n), DType::FixedSizeList(y, j, m)) => {
            eq_type(x, y) && i == j && n == m
        }
        (DType::Map(x, n), DType::Map(y, m)) => {
            eq_type(&x.entries.key, &y.entries.key)
                && eq_type(&x.entries.value, &y.entries.value)
                && x.keys_sorted() == y.keys_sorted()
                && n == m
        }
        (DType::Struct(xs, n), DType::Struct(ys, m)) => {
            eq_parts(xs.as_slice(), ys.as_slice()) && n == m
        }
        (DType::Union(xs, n), DType::Union(ys, m)) => {
            eq_choices(xs.as_slice(), ys.as_slice()) && n == m
        }
        (DType::Variant(n), DType::Variant(m)) => n == m,
        (DType::Extension(x), DType::Extension(y)) => {
            x.has_same_name(y) && eq_type(&x.data.storage, &y.data.storage)
        }
        _ => false,
    }
}

#[cycle(eq_type)]
#[tactic(auto, using(crate::proofs::Tests::tests))]
fn eq_parts(xs: &[StructField], ys: &[StructField]) -> bool
    ensures { result ≡ eq_fields (fields_of xs.now) (fields_of ys.now) }
{
    if xs.len() != ys.len() {
        return false;
    }
    for (i, x) in xs.iter().enumerate() {
        let y = &ys[i];
        if x.name != y.name {
            return false;
        }
        if !eq_type(&x.dtype, &y.dtype) {
            return false;
        }
    }
    true
}

#[cycle(eq_type)]
#[tactic(auto, using(crate::proofs::Tests::tests))]
fn eq_choices(xs: &[UnionVariant], ys: &[UnionVariant]) -> bool
    ensures { result ≡ eq_variants (variants_of xs.now) (variants_of ys.now) }
{
    if xs.len() != ys.len() {
        return false;
    }
    for (i, x) in xs.iter().enumerate() {
        let y = &ys[i];
        if x.name != y.name {
            return false;
        }
        if x.tag != y.tag {
            return false;
        }
        if !eq_type(&x.dtype, &y.dtype) {
            return false;
        }
    }
    true
}

#[tactic(auto, using(crate::proofs::Tests::extensions))]
fn eq_extension(a: &ExtDTypeRef, b: &ExtDTypeRef) -> bool
    ensures { result ≡ eq_type (extension_type a.now) (extension_type b.now) }
{
    a.has_same_name(b) && eq_type(&a.data.storage, &b.data.storage)
}

#[tactic(auto, using(crate::proofs::Tests::maps))]
fn eq_entries(a: &MapDType, b: &MapDType) -> bool
    ensures { result ≡ eq_map a.now b.now }
{
    eq_type(a.key_dtype(), b.key_dtype())
        && eq_type(a.value_dtype(), b.value_dtype())
        && a.keys_sorted() == b.keys_sorted()
}
