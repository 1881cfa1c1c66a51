//! Values of columns with and without their types: validity, casts, order, constructors, views,
//! iterators, shortened bounds, and laws of all of these.
#![tactic(auto)]

pub mod laws;

pub use vortex_scalar_builders::constructors::ScalarConstructors;
pub use vortex_scalar_builders::nested::constructors::NestedScalarConstructors;
pub use vortex_scalar_builders::private::Sealed;
pub use vortex_scalar_builders::string_like::StringLike;
pub use vortex_scalar_builders::truncation::{ScalarTruncation, lower_bound, upper_bound};
pub use vortex_scalar_convert::defaults::defaults::ScalarDefaults;
pub use vortex_scalar_convert::ext_dtype_scalar_ext::ExtDTypeScalarExt;
pub use vortex_scalar_convert::from_scalar::FromScalar;
pub use vortex_scalar_core::scalar::Scalar;
pub use vortex_scalar_iter::list_elements_iter::ListElementsIter;
pub use vortex_scalar_iter::list_scalar_ext::ListScalarExt;
pub use vortex_scalar_iter::map_entries_iter::MapEntriesIter;
pub use vortex_scalar_iter::map_keys_iter::MapKeysIter;
pub use vortex_scalar_iter::map_scalar_ext::MapScalarExt;
pub use vortex_scalar_iter::map_values_iter::MapValuesIter;
pub use vortex_scalar_iter::struct_fields_iter::StructFieldsIter;
pub use vortex_scalar_iter::struct_scalar_ext::StructScalarExt;
pub use vortex_scalar_iter::union_scalar_ext::UnionScalarExt;
pub use vortex_scalar_nested::ext_scalar::ExtScalar;
pub use vortex_scalar_nested::list_scalar::ListScalar;
pub use vortex_scalar_nested::map_scalar::MapScalar;
pub use vortex_scalar_nested::nested_views::NestedScalarViews;
pub use vortex_scalar_nested::struct_scalar::StructScalar;
pub use vortex_scalar_ops::compare::compare_values;
pub use vortex_scalar_ops::eq::eq_values;
pub use vortex_scalar_ops::hash::hash_value;
pub use vortex_scalar_ops::native_row::{NativeRow, row, rows};
pub use vortex_scalar_ops::native_value::NativeValue;
pub use vortex_scalar_value::error::ScalarError;
pub use vortex_scalar_value::match_each_pvalue;
pub use vortex_scalar_value::natives::CoercePValue;
pub use vortex_scalar_value::pvalue::PValue;
pub use vortex_scalar_value::scalar_value::ScalarValue;
pub use vortex_scalar_value::union_value::UnionValue;
pub use vortex_scalar_value::variant_value::VariantValue;
pub use vortex_scalar_views::binary_scalar::BinaryScalar;
pub use vortex_scalar_views::bool_scalar::BoolScalar;
pub use vortex_scalar_views::numeric_operator::NumericOperator;
pub use vortex_scalar_views::primitive_scalar::PrimitiveScalar;
pub use vortex_scalar_views::scalar_views::ScalarViews;
pub use vortex_scalar_views::union_scalar::UnionScalar;
pub use vortex_scalar_views::utf8_scalar::Utf8Scalar;
pub use vortex_scalar_views::variant_scalar::VariantScalar;
