//! The logical types of columns and their parts: field names, decimals, native integers, paths,
//! messages, and laws of all of these.
#![tactic(auto)]

pub mod laws;

pub use vortex_dtype_core::dtype::DType;
pub use vortex_dtype_core::extension::ExtDTypeRef;
pub use vortex_dtype_core::map_dtype::MapDType;
pub use vortex_dtype_core::struct_fields::{StructField, StructFields};
pub use vortex_dtype_core::union_variants::{UnionVariant, UnionVariants};
pub use vortex_dtype_core::{BufferString, ByteBuffer};
pub use vortex_dtype_decimal::decimal_type::DecimalType;
pub use vortex_dtype_decimal::native::{DecimalTypeDowncast, DecimalTypeUpcast, NativeDecimalType};
pub use vortex_dtype_decimal::precision_scale::PrecisionScale;
pub use vortex_dtype_fields::dtype_ext::DTypeExt;
pub use vortex_dtype_fields::field_dtype::{FieldDType, FieldDTypesIter, FieldTypesIter};
pub use vortex_dtype_fields::map_dtype_ext::MapDTypeExt;
pub use vortex_dtype_fields::native_dtype::NativeDType;
pub use vortex_dtype_fields::struct_fields_ext::StructFieldsExt;
pub use vortex_dtype_fields::union_variants_ext::UnionVariantsExt;
pub use vortex_dtype_fields::variants_iter::VariantsIter;
pub use vortex_dtype_native::downcast::{PTypeDowncast, PTypeDowncastExt, PTypeUpcast};
pub use vortex_dtype_native::little_endian::{ToBytes, TryFromBytes};
pub use vortex_dtype_native::native::{
    IntegerPType, NativePType, OffsetBuilderPType, PhysicalPType, UnsignedPType, offsets,
};
pub use vortex_dtype_native::private::Sealed;
pub use vortex_dtype_native::{
    match_each_integer_ptype, match_each_native_ptype, match_each_signed_integer_ptype,
    match_each_unsigned_integer_ptype,
};
pub use vortex_dtype_path::field::Field;
pub use vortex_dtype_path::field_path;
pub use vortex_dtype_path::mask::FieldMask;
pub use vortex_dtype_path::path::FieldPath;
pub use vortex_dtype_path::path_set::{FieldPathSet, FieldPathSetIter};
pub use vortex_dtype_proto::ext_dtype::ExtDType;
pub use vortex_dtype_proto::ext_dtype_ref_ext::ExtDTypeRefExt;
pub use vortex_dtype_proto::foreign::{ForeignExtDType, ForeignExtMetadata};
pub use vortex_dtype_proto::message::{Message, MessageKind};
pub use vortex_dtype_proto::plugin::ExtDTypePlugin;
pub use vortex_dtype_proto::read::from_proto;
pub use vortex_dtype_proto::session::DTypeSession;
pub use vortex_dtype_proto::shape_test::is_shaped;
pub use vortex_dtype_proto::vtable::{CloneExtVTable, ExtVTable};
pub use vortex_dtype_proto::write::to_proto;
pub use vortex_dtype_ptype::decimal::{DecimalDType, MAX_PRECISION, MAX_SCALE};
pub use vortex_dtype_ptype::error::DTypeError;
pub use vortex_dtype_ptype::field_names::{FieldName, FieldNames};
pub use vortex_dtype_ptype::field_names_iter::{FieldNamesIntoIter, FieldNamesIter};
pub use vortex_dtype_ptype::nullability::Nullability;
pub use vortex_dtype_ptype::ptype::PType;
