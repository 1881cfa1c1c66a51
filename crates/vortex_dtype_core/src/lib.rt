//! Logical types of columns: `DType`, the parts of its structs, unions, maps and extensions, and
//! the shared bytes and strings that these parts hold.
#![tactic(auto)]

pub mod convert;
pub mod dtype;
mod eq;
mod eq_ignore_nullability;
pub mod extension;
mod kind_tests;
mod make;
pub mod map_dtype;
mod parts;
pub mod struct_fields;
pub mod union_variants;

/// Shared bytes: a clone or a slice copies none.
pub use bytes::Bytes as ByteBuffer;
/// A UTF-8 string over shared bytes.
pub use bytes::ByteStr as BufferString;
