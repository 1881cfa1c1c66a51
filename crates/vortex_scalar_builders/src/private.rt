//! Seals `StringLike`.
use bytes::ByteStr as BufferString;
use std::string::String;

/// Implemented for strings alone.
pub trait Sealed {}

impl Sealed for BufferString {}

impl Sealed for String {}
