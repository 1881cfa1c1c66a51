//! Extension types of ids that a program doesn't know.
ghost use Rattle.std.specs.Prelude.{◌≡◌, Some, true, refl, IfOk};
ghost use Rattle.vortex_model.specs.LogicalType.{extension};
ghost use Rattle.vortex_dtype_core.specs.View.{type_of, extension_type};

use crate::vtable::{CloneExtVTable, ExtVTable};
use std::alloc::{AllocError, Global};
use std::marker::Model;
use vortex_dtype_core::dtype::DType;
use vortex_dtype_core::extension::ExtDTypeRef;
use vortex_dtype_core::{BufferString, ByteBuffer};
use vortex_dtype_ptype::error::DTypeError;

/// Metadata as bytes, as Vortex's `ForeignExtMetadata`.
#[derive(Drop)]
pub struct ForeignExtMetadata {
    bytes: ByteBuffer,
}

// In contracts it is its bytes.
impl Model for ForeignExtMetadata {
    ghost use Rattle.std.specs.Prelude.{ℕ, List};

    ghost Value = { List ℕ };

    ghost view = { λ metadata. metadata.bytes };
}

impl ForeignExtMetadata {
    pub fn new(bytes: ByteBuffer) -> ForeignExtMetadata
        ensures { result ≡ bytes }
    {
        ForeignExtMetadata { bytes }
    }

    pub fn as_slice(&self) -> &[u8]
        ensures { result.now ≡ self.now }
    {
        self.bytes.as_slice()
    }
}

impl Clone for ForeignExtMetadata {
    ghost is_clone = { λ old new. new ≡ old };

    fn clone(&self) -> Result<ForeignExtMetadata, AllocError> {
        let bytes = self.bytes.clone()?;
        Ok(ForeignExtMetadata { bytes })
    }
}

/// The vtable of an id that a program doesn't know, as Vortex's `ForeignExtDType`. Any metadata and
/// any storage fit.
#[derive(Drop)]
pub struct ForeignExtDType {
    id: BufferString,
}

impl ForeignExtDType {
    pub fn new(id: BufferString) -> ForeignExtDType
        ensures { result.id ≡ id }
    {
        ForeignExtDType { id }
    }

    /// The extension type of this id over any storage, with its metadata as bytes.
    pub fn from_parts(
        alloc: Global,
        id: BufferString,
        metadata: ByteBuffer,
        storage: DType,
    ) -> Result<ExtDTypeRef, AllocError>
        ensures { IfOk result (λ made. extension_type made
            ≡ extension id metadata (type_of storage)) }
    {
        let made = ExtDTypeRef::new(alloc, id, metadata, storage)?;
        Ok(made)
    }
}

impl Clone for ForeignExtDType {
    ghost is_clone = { λ old new. new ≡ old };

    fn clone(&self) -> Result<ForeignExtDType, AllocError> {
        let id = self.id.clone()?;
        Ok(ForeignExtDType { id })
    }
}

impl ExtVTable for ForeignExtDType {
    type Metadata = ForeignExtMetadata;

    ghost name = { λ v. v.id };

    ghost writes = { λ _ m. m };

    ghost reads = { λ _ bytes. Some bytes };

    ghost fits = { λ _ _ _. true };

    ghost reads_what_it_writes = { λ _ _. refl };

    ghost outer_aside = { λ _ _ _ _. refl };

    fn id(&self) -> &str {
        self.id.as_str()
    }

    fn serialize_metadata(
        &self,
        _alloc: Global,
        metadata: &ForeignExtMetadata,
    ) -> Result<ByteBuffer, AllocError> {
        metadata.bytes.clone()
    }

    fn deserialize_metadata(
        &self,
        _alloc: Global,
        bytes: &ByteBuffer,
    ) -> Result<ForeignExtMetadata, DTypeError> {
        Ok(ForeignExtMetadata {
            bytes: bytes.clone()?,
        })
    }

    fn fits(&self, _metadata: &ForeignExtMetadata, _storage: &DType) -> bool {
        true
    }
}

impl CloneExtVTable for ForeignExtDType {
    fn clone_vtable(&self) -> Result<ForeignExtDType, AllocError> {
        self.clone()
    }

    fn clone_metadata(
        &self,
        metadata: &ForeignExtMetadata,
    ) -> Result<ForeignExtMetadata, AllocError> {
        metadata.clone()
    }
}
