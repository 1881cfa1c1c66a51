//! Extension types whose meaning a program knows.
ghost use Rattle.std.specs.Prelude.{◌≡◌, true, false, IfOk, OnOk, IfErr, IsTrue};
ghost use Rattle.vortex_model.specs.LogicalType.{extension, with_nullability, non_nullable};
ghost use Rattle.vortex_dtype_ptype.specs.View.{nullability_of_flag};
ghost use Rattle.vortex_dtype_ptype.specs.declared.error.DTypeError.TheVariants.{Plugin};
ghost use Rattle.vortex_dtype_core.specs.View.{type_of, extension_type};
ghost use Rattle.vortex_dtype_core.specs.Parts.{can_be_nonnullable};

use crate::vtable::{CloneExtVTable, ExtVTable};
use std::alloc::{AllocError, Global};
use vortex_dtype_core::dtype::DType;
use vortex_dtype_core::extension::ExtDTypeRef;
use vortex_dtype_core::{BufferString, ByteBuffer};
use vortex_dtype_ptype::error::DTypeError;
use vortex_dtype_ptype::nullability::Nullability;

/// An extension type with its vtable and its metadata decoded, as Vortex's `ExtDType`.
#[derive(Drop)]
pub struct ExtDType<V: ExtVTable> {
    vtable: V,
    metadata: V::Metadata,
    storage: DType,
    ghost fitting: { IsTrue (V.fits vtable metadata (type_of storage)) },
}

impl<V: ExtVTable> ExtDType<V> {
    /// An extension type, or `DTypeError::Plugin` where the storage doesn't fit the vtable and
    /// metadata.
    pub fn try_with_vtable(
        vtable: V,
        metadata: V::Metadata,
        storage: DType,
    ) -> Result<ExtDType<V>, DTypeError>
        ensures made { IfOk result (λ made. (made.vtable ≡ vtable) × (made.metadata ≡ metadata)
            × (made.storage ≡ storage)) }
        ensures accepted { OnOk result (IsTrue (V.fits vtable metadata (type_of storage))) }
        ensures refused { IfErr result
            (λ e. (e ≡ Plugin) × (V.fits vtable metadata (type_of storage) ≡ false)) }
    {
        if !vtable.fits(&metadata, &storage) {
            return Err(DTypeError::Plugin);
        }
        Ok(ExtDType {
            vtable,
            metadata,
            storage,
        })
    }

    pub fn id(&self) -> &str
        ensures { result.now ≡ V.name self.now.vtable }
    {
        self.vtable.id()
    }

    pub fn vtable(&self) -> &V
        ensures { result.now ≡ self.now.vtable }
    {
        &self.vtable
    }

    pub fn metadata(&self) -> &V::Metadata
        ensures { result.now ≡ self.now.metadata }
    {
        &self.metadata
    }

    /// The type whose values the extension has.
    pub fn storage_dtype(&self) -> &DType
        ensures { result.now ≡ self.now.storage }
    {
        &self.storage
    }

    /// The metadata as bytes.
    pub fn serialize_metadata(&self, alloc: Global) -> Result<ByteBuffer, AllocError>
        ensures { IfOk result (λ bytes. bytes ≡ V.writes self.now.vtable self.now.metadata) }
    {
        let bytes = self.vtable.serialize_metadata(alloc, &self.metadata)?;
        Ok(bytes)
    }

    /// The type with its metadata as bytes, and without its vtable.
    pub fn erased(&self, alloc: Global) -> Result<ExtDTypeRef, AllocError>
        ensures { IfOk result (λ made. extension_type made
            ≡ extension (V.name self.now.vtable) (V.writes self.now.vtable self.now.metadata)
            (type_of self.now.storage)) }
    {
        let id = BufferString::copy_from_str(alloc, self.id())?;
        let metadata = self.serialize_metadata(alloc)?;
        let storage = self.storage.clone()?;
        let made = ExtDTypeRef::new(alloc, id, metadata, storage)?;
        Ok(made)
    }

    /// The type over its storage with another outer nullability.
    pub fn with_nullability(self, nullability: Nullability) -> Result<ExtDType<V>, AllocError>
        requires { nullability_of_flag nullability ≡ non_nullable
            → IsTrue (can_be_nonnullable (type_of self.storage)) }
        ensures meaning { IfOk result (λ made. (made.vtable ≡ self.vtable)
            × (made.metadata ≡ self.metadata)) }
        ensures storage { IfOk result (λ made. type_of made.storage
            ≡ with_nullability (nullability_of_flag nullability) (type_of self.storage)) }
    {
        let storage = self.storage.with_nullability(nullability)?;
        Ok(ExtDType {
            vtable: self.vtable,
            metadata: self.metadata,
            storage,
        })
    }
}

/// A clone has an equal vtable, metadata and storage.
impl<V: CloneExtVTable> Clone for ExtDType<V> {
    ghost is_clone = { λ old new. (new.vtable ≡ old.vtable) × (new.metadata ≡ old.metadata)
        × (type_of new.storage ≡ type_of old.storage) };

    fn clone(&self) -> Result<ExtDType<V>, AllocError> {
        let vtable = self.vtable.clone_vtable()?;
        let metadata = self.vtable.clone_metadata(&self.metadata)?;
        let storage = self.storage.clone()?;
        Ok(ExtDType {
            vtable,
            metadata,
            storage,
        })
    }
}

impl<V: ExtVTable + Default> ExtDType<V> {
    /// An extension type with the default vtable, or `DTypeError::Plugin` where the storage doesn't
    /// fit the metadata.
    pub fn try_new(metadata: V::Metadata, storage: DType) -> Result<ExtDType<V>, DTypeError>
        ensures made { IfOk result (λ made. V.is_default made.vtable × (made.metadata ≡ metadata)
            × (made.storage ≡ storage)) }
        ensures accepted { IfOk result
            (λ made. IsTrue (V.fits made.vtable metadata (type_of storage))) }
        ensures refused { IfErr result (λ e. (e ≡ Plugin)
            × ((v : V) × V.is_default v × (V.fits v metadata (type_of storage) ≡ false))) }
    {
        let made = ExtDType::try_with_vtable(V::default(), metadata, storage)?;
        Ok(made)
    }
}
