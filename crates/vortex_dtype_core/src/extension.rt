//! Extension types: named types over the values of a storage type.
ghost use Rattle.std.specs.Prelude.{◌≡◌, ◌&&◌, IfOk, IsTrue};
ghost use Rattle.std.specs.Str.{bytes_eq};
ghost use Rattle.vortex_model.specs.LogicalType.{extension, nullability_of, is_nullable, with_nullability, non_nullable};
ghost use Rattle.vortex_dtype_ptype.specs.View.{nullability_of_flag};
ghost use Rattle.vortex_dtype_core.specs.View.{type_of, extension_type};
ghost use Rattle.vortex_dtype_core.specs.Parts.{id_of, metadata_of, storage_of, can_be_nonnullable};

use crate::dtype::DType;
use crate::{BufferString, ByteBuffer};
use std::alloc::{AllocError, Global};
use std::rc::Rc;
use vortex_dtype_ptype::nullability::Nullability;

/// An extension type, as Vortex's `ExtDTypeRef`. A clone shares its parts.
#[derive(Drop)]
#[cycle(dtype)]
pub struct ExtDTypeRef {
    pub(crate) data: Rc<ExtDTypeData>,
}

/// The parts of an extension type. They are boxed, so that other types, of which each array has
/// one, are no larger for them.
#[derive(Drop)]
#[cycle(dtype)]
pub struct ExtDTypeData {
    alloc: Global,
    id: BufferString,
    metadata: ByteBuffer,
    pub(crate) storage: DType,
}

impl ExtDTypeRef {
    #[tactic(auto, using(crate::proofs::Views::one_level))]
    pub fn new(
        alloc: Global,
        id: BufferString,
        metadata: ByteBuffer,
        storage: DType,
    ) -> Result<ExtDTypeRef, AllocError>
        ensures { IfOk result (λ made. extension_type made
            ≡ extension id metadata (type_of storage)) }
    {
        let data = ExtDTypeData {
            alloc,
            id,
            metadata,
            storage,
        };
        let data = Rc::new(alloc, data)?;
        Ok(ExtDTypeRef { data })
    }

    /// The name of the extension, as `"vortex.date"`.
    #[tactic(auto, using(crate::proofs::Views::one_level))]
    pub fn id(&self) -> &BufferString
        ensures { result.now ≡ id_of (extension_type self.now) }
    {
        &self.data.id
    }

    /// The serialized metadata, in which extensions of one id differ.
    #[tactic(auto, using(crate::proofs::Views::one_level))]
    pub fn serialize_metadata(&self) -> &ByteBuffer
        ensures { result.now ≡ metadata_of (extension_type self.now) }
    {
        &self.data.metadata
    }

    /// The type whose values the extension has.
    #[tactic(auto, using(crate::proofs::Views::one_level))]
    pub fn storage_dtype(&self) -> &DType
        ensures { type_of result.now ≡ storage_of (extension_type self.now) }
    {
        &self.data.storage
    }

    /// The nullability of the storage.
    #[tactic(auto, using(crate::proofs::Views::one_level))]
    pub fn nullability(&self) -> Nullability
        ensures { nullability_of_flag result ≡ nullability_of (extension_type self.now) }
    {
        self.data.storage.nullability()
    }

    pub fn is_nullable(&self) -> bool
        ensures { result ≡ is_nullable (nullability_of (extension_type self.now)) }
    {
        self.nullability().is_nullable()
    }

    /// The extension over its storage with another outer nullability.
    #[tactic(auto, using(crate::proofs::Views::nullabilities))]
    pub fn with_nullability(&self, nullability: Nullability) -> Result<ExtDTypeRef, AllocError>
        requires { nullability_of_flag nullability ≡ non_nullable
            → IsTrue (can_be_nonnullable (extension_type self.now)) }
        ensures kind { IfOk result (λ made. extension_type made
            ≡ with_nullability (nullability_of_flag nullability) (extension_type self.now)) }
        ensures outer { IfOk result (λ made. nullability_of (extension_type made)
            ≡ nullability_of_flag nullability) }
    {
        let storage = self.data.storage.with_nullability(nullability)?;
        let all = self.with_storage(storage)?;
        Ok(all)
    }

    /// Whether id and metadata are equal.
    #[tactic(auto, using(crate::proofs::Views::one_level))]
    pub(crate) fn has_same_name(&self, other: &ExtDTypeRef) -> bool
        ensures { result ≡ bytes_eq (id_of (extension_type self.now))
            (id_of (extension_type other.now))
            && bytes_eq (metadata_of (extension_type self.now))
            (metadata_of (extension_type other.now)) }
    {
        self.data.id == other.data.id && self.data.metadata == other.data.metadata
    }

    /// The extension with another storage type.
    #[tactic(auto, using(crate::proofs::Views::one_level))]
    pub(crate) fn with_storage(&self, storage: DType) -> Result<ExtDTypeRef, AllocError>
        ensures { IfOk result (λ made. extension_type made
            ≡ extension (id_of (extension_type self.now)) (metadata_of (extension_type self.now))
            (type_of storage)) }
    {
        let id = self.data.id.clone()?;
        let metadata = self.data.metadata.clone()?;
        let made = ExtDTypeRef::new(self.data.alloc, id, metadata, storage)?;
        Ok(made)
    }
}

impl Clone for ExtDTypeRef {
    ghost is_clone = { λ old new. extension_type new ≡ extension_type old };

    #[tactic(auto, using(crate::proofs::Views::one_level))]
    fn clone(&self) -> Result<ExtDTypeRef, AllocError> {
        let data = self.data.clone()?;
        Ok(ExtDTypeRef { data })
    }
}
