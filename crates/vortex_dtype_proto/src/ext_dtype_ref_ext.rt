//! From an `ExtDTypeRef` to an `ExtDType`.
ghost use Rattle.std.specs.Prelude.{◌≡◌, Some, None, IfSome, false, IfOk};
ghost use Rattle.vortex_model.specs.LogicalType.{LogicalType};
ghost use Rattle.vortex_dtype_core.specs.View.{type_of, extension_type};
ghost use Rattle.vortex_dtype_core.specs.Parts.{id_of, metadata_of, storage_of};

use crate::ext_dtype::ExtDType;
use crate::vtable::ExtVTable;
use std::alloc::{AllocError, Global};
use vortex_dtype_core::extension::ExtDTypeRef;
use vortex_dtype_ptype::error::DTypeError;

/// Calls on an `ExtDTypeRef`, which are methods of Vortex's.
pub trait ExtDTypeRefExt {
    ghost extension: { Self → LogicalType };

    /// The extension type with `vtable`, and `None` where it has another id, or metadata or a
    /// storage that the vtable refuses.
    fn try_downcast<V: ExtVTable>(
        &self,
        alloc: Global,
        vtable: V,
    ) -> Result<Option<ExtDType<V>>, AllocError>
        ensures made { IfOk result (λ found. IfSome found (λ made. (made.vtable ≡ vtable)
            × (V.name vtable ≡ id_of (extension self.now))
            × (V.reads vtable (metadata_of (extension self.now)) ≡ Some made.metadata)
            × (type_of made.storage ≡ storage_of (extension self.now)))) }
        ensures none { IfOk result (λ found. found ≡ None → (m : V.Metadata)
            → V.name vtable ≡ id_of (extension self.now)
            → V.reads vtable (metadata_of (extension self.now)) ≡ Some m
            → V.fits vtable m (storage_of (extension self.now)) ≡ false) };
}

impl ExtDTypeRefExt for ExtDTypeRef {
    ghost extension = { extension_type };

    fn try_downcast<V: ExtVTable>(
        &self,
        alloc: Global,
        vtable: V,
    ) -> Result<Option<ExtDType<V>>, AllocError> {
        if vtable.id() != self.id().as_str() {
            return Ok(None);
        }
        let metadata = match vtable.deserialize_metadata(alloc, self.serialize_metadata()) {
            Ok(metadata) => metadata,
            Err(DTypeError::Memory) => return Err(AllocError),
            Err(_) => return Ok(None),
        };
        let storage = self.storage_dtype().clone()?;
        match ExtDType::try_with_vtable(vtable, metadata, storage) {
            Ok(made) => Ok(Some(made)),
            Err(_) => Ok(None),
        }
    }
}
