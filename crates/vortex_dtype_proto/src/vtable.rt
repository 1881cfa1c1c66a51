//! Vtables of extension types.
ghost use Rattle.std.specs.Prelude.{◌≡◌, ◌≢◌, ℕ, List, Bool, Option, Some, None, IfOk, IfErr};
ghost use Rattle.vortex_model.specs.LogicalType.{LogicalType, Nullability, with_nullability};
ghost use Rattle.vortex_dtype_ptype.specs.declared.error.DTypeError.TheVariants.{Memory};
ghost use Rattle.vortex_dtype_core.specs.View.{type_of};

use std::alloc::{AllocError, Global};
use vortex_dtype_core::ByteBuffer;
use vortex_dtype_core::dtype::DType;
use vortex_dtype_ptype::error::DTypeError;

/// What a program knows about the extensions of one id, as Vortex's `ExtVTable`.
pub trait ExtVTable: Drop {
    /// The decoded metadata, in which extensions of the id differ.
    type Metadata: Drop;

    ghost name: { Self → List ℕ };

    ghost writes: { Self → Self.Metadata → List ℕ };

    ghost reads: { Self → List ℕ → Option Self.Metadata };

    ghost fits: { Self → Self.Metadata → LogicalType → Bool };

    fn id(&self) -> &str
        ensures { result.now ≡ name self.now };

    fn serialize_metadata(
        &self,
        alloc: Global,
        metadata: &Self::Metadata,
    ) -> Result<ByteBuffer, AllocError>
        ensures { IfOk result (λ bytes. bytes ≡ writes self.now metadata.now) };

    /// The metadata of these bytes. `DTypeError::Memory` where memory runs out; any other error
    /// means that the bytes are no metadata.
    fn deserialize_metadata(
        &self,
        alloc: Global,
        bytes: &ByteBuffer,
    ) -> Result<Self::Metadata, DTypeError>
        ensures read { IfOk result (λ metadata. reads self.now bytes.now ≡ Some metadata) }
        ensures refused { IfErr result (λ e. e ≢ Memory → reads self.now bytes.now ≡ None) };

    /// Whether this storage may have the extension.
    fn fits(&self, metadata: &Self::Metadata, storage: &DType) -> bool
        ensures { result ≡ fits self.now metadata.now (type_of storage.now) };

    // It reads what it writes.
    ghost reads_what_it_writes: { (v : Self) (m : Self.Metadata) → reads v (writes v m) ≡ Some m };

    // It doesn't depend on the storage's outer nullability.
    ghost outer_aside: { (v : Self) (m : Self.Metadata) (k : LogicalType) (n : Nullability) →
        fits v m (with_nullability n k) ≡ fits v m k };
}

/// An `ExtVTable` that can be cloned, with its metadata, so that its extension types are `Clone`.
pub trait CloneExtVTable: ExtVTable {
    fn clone_vtable(&self) -> Result<Self, AllocError>
        ensures { IfOk result (λ copy. copy ≡ self.now) };

    fn clone_metadata(&self, metadata: &Self::Metadata) -> Result<Self::Metadata, AllocError>
        ensures { IfOk result (λ copy. copy ≡ metadata.now) };
}
