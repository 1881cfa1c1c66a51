//! Plugins, which read extensions of one id.
ghost use Rattle.std.specs.Prelude.{◌≡◌, ◌≢◌, ℕ, List, Some, None, IfOk, IfErr};
ghost use Rattle.vortex_model.specs.LogicalType.{LogicalType, Nullability, with_nullability};
ghost use Rattle.vortex_dtype_ptype.specs.declared.error.DTypeError.TheVariants.{Memory};
ghost use Rattle.vortex_dtype_core.specs.View.{type_of};
ghost use Rattle.vortex_dtype_proto.specs.Sessions.{Plugin};

use vortex_dtype_core::ByteBuffer;
use vortex_dtype_core::dtype::DType;
use vortex_dtype_ptype::error::DTypeError;

/// Reads extensions of one id. Its meaning in contracts is a function of metadata and storage: the
/// bytes that it writes back, or none where it refuses.
pub trait ExtDTypePlugin: Drop {
    ghost name: { Self → List ℕ };

    ghost meaning: { Self → Plugin };

    fn id(&self) -> &str
        ensures { result.now ≡ name self.now };

    /// The metadata that an extension over this storage has. `DTypeError::Memory` where memory runs
    /// out; any other error is a refusal.
    fn read(&self, metadata: &[u8], storage: &DType) -> Result<ByteBuffer, DTypeError>
        ensures read { IfOk result (λ bytes. meaning self.now metadata.now (type_of storage.now)
            ≡ Some bytes) }
        ensures refused { IfErr result
            (λ e. e ≢ Memory → meaning self.now metadata.now (type_of storage.now) ≡ None) };

    // It reads what it wrote unchanged.
    ghost reads_its_own: { (p : Self) (metadata bytes : List ℕ) (k : LogicalType) →
        meaning p metadata k ≡ Some bytes → meaning p bytes k ≡ Some bytes };

    // It doesn't depend on the storage's outer nullability.
    ghost outer_aside: { (p : Self) (metadata : List ℕ) (k : LogicalType) (n : Nullability) →
        meaning p metadata (with_nullability n k) ≡ meaning p metadata k };
}
