//! Constructors of scalars.
ghost use Rattle.std.specs.Prelude.{◌≡◌, IsUtf8, is_ok, IfOk, OnOk, IfErr};
ghost use Rattle.vortex_model.specs.LogicalType.{LogicalType, boolean_type, integer_type, utf8, binary, list, variant, non_nullable, nullable, with_nullability, eq_type};
ghost use Rattle.vortex_model.specs.Content.{Raw, raw_null, raw_boolean, raw_number, raw_text, raw_byte_string, raw_tuple, raw_scalar, no_raws};
ghost use Rattle.vortex_dtype_ptype.specs.Numbers.{integral, type_of_numbers};
ghost use Rattle.vortex_dtype_ptype.specs.View.{nullability_of_flag, number_kind_of};
ghost use Rattle.vortex_dtype_core.specs.Parts.{storage_of};
ghost use Rattle.vortex_dtype_core.specs.View.{type_of, extension_type};
ghost use Rattle.vortex_scalar_value.specs.Numbers.{kind_of_number, integer_of, raw_of_number, is_number_of};
ghost use Rattle.vortex_scalar_value.specs.declared.error.ScalarError.TheVariants.{Invalid};
ghost use Rattle.vortex_scalar_core.specs.Scalar.{scalar_type, scalar_raw};

use crate::extensions::{extension_value, variant_value};
use crate::leaves::{binary_value, bool_value, number_value, text_value};
use crate::lists::empty_list;
use std::alloc::{AllocError, Global};
use std::rc::Rc;
use vortex_dtype_core::dtype::DType;
use vortex_dtype_core::extension::ExtDTypeRef;
use vortex_dtype_core::{BufferString, ByteBuffer};
use vortex_dtype_fields::native_dtype::NativeDType;
use vortex_dtype_native::native::NativePType;
use vortex_dtype_ptype::nullability::Nullability;
use vortex_dtype_ptype::ptype::PType;
use vortex_scalar_core::scalar::Scalar;
use vortex_scalar_value::error::ScalarError;
use vortex_scalar_value::pvalue::PValue;

/// Constructors of scalars, which are methods of Vortex's `Scalar`. None takes null as a value,
/// except inside a scalar.
pub trait ScalarConstructors {
    ghost kind: { Self → LogicalType };

    ghost raw: { Self → Raw };

    fn bool(value: bool, nullability: Nullability) -> Self
        ensures dtype { kind result ≡ boolean_type (nullability_of_flag nullability) }
        ensures value { raw result ≡ raw_boolean value };

    fn primitive<T: NativePType>(value: T, nullability: Nullability) -> Self
        ensures dtype { kind result ≡ integer_type T.kind (nullability_of_flag nullability) }
        ensures value { raw result ≡ raw_number T.kind (T.integer value) };

    /// An integer, or `ScalarError::Invalid` where its type isn't `ptype`.
    fn primitive_value(
        value: PValue,
        ptype: PType,
        nullability: Nullability,
    ) -> Result<Self, ScalarError>
        ensures when { is_ok result ≡ is_number_of (number_kind_of ptype) (kind_of_number value)
            (integer_of value) }
        ensures dtype { IfOk result (λ made. kind made ≡ type_of_numbers (number_kind_of ptype)
            (nullability_of_flag nullability)) }
        ensures value { IfOk result (λ made. raw made ≡ raw_of_number value) }
        ensures refused { IfErr result (λ e. e ≡ Invalid) };

    fn utf8(text: BufferString, nullability: Nullability) -> Self
        ensures dtype { kind result ≡ utf8 (nullability_of_flag nullability) }
        ensures value { raw result ≡ raw_text text };

    /// A string of these bytes, or `ScalarError::Invalid` where they are not UTF-8.
    fn try_utf8(bytes: ByteBuffer, nullability: Nullability) -> Result<Self, ScalarError>
        ensures dtype { IfOk result (λ made. kind made ≡ utf8 (nullability_of_flag nullability)) }
        ensures value { IfOk result (λ made. raw made ≡ raw_text bytes) }
        ensures accepted { OnOk result (IsUtf8 bytes) }
        ensures refused { IfErr result (λ e. (e ≡ Invalid) × (IsUtf8 bytes → ⊥)) };

    fn binary(bytes: ByteBuffer, nullability: Nullability) -> Self
        ensures dtype { kind result ≡ binary (nullability_of_flag nullability) }
        ensures value { raw result ≡ raw_byte_string bytes };

    /// An empty list with this element type.
    fn list_empty(alloc: Global, element: Rc<DType>, nullability: Nullability) -> Self
        ensures dtype { kind result
            ≡ list (type_of element.value) (nullability_of_flag nullability) }
        ensures value { raw result ≡ raw_tuple no_raws };

    /// The value of the storage as one of the extension. `ScalarError::Invalid` where its type
    /// isn't the storage type.
    fn extension_ref(extension: ExtDTypeRef, storage: Self) -> Result<Self, ScalarError>
        ensures when { is_ok result
            ≡ eq_type (kind storage) (storage_of (extension_type extension)) }
        ensures dtype { IfOk result (λ made. kind made ≡ extension_type extension) }
        ensures value { IfOk result (λ made. raw made ≡ raw storage) }
        ensures refused { IfErr result (λ e. e ≡ Invalid) };

    /// The value with its type, as a non-nullable `Variant`.
    fn variant(alloc: Global, value: Self) -> Result<Self, AllocError>
        ensures dtype { IfOk result (λ made. kind made ≡ variant non_nullable) }
        ensures value { IfOk result (λ made. raw made ≡ raw_scalar (kind value) (raw value)) };

    /// Null of the nullable type of columns of `T`.
    fn null_native<T: NativeDType>(alloc: Global) -> Result<Self, AllocError>
        ensures dtype { IfOk result (λ made. kind made ≡ with_nullability nullable T.values) }
        ensures value { IfOk result (λ made. raw made ≡ raw_null) };
}

impl ScalarConstructors for Scalar {
    ghost kind = { scalar_type };

    ghost raw = { scalar_raw };

    fn bool(value: bool, nullability: Nullability) -> Scalar {
        bool_value(value, nullability)
    }

    fn primitive<T: NativePType>(value: T, nullability: Nullability) -> Scalar {
        number_value(PValue::of_native(value), nullability)
    }

    fn primitive_value(
        value: PValue,
        ptype: PType,
        nullability: Nullability,
    ) -> Result<Scalar, ScalarError> {
        if !value.is_of(ptype) {
            return Err(ScalarError::Invalid);
        }
        Ok(number_value(value, nullability))
    }

    fn utf8(text: BufferString, nullability: Nullability) -> Scalar {
        text_value(text, nullability)
    }

    fn try_utf8(bytes: ByteBuffer, nullability: Nullability) -> Result<Scalar, ScalarError> {
        if simdutf8::basic::from_utf8(bytes.as_slice()).is_err() {
            return Err(ScalarError::Invalid);
        }
        let text = BufferString::from_known_utf8(bytes);
        Ok(text_value(text, nullability))
    }

    fn binary(bytes: ByteBuffer, nullability: Nullability) -> Scalar {
        binary_value(bytes, nullability)
    }

    fn list_empty(alloc: Global, element: Rc<DType>, nullability: Nullability) -> Scalar {
        empty_list(alloc, element, nullability)
    }

    fn extension_ref(extension: ExtDTypeRef, storage: Scalar) -> Result<Scalar, ScalarError> {
        extension_value(extension, storage)
    }

    fn variant(alloc: Global, value: Scalar) -> Result<Scalar, AllocError> {
        let made = variant_value(alloc, value)?;
        Ok(made)
    }

    fn null_native<T: NativeDType>(alloc: Global) -> Result<Scalar, AllocError> {
        let dtype = T::dtype(alloc)?;
        let dtype = dtype.as_nullable()?;
        Ok(Scalar::null(dtype))
    }
}
