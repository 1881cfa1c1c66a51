//! The logical types of native values.
ghost use Rattle.std.specs.Prelude.{◌≡◌, IfOk};
ghost use Rattle.vortex_model.specs.LogicalType.{LogicalType, boolean_type, integer_type, utf8, binary, list, non_nullable, nullable, with_nullability, u8, u16, u32, u64, i8, i16, i32, i64};
ghost use Rattle.vortex_dtype_core.specs.View.{type_of};

use std::alloc::{AllocError, Global};
use std::rc::Rc;
use vortex_dtype_core::ByteBuffer;
use vortex_dtype_core::dtype::DType;
use vortex_dtype_ptype::nullability::Nullability;
use vortex_dtype_ptype::ptype::PType;

/// A native type that values of a column are read as, as Vortex's `NativeDType`.
pub trait NativeDType {
    // the type of the column
    ghost values: { LogicalType };

    fn dtype(alloc: Global) -> Result<DType, AllocError>
        ensures { IfOk result (λ dtype. type_of dtype ≡ values) };
}

impl NativeDType for bool {
    ghost values = { boolean_type non_nullable };

    fn dtype(_alloc: Global) -> Result<DType, AllocError> {
        Ok(DType::Bool(Nullability::NonNullable))
    }
}

impl NativeDType for u8 {
    ghost values = { integer_type u8 non_nullable };

    fn dtype(_alloc: Global) -> Result<DType, AllocError> {
        Ok(DType::Primitive(PType::U8, Nullability::NonNullable))
    }
}

impl NativeDType for u16 {
    ghost values = { integer_type u16 non_nullable };

    fn dtype(_alloc: Global) -> Result<DType, AllocError> {
        Ok(DType::Primitive(PType::U16, Nullability::NonNullable))
    }
}

impl NativeDType for u32 {
    ghost values = { integer_type u32 non_nullable };

    fn dtype(_alloc: Global) -> Result<DType, AllocError> {
        Ok(DType::Primitive(PType::U32, Nullability::NonNullable))
    }
}

impl NativeDType for u64 {
    ghost values = { integer_type u64 non_nullable };

    fn dtype(_alloc: Global) -> Result<DType, AllocError> {
        Ok(DType::Primitive(PType::U64, Nullability::NonNullable))
    }
}

impl NativeDType for i8 {
    ghost values = { integer_type i8 non_nullable };

    fn dtype(_alloc: Global) -> Result<DType, AllocError> {
        Ok(DType::Primitive(PType::I8, Nullability::NonNullable))
    }
}

impl NativeDType for i16 {
    ghost values = { integer_type i16 non_nullable };

    fn dtype(_alloc: Global) -> Result<DType, AllocError> {
        Ok(DType::Primitive(PType::I16, Nullability::NonNullable))
    }
}

impl NativeDType for i32 {
    ghost values = { integer_type i32 non_nullable };

    fn dtype(_alloc: Global) -> Result<DType, AllocError> {
        Ok(DType::Primitive(PType::I32, Nullability::NonNullable))
    }
}

impl NativeDType for i64 {
    ghost values = { integer_type i64 non_nullable };

    fn dtype(_alloc: Global) -> Result<DType, AllocError> {
        Ok(DType::Primitive(PType::I64, Nullability::NonNullable))
    }
}

impl NativeDType for &str {
    ghost values = { utf8 non_nullable };

    fn dtype(_alloc: Global) -> Result<DType, AllocError>
        ensures { IfOk result (λ dtype. type_of dtype ≡ utf8 non_nullable) }
    {
        Ok(DType::Utf8(Nullability::NonNullable))
    }
}

impl NativeDType for String {
    ghost values = { utf8 non_nullable };

    fn dtype(_alloc: Global) -> Result<DType, AllocError> {
        Ok(DType::Utf8(Nullability::NonNullable))
    }
}

impl NativeDType for &[u8] {
    ghost values = { binary non_nullable };

    fn dtype(_alloc: Global) -> Result<DType, AllocError>
        ensures { IfOk result (λ dtype. type_of dtype ≡ binary non_nullable) }
    {
        Ok(DType::Binary(Nullability::NonNullable))
    }
}

impl NativeDType for ByteBuffer {
    ghost values = { binary non_nullable };

    fn dtype(_alloc: Global) -> Result<DType, AllocError> {
        Ok(DType::Binary(Nullability::NonNullable))
    }
}

/// A nullable column.
impl<T: NativeDType> NativeDType for Option<T> {
    ghost values = { with_nullability nullable T.values };

    fn dtype(alloc: Global) -> Result<DType, AllocError> {
        let dtype = T::dtype(alloc)?;
        let nullable = dtype.as_nullable()?;
        Ok(nullable)
    }
}

/// A column of lists.
impl<T: NativeDType> NativeDType for Vec<T> {
    ghost values = { list T.values non_nullable };

    #[tactic(auto, using(vortex_dtype_core::proofs::Views::one_level))]
    fn dtype(alloc: Global) -> Result<DType, AllocError> {
        let element = T::dtype(alloc)?;
        let shared = Rc::new(alloc, element)?;
        Ok(DType::List(shared, Nullability::NonNullable))
    }
}
