//! The statistics of a leaf column.
ghost use Rattle.std.specs.Prelude.{◌≡◌, IfOk};
ghost use Rattle.vortex_model.specs.LogicalType.{Nullability};
ghost use Rattle.vortex_model_table.specs.Typing.{sum_kind};
ghost use Rattle.vortex_dtype_ptype.specs.Numbers.{int_kind_in, type_of_numbers};
ghost use Rattle.vortex_dtype_ptype.specs.View.{number_kind_of};
ghost use Rattle.vortex_dtype_core.specs.View.{type_of};
ghost use Rattle.vortex_stats_array.specs.Alike.{raw_bound};
ghost use Rattle.vortex_stats_array.specs.Sums.{int_kind_of};

use std::alloc::AllocError;
use vortex_dtype_core::dtype::DType;
use vortex_dtype_ptype::ptype::PType;
use vortex_scalar_value::pvalue::PValue;
use vortex_scalar_value::scalar_value::ScalarValue;
use vortex_stats_bound::precision::Precision;

/// The statistics of the rows of a leaf column, in an array or in several that were joined, as a
/// zone of Vortex's zone maps has them.
#[derive(Drop)]
pub struct ArrayStats {
    /// A lower bound, inexact where it was shortened, and `Absent` where every row is null.
    pub min: Precision<ScalarValue>,
    /// An upper bound, inexact where it was shortened. `Absent` where every row is null, and where
    /// the greatest value is too long and has no shorter value above it.
    pub max: Precision<ScalarValue>,
    /// The number of null rows.
    pub null_count: usize,
    /// The number of rows.
    pub row_count: usize,
    /// The sum, in which null counts 0 and true 1: an `I64` for signed integers, a `U64` for
    /// unsigned ones and for booleans. `None` where it overflows or that of joined rows did, and
    /// for other columns.
    pub sum: Option<PValue>,
    /// Whether all rows are null, or all have one value. `None` where a join doesn't show it.
    pub is_constant: Option<bool>,
}

/// The bound once more. Strings and bytes are shared.
pub fn clone_bound(bound: &Precision<ScalarValue>) -> Result<Precision<ScalarValue>, AllocError>
    ensures { IfOk result (λ new. raw_bound new ≡ raw_bound bound.now) }
{
    match bound {
        Precision::Exact(value) => Ok(Precision::Exact(value.clone()?)),
        Precision::Inexact(value) => Ok(Precision::Inexact(value.clone()?)),
        Precision::Absent => Ok(Precision::Absent),
    }
}

impl Clone for ArrayStats {
    ghost use Rattle.vortex_stats_array.specs.Alike.{SaysTheSame};

    ghost is_clone = { SaysTheSame };

    fn clone(&self) -> Result<ArrayStats, AllocError> {
        let min = clone_bound(&self.min)?;
        let max = clone_bound(&self.max)?;
        Ok(ArrayStats {
            min,
            max,
            null_count: self.null_count,
            row_count: self.row_count,
            sum: self.sum,
            is_constant: self.is_constant,
        })
    }
}

// The type of the sums of numbers of this type.
fn sum_of_numbers(ptype: PType) -> PType
    ensures { (n : Nullability) → int_kind_in (number_kind_of result)
        ≡ sum_kind (type_of_numbers (number_kind_of ptype) n) }
{
    match ptype {
        PType::U8 | PType::U16 | PType::U32 | PType::U64 => PType::U64,
        PType::I8 | PType::I16 | PType::I32 | PType::I64 => PType::I64,
        PType::F16 | PType::F32 | PType::F64 => PType::F64,
    }
}

/// The integer type of the sum of a column of this type, if it has one. Float columns have none.
#[tactic(auto, using(vortex_dtype_core::proofs::Views::one_level))]
pub fn sum_ptype(dtype: &DType) -> Option<PType>
    ensures { int_kind_of result ≡ sum_kind (type_of dtype.now) }
{
    match dtype {
        DType::Bool(_) => Some(PType::U64),
        DType::Primitive(ptype, _) => Some(sum_of_numbers(*ptype)),
        DType::Null | DType::Decimal(_, _) | DType::Utf8(_) | DType::Binary(_) => None,
        DType::List(_, _) | DType::FixedSizeList(_, _, _) | DType::Map(_, _) => None,
        DType::Struct(_, _) | DType::Union(_, _) => None,
        DType::Variant(_) | DType::Extension(_) => None,
    }
}
