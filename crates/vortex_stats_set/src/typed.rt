//! Sets of statistics with the type of their column.
ghost use Rattle.std.specs.Prelude.{◌≡◌, ◌≢◌, IfOk, IfErr, OnOk, OnErr, IsOk, true, false};
ghost use Rattle.vortex_dtype_core.specs.View.{type_of};
ghost use Rattle.vortex_stats_expr.specs.declared.error.StatsError.TheVariants.{Memory, NoOverlap};
ghost use Rattle.vortex_model.specs.LogicalType.{equal_ignoring_nullability};
ghost use Rattle.vortex_stats_set.specs.Sets.{has_stat, set_in, without, HasNoPlace};
ghost use Rattle.vortex_stats_set.specs.Known.{raw_pairs};
ghost use Rattle.vortex_stats_set.specs.Merge.{merged_ordered, merged_unordered};
ghost use Rattle.vortex_stats_set.specs.Combine.{combined_in_turn};

use crate::stats_set::StatsSet;
use vortex_dtype_core::dtype::DType;
use vortex_scalar_value::scalar_value::ScalarValue;
use vortex_stats_bound::precision::Precision;
use vortex_stats_expr::error::StatsError;
use vortex_stats_expr::stat::Stat;

/// A set and the type of its column, as Vortex's `TypedStatsSetRef`.
#[derive(Drop)]
pub struct TypedStatsSetRef<'a, 'b> {
    pub values: &'a StatsSet,
    pub dtype: &'b DType,
}

/// A mutable set and the type of its column, as Vortex's `MutTypedStatsSetRef`.
#[derive(Drop)]
pub struct MutTypedStatsSetRef<'a, 'b> {
    pub values: &'a mut StatsSet,
    pub dtype: &'b DType,
}

impl StatsSet {
    /// The set with the type of its column. It is not tested that the values have their statistics'
    /// types.
    pub fn as_typed_ref<'a, 'b>(&'a self, dtype: &'b DType) -> TypedStatsSetRef<'a, 'b>
        ensures values { result.values.now ≡ self.now }
        ensures dtype { result.dtype.now ≡ dtype.now }
    {
        TypedStatsSetRef {
            values: self,
            dtype,
        }
    }

    /// The mutable set with the type of its column.
    pub fn as_mut_typed_ref<'a, 'b>(&'a mut self, dtype: &'b DType) -> MutTypedStatsSetRef<'a, 'b>
        ensures same_reference { result.values.ghost_name ≡ self.entry.ghost_name }
        ensures values { result.values.now ≡ self.old }
        ensures dtype { result.dtype.now ≡ dtype.now }
    {
        MutTypedStatsSetRef {
            values: self,
            dtype,
        }
    }
}

impl MutTypedStatsSetRef<'_, '_> {
    /// Sets the value of a statistic, at its index if it is there and else at the end. A set of
    /// fewer than four statistics allocates nothing.
    pub fn set(&mut self, stat: Stat, value: Precision<ScalarValue>) -> Result<(), StatsError>
        ensures same_reference { self.new.values.ghost_name ≡ self.old.values.ghost_name }
        ensures dtype { self.new.dtype.now ≡ self.old.dtype.now }
        ensures ok { OnOk result (self.new.values.now ≡ set_in self.old.values.now stat value) }
        ensures err { OnErr result (self.new.values.now ≡ self.old.values.now) }
        ensures in_place { has_stat self.old.values.now stat ≡ true → IsOk result }
        ensures no_place { OnErr result (HasNoPlace self.old.values.now stat) }
        ensures refused { IfErr result (λ e. e ≡ Memory) }
    {
        self.values.set(stat, value)
    }

    /// Removes the statistic.
    pub fn clear(&mut self, stat: Stat)
        ensures same_reference { self.new.values.ghost_name ≡ self.old.values.ghost_name }
        ensures dtype { self.new.dtype.now ≡ self.old.dtype.now }
        ensures values { self.new.values.now ≡ without self.old.values.now stat }
    {
        self.values.clear(stat);
    }

    /// Merges another set into this one, whose rows come after this set's, as Vortex's
    /// `merge_ordered`. Values of columns whose types differ in more than nullability don't
    /// compare. `Memory` is the only error.
    pub fn merge_ordered(&mut self, other: &TypedStatsSetRef) -> Result<(), StatsError>
        ensures same_reference { self.new.values.ghost_name ≡ self.old.values.ghost_name }
        ensures dtype { self.new.dtype.now ≡ self.old.dtype.now }
        ensures ok { OnOk result (raw_pairs self.new.values.now
            ≡ merged_ordered (equal_ignoring_nullability (type_of self.old.dtype.now)
            (type_of other.now.dtype.now)) (raw_pairs self.old.values.now)
            (raw_pairs other.now.values.now)) }
        ensures err { OnErr result (self.new.values.now ≡ self.old.values.now) }
        ensures refused { IfErr result (λ e. e ≡ Memory) }
    {
        let one = self.dtype.eq_ignore_nullability(other.dtype);
        let mut set = self.values.clone()?;
        set.merge_in_turn(other.values, true, one)?;
        *self.values = set;
        Ok(())
    }

    /// Merges another set into this one, with the rows of both in any order, as Vortex's
    /// `merge_unordered`: whether they are sorted is unknown. `Memory` is the only error.
    pub fn merge_unordered(&mut self, other: &TypedStatsSetRef) -> Result<(), StatsError>
        ensures same_reference { self.new.values.ghost_name ≡ self.old.values.ghost_name }
        ensures dtype { self.new.dtype.now ≡ self.old.dtype.now }
        ensures ok { OnOk result (raw_pairs self.new.values.now
            ≡ merged_unordered (equal_ignoring_nullability (type_of self.old.dtype.now)
            (type_of other.now.dtype.now)) (raw_pairs self.old.values.now)
            (raw_pairs other.now.values.now)) }
        ensures err { OnErr result (self.new.values.now ≡ self.old.values.now) }
        ensures refused { IfErr result (λ e. e ≡ Memory) }
    {
        let one = self.dtype.eq_ignore_nullability(other.dtype);
        let mut set = self.values.clone()?;
        set.merge_in_turn(other.values, false, one)?;
        *self.values = set;
        Ok(())
    }

    /// Combines this set with another one of the same rows, as Vortex's `combine_sets`. `NoOverlap`
    /// where the two values of a statistic exclude each other or don't compare; statistics before
    /// it stay combined.
    pub fn combine_sets(&mut self, other: &TypedStatsSetRef) -> Result<(), StatsError>
        ensures same_reference { self.new.values.ghost_name ≡ self.old.values.ghost_name }
        ensures dtype { self.new.dtype.now ≡ self.old.dtype.now }
        ensures ok { OnOk result ((raw_pairs self.new.values.now, true)
            ≡ combined_in_turn (equal_ignoring_nullability (type_of self.old.dtype.now)
            (type_of other.now.dtype.now)) (raw_pairs self.old.values.now)
            (raw_pairs other.now.values.now)) }
        ensures no_overlap { IfErr result (λ e. e ≡ NoOverlap
            → (raw_pairs self.new.values.now, false)
            ≡ combined_in_turn (equal_ignoring_nullability (type_of self.old.dtype.now)
            (type_of other.now.dtype.now)) (raw_pairs self.old.values.now)
            (raw_pairs other.now.values.now)) }
        ensures refused { IfErr result (λ e. e ≢ NoOverlap → (e ≡ Memory)
            × (self.new.values.now ≡ self.old.values.now)) }
    {
        let one = self.dtype.eq_ignore_nullability(other.dtype);
        self.values.combine(other.values, one)
    }
}
