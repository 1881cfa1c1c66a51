//! The function of placeholders, and what it is asked for.
ghost use Rattle.std.specs.Prelude.{◌≡◌, Some};
ghost use Rattle.std.specs.Cmp.Rules.{hashing};
ghost use Rattle.std.specs.Hash as fed;
ghost use Rattle.std.proofs.Common.{rules};
ghost use Rattle.vortex_stats_evaluate.specs.Names.{name_of_aggregate};

use std::fmt;
use std::hash::{Hash, Hasher};
use vortex_stats_expr::aggregate::AggregateFn;

/// The function of a placeholder for a statistic, `ScalarFnId::Stat`. It is a name alone: `stat`
/// makes a placeholder, `bind_stats` replaces it and `stat_scalar` gives its value.
#[derive(Clone, Copy, Debug, PartialEq, Eq, Hash)]
pub struct StatFn;

/// Which statistic a placeholder asks for, as Vortex's `StatOptions`. Printed, it is the name of
/// its aggregate function.
#[derive(Clone, Copy, Debug, PartialEq, Eq)]
pub struct StatOptions {
    aggregate: AggregateFn,
}

impl StatOptions {
    ghost use Rattle.std.specs.Prelude.{◌≡◌};

    /// The options of a placeholder for this statistic.
    pub fn new(aggregate: AggregateFn) -> StatOptions
        ensures { result.aggregate ≡ aggregate }
    {
        StatOptions { aggregate }
    }

    /// The statistic.
    pub fn aggregate_fn(&self) -> AggregateFn
        ensures { result ≡ self.now.aggregate }
    {
        self.aggregate
    }
}

// The name that placeholders are written with.
fn name(aggregate: AggregateFn) -> &'static str
    ensures { result.now ≡ name_of_aggregate aggregate }
{
    match aggregate {
        AggregateFn::Min => "min",
        AggregateFn::Max => "max",
        AggregateFn::Sum => "sum",
        AggregateFn::NullCount => "null_count",
        AggregateFn::NanCount => "nan_count",
        AggregateFn::UncompressedSizeInBytes => "uncompressed_size_in_bytes",
        AggregateFn::MinMax => "min_max",
        AggregateFn::AllNull => "all_null",
        AggregateFn::AllNonNull => "all_non_null",
        AggregateFn::AllNan => "all_nan",
        AggregateFn::AllNonNan => "all_non_nan",
    }
}

impl fmt::Display for StatOptions {
    ghost output = { λ options. Some (name_of_aggregate options.aggregate) };

    fn fmt<W: fmt::Write>(&self, f: &mut fmt::Formatter<W>) -> fmt::Result {
        f.write_str(name(self.aggregate))
    }
}

impl Hash for StatOptions {
    ghost hash_input = { λ options. fed.str (name_of_aggregate options.aggregate) };

    ghost respects_eq = { Prim.search (hashing, rules) };

    fn hash<H: Hasher>(&self, state: &mut H) {
        name(self.aggregate).hash(state);
    }
}
