//! Options of BETWEEN and LIKE.
ghost use Rattle.std.specs.Prelude.{◌≡◌};
ghost use Rattle.vortex_model_table.specs.Truth.{end_of};
ghost use Rattle.vortex_stats_expr.specs.Tree.{comparison_of, is_strict};

use crate::operator::Comparison;

/// Whether an end of BETWEEN belongs to the range.
#[derive(Clone, Copy, Debug, PartialEq, Eq)]
pub enum StrictComparison {
    /// The end itself is outside.
    Strict,
    /// The end itself is inside.
    NonStrict,
}

impl StrictComparison {
    /// The comparison of the lower end with a value in the range, and of the value with the upper
    /// end.
    pub fn to_comparison(self) -> Comparison
        ensures { comparison_of result ≡ end_of (is_strict self) }
    {
        match self {
            StrictComparison::Strict => Comparison::Lt,
            StrictComparison::NonStrict => Comparison::Lte,
        }
    }
}

/// How the two ends of BETWEEN are compared, as Vortex's `BetweenOptions`.
#[derive(Clone, Copy, Debug, PartialEq, Eq)]
pub struct BetweenOptions {
    pub lower_strict: StrictComparison,
    pub upper_strict: StrictComparison,
}

/// Whether LIKE is negated, and whether it ignores case, as Vortex's `LikeOptions`.
#[derive(Clone, Copy, Debug, PartialEq, Eq)]
pub struct LikeOptions {
    pub negated: bool,
    pub case_insensitive: bool,
}
