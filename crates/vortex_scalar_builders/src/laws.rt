//! Laws of shortened bounds. Each function's clause is a law.
ghost use Rattle.vortex_scalar_builders.specs.Laws.{
  LowsAreOfTheFunction,
  HighsAreOfTheFunction,
  LowsAreUnique,
  HighsAreUnique,
  LowsStayBelow,
  HighsStayAbove,
  BoundsAreWellFormed,
  BoundsFit,
};

/// `low` meets the definition of the low.
pub fn lows_are_of_the_function()
    ensures { LowsAreOfTheFunction }
{}

/// `high` meets the definition of the high.
pub fn highs_are_of_the_function()
    ensures { HighsAreOfTheFunction }
{}

/// A value has one low.
pub fn lows_are_unique()
    ensures { LowsAreUnique }
{}

/// A value has at most one high.
pub fn highs_are_unique()
    ensures { HighsAreUnique }
{}

/// The low of the least value is not above any value.
pub fn lows_stay_below()
    ensures { LowsStayBelow }
{}

/// The high of the greatest value is not below any value.
pub fn highs_stay_above()
    ensures { HighsStayAbove }
{}

/// Bounds of strings are UTF-8.
pub fn bounds_are_well_formed()
    ensures { BoundsAreWellFormed }
{}

/// Bounds fit into the bound length.
pub fn bounds_fit()
    ensures { BoundsFit }
{}
