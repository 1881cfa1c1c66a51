//! Laws over the definitions alone. Each function's clause is a law.
ghost use Rattle.vortex_scalar_ops.specs.Laws.{
  OrderIsTransitive,
  OrderTurns,
  PlainTypesHavePlainValues,
  EqualValuesHashAlike,
  EqualValuesCompareAlike,
  EqualityIsAnEquivalence,
  TiedValuesAreTheSame,
  ValuesOfATypeCompare,
};

/// `eq_values` is an equivalence.
pub fn equality_is_an_equivalence()
    ensures { EqualityIsAnEquivalence }
{}

/// Values without `Variant` values inside compare as equal exactly where `eq_values` equates them.
pub fn values_that_tie_are_equal()
    ensures { TiedValuesAreTheSame }
{}

/// Comparing the other way round reverses the order.
pub fn order_turns()
    ensures { OrderTurns }
{}

/// Values that `eq_values` equates have equal hashes.
pub fn eq_values_hash_alike()
    ensures { EqualValuesHashAlike }
{}

/// The order is transitive, strictly and not.
pub fn order_is_transitive()
    ensures { OrderIsTransitive }
{}

/// Values that `eq_values` equates have the same order to any other value.
pub fn eq_values_compare_alike()
    ensures { EqualValuesCompareAlike }
{}

/// Values of a type without `Variant` at any level have no `Variant` values inside.
pub fn plain_types_have_plain_values()
    ensures { PlainTypesHavePlainValues }
{}

/// Two values of one type without `Variant`, up to nullability, compare.
pub fn values_of_a_type_compare()
    ensures { ValuesOfATypeCompare }
{}
