//! What was written as JSON is read back the same. Each law is the clause of a function.
ghost use Rattle.vortex_table_text.specs.Laws.{
  TypesAreReadBack,
  ValuesAreReadBack,
  PredicatesAreReadBack,
};

/// The JSON text of a type is read as the type.
pub fn types_are_read_back()
    ensures { TypesAreReadBack }
{}

/// The JSON text of a value is read for its type as the value.
pub fn values_are_read_back()
    ensures { ValuesAreReadBack }
{}

/// The JSON text of a predicate is read as the predicate.
pub fn predicates_are_read_back()
    ensures { PredicatesAreReadBack }
{}
