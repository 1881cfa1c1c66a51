//! Laws over the definitions alone. Each function's clause is a law.
ghost use Rattle.vortex_dtype_fields.specs.Laws.{
  EqualityIgnoringNullabilityIsAnEquivalence,
  EqualTypesHashAlike,
  FittingIsReflexive,
  FittingIsTransitive,
  ProjectionsHaveTheNames,
};
ghost use Rattle.vortex_dtype_fields.specs.Records.{TagsLeadBack};

/// Equality up to nullability is an equivalence.
pub fn equality_ignoring_nullability_is_an_equivalence()
    ensures { EqualityIgnoringNullabilityIsAnEquivalence }
{}

/// Types that are equal up to nullability have equal hashes.
pub fn equal_types_hash_alike()
    ensures { EqualTypesHashAlike }
{}

/// A type fits into itself.
pub fn fitting_is_reflexive()
    ensures { FittingIsReflexive }
{}

/// Fitting is transitive.
pub fn fitting_is_transitive()
    ensures { FittingIsTransitive }
{}

/// A projection has the requested names, in their order.
pub fn projections_have_the_names()
    ensures { ProjectionsHaveTheNames }
{}

/// Where no tag repeats, the index of the tag at an index is that index.
pub fn tags_lead_back()
    ensures { TagsLeadBack }
{}
