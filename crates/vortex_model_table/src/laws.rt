//! A law over the definitions alone, as the clause of a function with an empty body.
ghost use Rattle.vortex_model_table.specs.ZoneLaws.{EqualityOfContentsIsRight};

/// The test `equal_content` passes exactly the contents that are equal.
pub fn equality_of_contents_is_right()
    ensures { EqualityOfContentsIsRight }
{}
