//! Descriptions as JSON.
ghost use Rattle.std.specs.Prelude.{◌≡◌};
ghost use Rattle.vortex_table_text.specs.Descriptions.{known_has_text, description_has_text, DescriptionsHaveTheirText};

use crate::types::has_text;
use vortex_scalar_core::scalar::Scalar;
use vortex_stats_bound::precision::Precision;
use vortex_table_schema::description::Description;

// Whether the type of the value, if there is one, has JSON text.
fn known_has_text(known: &Precision<Scalar>) -> bool
    ensures { result ≡ known_has_text known.now }
{
    match known {
        Precision::Exact(value) => has_text(value.dtype()),
        Precision::Inexact(value) => has_text(value.dtype()),
        Precision::Absent => true,
    }
}

/// Whether the types of the values have JSON text.
pub(crate) fn description_has_text(description: &Description) -> bool
    ensures { result ≡ description_has_text description.now }
{
    known_has_text(&description.min)
        && known_has_text(&description.max)
        && known_has_text(&description.null_count)
        && known_has_text(&description.sum)
        && known_has_text(&description.constant)
}

/// The JSON text of a description is the one that answers it in a line.
pub fn descriptions_have_their_text()
    ensures { DescriptionsHaveTheirText }
{}
