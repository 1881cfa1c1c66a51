//! Answers of descriptions as JSON.
ghost use Rattle.std.specs.Prelude.{◌≡◌, ◌++◌, OnOk};
ghost use Rattle.vortex_model_table.specs.ZoneMap.{ZoneMap};
ghost use Rattle.vortex_scalar_core.specs.Scalar.{scalar_content};
ghost use Rattle.vortex_table_schema.specs.Description.{known_content, IsDescription};
ghost use Rattle.vortex_table_response.specs.Text.{entry_text, known_text, member_text, members_text, description_text};

use crate::values::push_cell;
use std::alloc::AllocError;
use vortex_scalar_core::scalar::Scalar;
use vortex_stats_bound::precision::Precision;
use vortex_table_schema::description::Description;

// Writes a JSON array that has a value after `front`, which opens the array.
fn push_entry(out: &mut Vec<u8>, front: &[u8], value: &Scalar) -> Result<(), AllocError>
    ensures { OnOk result (out.new.items ≡ out.old.items
        ++ entry_text front.now (scalar_content value.now)) }
{
    out.extend_from_slice(front)?;
    push_cell(out, value.value())?;
    out.extend_from_slice(b"]")?;
    Ok(())
}

// Writes whether a value is exact, inexact or absent, and the value.
fn push_known(out: &mut Vec<u8>, known: &Precision<Scalar>) -> Result<(), AllocError>
    ensures { OnOk result (out.new.items ≡ out.old.items ++ known_text (known_content known.now)) }
{
    match known {
        Precision::Exact(value) => push_entry(out, b"[\"exact\",", value),
        Precision::Inexact(value) => push_entry(out, b"[\"inexact\",", value),
        Precision::Absent => out.extend_from_slice(b"[\"absent\"]"),
    }
}

fn push_member(out: &mut Vec<u8>, front: &[u8], known: &Precision<Scalar>) -> Result<(), AllocError>
    ensures { OnOk result (out.new.items ≡ out.old.items
        ++ member_text front.now (known_content known.now)) }
{
    out.extend_from_slice(front)?;
    push_known(out, known)?;
    Ok(())
}

/// Writes the answer of a description by its statistics. After an `Err` the buffer's content is
/// unspecified.
pub fn push_members(out: &mut Vec<u8>, description: &Description) -> Result<(), AllocError>
    ensures { OnOk result (out.new.items ≡ out.old.items ++ members_text
        (known_content description.now.constant) (known_content description.now.max)
        (known_content description.now.min) (known_content description.now.null_count)
        (known_content description.now.sum)) }
{
    push_member(out, b"{\"constant\":", &description.constant)?;
    push_member(out, b",\"max\":", &description.max)?;
    push_member(out, b",\"min\":", &description.min)?;
    push_member(out, b",\"null_count\":", &description.null_count)?;
    push_member(out, b",\"ok\":true,\"sum\":", &description.sum)?;
    out.extend_from_slice(b"}")?;
    Ok(())
}

/// Writes the answer of a description. After an `Err` the buffer's content is unspecified.
pub fn push_description(out: &mut Vec<u8>, description: &Description) -> Result<(), AllocError>
    ensures { OnOk result ((z : ZoneMap) → IsDescription description.now z
        → out.new.items ≡ out.old.items ++ description_text z) }
{
    push_members(out, description)?;
    Ok(())
}
