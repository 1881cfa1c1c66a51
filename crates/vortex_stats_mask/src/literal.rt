//! Literals by their form.
ghost use Rattle.std.specs.Prelude.{◌≡◌, option_copied, option_map};
ghost use Rattle.vortex_scalar_value.specs.Numbers.{integer_of};
ghost use Rattle.vortex_scalar_value.specs.View.{content_at};
ghost use Rattle.vortex_stats_bind.specs.OperandValue.{boolean_in};
ghost use Rattle.vortex_stats_mask.specs.Literals.{integer_in, text_in, bytes_in};

use vortex_scalar_value::pvalue::PValue;
use vortex_scalar_value::scalar_value::ScalarValue;

#[tactic(auto, using(crate::proofs::Literals::forms))]
pub(crate) fn truth(literal: Option<&ScalarValue>) -> Option<bool>
    ensures { result ≡ boolean_in (content_at literal.entry) }
{
    literal?.as_bool()
}

#[tactic(auto, using(crate::proofs::Literals::forms))]
pub(crate) fn number(literal: Option<&ScalarValue>) -> Option<PValue>
    ensures { option_map integer_of result ≡ integer_in (content_at literal.entry) }
{
    literal?.as_primitive()
}

#[tactic(auto, using(crate::proofs::Literals::forms))]
pub(crate) fn text(literal: Option<&ScalarValue>) -> Option<&str>
    ensures { option_copied result ≡ text_in (content_at literal.entry) }
{
    let text = literal?.as_utf8()?;
    Some(text.as_str())
}

#[tactic(auto, using(crate::proofs::Literals::forms))]
pub(crate) fn bytes(literal: Option<&ScalarValue>) -> Option<&[u8]>
    ensures { option_copied result ≡ bytes_in (content_at literal.entry) }
{
    let bytes = literal?.as_binary()?;
    Some(bytes.as_slice())
}
