//! Single tokens.
ghost use Rattle.std.specs.Prelude.{◌≡◌, ◌∷◌, Some, IfOk, OnOk};
ghost use Rattle.json.specs.Json.{after_end_array};
ghost use Rattle.json.specs.Reads.{token_of};
ghost use Rattle.json.specs.Token.{begin_array, begin_object};

use crate::give_up::GiveUp;
use json::{Reader, Token};

pub(crate) fn next_token<'a>(reader: &mut Reader<'a>) -> Result<Token<'a>, GiveUp>
    ensures { IfOk result (λ token. reader.old ≡ token_of token ∷ reader.new) }
{
    let token = reader.next().ok_or(GiveUp)?;
    Ok(token)
}

pub(crate) fn take_object(reader: &mut Reader<'_>) -> Result<(), GiveUp>
    ensures { OnOk result (reader.old ≡ begin_object ∷ reader.new) }
{
    let token = next_token(reader)?;
    match token {
        Token::BeginObject => Ok(()),
        _ => Err(GiveUp),
    }
}

pub(crate) fn take_array(reader: &mut Reader<'_>) -> Result<(), GiveUp>
    ensures { OnOk result (reader.old ≡ begin_array ∷ reader.new) }
{
    let token = next_token(reader)?;
    match token {
        Token::BeginArray => Ok(()),
        _ => Err(GiveUp),
    }
}

pub(crate) fn take_array_end(reader: &mut Reader<'_>) -> Result<(), GiveUp>
    ensures { OnOk result (after_end_array reader.old ≡ Some reader.new) }
{
    if reader.take_end_array() {
        Ok(())
    } else {
        Err(GiveUp)
    }
}
