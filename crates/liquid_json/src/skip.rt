//! Past what nobody asks for: its tokens are looked at, and no value is made.
ghost use Rattle.std.specs.Prelude.{◌<◌, length, IfOk, IsSome, OnOk};
ghost use Rattle.json.specs.Reads.{token_of};
ghost use Rattle.liquid_json.specs.inside.Skipped.{IsSkippedValue, IsItems, IsPairs};
ghost use Rattle.liquid_json.specs.inside.Tokens.{scalar_of};
ghost use Rattle.liquid_json.specs.declared.tokens.Numbers.TheVariants.{Integers};

use crate::whole::integer_of;
use json::{Invalid, Reader, Token};

/// The tokens are no value of JSON, or have a number that isn't whole.
#[derive(Clone, Copy, Drop)]
pub struct Refused;

impl From<Invalid> for Refused {
    fn from(_invalid: Invalid) -> Refused {
        Refused
    }
}

/// Refuses a token that isn't a value by itself, and a number that isn't whole.
#[inline(always)]
fn check_scalar(token: Token<'_>) -> Result<(), Refused>
    ensures { OnOk result (IsSome (scalar_of Integers (token_of token.entry))) }
{
    match token {
        Token::Number(text) => match integer_of(text) {
            Some(_n) => Ok(()),
            None => Err(Refused),
        },
        Token::String(_) | Token::Bool(_) | Token::Null => Ok(()),
        _ => Err(Refused),
    }
}

/// Past the value at the front of the tokens.
#[cycle(skipped)]
pub fn skipped(reader: &mut Reader<'_>, depth: usize) -> Result<(), Refused>
    ensures ok { IfOk result (λ u. IsSkippedValue depth reader.old reader.new) }
    ensures shorter { OnOk result (length reader.new < length reader.old) }
{
    let Some(token) = reader.next() else {
        return Err(Refused);
    };
    match token {
        Token::BeginArray => {
            if depth == 0 {
                return Err(Refused);
            }
            skip_items(reader, depth - 1)
        }
        Token::BeginObject => {
            if depth == 0 {
                return Err(Refused);
            }
            skip_pairs(reader, depth - 1)
        }
        _ => check_scalar(token),
    }
}

#[cycle(skipped)]
#[inline(never)]
pub fn skip_items(reader: &mut Reader<'_>, depth: usize) -> Result<(), Refused>
    ensures ok { IfOk result (λ u. IsItems depth reader.old reader.new) }
    ensures shorter { OnOk result (length reader.new < length reader.old) }
{
    'items: while !reader.take_end_array() {
        skipped(reader, depth)?;
    }
    Ok(())
}

#[cycle(skipped)]
#[inline(never)]
fn skip_pairs(reader: &mut Reader<'_>, depth: usize) -> Result<(), Refused>
    ensures ok { IfOk result (λ u. IsPairs depth reader.old reader.new) }
    ensures shorter { OnOk result (length reader.new < length reader.old) }
{
    'pairs: while let Some(name) = reader.next_key()? {
        let _ = name.len();
        skipped(reader, depth)?;
    }
    Ok(())
}
