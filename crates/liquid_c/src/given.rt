//! Values that are given with a tag, as a text.
ghost use Rattle.std.specs.Prelude.{◌≡◌, length, map, option_map};
ghost use Rattle.liquid_model.specs.Answer.{IsValueOrMemory};
ghost use Rattle.liquid_core.specs.ExpressionView.{expression_view};
ghost use Rattle.liquid_c.specs.GivenValues.{closed_values, given_values};

use liquid_core::{Error, Expression, Result};
use liquid_lexer::{Delimiter, ParseError, read_items};
use liquid_parser::{Separators, read_values};
use std::alloc::{AllocError, Global};

/// The values that a text is, with commas between them, where it is these and nothing else. An
/// empty text has none.
#[tactic(auto, unfolding(crate::specs::GivenValues::given_values))]
pub(crate) fn given_values(alloc: Global, text: &str) -> Result<Option<Vec<Expression>>>
    ensures { IsValueOrMemory (option_map (λ xs. map expression_view xs.items)) result
        (given_values text.now) }
{
    if text.is_empty() {
        return Ok(Some(Vec::new(alloc)));
    }
    let mut closed = String::from_str(alloc, text)?;
    closed.push_str(" %}")?;
    closed_values(alloc, closed.as_str())
}

/// The values before the closer that ends a text.
#[tactic(auto, unfolding(crate::specs::GivenValues::closed_values))]
fn closed_values(alloc: Global, text: &str) -> Result<Option<Vec<Expression>>>
    ensures { IsValueOrMemory (option_map (λ xs. map expression_view xs.items)) result
        (closed_values text.now) }
{
    let (items, _, rest) = match read_items(alloc, text, Delimiter::Tag) {
        Ok(found) => found,
        Err(ParseError::Fault(_)) => return Ok(None),
        Err(ParseError::Memory) => return Err(Error::from(AllocError)),
    };
    if !rest.is_empty() {
        return Ok(None);
    }
    match read_values(alloc, items, Separators::Commas, text) {
        Ok(values) => Ok(Some(values)),
        Err(ParseError::Fault(_)) => Ok(None),
        Err(ParseError::Memory) => Err(Error::from(AllocError)),
    }
}
