//! Conditions that a text is, as one stands in an `if`.
ghost use Rattle.std.specs.Prelude.{◌≡◌, length, option_map};
ghost use Rattle.liquid_model.specs.Answer.{IsValueOrMemory};
ghost use Rattle.liquid_evaluation.specs.ConditionView.{condition_view};
ghost use Rattle.liquid_filter_sets.specs.ConditionTexts.{closed_condition, condition_in};

use liquid_core::{Error, Result};
use liquid_lexer::{Delimiter, ParseError, read_items};
use liquid_parser::read_condition;
use liquid_syntax::Condition;
use std::alloc::{AllocError, Global};

/// The condition that a text is, where it is one and nothing else.
#[tactic(auto, unfolding(crate::specs::ConditionTexts::condition_in))]
pub(crate) fn condition_in(alloc: Global, text: &str) -> Result<Option<Condition>>
    ensures { IsValueOrMemory (option_map condition_view) result (condition_in text.now) }
{
    let mut closed = String::from_str(alloc, text)?;
    closed.push_str(" %}")?;
    closed_condition(alloc, closed.as_str())
}

/// The condition before the closer that ends a text.
#[tactic(auto, unfolding(crate::specs::ConditionTexts::closed_condition))]
fn closed_condition(alloc: Global, text: &str) -> Result<Option<Condition>>
    ensures { IsValueOrMemory (option_map condition_view) result (closed_condition text.now) }
{
    let (items, _, rest) = match read_items(alloc, text, Delimiter::Tag) {
        Ok(found) => found,
        Err(ParseError::Fault(_)) => return Ok(None),
        Err(ParseError::Memory) => return Err(Error::from(AllocError)),
    };
    if !rest.is_empty() {
        return Ok(None);
    }
    match read_condition(alloc, items, text) {
        Ok(condition) => Ok(Some(condition)),
        Err(ParseError::Fault(_)) => Ok(None),
        Err(ParseError::Memory) => Err(Error::from(AllocError)),
    }
}
