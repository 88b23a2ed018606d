//! The filters that take an end of a list or a text.
ghost use Rattle.std.specs.Prelude.{◌≡◌, ◌++◌, ◌∷◌, [], MatchOption, map, nat_eq, option_map};
ghost use Rattle.std.specs.Prelude.{string_bytes, IsTrue, length};
ghost use Rattle.std.specs.Str.{chars};
ghost use Rattle.liquid_model.specs.Answer.{Answers, IsValueOrMemory};
ghost use Rattle.liquid_model.specs.View.{view, items_view};
ghost use Rattle.liquid_model.specs.Satisfies.{Satisfies};
ghost use Rattle.liquid_filters.specs.ListLaws.{OfEnds};
ghost use Rattle.liquid_filters.specs.ListPlaces.{EndsWith, StartsWith};
ghost use Rattle.liquid_filters.specs.Ends.{first_answer, last_answer, first_item, last_item};
ghost use Rattle.liquid_filters.specs.Ends.{first_character, last_character, character};
ghost use Rattle.liquid_filters.specs.Ends.{or_nil};

use liquid_model::{Filter, Result, Value, invalid_input, text_of};
use std::alloc::Global;

/// `first`: a list's first item, or nil where it is empty; the first character of a scalar's text.
#[derive(Clone, Copy, Drop)]
pub struct First;

impl Filter for First {
    ghost counts = { λ _ n. nat_eq n 0 };

    ghost answer = { λ _. first_answer };

    fn accepts(&self, count: usize) -> bool {
        count == 0
    }

    /// `InvalidInput` where the input is nil or a map.
    fn evaluate(&self, alloc: Global, input: &Value, args: &[Value]) -> Result<Value>
        requires { IsTrue (nat_eq (length args.now) 0) }
        ensures answer { Answers view result (first_answer (view input.now) (map view args.now)) }
        ensures relation { Satisfies (OfEnds StartsWith StartsWith (view input.now)) result }
    {
        first_answer(alloc, input, args)
    }
}

fn first_answer(alloc: Global, input: &Value, _args: &[Value]) -> Result<Value>
    requires { IsTrue (nat_eq (length _args.now) 0) }
    ensures { Answers view result (first_answer (view input.now) (map view _args.now)) }
{
    match input {
        Value::Array(items) => first_item(alloc, items),
        Value::Nil | Value::Object(_) => Err(invalid_input(alloc, "a list or a scalar", input)),
        _ => Ok(Value::Text(first_character(alloc, text_of(alloc, input)?.as_str())?)),
    }
}

/// `last`: a list's last item, or nil where it is empty; the last character of a scalar's text.
#[derive(Clone, Copy, Drop)]
pub struct Last;

impl Filter for Last {
    ghost counts = { λ _ n. nat_eq n 0 };

    ghost answer = { λ _. last_answer };

    fn accepts(&self, count: usize) -> bool {
        count == 0
    }

    /// `InvalidInput` where the input is nil or a map.
    fn evaluate(&self, alloc: Global, input: &Value, args: &[Value]) -> Result<Value>
        requires { IsTrue (nat_eq (length args.now) 0) }
        ensures answer { Answers view result (last_answer (view input.now) (map view args.now)) }
        ensures relation { Satisfies (OfEnds EndsWith EndsWith (view input.now)) result }
    {
        last_answer(alloc, input, args)
    }
}

fn last_answer(alloc: Global, input: &Value, _args: &[Value]) -> Result<Value>
    requires { IsTrue (nat_eq (length _args.now) 0) }
    ensures { Answers view result (last_answer (view input.now) (map view _args.now)) }
{
    match input {
        Value::Array(items) => last_item(alloc, items),
        Value::Nil | Value::Object(_) => Err(invalid_input(alloc, "a list or a scalar", input)),
        _ => Ok(Value::Text(last_character(alloc, text_of(alloc, input)?.as_str())?)),
    }
}

fn first_item(alloc: Global, items: &[Value]) -> Result<Value>
    ensures { IsValueOrMemory view result (first_item (items_view items.now)) }
{
    item_or_nil(alloc, items.first())
}

fn last_item(alloc: Global, items: &[Value]) -> Result<Value>
    ensures { IsValueOrMemory view result (last_item (items_view items.now)) }
{
    item_or_nil(alloc, items.last())
}

fn item_or_nil(alloc: Global, item: Option<&Value>) -> Result<Value>
    ensures { IsValueOrMemory view result (or_nil (option_map (λ v. view v.now) item.entry)) }
{
    match item {
        Some(value) => value.copy(alloc),
        None => Ok(Value::Nil),
    }
}

fn first_character(alloc: Global, text: &str) -> Result<String>
    ensures { IsValueOrMemory (λ s. string_bytes s) result (first_character text.now) }
{
    character(alloc, text.chars().next())
}

fn last_character(alloc: Global, text: &str) -> Result<String>
    ensures { IsValueOrMemory (λ s. string_bytes s) result (last_character text.now) }
{
    match split_last(text) {
        Some((_before, letter)) => character(alloc, Some(letter)),
        None => character(alloc, None),
    }
}

/// The last character, and the text before it.
fn split_last(text: &str) -> Option<(&str, char)>
    ensures { MatchOption result (chars text.now ≡ []) (λ (before, letter). chars text.now ≡
        chars before.now ++ letter ∷ []) }
{
    let mut letters = text.chars();
    match letters.next_back() {
        Some(letter) => Some((letters.as_str(), letter)),
        None => None,
    }
}

fn character(alloc: Global, letter: Option<char>) -> Result<String>
    ensures { IsValueOrMemory (λ s. string_bytes s) result (character letter) }
{
    let mut text = String::new(alloc);
    match letter {
        Some(c) => {
            text.push(c)?;
            Ok(text)
        }
        None => Ok(text),
    }
}
