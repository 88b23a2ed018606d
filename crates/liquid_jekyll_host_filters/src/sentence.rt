//! The filter that makes a sentence of a list.
ghost use Rattle.std.specs.Prelude.{◌≡◌, Ok, codes, map, nat_le, option_map};
ghost use Rattle.liquid_model.specs.Answer.{Answers};
ghost use Rattle.liquid_model.specs.Data.{array, text, text_of};
ghost use Rattle.liquid_model.specs.View.{view, items_view};
ghost use Rattle.liquid_model.specs.Arguments.{text_or};
ghost use Rattle.liquid_jekyll_host_filters.specs.Sentence.{jekyll_sentence_answer, two_items};
ghost use Rattle.liquid_jekyll_host_filters.specs.Sentence.{two_texts_joined};

use liquid_filters::jekyll;
use liquid_model::{Filter, Result, Value, text_of};
use std::alloc::Global;

/// `array_to_sentence_string`: the texts of a list's items as `a`, `a and b` or `a, b, and c`, with
/// the argument's text in the place of `and`. Only of two items it isn't the language's.
#[derive(Clone, Copy, Drop)]
pub struct ArrayToSentenceString;

impl Filter for ArrayToSentenceString {
    ghost counts = { λ _ n. nat_le n 1 };

    ghost answer = { λ _. jekyll_sentence_answer };

    fn accepts(&self, count: usize) -> bool {
        count <= 1
    }

    /// `InvalidInput` where the input is no list.
    #[tactic(auto, using(crate::proofs::Sentences::in_two, crate::proofs::Sentences::in_others))]
    fn evaluate(&self, alloc: Global, input: &Value, args: &[Value]) -> Result<Value> {
        match two_items(input) {
            Some((first, second)) => two(alloc, first, second, args),
            None => jekyll::ArrayToSentenceString.evaluate(alloc, input, args),
        }
    }
}

/// The items of a list of two.
fn two_items(value: &Value) -> Option<(&Value, &Value)>
    ensures { option_map (λ p. (view p.0.now, view p.1.now)) result ≡ two_items (view value.now) }
{
    match value {
        Value::Array(items) => two_of(items),
        _ => None,
    }
}

#[tactic(auto, using(crate::proofs::Sentences::of_two, crate::proofs::Sentences::of_others))]
fn two_of(items: &[Value]) -> Option<(&Value, &Value)>
    ensures { option_map (λ p. (view p.0.now, view p.1.now)) result ≡
        two_items (array (items_view items.now)) }
{
    if items.len() == 2 {
        Some((&items[0], &items[1]))
    } else {
        None
    }
}

/// Two items with the argument's text between them, or `and`.
fn two(alloc: Global, first: &Value, second: &Value, args: &[Value]) -> Result<Value>
    ensures { Answers view result (Ok (text (two_texts_joined
        (text_or (codes "and") (map view args.now)) (text_of (view first.now))
        (text_of (view second.now))))) }
{
    match args.first() {
        None => joined(alloc, first, second, "and"),
        Some(connector) => joined(alloc, first, second, text_of(alloc, connector)?.as_str()),
    }
}

fn joined(alloc: Global, first: &Value, second: &Value, connector: &str) -> Result<Value>
    ensures { Answers view result (Ok (text (two_texts_joined connector.now
        (text_of (view first.now)) (text_of (view second.now))))) }
{
    let mut out = String::new(alloc);
    first.append_text(&mut out)?;
    out.push_str(" ")?;
    out.push_str(connector)?;
    out.push_str(" ")?;
    second.append_text(&mut out)?;
    Ok(Value::Text(out))
}
