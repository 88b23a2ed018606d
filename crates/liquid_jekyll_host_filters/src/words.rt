//! Filters over the words of a text.
ghost use Rattle.std.specs.Prelude.{◌≡◌, nat_eq, length, string_bytes};
ghost use Rattle.liquid_model.specs.Answer.{IsValueOrMemory};
ghost use Rattle.liquid_model.specs.Find.{counted};
ghost use Rattle.liquid_model.specs.View.{view};
ghost use Rattle.liquid_jekyll_host_filters.specs.Words.{normalize_whitespace_answer, normalized};
ghost use Rattle.liquid_jekyll_host_filters.specs.Words.{number_of_words_answer, words};

use liquid_model::{Filter, Result, Value, text_of};
use std::alloc::Global;

/// `normalize_whitespace`: the words of the input's text with a space between each and the next.
#[derive(Clone, Copy, Drop)]
pub struct NormalizeWhitespace;

impl Filter for NormalizeWhitespace {
    ghost counts = { λ _ n. nat_eq n 0 };

    ghost answer = { λ _. normalize_whitespace_answer };

    fn accepts(&self, count: usize) -> bool {
        count == 0
    }

    fn evaluate(&self, alloc: Global, input: &Value, _args: &[Value]) -> Result<Value> {
        let text = text_of(alloc, input)?;
        Ok(Value::Text(normalized(alloc, text.as_str())?))
    }
}

/// `number_of_words`: how many words the input's text has.
#[derive(Clone, Copy, Drop)]
pub struct NumberOfWords;

impl Filter for NumberOfWords {
    ghost counts = { λ _ n. nat_eq n 0 };

    ghost answer = { λ _. number_of_words_answer };

    fn accepts(&self, count: usize) -> bool {
        count == 0
    }

    fn evaluate(&self, alloc: Global, input: &Value, _args: &[Value]) -> Result<Value> {
        let text = text_of(alloc, input)?;
        Ok(whole_count(word_count(text.as_str())))
    }
}

/// The words of a text with a space between each and the next.
fn normalized(alloc: Global, text: &str) -> Result<String>
    ensures { IsValueOrMemory (λ s. string_bytes s) result (normalized text.now) }
{
    let mut out = String::new(alloc);
    let mut before = "";
    for word in text.split_ascii_whitespace() {
        out.push_str(before)?;
        out.push_str(word)?;
        before = " ";
    }
    Ok(out)
}

/// How many words a text has.
fn word_count(text: &str) -> usize
    ensures { result ≡ length (words text.now) }
{
    text.split_ascii_whitespace().count()
}

/// A count as a number.
fn whole_count(count: usize) -> Value
    ensures { view result ≡ counted count }
{
    Value::Integer(i64::try_from(count).unwrap_or(i64::MAX))
}
