//! Filters that shorten texts.
ghost use Rattle.std.specs.Prelude.{◌≡◌, Some, None, if◌then◌else◌, length, nat_le, nat_lt};
ghost use Rattle.std.specs.Prelude.{option_map, IsTrue, map};
ghost use Rattle.liquid_filters.specs.Truncate.{first_clusters, first_words, truncate_answer};
ghost use Rattle.liquid_filters.specs.Truncate.{truncatewords_answer, words_of};
ghost use Rattle.liquid_model.specs.Answer.{Answers};
ghost use Rattle.liquid_model.specs.View.{view};
ghost use Rattle.liquid_model.specs.Satisfies.{Satisfies};
ghost use Rattle.liquid_filters.specs.TextLaws.{TruncatesText, TruncatesTextByWords};

use crate::argument::{text_or, whole_or};
use crate::text_parts::{before, joined};
use liquid_model::{Filter, Result, Value, text_of};
use std::alloc::Global;
use unicode_segmentation::UnicodeSegmentation;

/// `truncate`: where the first argument, or 50, is below the bytes of the input's text, the first
/// grapheme clusters, as many as that number less the bytes of the second argument's text, or of
/// `...`, and then that text; else the input. A number below 0 is huge.
#[derive(Clone, Copy, Drop)]
pub struct Truncate;

impl Filter for Truncate {
    ghost counts = { λ _ n. nat_le n 2 };

    ghost answer = { λ _. truncate_answer };

    fn accepts(&self, count: usize) -> bool {
        count <= 2
    }

    /// `InvalidArgument` where the first argument has no whole number.
    fn evaluate(&self, alloc: Global, input: &Value, args: &[Value]) -> Result<Value>
        requires { IsTrue (nat_le (length args.now) 2) }
        ensures answer { Answers view result
            (truncate_answer (view input.now) (map view args.now)) }
        ensures relation { Satisfies (TruncatesText (view input.now) (map view args.now)) result }
    {
        truncate_answer(alloc, input, args)
    }
}

fn truncate_answer(alloc: Global, input: &Value, args: &[Value]) -> Result<Value>
    requires { IsTrue (nat_le (length args.now) 2) }
    ensures { Answers view result (truncate_answer (view input.now) (map view args.now)) }
{
    let length = whole_or(alloc, args, 0, 50)?;
    let end = text_or(alloc, args, 1, "...")?;
    let text = text_of(alloc, input)?;
    if length < 0 || text.len() <= length as usize {
        return input.copy(alloc);
    }
    let kept = first_clusters(text.as_str(), (length as usize).saturating_sub(end.len()));
    Ok(Value::Text(joined(alloc, kept, end.as_str())?))
}

/// `truncatewords`: where the first argument, or 50, is below the count of the pieces of the
/// input's text that single spaces part, the first ones and then the second argument's text, or
/// `...`; else the input. A number below 0 is huge.
#[derive(Clone, Copy, Drop)]
pub struct TruncateWords;

impl Filter for TruncateWords {
    ghost counts = { λ _ n. nat_le n 2 };

    ghost answer = { λ _. truncatewords_answer };

    fn accepts(&self, count: usize) -> bool {
        count <= 2
    }

    /// `InvalidArgument` where the first argument has no whole number.
    fn evaluate(&self, alloc: Global, input: &Value, args: &[Value]) -> Result<Value>
        requires { IsTrue (nat_le (length args.now) 2) }
        ensures answer { Answers view result (truncatewords_answer (view input.now)
            (map view args.now)) }
        ensures relation { Satisfies (TruncatesTextByWords (view input.now) (map view args.now))
            result }
    {
        truncatewords_answer(alloc, input, args)
    }
}

fn truncatewords_answer(alloc: Global, input: &Value, args: &[Value]) -> Result<Value>
    requires { IsTrue (nat_le (length args.now) 2) }
    ensures { Answers view result (truncatewords_answer (view input.now) (map view args.now)) }
{
    let count = whole_or(alloc, args, 0, 50)?;
    let end = text_or(alloc, args, 1, "...")?;
    if count < 0 {
        return input.copy(alloc);
    }
    let text = text_of(alloc, input)?;
    match first_words(text.as_str(), count as usize) {
        Some(kept) => Ok(Value::Text(joined(alloc, kept, end.as_str())?)),
        None => input.copy(alloc),
    }
}

/// The first grapheme clusters of a text, as many as there are.
fn first_clusters(text: &str, count: usize) -> &str
    ensures { result.now ≡ first_clusters count text.now }
{
    let mut rest = text.graphemes(true);
    for _i in 0..count {
        let Some(_cluster) = rest.next() else {
            return text;
        };
    }
    before(text, rest.as_str())
}

/// The first words of a text that has more.
fn first_words(text: &str, count: usize) -> Option<&str>
    ensures { option_map (λ t. t.now) result ≡
        (if nat_lt count (length (words_of text.now)) then Some (first_words count text.now)
        else None) }
{
    let mut end = 0;
    let mut rest = text;
    for _i in 0..count {
        let Some((_word, after)) = rest.split_once(" ") else {
            return None;
        };
        end = text.len() - after.len() - 1;
        rest = after;
    }
    Some(&text[..end])
}
