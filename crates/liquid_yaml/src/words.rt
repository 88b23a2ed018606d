//! Texts without quotes over several lines.
ghost use Rattle.std.specs.Prelude.{◌≡◌, string_bytes};
ghost use Rattle.liquid_model.specs.Answer.{IsValueOrMemory};
ghost use Rattle.liquid_yaml.specs.Places as spec;
ghost use Rattle.liquid_yaml.specs.Blocks.{without_feeds};
ghost use Rattle.liquid_yaml.specs.Places.{words_view};

use crate::scan::without_feeds;
use crate::value::plain_text;
use liquid_model::{Result, append_str};
use std::alloc::Global;

/// A text without quotes that may go on, below what stands after so many spaces. It ends with a
/// line feed for each blank line after its words.
#[derive(Drop)]
pub(crate) struct PlainWords {
    pub below: usize,
    pub words: String,
}

impl PlainWords {
    /// A blank line follows.
    pub(crate) fn add_blank(&mut self) -> Result<()>
        ensures { IsValueOrMemory (λ _. words_view self.new) result
            (spec.with_blank (words_view self.old)) }
    {
        append_str(&mut self.words, "\n")
    }

    /// A line follows that is one of the text's.
    pub(crate) fn add(&mut self, line: &str) -> Result<()>
        ensures { IsValueOrMemory (λ _. words_view self.new) result
            (spec.with_words (words_view self.old) line.now) }
    {
        let gap = gap_after(self.words.as_str());
        append_str(&mut self.words, gap)?;
        append_str(&mut self.words, plain_text(line))
    }

    /// The text of the words.
    pub(crate) fn text(&self, alloc: Global) -> Result<String>
        ensures { IsValueOrMemory string_bytes result
            (without_feeds (words_view self.now).words) }
    {
        Ok(String::from_str(alloc, without_feeds(self.words.as_str()))?)
    }
}

/// What stands between words and those after them.
fn gap_after(words: &str) -> &'static str
    ensures { result.now ≡ spec.word_gap words.now }
{
    if without_feeds(words).len() == words.len() {
        " "
    } else {
        ""
    }
}
