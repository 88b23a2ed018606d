//! The filter of Jekyll's block `highlight`.
ghost use Rattle.std.specs.List.{prefix_len, suffix_len};
ghost use Rattle.std.specs.Prelude.{◌≡◌, ◌≤◌, length, nat_eq, string_bytes};
ghost use Rattle.liquid_model.specs.Answer.{Answers, IsValueOrMemory};
ghost use Rattle.liquid_model.specs.Data.{text_of};
ghost use Rattle.liquid_model.specs.View.{view};
ghost use Rattle.liquid_filters.specs.Escapes.{escaped_bytes};
ghost use Rattle.liquid_jekyll_host_filters.specs.Highlight.{code_figure, code_in_html};
ghost use Rattle.liquid_jekyll_host_filters.specs.Highlight.{code_language, is_ruby_stripped};
ghost use Rattle.liquid_jekyll_host_filters.specs.Highlight.{jekyll_highlight_answer};
ghost use Rattle.liquid_jekyll_host_filters.specs.Highlight.{ruby_stripped};

use crate::highlight_markup::{code_language, is_markup, is_ruby_space};
use liquid_filters::{escaped, replaced};
use liquid_model::{Filter, Result, Value, invalid_argument, text_of};
use std::alloc::Global;

/// `highlight`: the input's text as code in HTML, as Jekyll writes it where its `highlighter` is
/// `none`. The argument is a language, and options, which change nothing: names, or `name=value`,
/// or `name="1 2"`.
///
/// The code has the escapes of `escape`, and loses the white space and zero bytes at its ends.
#[derive(Clone, Copy, Drop)]
pub struct Highlight;

impl Filter for Highlight {
    ghost counts = { λ _ n. nat_eq n 1 };

    ghost answer = { λ _. jekyll_highlight_answer };

    fn accepts(&self, count: usize) -> bool {
        count == 1
    }

    /// `InvalidArgument` where the argument is something else.
    fn evaluate(&self, alloc: Global, input: &Value, args: &[Value]) -> Result<Value> {
        code_in_html(alloc, input, &args[0])
    }
}

#[tactic(auto, unfolding(crate::specs::Highlight::code_in_html))]
fn code_in_html(alloc: Global, code: &Value, markup: &Value) -> Result<Value>
    ensures { Answers view result
        (code_in_html (ruby_stripped (text_of (view markup.now))) (text_of (view code.now))) }
{
    let text = text_of(alloc, markup)?;
    let text = ruby_stripped(text.as_str());
    if !is_markup(text) {
        let wanted = "a language and options, as `ruby linenos`";
        return Err(invalid_argument(alloc, wanted, markup));
    }
    let code = text_of(alloc, code)?;
    Ok(Value::Text(code_figure(alloc, text, code.as_str())?))
}

/// The code in HTML, in the language that the markup begins with.
fn code_figure(alloc: Global, markup: &str, code: &str) -> Result<String>
    ensures { IsValueOrMemory (λ s. string_bytes s) result
        (code_figure (code_language markup.now) (escaped_bytes (ruby_stripped code.now))) }
{
    let language = code_language(alloc, markup)?;
    let class = replaced(alloc, language.as_str(), "+", "-")?;
    let code = escaped(alloc, ruby_stripped(code))?;
    let class = class.as_str();
    let language = language.as_str();
    let code = code.as_str();
    Ok(format!(in alloc;
        "<figure class=\"highlight\"><pre><code class=\"language-{class}\" \
        data-lang=\"{language}\">{code}</code></pre></figure>"
    )?)
}

fn is_ruby_stripped(byte: u8) -> bool
    ensures { result ≡ is_ruby_stripped byte }
{
    byte == 0 || is_ruby_space(byte)
}

/// How many bytes Ruby strips at the front.
fn stripped_front(bytes: &[u8]) -> usize
    ensures value { result ≡ prefix_len is_ruby_stripped bytes.now }
    ensures within { result ≤ length bytes.now }
{
    bytes
        .iter()
        .take_while(|byte| is_ruby_stripped(**byte))
        .count()
}

/// How many bytes Ruby strips at the end.
fn stripped_end(bytes: &[u8]) -> usize
    ensures value { result ≡ suffix_len is_ruby_stripped bytes.now }
    ensures within { result ≤ length bytes.now }
{
    bytes
        .iter()
        .rev()
        .take_while(|byte| is_ruby_stripped(**byte))
        .count()
}

/// The text without the white space and zero bytes at its ends.
pub(crate) fn ruby_stripped(text: &str) -> &str
    ensures { result.now ≡ ruby_stripped text.now }
{
    let (_, text) = text.split_at(stripped_front(text.as_bytes()));
    let (text, _) = text.split_at(text.len() - stripped_end(text.as_bytes()));
    text
}
