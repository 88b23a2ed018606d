//! Filters that escape a text.
ghost use Rattle.std.specs.Prelude.{nat_eq};
ghost use Rattle.liquid_jekyll_host_filters.specs.Escapes.{xml_escape_answer};
ghost use Rattle.liquid_jekyll_host_filters.specs.Urls.{cgi_escape_answer, uri_escape_answer};

use crate::escapes::push_escaped;
use crate::percent::{Escaping, push_url};
use liquid_model::{Filter, Result, Value, text_of};
use std::alloc::Global;

/// `xml_escape`: the input's text with `&quot;`, `&amp;`, `&apos;`, `&lt;` and `&gt;` for `"`, `&`,
/// `'`, `<` and `>`.
#[derive(Clone, Copy, Drop)]
pub struct XmlEscape;

impl Filter for XmlEscape {
    ghost counts = { λ _ n. nat_eq n 0 };

    ghost answer = { λ _. xml_escape_answer };

    fn accepts(&self, count: usize) -> bool {
        count == 0
    }

    fn evaluate(&self, alloc: Global, input: &Value, _args: &[Value]) -> Result<Value> {
        let text = text_of(alloc, input)?;
        let mut out = String::new(alloc);
        push_escaped(&mut out, text.as_str())?;
        Ok(Value::Text(out))
    }
}

/// `cgi_escape`: the input's text as a form sends it. A space is `+`, and each other byte but ASCII
/// letters, digits, `-`, `.`, `_` and `~` is `%` and two upper-case hexadecimal digits.
#[derive(Clone, Copy, Drop)]
pub struct CgiEscape;

impl Filter for CgiEscape {
    ghost counts = { λ _ n. nat_eq n 0 };

    ghost answer = { λ _. cgi_escape_answer };

    fn accepts(&self, count: usize) -> bool {
        count == 0
    }

    fn evaluate(&self, alloc: Global, input: &Value, _args: &[Value]) -> Result<Value> {
        let text = text_of(alloc, input)?;
        let mut out = String::new(alloc);
        push_url(&mut out, text.as_str(), Escaping::Form)?;
        Ok(Value::Text(out))
    }
}

/// `uri_escape`: the input's text, in which each byte that can't stand in a URL is `%` and two
/// upper-case hexadecimal digits. What is such an escape already stays, and so does nil.
#[derive(Clone, Copy, Drop)]
pub struct UriEscape;

impl Filter for UriEscape {
    ghost counts = { λ _ n. nat_eq n 0 };

    ghost answer = { λ _. uri_escape_answer };

    fn accepts(&self, count: usize) -> bool {
        count == 0
    }

    fn evaluate(&self, alloc: Global, input: &Value, _args: &[Value]) -> Result<Value> {
        if matches!(input, Value::Nil) {
            return Ok(Value::Nil);
        }
        let text = text_of(alloc, input)?;
        let mut out = String::new(alloc);
        push_url(&mut out, text.as_str(), Escaping::Url)?;
        Ok(Value::Text(out))
    }
}
