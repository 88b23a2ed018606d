//! The filters that lead to the pages of a site.
ghost use Rattle.std.specs.Prelude.{◌≡◌, ◌++◌, Ok, nat_eq, string_bytes};
ghost use Rattle.liquid_model.specs.Data.{text};
ghost use Rattle.liquid_model.specs.Answer.{Answers, IsValueOrMemory};
ghost use Rattle.liquid_model.specs.View.{view};
ghost use Rattle.liquid_jekyll_host_filters.specs.Urls.{absolute_url_answer, addressed};
ghost use Rattle.liquid_jekyll_host_filters.specs.Urls.{has_no_slash, is_absolute, is_scheme_byte};
ghost use Rattle.liquid_jekyll_host_filters.specs.Urls.{path_text, reaches_colon, relative};
ghost use Rattle.liquid_jekyll_host_filters.specs.Urls.{relative_url_answer, site_url};
ghost use Rattle.liquid_jekyll_host_filters.specs.Urls.{without_slash};

use crate::percent::{Escaping, push_url};
use liquid_model::{Filter, Result, Value, text_of};
use std::alloc::Global;

/// `relative_url`: the input's text as a path under the base path of the site, with the escapes of
/// a URL. Nil stays, and so does a URL that begins with a scheme.
#[derive(Drop)]
pub struct RelativeUrl {
    /// Jekyll's `baseurl`, as `/blog`, or the empty text. A slash at its end doesn't count.
    pub base: String,
}

impl Filter for RelativeUrl {
    ghost counts = { λ _ n. nat_eq n 0 };

    ghost answer = { λ filter. relative_url_answer (string_bytes filter.base) };

    fn accepts(&self, count: usize) -> bool {
        count == 0
    }

    fn evaluate(&self, alloc: Global, input: &Value, _args: &[Value]) -> Result<Value> {
        site_url(alloc, "", self.base.as_str(), input)
    }
}

/// `absolute_url`: the same, with the address of the site before it.
#[derive(Drop)]
pub struct AbsoluteUrl {
    /// Jekyll's `url`, as `https://example.org`, or the empty text. It is used as it is written.
    pub address: String,
    /// Jekyll's `baseurl`, as that of `RelativeUrl`.
    pub base: String,
}

impl Filter for AbsoluteUrl {
    ghost counts = { λ _ n. nat_eq n 0 };

    ghost answer = { λ filter.
        absolute_url_answer (string_bytes filter.address) (string_bytes filter.base) };

    fn accepts(&self, count: usize) -> bool {
        count == 0
    }

    fn evaluate(&self, alloc: Global, input: &Value, _args: &[Value]) -> Result<Value> {
        site_url(alloc, self.address.as_str(), self.base.as_str(), input)
    }
}

pub(crate) fn site_url(alloc: Global, address: &str, base: &str, input: &Value) -> Result<Value>
    ensures { Answers view result (site_url address.now base.now (view input.now)) }
{
    if matches!(input, Value::Nil) {
        return Ok(Value::Nil);
    }
    let text = text_of(alloc, input)?;
    if is_absolute(text.as_str().as_bytes()) {
        return input.copy(alloc);
    }
    let path = relative(alloc, base, text.as_str())?;
    addressed(alloc, address, path)
}

/// The path under the base path.
fn relative(alloc: Global, base: &str, text: &str) -> Result<String>
    ensures { IsValueOrMemory (λ s. string_bytes s) result (relative base.now text.now) }
{
    let mut out = String::new(alloc);
    push_path(&mut out, without_slash(base))?;
    push_path(&mut out, text)?;
    Ok(out)
}

/// The path with the address before it.
fn addressed(alloc: Global, address: &str, path: String) -> Result<Value>
    ensures { Answers view result (Ok (text (addressed address.now (string_bytes path)))) }
{
    if address.is_empty() {
        return Ok(Value::Text(path));
    }
    let mut out = String::from_str(alloc, address)?;
    out.push_str(if path.is_empty() { "/" } else { path.as_str() })?;
    Ok(Value::Text(out))
}

/// Appends the path with its escapes, and a slash before it unless it has one or is empty.
fn push_path(out: &mut String, path: &str) -> Result<()>
    ensures { IsValueOrMemory (λ _. string_bytes out.new) result (string_bytes out.old ++
        path_text path.now) }
{
    if has_no_slash(path.as_bytes()) {
        out.push_str("/")?;
    }
    push_url(out, path, Escaping::Path)
}

/// Whether a path is there that begins without a slash.
fn has_no_slash(path: &[u8]) -> bool
    ensures { result ≡ has_no_slash path.now }
{
    match path {
        [first, ..] => *first != b'/',
        _ => false,
    }
}

/// The text without a slash at its end.
fn without_slash(text: &str) -> &str
    ensures { result.now ≡ without_slash text.now }
{
    match text.strip_suffix('/') {
        Some(front) => front,
        None => text,
    }
}

/// Whether the text begins with a scheme and a colon.
fn is_absolute(text: &[u8]) -> bool
    ensures { result ≡ is_absolute text.now }
{
    match text {
        [first, rest @ ..] => first.is_ascii_alphabetic() && reaches_colon(rest),
        _ => false,
    }
}

/// Whether nothing but bytes of a scheme stands before a colon.
fn reaches_colon(text: &[u8]) -> bool
    ensures { result ≡ reaches_colon text.now }
{
    for byte in text {
        if *byte == b':' {
            return true;
        }
        if !is_scheme_byte(*byte) {
            return false;
        }
    }
    false
}

fn is_scheme_byte(byte: u8) -> bool
    ensures { result ≡ is_scheme_byte byte }
{
    byte.is_ascii_alphanumeric() || byte == b'+' || byte == b'-' || byte == b'.'
}
