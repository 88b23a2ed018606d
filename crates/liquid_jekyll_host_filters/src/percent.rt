//! Escapes of bytes that can't stand in a URL.
ghost use Rattle.std.specs.Prelude.{◌≡◌, ◌++◌, string_bytes};
ghost use Rattle.liquid_model.specs.Answer.{IsValueOrMemory};
ghost use Rattle.liquid_jekyll_host_filters.specs.Urls.{begins_digits, in_place, escape_mark};
ghost use Rattle.liquid_jekyll_host_filters.specs.Urls.{url_escaped_as};
ghost use Rattle.liquid_jekyll_host_filters.specs.inside.Sets.{set_of};

use liquid_model::Result;
use percent_encoding::{AsciiSet, NON_ALPHANUMERIC, percent_encode};

/// The bytes that have no place in the value of a form.
const FORM: AsciiSet = percent_encoding::ascii_set!(
    NON_ALPHANUMERIC
        .remove(b'-')
        .remove(b'.')
        .remove(b'_')
        .remove(b'~')
);

/// The bytes that have no place in a path, a query or a fragment.
const PATH: AsciiSet = percent_encoding::ascii_set!(
    FORM.remove(b'!')
        .remove(b'$')
        .remove(b'&')
        .remove(b'\'')
        .remove(b'(')
        .remove(b')')
        .remove(b'*')
        .remove(b'+')
        .remove(b',')
        .remove(b';')
        .remove(b'=')
        .remove(b':')
        .remove(b'@')
        .remove(b'/')
        .remove(b'?')
        .remove(b'#')
);

/// The bytes that have no place in a URL.
const URL: AsciiSet = percent_encoding::ascii_set!(PATH.remove(b'[').remove(b']'));

/// Which bytes stay, and what is done with the mark, which is read by itself.
#[derive(Clone, Copy)]
pub(crate) enum Escaping {
    /// The value of a form, with `+` for a space.
    Form,
    /// A path, with its query and its fragment.
    Path,
    /// Any part of a URL.
    Url,
}

/// Appends the text with its escapes. Where there is no memory, a beginning of it may stand there.
pub(crate) fn push_url(out: &mut String, text: &str, how: Escaping) -> Result<()>
    ensures { IsValueOrMemory (λ _. string_bytes out.new) result (string_bytes out.old ++
        url_escaped_as how text.now) }
{
    let mut rest = text;
    while let Some((before, after)) = rest.split_once(mark(how)) {
        percent_encode(before.as_bytes(), set(how)).append_to(out)?;
        out.push_str(in_place(how, after))?;
        rest = after;
    }
    percent_encode(rest.as_bytes(), set(how)).append_to(out)?;
    Ok(())
}

/// The bytes that are escaped.
fn set(how: Escaping) -> AsciiSet
    ensures { result ≡ set_of how }
{
    match how {
        Escaping::Form => FORM,
        Escaping::Path => PATH,
        Escaping::Url => URL,
    }
}

/// The character that is read by itself.
fn mark(how: Escaping) -> char
    ensures { result ≡ escape_mark how }
{
    match how {
        Escaping::Form => ' ',
        Escaping::Path | Escaping::Url => '%',
    }
}

/// What stands in the place of the mark, before the text after it.
fn in_place(how: Escaping, after: &str) -> &'static str
    ensures { result.now ≡ in_place how after.now }
{
    match how {
        Escaping::Form => "+",
        Escaping::Path | Escaping::Url => {
            if begins_digits(after.as_bytes()) {
                "%"
            } else {
                "%25"
            }
        }
    }
}

/// Whether the text begins with two hexadecimal digits.
fn begins_digits(text: &[u8]) -> bool
    ensures { result ≡ begins_digits text.now }
{
    match text {
        [high, low, ..] => high.is_ascii_hexdigit() && low.is_ascii_hexdigit(),
        _ => false,
    }
}
