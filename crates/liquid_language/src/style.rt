//! In which style a language reads a tag.
ghost use Rattle.std.specs.Prelude.{◌≡◌};
ghost use Rattle.liquid_language.specs.Styles.{style_of, style_of_kind};
ghost use Rattle.liquid_lexer.specs.PieceView.{markup_view};
ghost use Rattle.liquid_lexer.specs.Readers.{Parses};
ghost use Rattle.liquid_lexer.specs.SourceReading.{markup_at, name_at, style_by};

use crate::registry::{Language, TagKind};
use liquid_lexer::{Markup, ParseError, Style, name_after, read_markup};
use std::alloc::Global;

/// The style in which the output or the tag after a `{` is read: that of the tag's name.
pub fn style_after(language: &Language, text: &str) -> Style
    ensures { result ≡ style_by (style_of language.now) (name_at text.now) }
{
    // most languages have items alone, and need not look for the name
    if language.include_paths || !language.host_tags.is_empty() {
        named_style(language, text)
    } else {
        Style::Items
    }
}

/// As [style_after], by the name that stands there.
fn named_style(language: &Language, text: &str) -> Style
    ensures { result ≡ style_by (style_of language.now) (name_at text.now) }
{
    match name_after(text) {
        Some(name) => style_of(language, name),
        None => Style::Items,
    }
}

/// The style in which tags of the name are read.
pub fn style_of(language: &Language, name: &str) -> Style
    ensures { result ≡ style_of language.now name.now }
{
    if let Some(kind) = language.tags.get(name) {
        return style_of_kind(language.include_paths, kind);
    }
    match language.host_tags.get(name) {
        Some(kind) if language.blocks.get(name).is_none() => language.host_tags.style(kind),
        _ => Style::Items,
    }
}

fn style_of_kind(include_paths: bool, kind: TagKind) -> Style
    ensures { result ≡ style_of_kind include_paths kind }
{
    match kind {
        TagKind::JekyllInclude if include_paths => Style::PathFirst,
        _ => Style::Items,
    }
}

/// The output or the tag after a `{`, as the language reads it, and what follows it. The faults are
/// those of [read_markup].
pub fn markup_after<'s>(
    alloc: Global,
    language: &Language,
    text: &'s str,
) -> Result<(Markup<'s>, &'s str), ParseError>
    ensures { Parses (λ x. (markup_view x.0, x.1.now)) result
        (markup_at (style_of language.now) text.now) }
{
    read_markup(alloc, text, style_after(language, text))
}
