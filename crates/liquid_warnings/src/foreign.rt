//! Placeholders of other template languages, which are text here.
ghost use Rattle.std.specs.Prelude.{◌≡◌, All, IfErr, IfOk, OnOk, string_bytes};
ghost use Rattle.liquid_warnings.specs.Messages.{IsForeignMessage, foreign_comment};
ghost use Rattle.liquid_warnings.specs.Messages.{foreign_tag, foreign_value};
ghost use Rattle.liquid_warnings.specs.Remarks.{remark_view};
ghost use Rattle.liquid_warnings.specs.Sorts.{IsForeign};
ghost use Rattle.liquid_warnings.specs.inside.Added.{AddsRemarks};

use crate::pieces::past_piece;
use crate::placeholder::{Meant, code_after, first_name, meant_by, next_sign};
use crate::remark::Remark;
use crate::warnings::{MOST_WARNINGS, is_full};
use liquid_core::{ErrorKind, Location, Object, Quoted, Result};
use liquid_language::Language;
use liquid_lexer::text_before;
use liquid_model::{location, past_byte};
use std::alloc::{AllocError, Global};
use std::collections::BTreeSet;

/// The names that a tag, an output or the data has.
#[derive(Clone, Copy)]
pub(crate) struct MentionedNames<'n> {
    pub data: Option<&'n Object>,
    pub read: &'n BTreeSet<String>,
    pub set: &'n BTreeSet<String>,
}

impl MentionedNames<'_> {
    fn has(&self, name: &str) -> bool {
        let is_of_data = match self.data {
            Some(data) => data.get(name).is_some(),
            None => false,
        };
        is_of_data || self.read.contains(name) || self.set.contains(name)
    }
}

/// A placeholder, and where it stands.
#[derive(Drop)]
struct Foreign<'s> {
    place: Location,
    meant: Meant<'s>,
}

/// `ForeignOutput`: outside of scripts and styles a text has a placeholder of another language with
/// a name that is known here, or one of its tags or comments.
pub(crate) fn add_foreign(
    alloc: Global,
    source: Option<&str>,
    language: &Language,
    known: MentionedNames<'_>,
    remarks: &mut Vec<Remark>,
) -> Result<()>
    ensures added { OnOk result
        (AddsRemarks (All IsForeign) remarks.old.items remarks.new.items) }
    ensures memory { IfErr result (λ e. e.kind ≡ ErrorKind.Memory) }
{
    let Some(source) = source else {
        return Ok(());
    };
    let placeholders = foreign_in(alloc, source, language, known)?;
    add_all(alloc, &placeholders, remarks)?;
    Ok(())
}

fn add_all(
    alloc: Global,
    placeholders: &[Foreign<'_>],
    remarks: &mut Vec<Remark>,
) -> std::result::Result<(), AllocError>
    ensures { OnOk result
        (AddsRemarks (All IsForeign) remarks.old.items remarks.new.items) }
{
    for placeholder in placeholders {
        if is_full(remarks) {
            return Ok(());
        }
        remarks.push(foreign_output(alloc, placeholder)?)?;
    }
    Ok(())
}

fn foreign_output(
    alloc: Global,
    placeholder: &Foreign<'_>,
) -> std::result::Result<Remark, AllocError>
    ensures { IfOk result (λ r. IsForeign (remark_view r)) }
{
    let message = foreign_message(alloc, placeholder.meant)?;
    Remark::at(alloc, &placeholder.place, "ForeignOutput", message.as_str())
}

fn foreign_message(alloc: Global, meant: Meant<'_>) -> std::result::Result<String, AllocError>
    ensures { IfOk result (λ message. IsForeignMessage (string_bytes message)) }
{
    match meant {
        Meant::Value(found, path) => foreign_value(alloc, found, path),
        Meant::Tag(opener) => foreign_tag(alloc, opener),
        Meant::Comment => foreign_comment(alloc),
    }
}

fn foreign_value(alloc: Global, found: &str, path: &str) -> std::result::Result<String, AllocError>
    ensures { IfOk result (λ message. string_bytes message ≡ foreign_value found.now path.now) }
{
    let found = Quoted { text: found };
    let path = Quoted { text: path };
    format!(in alloc; "`{found}` is text here; the value is written `{{{{ {path} }}}}`")
}

fn foreign_tag(alloc: Global, opener: &str) -> std::result::Result<String, AllocError>
    ensures { IfOk result (λ message. string_bytes message ≡ foreign_tag opener.now) }
{
    format!(in alloc; "what begins with `{opener}` is text here; a tag is written `{{% if a %}}`")
}

fn foreign_comment(alloc: Global) -> std::result::Result<String, AllocError>
    ensures { IfOk result (λ message. string_bytes message ≡ foreign_comment) }
{
    String::from_str(
        alloc,
        "this is text here; a comment is written `{% comment %}text{% endcomment %}`",
    )
}

/// The text between two pieces of a source, or before the first or after the last of them.
#[derive(Clone, Copy)]
struct Part<'s> {
    source: &'s str,
    text: &'s str,
    /// How many bytes of the source it and what follows it have.
    remaining: usize,
}

/// The placeholders of a source, which is read piece by piece: `MOST_WARNINGS` at most.
fn foreign_in<'s>(
    alloc: Global,
    source: &'s str,
    language: &Language,
    known: MentionedNames<'_>,
) -> Result<Vec<Foreign<'s>>>
    ensures memory { IfErr result (λ e. e.kind ≡ ErrorKind.Memory) }
{
    let mut found = Vec::new(alloc);
    let mut is_code = source.starts_with("#!");
    let mut rest = source;
    // each piece takes a byte at least
    'pieces: for _ in 0..=source.len() {
        let (text, at) = text_before(rest);
        let part = Part {
            source,
            text,
            remaining: rest.len(),
        };
        is_code = part.add_to(&mut found, is_code, known)?;
        rest = match after_piece(alloc, language, at)? {
            Some(after) => after,
            None => break,
        };
    }
    Ok(found)
}

/// What follows the piece that a text begins with, or its first brace where that can't be read;
/// nothing where the text is empty.
fn after_piece<'s>(
    alloc: Global,
    language: &Language,
    at: &'s str,
) -> std::result::Result<Option<&'s str>, AllocError> {
    let Some(inside) = past_byte(at, b'{') else {
        return Ok(None);
    };
    match past_piece(alloc, language, inside)? {
        Some(after) => Ok(Some(after)),
        None => Ok(Some(inside)),
    }
}

impl<'s> Part<'s> {
    /// Adds the placeholders of the part. `is_code` says whether it begins inside a script or a
    /// style, and the answer whether it ends there.
    fn add_to(
        &self,
        found: &mut Vec<Foreign<'s>>,
        is_code: bool,
        known: MentionedNames<'_>,
    ) -> std::result::Result<bool, AllocError> {
        let mut is_code = is_code;
        let mut from: usize = 0;
        for _ in 0..self.text.len() {
            let Some(at) = self.sign_from(from) else {
                return Ok(is_code);
            };
            is_code = self.is_code_at(at, is_code);
            if let Some(meant) = self.meant_at(at, is_code, known) {
                if found.len() < MOST_WARNINGS {
                    found.push(self.placed(at, meant))?;
                }
            }
            from = self.past_sign(at);
        }
        Ok(is_code)
    }

    /// The place of the first sign from a place on.
    fn sign_from(&self, from: usize) -> Option<usize> {
        let sign = next_sign(self.text.get(from..)?)?;
        Some(from.saturating_add(sign))
    }

    /// The place after the sign that stands at a place.
    fn past_sign(&self, at: usize) -> usize {
        match self.text.get(at..) {
            Some(text) if text.starts_with('\u{ab}') => at.saturating_add(2),
            _ => at.saturating_add(1),
        }
    }

    /// Whether code stands after this place, where `is_code` says it of what is before.
    fn is_code_at(&self, at: usize, is_code: bool) -> bool {
        match self.text.get(at..) {
            Some(text) => code_after(text).unwrap_or(is_code),
            None => is_code,
        }
    }

    /// What is meant by what stands at a place, where it is no code and its name is known.
    fn meant_at(&self, at: usize, is_code: bool, known: MentionedNames<'_>) -> Option<Meant<'s>> {
        if is_code {
            return None;
        }
        let meant = meant_by(self.text.get(..at)?, self.text.get(at..)?)?;
        match meant {
            Meant::Value(_, path) if !known.has(first_name(path)) => None,
            meant => Some(meant),
        }
    }

    /// What is meant, with its place.
    fn placed(&self, at: usize, meant: Meant<'s>) -> Foreign<'s> {
        Foreign {
            place: location(self.source, self.remaining.saturating_sub(at)),
            meant,
        }
    }
}
