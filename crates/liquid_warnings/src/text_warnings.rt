//! What the text of a file has that is no Liquid, and tags that do nothing where they stand.
ghost use Rattle.std.specs.Prelude.{◌≡◌, IfErr, OnOk};
ghost use Rattle.liquid_warnings.specs.Warnings.{AreOfMisusedTexts, AreOfText};
ghost use Rattle.liquid_warnings.specs.inside.Added.{AddsRemarks};

use crate::foreign::{MentionedNames, add_foreign};
use crate::front_matter::front_matter;
use crate::remark::{Remark, push_found};
use crate::stray::add_strays;
use crate::text_tests::{add_quoted_names, add_text_tests};
use crate::warnings::{CheckedFile, Given};
use liquid_core::{ErrorKind, Object, Result};
use std::alloc::{AllocError, Global};

/// Adds the warnings about a `break` outside of loops, texts that stand for something else, front
/// matter, and placeholders of other
/// languages with names that are known here.
pub(crate) fn add_text_warnings(
    alloc: Global,
    file: &CheckedFile<'_>,
    given: Given<'_>,
    known: MentionedNames<'_>,
    remarks: &mut Vec<Remark>,
) -> Result<()>
    ensures added { OnOk result (AddsRemarks AreOfText remarks.old.items remarks.new.items) }
    ensures memory { IfErr result (λ e. e.kind ≡ ErrorKind.Memory) }
{
    add_strays(alloc, file, remarks)?;
    add_misused_texts(alloc, file, given.data, remarks)?;
    push_found(remarks, front_matter(alloc, file.text, given.written_for)?)?;
    add_foreign(alloc, file.text, given.language, known, remarks)?;
    Ok(())
}

/// Adds the warnings about texts that conditions take for something else, and about names in
/// quotes.
fn add_misused_texts(
    alloc: Global,
    file: &CheckedFile<'_>,
    data: Option<&Object>,
    remarks: &mut Vec<Remark>,
) -> std::result::Result<(), AllocError>
    ensures { OnOk result
        (AddsRemarks AreOfMisusedTexts remarks.old.items remarks.new.items) }
{
    let Some(template) = file.template else {
        return Ok(());
    };
    add_text_tests(alloc, template, data, remarks)?;
    add_quoted_names(alloc, template, data, remarks)?;
    Ok(())
}
