//! The list of the files that a site wrote.
ghost use Rattle.std.specs.Prelude.{◌≡◌, ◌∷◌, ◌++◌, [], IfOk, OnOk, map, nat_le, string_bytes};
ghost use Rattle.std.specs.List.{list_all};
ghost use Rattle.liquid_yaml.specs.Bytes.{first_part, first_part_view};
ghost use Rattle.liquid_site_build.specs.Written.{is_written_name};
ghost use Rattle.liquid_site_round.specs.SiteWriting.{built_file_view, built_names};
ghost use Rattle.liquid_site_round.specs.WrittenNames.{list_text, names_listed};
ghost use Rattle.liquid_site_round.specs.WrittenNames.{written_names_view};
ghost use Rattle.liquid_language.specs.Entries.{seen};

use crate::place::BuiltFiles;
use liquid_records::is_file_name;
use std::alloc::{AllocError, Global};

/// What a list has.
#[derive(Drop)]
pub enum WrittenNames<'t> {
    /// These names of files below the folder that is written to.
    Names(Vec<&'t str>),
    /// This line, which is no such name.
    Refused(&'t str),
}

/// The names that a list has, one on each line, or its first line that is none. `AllocError` where
/// there is no room for them, and nowhere else.
pub fn names_listed(alloc: Global, list: &str) -> Result<WrittenNames<'_>, AllocError>
    ensures { IfOk result (λ names. written_names_view names ≡ names_listed list.now) }
{
    let mut names = Vec::new(alloc);
    let mut left = Some(list);
    while let Some(text) = left {
        let (line, rest) = first_line(text);
        left = rest;
        if line.is_empty() {
            continue;
        }
        if !is_written_name(line) {
            return Ok(WrittenNames::Refused(line));
        }
        names.push(line)?;
    }
    Ok(WrittenNames::Names(names))
}

/// The line before the first line feed, and what follows that, where it is there.
fn first_line(text: &str) -> (&str, Option<&str>)
    ensures { first_part_view result ≡ first_part 10 text.now }
{
    match text.split_once('\n') {
        Some((line, rest)) => (line, Some(rest)),
        None => (text, None),
    }
}

/// Whether a text names one file below a folder, and has no controls.
fn is_written_name(name: &str) -> bool
    ensures { result ≡ is_written_name name.now }
{
    is_file_name(name) && has_no_controls(name.as_bytes())
}

fn has_no_controls(name: &[u8]) -> bool
    ensures { result ≡ list_all (λ b. nat_le 32 b) name.now }
{
    name.iter().all(|byte| *byte >= 32)
}

/// The list of these names, and then of the files that are built.
pub(crate) fn list_of(
    alloc: Global,
    names: &[&str],
    files: &BuiltFiles<'_>,
) -> Result<String, AllocError>
    ensures { IfOk result (λ text. string_bytes text ≡ list_text (map (λ n. n.now) names.now
        ++ built_names (seen built_file_view files.now.entries))) }
{
    let mut text = String::new(alloc);
    for name in names {
        push_name(&mut text, *name)?;
    }
    push_names(&mut text, files)?;
    Ok(text)
}

/// The list of the files that are built.
pub(crate) fn list_of_built(alloc: Global, files: &BuiltFiles<'_>) -> Result<String, AllocError>
    ensures { IfOk result (λ text. string_bytes text
        ≡ list_text (built_names (seen built_file_view files.now.entries))) }
{
    let mut text = String::new(alloc);
    push_names(&mut text, files)?;
    Ok(text)
}

/// Adds the names of files that are built.
fn push_names(text: &mut String, files: &BuiltFiles<'_>) -> Result<(), AllocError>
    ensures { OnOk result (string_bytes text.new ≡ string_bytes text.old
        ++ list_text (built_names (seen built_file_view files.now.entries))) }
{
    for (name, _) in files.iter() {
        push_name(text, name.as_str())?;
    }
    Ok(())
}

/// Adds a name and a line feed.
fn push_name(text: &mut String, name: &str) -> Result<(), AllocError>
    ensures { OnOk result (string_bytes text.new ≡ string_bytes text.old ++ (name.now ++ 10 ∷ [])) }
{
    text.push_str(name)?;
    text.push('\n')?;
    Ok(())
}
