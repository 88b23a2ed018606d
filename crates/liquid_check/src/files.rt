//! The files that are checked.
use crate::paths::CheckedPath;
use crate::{Finding, Findings, findings_of};
use liquid_commands::{Stop, called, found_text_at, print_left_out, text_at};
use liquid_files::LeftOut;
use liquid_language::Language;
use liquid_model::Result as Answer;
use liquid_syntax::Template;
use liquid_warnings::CheckedFile;
use std::alloc::{AllocError, Global};

/// A template, and the faults of its source.
pub(crate) struct Checked {
    pub(crate) path: String,
    pub(crate) text: String,
    pub(crate) findings: Vec<Finding>,
    /// The template that is there once its faults are text; none where they are too many.
    pub(crate) template: Option<Template>,
}

impl Drop for Checked {
    fn drop(self) {
        let Checked {
            path: _,
            text: _,
            findings: _,
            template: _,
        } = self;
    }
}

/// What is known of a file.
#[derive(Drop)]
pub(crate) enum File {
    Checked(Checked),
    /// It was found in a folder and is no text, and that is reported.
    NoText,
    /// It can't be read, and that is reported.
    Unreadable,
}

/// Reads the templates of paths, and finds their faults. One that can't be read is reported.
pub(crate) fn read_files(
    rt: &HostRuntime,
    language: &Language,
    paths: &[CheckedPath],
) -> Result<Vec<File>, Stop> {
    let mut files = Vec::new(rt.alloc());
    for path in paths {
        files.push(read_file(rt, language, path)?)?;
    }
    Ok(files)
}

fn read_file(rt: &HostRuntime, language: &Language, file: &CheckedPath) -> Result<File, Stop> {
    let path = file.path.as_str();
    match read_text(rt, path, file.is_found) {
        Ok(Some(text)) => Ok(File::Checked(findings_in(rt.alloc(), language, path, text)?)),
        Ok(None) => {
            print_left_out(rt, path, LeftOut::NoText);
            Ok(File::NoText)
        }
        Err(stop) => {
            stop.print_and_skip(rt)?;
            Ok(File::Unreadable)
        }
    }
}

/// The text at a path; none where it was found in a folder and is no text.
fn read_text(rt: &HostRuntime, path: &str, is_found: bool) -> Result<Option<String>, Stop> {
    if is_found {
        found_text_at(rt, path)
    } else {
        Ok(Some(text_at(rt, path)?))
    }
}

/// The template of a text, and the faults of it.
fn findings_in(alloc: Global, language: &Language, path: &str, text: String) -> Answer<Checked> {
    let path = String::from_str(alloc, called(path))?;
    let Findings { findings, template } = findings_of(alloc, text.as_str(), language)?;
    Ok(Checked {
        path,
        text,
        findings,
        template,
    })
}

/// What the warnings are made by of each file.
pub(crate) fn checked_files<'f>(
    alloc: Global,
    files: &'f [File],
    paths: &[CheckedPath],
) -> Result<Vec<CheckedFile<'f>>, AllocError> {
    let mut checked = Vec::new(alloc);
    for (file, path) in files.iter().zip(paths) {
        checked.push(file.as_checked(path.is_page))?;
    }
    Ok(checked)
}

/// The names of the partials that are texts, each with the place of its file.
pub(crate) fn names_of_texts(
    alloc: Global,
    files: &[File],
    names: &[(String, usize)],
) -> Result<Vec<(String, usize)>, AllocError> {
    let mut texts = Vec::new(alloc);
    for (name, place) in names {
        if !matches!(files.get(*place), Some(File::NoText)) {
            texts.push((String::from_str(alloc, name.as_str())?, *place))?;
        }
    }
    Ok(texts)
}

impl File {
    /// The text and the template, where they are there.
    fn as_checked(&self, is_page: bool) -> CheckedFile<'_> {
        match self {
            File::Checked(checked) => CheckedFile {
                text: Some(checked.text.as_str()),
                template: checked.template.as_ref(),
                is_page,
            },
            File::NoText | File::Unreadable => CheckedFile {
                text: None,
                template: None,
                is_page,
            },
        }
    }
}
