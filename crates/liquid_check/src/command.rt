//! The command `check`.
ghost use Rattle.std.specs.Prelude.{◌≡◌};
ghost use Rattle.liquid_check.specs.Engines.{engine_of};

use crate::files::{File, checked_files, names_of_texts, read_files};
use crate::paths::{Paths, checked_paths};
use crate::print::{Counts, print_counts, print_file};
use liquid_commands::{
    CheckCall, FilterSet, Stop, Tip, checked_tip, print_tip, read_data, with_time,
};
use liquid_language::Language;
use liquid_model::{Error, Object};
use liquid_warnings::{Given, Warnings, WrittenFor, warnings_of};
use std::alloc::Global;

/// What finds the tip for the fault of a template.
pub trait FaultTips {
    /// The tip for a fault of this text, where there is one.
    fn tip_for(&self, alloc: Global, text: &str, fault: &Error) -> Option<Tip>;
}

/// How many faults a tip is looked for at most.
const MOST_TRIED: usize = 20;

/// Prints what is found in the templates that a call names, in this language, and one tip. A file
/// that can't be read is reported, and stops no other.
pub fn check<T: FaultTips>(
    rt: &HostRuntime,
    call: &CheckCall<'_>,
    language: &Language,
    tips: &T,
) -> Result<(), Stop> {
    let paths = checked_paths(rt, call)?;
    let files = read_files(rt, language, &paths.files)?;
    print_found(rt, call, language, &paths, &files, tips)
}

/// Prints what is found in files, over the data that a call names.
fn print_found<T: FaultTips>(
    rt: &HostRuntime,
    call: &CheckCall<'_>,
    language: &Language,
    paths: &Paths,
    files: &[File],
    tips: &T,
) -> Result<(), Stop> {
    let data = data_of(rt, call)?;
    let partials = names_of_texts(rt.alloc(), files, paths.partials.as_slice())?;
    let given = given_by(call, data.as_ref(), language, &partials);
    let warnings = warnings_in(rt.alloc(), files, paths, given)?;
    let mut counts = Counts::new(paths.unreadable);
    print_files(rt, call, files, warnings, &mut counts)?;
    match tip_for_paths(&call.paths) {
        Some(tip) => print_tip(rt, Some(tip)),
        None => print_tip(rt, tip_for_files(rt.alloc(), files, tips)),
    }
    print_counts(rt, counts, call)
}

/// The tip where a path names a file of data.
fn tip_for_paths(paths: &[&str]) -> Option<Tip> {
    for path in paths {
        if let Some(tip) = checked_tip(path) {
            return Some(tip);
        }
    }
    None
}

/// The tip for the first fault of a file that has one.
fn tip_for_files<T: FaultTips>(alloc: Global, files: &[File], tips: &T) -> Option<Tip> {
    let mut tried: usize = 0;
    for file in files {
        if let Some((text, fault)) = first_fault(file) {
            let tip = tips.tip_for(alloc, text, fault);
            tried = tried.saturating_add(1);
            if tip.is_some() || tried == MOST_TRIED {
                return tip;
            }
        }
    }
    None
}

/// The first fault of a template, with its text.
fn first_fault(file: &File) -> Option<(&str, &Error)> {
    match file {
        File::Checked(checked) => {
            let finding = checked.findings.first()?;
            Some((checked.text.as_str(), &finding.fault))
        }
        File::Unreadable | File::NoText => None,
    }
}

/// The warnings of each file.
fn warnings_in(
    alloc: Global,
    files: &[File],
    paths: &Paths,
    given: Given<'_>,
) -> Result<Warnings, Stop> {
    let checked = checked_files(alloc, files, &paths.files)?;
    Ok(warnings_of(alloc, &checked, given)?)
}

/// What the warnings are made by: the partials where the call asks for some, also where a folder of
/// them is empty.
fn given_by<'c>(
    call: &CheckCall<'_>,
    data: Option<&'c Object>,
    language: &'c Language,
    partials: &'c [(String, usize)],
) -> Given<'c> {
    Given {
        data,
        language,
        written_for: written_for(call.filters),
        partials: (!call.partials.is_empty()).then_some(partials),
        attributes: call.attributes,
    }
}

/// The engine whose filters templates call.
pub fn written_for(filters: Option<FilterSet>) -> WrittenFor
    ensures { result ≡ engine_of filters }
{
    match filters {
        Some(FilterSet::Jekyll) => WrittenFor::Jekyll,
        Some(FilterSet::Shopify) => WrittenFor::Shopify,
        Some(FilterSet::Decimals) | None => WrittenFor::Bikleinu,
    }
}

/// The data that the templates are for, where a call names some. A time that is none is refused
/// without data too.
fn data_of(rt: &HostRuntime, call: &CheckCall<'_>) -> Result<Option<Object>, Stop> {
    if call.data.is_empty() && call.values.is_empty() {
        drop(with_time(rt.alloc(), Object::new(rt.alloc()), call.forms.now)?);
        return Ok(None);
    }
    Ok(Some(read_data(rt, &call.data, &call.values, call.forms)?))
}

/// Prints what is found in each file.
fn print_files(
    rt: &HostRuntime,
    call: &CheckCall<'_>,
    files: &[File],
    warnings: Warnings,
    counts: &mut Counts,
) -> Result<(), Stop> {
    for (file, warnings) in files.iter().zip(warnings) {
        match file {
            File::Checked(checked) => print_file(rt, call.format, checked, warnings, counts)?,
            File::Unreadable => counts.unreadable = counts.unreadable.saturating_add(1),
            File::NoText => {}
        }
    }
    Ok(())
}
