//! The words of `check`.
ghost use Rattle.std.specs.Prelude.{◌≡◌, option_map};
ghost use Rattle.liquid_commands.specs.Words.{format_named, format_of};

use crate::DiagnosticFormat;
use crate::arguments::{Argument, command};
use crate::forms::Forms;
use crate::inputs::{
    WordFault, check_standard_input, count_from_standard_input, data_of, is_standard_input,
    partials_of,
};
use crate::selection::{Selection, selection_of};
use crate::values::{NamedValue, values_of};
use crate::words::{DataFile, FilterSet, filter_set};
use clap::{ArgMatches, Command};
use std::alloc::{AllocError, Global};

/// A call of `check`.
#[derive(Drop)]
pub struct CheckCall<'w> {
    /// Files, and folders of files.
    pub paths: Vec<&'w str>,
    /// Which files below those folders.
    pub selection: Selection<'w>,
    /// In the order in which the later wins.
    pub data: Vec<DataFile<'w>>,
    /// After the files, in the order in which the later wins.
    pub values: Vec<NamedValue<'w>>,
    /// How the data is read.
    pub forms: Forms<'w>,
    /// Folders, and files as NAME=FILE, in the order in which the later wins.
    pub partials: Vec<&'w str>,
    /// The set of filters that templates call.
    pub filters: Option<FilterSet>,
    /// Whether outputs are escaped for HTML.
    pub escapes_html: bool,
    pub format: DiagnosticFormat,
    /// Whether outputs in attributes are looked at.
    pub attributes: bool,
    /// Whether warnings count.
    pub is_strict: bool,
    /// Whether the counts are left out.
    pub is_quiet: bool,
}

const ABOUT: &str = "Reports every fault of templates, and what is likely a mistake, without a run";

const ARGUMENTS: &[Argument] = &[
    Argument::Paths,
    Argument::Data,
    Argument::Define,
    Argument::Partials,
    Argument::Filters,
    Argument::Escape,
    Argument::ReportFormat,
    Argument::Warn,
    Argument::Strict,
    Argument::Ext,
    Argument::Exclude,
    Argument::Quiet,
    Argument::Decimals,
    Argument::Dates,
    Argument::Now,
];

/// The command. `AllocError` where there is no room for it, and nowhere else.
pub(crate) fn check_command<'a>(alloc: Global) -> Result<Command<'a>, AllocError> {
    command(alloc, "check", ABOUT, ARGUMENTS)
}

/// What the words of `check` ask for.
pub fn check_call<'w>(alloc: Global, given: &ArgMatches<'w>) -> Result<CheckCall<'w>, WordFault> {
    let paths = paths_of(alloc, given)?;
    let selection = selection_of(alloc, given)?;
    let data = data_of(alloc, given, None)?;
    let values = values_of(alloc, given)?;
    let partials = partials_of(alloc, given)?;
    let count = count_from_standard_input(&data, &partials).saturating_add(own_count(&paths));
    check_standard_input(count)?;
    Ok(CheckCall {
        paths,
        selection,
        data,
        values,
        forms: Forms::given(given),
        partials,
        filters: filter_set(given.get_str("filters")),
        escapes_html: given.get_str("escape").is_some(),
        format: format_of(given.get_str("format")),
        attributes: given.get_str("warn").is_some(),
        is_strict: given.get_flag("strict"),
        is_quiet: given.get_flag("quiet"),
    })
}

/// How many of the paths are standard input.
fn own_count(paths: &[&str]) -> usize {
    let mut count: usize = 0;
    for path in paths {
        count = count.saturating_add(is_standard_input(*path) as usize);
    }
    count
}

fn paths_of<'w>(alloc: Global, given: &ArgMatches<'w>) -> Result<Vec<&'w str>, WordFault> {
    let mut paths = Vec::new(alloc);
    for word in given.get_strs("PATH").unwrap_or_default() {
        if word.is_empty() {
            return Err(WordFault::Wrong("a PATH is empty"));
        }
        paths.push(*word)?;
    }
    Ok(paths)
}

/// The format of a name, and without one that for people. It takes no memory.
fn format_of(name: Option<&str>) -> DiagnosticFormat
    ensures { result ≡ format_of (option_map (λ n. n.now) name.entry) }
{
    match name {
        Some(name) => format_named(name),
        None => DiagnosticFormat::Text,
    }
}

fn format_named(name: &str) -> DiagnosticFormat
    ensures { result ≡ format_named name.now }
{
    match name {
        "json" => DiagnosticFormat::Json,
        "github" => DiagnosticFormat::Github,
        _ => DiagnosticFormat::Text,
    }
}
