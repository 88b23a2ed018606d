//! The words of `merge`.
use crate::arguments::{Argument, command};
use crate::inputs::{Inputs, WordFault, inputs_of, out_of};
use crate::record_words::{
    RecordsFormat, are_snake, are_texts, delimiter_of, delimiter_of_path, records_format,
};
use crate::sizes::max_bytes_in;
use crate::template_word::placed_in;
use crate::words::{leaves_folder, missing_of};
use clap::{ArgMatches, Command};
use liquid_core::Missing;
use std::alloc::{AllocError, Global};

/// A call of `merge`.
#[derive(Drop)]
pub struct MergeCall<'w> {
    pub inputs: Inputs<'w>,
    pub records: &'w str,
    /// How they are written, where the call or their path says it.
    pub format: Option<RecordsFormat>,
    pub table: TableWords,
    /// The pattern of the files' names; without one all pages go to standard output.
    pub out: Option<&'w str>,
    /// The folder that these names are in; without one, the folder of the process.
    pub into: Option<&'w str>,
    pub separator: &'w str,
    /// The number of the first record, from 1, and how many at most.
    pub from: u64,
    pub count: u64,
    pub dry_run: bool,
    /// Whether each page is waited for, until the disk has it.
    pub is_flushed: bool,
    pub progress: bool,
    /// Whether counts and notes are left out.
    pub is_quiet: bool,
    /// What becomes of a missing value in a page. In the name of a file it is a fault.
    pub missing: Missing,
    /// How many bytes of text a page may have, and how many turns it may take.
    pub max_bytes: Option<u64>,
    pub max_turns: Option<u64>,
}

/// What a call says of a table.
#[derive(Clone, Copy, Drop)]
pub struct TableWords {
    /// The byte between cells, where the call or the path says it.
    pub delimiter: Option<u8>,
    /// Whether each cell is a text.
    pub are_texts: bool,
    /// Whether columns are named in snake case.
    pub are_snake: bool,
}

const ABOUT: &str = "Writes the page of a template for each record, \
    each into a file of its own or to standard output";

const ARGUMENTS: &[Argument] = &[
    Argument::PageTemplate,
    Argument::Records,
    Argument::Text,
    Argument::FilePattern,
    Argument::Into,
    Argument::Data,
    Argument::Define,
    Argument::Partials,
    Argument::Filters,
    Argument::Assets,
    Argument::Escape,
    Argument::RecordsFormat,
    Argument::Delimiter,
    Argument::Cells,
    Argument::Names,
    Argument::Separator,
    Argument::Missing,
    Argument::MaxBytes,
    Argument::MaxTurns,
    Argument::From,
    Argument::Count,
    Argument::DryRun,
    Argument::NoFlush,
    Argument::Progress,
    Argument::Quiet,
    Argument::Decimals,
    Argument::Dates,
    Argument::Now,
];

/// The command. `AllocError` where there is no room for it, and nowhere else.
pub(crate) fn merge_command<'a>(alloc: Global) -> Result<Command<'a>, AllocError> {
    command(alloc, "merge", ABOUT, ARGUMENTS)
}

/// What the words of `merge` ask for.
pub fn merge_call<'w>(alloc: Global, given: &ArgMatches<'w>) -> Result<MergeCall<'w>, WordFault> {
    let placed = placed_in(given, "RECORDS")?;
    let Some(records) = placed.other else {
        return Err(WordFault::Wrong("records are needed"));
    };
    let out = out_of(given)?;
    let into = into_of(given, out)?;
    if out.is_none() && given.get_flag("dry-run") {
        return Err(WordFault::Wrong(
            "--dry-run prints the names of files: write their pattern after --out",
        ));
    }
    Ok(MergeCall {
        inputs: inputs_of(alloc, given, placed, Some(records))?,
        records,
        format: format_of(given, records)?,
        table: table_of(given, records)?,
        out,
        into,
        separator: given.get_str("separator").unwrap_or("\n"),
        from: from_of(given)?,
        count: given.get_one::<u64>("count").unwrap_or(u64::MAX),
        dry_run: given.get_flag("dry-run"),
        is_flushed: !given.get_flag("no-flush"),
        progress: given.get_flag("progress"),
        is_quiet: given.get_flag("quiet"),
        missing: missing_of(given.get_str("missing")),
        max_bytes: max_bytes_in(given)?,
        max_turns: given.get_one::<u64>("max-turns"),
    })
}

/// The number of the first record, which is at least 1.
fn from_of(given: &ArgMatches<'_>) -> Result<u64, WordFault> {
    match given.get_one::<u64>("from") {
        Some(0) => Err(WordFault::Wrong("--from is the number of a record, and the first is 1")),
        Some(number) => Ok(number),
        None => Ok(1),
    }
}

/// How the records are written. Options of tables are refused beside another format.
fn format_of(given: &ArgMatches<'_>, path: &str) -> Result<Option<RecordsFormat>, WordFault> {
    let word = given.get_str("records-format");
    let has_table_words = given.get_str("delimiter").is_some()
        || given.get_str("cells").is_some()
        || are_snake(given.get_str("names"));
    match records_format(word, path) {
        Some(RecordsFormat::Lines | RecordsFormat::List) if has_table_words => {
            Err(WordFault::Wrong(
                "--delimiter, --cells and --names are for tables: write --records-format csv",
            ))
        }
        None if has_table_words => Ok(Some(RecordsFormat::Table)),
        format => Ok(format),
    }
}

/// What the call says of a table.
fn table_of(given: &ArgMatches<'_>, path: &str) -> Result<TableWords, WordFault> {
    let delimiter = match given.get_str("delimiter") {
        Some(word) => match delimiter_of(word) {
            Some(delimiter) => Some(delimiter),
            None => return Err(WordFault::Wrong(
                "--delimiter is tab, comma, semicolon, or one character of ASCII but a quote",
            )),
        },
        None => delimiter_of_path(path),
    };
    Ok(TableWords {
        delimiter,
        are_texts: are_texts(given.get_str("cells")),
        are_snake: are_snake(given.get_str("names")),
    })
}

/// The folder that the names of files are in. Its path is checked, and the pattern of the names:
/// they lie below the folder.
fn into_of<'w>(
    given: &ArgMatches<'w>,
    pattern: Option<&str>,
) -> Result<Option<&'w str>, WordFault> {
    let into = given.get_str("into");
    match pattern {
        Some(pattern) if pattern.ends_with('/') => Err(WordFault::Wrong(
            "--out is the pattern of the files' names, as 'mails/{{ id }}.eml': \
             write a folder alone after --into",
        )),
        Some(pattern) if leaves_folder(pattern) => Err(WordFault::Wrong(
            "the names of --out are below a folder, so no part of them is empty or only dots: \
             write the folder after --into",
        )),
        None if into.is_some() => Err(WordFault::Wrong(
            "--into is the folder of files: write the pattern of their names after --out",
        )),
        _ if into == Some("") => Err(WordFault::Wrong("the path after --into is empty")),
        _ => Ok(into),
    }
}
