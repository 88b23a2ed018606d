//! The options that are a way out of a fault.
ghost use Rattle.std.specs.Prelude.{◌≡◌, Some, option_map};
ghost use Rattle.liquid_commands.specs.Tips.{checked_tip, data_tip, exchanged_tip};
ghost use Rattle.liquid_commands.specs.Tips.{ends_in_brace, first_line_tip, no_file_tip};
ghost use Rattle.liquid_commands.specs.Tips.{page_tip};
ghost use Rattle.liquid_commands.specs.Tips.{record_tip, set_tip, source_tip, tip_text, value_tip};

use crate::record_words::{RecordsFormat, guessed_format, is_records_name};
use crate::words::{ends_in, is_template_name, is_toml, is_yaml, split_at_equals};
use liquid_core::Missing;
use liquid_model::ErrorKind;
use std::fmt;

/// What a call may be changed to where it ends by a fault.
#[derive(Clone, Copy, Debug, PartialEq, Eq, Drop)]
pub enum Tip {
    /// The templates are Jekyll's.
    Jekyll,
    /// The templates are Shopify's.
    Shopify,
    /// The templates compute with decimals.
    Decimals,
    /// What is missing may be nil.
    MissingIsNil,
    /// The partial is in a file.
    Partials,
    /// A number that isn't whole may be a text.
    DecimalsAsTexts,
    /// The data may be JSON or TOML.
    PartOfYaml,
    /// The value of the command line is a text.
    TextValue,
    /// The records are a table.
    Table,
    /// The records are a list of JSON.
    List,
    /// A record that is a line of JSON isn't whole in it.
    OneLine,
    /// The data is a table or lines of JSON, as records are.
    Records,
    /// The template stands before the data.
    TemplateFirst,
    /// A value is given on the command line.
    Define,
    /// The data of templates that are checked is in files.
    DataFile,
    /// A text of the data may be a date.
    Dates,
}

/// What is to be said of it.
impl fmt::Display for Tip {
    ghost output = { λ tip. Some (tip_text tip) };

    fn fmt<W: fmt::Write>(&self, f: &mut fmt::Formatter<W>) -> fmt::Result {
        f.write_str(match self {
            Tip::Jekyll => "--filters jekyll has it",
            Tip::Shopify => "--filters shopify has it",
            Tip::Decimals => "--filters decimals has it",
            Tip::MissingIsNil => "--missing nil goes on with nil",
            Tip::Partials => "-p NAME=FILE gives a partial, and -p DIR each file of a folder",
            Tip::DecimalsAsTexts => "--decimals text reads such a number as a text",
            Tip::PartOfYaml => "a part of YAML is read; JSON and TOML are read whole",
            Tip::TextValue => "-D NAME=TEXT gives a text, without `:`",
            Tip::Table => "--records-format csv reads a table",
            Tip::List => "--records-format json reads a list",
            Tip::OneLine => {
                "a record is one line, with no comma after it; a JSON list may go over lines"
            }
            Tip::Records => "bikleinu merge reads tables and JSON lines, as its records",
            Tip::TemplateFirst => "the template comes first, and its data or records after it",
            Tip::Define => "-D NAME=TEXT gives a value, and -D NAME:=JSON one of another kind",
            Tip::DataFile => "-d FILE gives data; each PATH is a template",
            Tip::Dates => "--dates reads a date as 2026-04-05, with or without a time",
        })
    }
}

/// The tip for a fault of this kind in the source of a template, where the language of Jekyll, of
/// Shopify or of decimals has the tag or filter that isn't known. It takes no memory.
pub fn source_tip(
    kind: ErrorKind,
    jekyll_has: bool,
    shopify_has: bool,
    decimals_have: bool,
) -> Option<Tip>
    ensures { result ≡ source_tip kind jekyll_has shopify_has decimals_have }
{
    match kind {
        ErrorKind::UnknownTag | ErrorKind::UnknownFilter => {
            set_tip(jekyll_has, shopify_has, decimals_have)
        }
        _ => None,
    }
}

fn set_tip(jekyll_has: bool, shopify_has: bool, decimals_have: bool) -> Option<Tip>
    ensures { result ≡ set_tip jekyll_has shopify_has decimals_have }
{
    match (jekyll_has, shopify_has, decimals_have) {
        (true, _, _) => Some(Tip::Jekyll),
        (false, true, _) => Some(Tip::Shopify),
        (false, false, true) => Some(Tip::Decimals),
        (false, false, false) => None,
    }
}

/// The tip for a fault of this kind that ends a page, where what is missing is a fault, or nil.
/// It takes no memory.
pub fn page_tip(kind: ErrorKind, missing: Missing) -> Option<Tip>
    ensures { result ≡ page_tip kind missing }
{
    match (kind, missing) {
        (ErrorKind::UnknownVariable, Missing::IsFault) => Some(Tip::MissingIsNil),
        (ErrorKind::UnknownPartial, _) => Some(Tip::Partials),
        _ => None,
    }
}

/// The tip for a fault of this kind in the file of data at a path, read with numbers that aren't
/// whole as texts or without. TOML doesn't keep their spelling. It takes no memory.
pub fn data_tip(kind: ErrorKind, path: &str, decimals_as_texts: bool) -> Option<Tip>
    ensures { result ≡ data_tip kind path.now decimals_as_texts }
{
    if kind == ErrorKind::Float && !is_toml(path) && !decimals_as_texts {
        return Some(Tip::DecimalsAsTexts);
    }
    if is_yaml(path) {
        return Some(Tip::PartOfYaml);
    }
    exchanged_tip(kind, path)
}

/// The tip where a template or records stand in the place of the data, by the name of the file.
fn exchanged_tip(kind: ErrorKind, path: &str) -> Option<Tip>
    ensures { result ≡ exchanged_tip kind path.now }
{
    match kind {
        ErrorKind::InvalidInput if is_template_name(path) => Some(Tip::TemplateFirst),
        ErrorKind::InvalidInput if is_records_name(path) => Some(Tip::Records),
        _ => None,
    }
}

/// The tip where the file of data at this path isn't there: it gives a name a value. It takes no
/// memory.
pub fn no_file_tip(path: &str) -> Option<Tip>
    ensures { result ≡ no_file_tip path.now }
{
    match split_at_equals(path) {
        Some(_) => Some(Tip::Define),
        None => None,
    }
}

/// The tip where a file at this path is checked as a template: it is one of data by its name. It
/// takes no memory.
pub fn checked_tip(path: &str) -> Option<Tip>
    ensures { result ≡ checked_tip path.now }
{
    if ends_in(path, ".json") || is_toml(path) {
        Some(Tip::DataFile)
    } else {
        None
    }
}

/// The tip for a fault of this kind in the JSON of a value of the command line. It takes no
/// memory.
pub fn value_tip(kind: ErrorKind) -> Option<Tip>
    ensures { result ≡ value_tip kind }
{
    match kind {
        ErrorKind::Float => Some(Tip::DecimalsAsTexts),
        ErrorKind::InvalidInput => Some(Tip::TextValue),
        _ => None,
    }
}

/// The tip for a fault of this kind in a record of JSON in the file at a path. Where the first of
/// records that are a line each has the fault, and is this text, the file may be a template, a
/// table or a list, or the record isn't whole in its line. It takes no memory.
pub fn record_tip(
    kind: ErrorKind,
    path: &str,
    decimals_as_texts: bool,
    first_line: Option<&str>,
) -> Option<Tip>
    ensures { result ≡ record_tip kind path.now decimals_as_texts
        (option_map (λ line. line.now) first_line.entry) }
{
    match (kind, first_line) {
        (ErrorKind::Float, _) if !decimals_as_texts => Some(Tip::DecimalsAsTexts),
        (ErrorKind::InvalidInput, Some(line)) => first_line_tip(path, line),
        _ => None,
    }
}

fn first_line_tip(path: &str, line: &str) -> Option<Tip>
    ensures { result ≡ first_line_tip path.now line.now }
{
    if is_template_name(path) {
        return Some(Tip::TemplateFirst);
    }
    match guessed_format(line.as_bytes()) {
        RecordsFormat::Lines => if ends_in_brace(line) {
            None
        } else {
            Some(Tip::OneLine)
        },
        RecordsFormat::List => Some(Tip::List),
        RecordsFormat::Table => Some(Tip::Table),
    }
}

/// Whether a line ends as an object does.
fn ends_in_brace(line: &str) -> bool
    ensures { result ≡ ends_in_brace line.now }
{
    ends_in(line, "}\n") || ends_in(line, "}") || ends_in(line, "}\r\n")
}
