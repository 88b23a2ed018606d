//! What single words mean.
ghost use Rattle.std.specs.Prelude.{◌≡◌, Some, codes, option_map, true};
ghost use Rattle.liquid_commands.specs.Words.{data_file, file_view, filter_set};
ghost use Rattle.liquid_commands.specs.Words.{has_ending, is_selected, is_yaml, leaves_folder};
ghost use Rattle.liquid_commands.specs.Words.{assets_fault, is_template_name, missing_of};
ghost use Rattle.liquid_commands.specs.Words.{gap_of, gap_of_path, gap_text, split_at_equals};
ghost use Rattle.liquid_commands.specs.Words.{out_file, set_named, split_view};

use liquid_core::Missing;
use std::fmt;

/// A file of data, with the name that it is given in a template, where it has one.
#[derive(Clone, Copy, Drop)]
pub struct DataFile<'w> {
    pub name: Option<&'w str>,
    pub path: &'w str,
}

/// A set of filters.
#[derive(Clone, Copy, Drop)]
pub enum FilterSet {
    Decimals,
    Jekyll,
    Shopify,
}

/// A word FILE or NAME=FILE, which is parted at the first `=`. It takes no memory.
pub fn data_file(word: &str) -> DataFile<'_>
    ensures { file_view result ≡ data_file word.now }
{
    match split_at_equals(word) {
        Some((name, path)) => DataFile {
            name: Some(name),
            path,
        },
        None => DataFile {
            name: None,
            path: word,
        },
    }
}

/// The texts before and after the first `=`. It takes no memory.
pub(crate) fn split_at_equals(word: &str) -> Option<(&str, &str)>
    ensures { split_view result ≡ split_at_equals word.now }
{
    word.split_once('=')
}

/// What the word after an option lacks.
#[derive(Clone, Copy, Debug, Drop)]
pub enum Gap {
    /// Nothing stands before its `=`.
    Name,
    /// There is no path.
    Path,
    /// It gives no value to a name.
    Value,
}

/// What is to be said of it.
impl fmt::Display for Gap {
    ghost output = { λ gap. Some (gap_text gap) };

    fn fmt<W: fmt::Write>(&self, f: &mut fmt::Formatter<W>) -> fmt::Result {
        f.write_str(match self {
            Gap::Name => "there is no name before `=`; write NAME=FILE",
            Gap::Path => "there is no path; write a path, or NAME=FILE",
            Gap::Value => "it gives no name a value; write -D NAME=TEXT or -D NAME:=JSON",
        })
    }
}

/// What a word FILE or NAME=FILE lacks, where it lacks something. It takes no memory.
pub fn gap_of(word: &str) -> Option<Gap>
    ensures { result ≡ gap_of word.now }
{
    match split_at_equals(word) {
        Some(("", _)) => Some(Gap::Name),
        Some((_, path)) => gap_of_path(path),
        None => gap_of_path(word),
    }
}

fn gap_of_path(path: &str) -> Option<Gap>
    ensures { result ≡ gap_of_path path.now }
{
    if path.is_empty() {
        Some(Gap::Path)
    } else {
        None
    }
}

/// The set of a name, where one is given. It takes no memory.
pub fn filter_set(name: Option<&str>) -> Option<FilterSet>
    ensures { result ≡ filter_set (option_map (λ n. n.now) name.entry) }
{
    match name {
        Some(name) => set_named(name),
        None => None,
    }
}

fn set_named(name: &str) -> Option<FilterSet>
    ensures { result ≡ set_named name.now }
{
    match name {
        "jekyll" => Some(FilterSet::Jekyll),
        "shopify" => Some(FilterSet::Shopify),
        "decimals" => Some(FilterSet::Decimals),
        _ => None,
    }
}

/// What is missing is nil where the word says so, and else a fault. It takes no memory.
pub fn missing_of(word: Option<&str>) -> Missing
    ensures { result ≡ missing_of (option_map (λ w. w.now) word.entry) }
{
    match word {
        Some("nil") => Missing::IsNil,
        _ => Missing::IsFault,
    }
}

/// The file that a word after `--out` names, where it names one: `-` is standard output, as where
/// no word is given. It takes no memory.
pub fn out_file(word: Option<&str>) -> Option<&str>
    ensures { option_map (λ w. w.now) result ≡ out_file (option_map (λ w. w.now) word.entry) }
{
    match word {
        Some("-") => None,
        word => word,
    }
}

/// Whether a pattern of names leaves the folder that they are in: before its first `{` a part
/// between slashes has nothing but dots, or nothing at all. It takes no memory.
pub fn leaves_folder(pattern: &str) -> bool
    ensures { result ≡ leaves_folder true pattern.now }
{
    let mut only_dots = true;
    for byte in pattern.as_bytes() {
        match *byte {
            b'{' => return false,
            b'/' => {
                if only_dots {
                    return true;
                }
                only_dots = true;
            }
            other => only_dots = only_dots && other == b'.',
        }
    }
    false
}

/// What is wrong with an address of assets beside this set of filters, where something is: no other
/// set than Shopify's has assets, and the name of a file follows a `/`. It takes no memory.
pub fn assets_fault(set: Option<FilterSet>, address: &str) -> Option<&'static str>
    ensures { option_map (λ m. m.now) result ≡ assets_fault set address.now }
{
    match set {
        Some(FilterSet::Shopify) => if ends_in(address, "/") {
            None
        } else {
            Some("the address after --assets has no `/` at its end")
        },
        _ => Some("--assets is for Shopify's filters: write --filters shopify"),
    }
}

/// Whether a file of data is read as TOML, by the end of its path. It takes no memory.
pub fn is_toml(path: &str) -> bool
    ensures { result ≡ has_ending (codes ".toml") path.now }
{
    ends_in(path, ".toml")
}

/// Whether a file is named as a template, by the end of its path. It takes no memory.
pub fn is_template_name(path: &str) -> bool
    ensures { result ≡ is_template_name path.now }
{
    ends_in(path, ".liquid") || ends_in(path, ".html")
}

/// Whether a file of data is read as YAML, by the end of its path. It takes no memory.
pub fn is_yaml(path: &str) -> bool
    ensures { result ≡ is_yaml path.now }
{
    ends_in(path, ".yaml") || ends_in(path, ".yml")
}

pub(crate) fn ends_in(path: &str, ending: &str) -> bool
    ensures { result ≡ has_ending ending.now path.now }
{
    let bytes = path.as_bytes();
    match bytes.len().checked_sub(ending.len()) {
        Some(start) => &bytes[start..] == ending.as_bytes(),
        None => false,
    }
}

/// Whether the record with this number is among those that are asked for: at most `count` records,
/// from the one with the number `from` on. It takes no memory.
pub fn is_selected(number: u64, from: u64, count: u64) -> bool
    ensures { result ≡ is_selected number from count }
{
    match number.checked_sub(from) {
        Some(before) => before < count,
        None => false,
    }
}
