//! What a page is made of, as the words name it.
ghost use Rattle.std.specs.Prelude.{◌≡◌};
ghost use Rattle.liquid_commands.specs.declared.inputs.WordFault.TheVariants.{Memory};

use crate::forms::Forms;
use crate::template_word::{PlacedWords, TemplateWord};
use crate::values::{NamedValue, values_of};
use crate::words::{
    DataFile, FilterSet, Gap, assets_fault, data_file, filter_set, gap_of, out_file,
};
use clap::ArgMatches;
use std::alloc::{AllocError, AllocFailed, Global};

/// Why words ask for nothing.
#[derive(Debug, Drop)]
pub enum WordFault {
    /// They are wrong in this.
    Wrong(&'static str),
    /// The word after this option lacks something.
    Lacking(&'static str, String, Gap),
    /// Memory ran out.
    Memory,
}

impl From<AllocError> for WordFault {
    ghost from_gives = { λ _ fault. fault ≡ Memory };

    fn from(_refused: AllocError) -> WordFault {
        WordFault::Memory
    }
}

impl<T: Drop> From<AllocFailed<T>> for WordFault {
    ghost from_gives = { λ _ fault. fault ≡ Memory };

    fn from(_refused: AllocFailed<T>) -> WordFault {
        WordFault::Memory
    }
}

/// What a page is made of, as the command line names it.
#[derive(Drop)]
pub struct Inputs<'w> {
    pub template: TemplateWord<'w>,
    /// In the order in which the later wins.
    pub data: Vec<DataFile<'w>>,
    /// After the files, in the order in which the later wins.
    pub values: Vec<NamedValue<'w>>,
    /// How the data is read.
    pub forms: Forms<'w>,
    /// Folders, and files as NAME=FILE, in the order in which the later wins.
    pub partials: Vec<&'w str>,
    /// The set of filters that templates call.
    pub filters: Option<FilterSet>,
    /// Whether outputs are escaped for HTML.
    pub escapes_html: bool,
    /// What stands before the files of Shopify's theme in their addresses.
    pub assets: Option<&'w str>,
}

/// The files that a command names, of which one may be standard input, as the records may. What
/// stands beside the template is the data, or these records.
pub(crate) fn inputs_of<'w>(
    alloc: Global,
    given: &ArgMatches<'w>,
    placed: PlacedWords<'w>,
    records: Option<&'w str>,
) -> Result<Inputs<'w>, WordFault> {
    let template = template_of(placed.template)?;
    if records.is_some_and(str::is_empty) {
        return Err(WordFault::Wrong("the path of the records is empty"));
    }
    let own_data = match records {
        Some(_) => None,
        None => placed.other,
    };
    let inputs = files_of(alloc, given, template, own_data)?;
    let others = records.is_some_and(is_standard_input) as usize;
    check_standard_input(inputs.from_standard_input().saturating_add(others))?;
    Ok(inputs)
}

fn files_of<'w>(
    alloc: Global,
    given: &ArgMatches<'w>,
    template: TemplateWord<'w>,
    own_data: Option<&'w str>,
) -> Result<Inputs<'w>, WordFault> {
    let filters = filter_set(given.get_str("filters"));
    Ok(Inputs {
        template,
        data: data_of(alloc, given, own_data)?,
        values: values_of(alloc, given)?,
        forms: Forms::given(given),
        partials: partials_of(alloc, given)?,
        filters,
        escapes_html: given.get_str("escape").is_some(),
        assets: assets_of(given, filters)?,
    })
}

/// The address of assets; Shopify's filters are beside it.
fn assets_of<'w>(
    given: &ArgMatches<'w>,
    filters: Option<FilterSet>,
) -> Result<Option<&'w str>, WordFault> {
    let Some(address) = given.get_str("assets") else {
        return Ok(None);
    };
    match assets_fault(filters, address) {
        Some(fault) => Err(WordFault::Wrong(fault)),
        None => Ok(Some(address)),
    }
}

fn template_of(template: Option<TemplateWord<'_>>) -> Result<TemplateWord<'_>, WordFault> {
    match template {
        Some(TemplateWord::Path("")) => {
            Err(WordFault::Wrong("the path of the template is empty"))
        }
        Some(template) => Ok(template),
        None => Err(WordFault::Wrong("a template is needed")),
    }
}

/// Refuses a call in which more than one file is standard input.
pub(crate) fn check_standard_input(count: usize) -> Result<(), WordFault> {
    if count > 1 {
        return Err(WordFault::Wrong("standard input can be read only once: name - once"));
    }
    Ok(())
}

/// The files of data: the one that stands in the call by itself, where one does, and those of
/// options. Each has a name.
pub(crate) fn data_of<'w>(
    alloc: Global,
    given: &ArgMatches<'w>,
    own: Option<&'w str>,
) -> Result<Vec<DataFile<'w>>, WordFault> {
    let mut data = Vec::new(alloc);
    if let Some(path) = own {
        if path.is_empty() {
            return Err(WordFault::Wrong("the path of the data is empty"));
        }
        data.push(DataFile { name: None, path })?;
    }
    for word in given.get_strs("data").unwrap_or_default() {
        check_gap(alloc, "-d", word)?;
        data.push(data_file(word))?;
    }
    Ok(data)
}

/// Refuses a word FILE or NAME=FILE after an option that lacks something.
fn check_gap(alloc: Global, option: &'static str, word: &str) -> Result<(), WordFault> {
    match gap_of(word) {
        Some(gap) => Err(WordFault::Lacking(option, String::from_str(alloc, word)?, gap)),
        None => Ok(()),
    }
}

pub(crate) fn partials_of<'w>(
    alloc: Global,
    given: &ArgMatches<'w>,
) -> Result<Vec<&'w str>, WordFault> {
    let mut partials = Vec::new(alloc);
    for word in given.get_strs("partials").unwrap_or_default() {
        check_gap(alloc, "-p", word)?;
        partials.push(*word)?;
    }
    Ok(partials)
}

impl Inputs<'_> {
    /// How many of the files are standard input.
    fn from_standard_input(&self) -> usize {
        let others = count_from_standard_input(&self.data, &self.partials);
        others.saturating_add(self.template.is_standard_input() as usize)
    }
}

impl TemplateWord<'_> {
    fn is_standard_input(self) -> bool {
        self == TemplateWord::Path("-")
    }
}

/// Whether the path of a file stands for standard input.
pub(crate) fn is_standard_input(path: &str) -> bool {
    path == "-"
}

/// The file that a page goes to, or the pattern of those of a merge; it has a name.
pub(crate) fn out_of<'w>(given: &ArgMatches<'w>) -> Result<Option<&'w str>, WordFault> {
    match given.get_str("out") {
        Some("") => Err(WordFault::Wrong("the path after --out is empty")),
        word => Ok(out_file(word)),
    }
}

/// How many of these files are standard input.
pub(crate) fn count_from_standard_input(data: &[DataFile<'_>], partials: &[&str]) -> usize {
    let mut count: usize = 0;
    for file in data {
        count = count.saturating_add(is_standard_input(file.path) as usize);
    }
    for word in partials {
        count = count.saturating_add(word.ends_with("=-") as usize);
    }
    count
}
