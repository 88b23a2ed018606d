//! What pages are made of.
ghost use Rattle.std.specs.Prelude.{◌≡◌};

use crate::filters::{language_for, setting_uses};
use crate::reach::partials_in_reach;
use crate::tips::tip_for_source;
use liquid_commands::{
    DataTexts, FilterSet, Inputs, Source, Sources, Stop, print_fault, print_tip,
};
use liquid_core::{Missing, Object, Uses};
use liquid_lib::{
    DEFAULT_DEPTH, Language, Limits, Partials, Template, language, parse_with_source,
};
use liquid_records::Job;
use liquid_uses::{data_uses, uses_together};
use std::alloc::Global;

/// To find out what a node uses of the data takes about as long as to read some 200 bytes of it.
const BYTES_FOR_A_NODE: usize = 4096;

/// What pages are made of.
pub struct PageParts {
    pub sources: Sources,
    pub template: Template,
    pub partials: Partials,
    pub data: Object,
}

/// Drops the fields. Written by hand, so that each early return drops the value by one call to
/// prove.
impl Drop for PageParts {
    fn drop(self) {
        let PageParts {
            sources: _,
            template: _,
            partials: _,
            data: _,
        } = self;
    }
}

/// How much of the data is read.
#[derive(Clone, Copy, Drop)]
enum Reading<'p> {
    Whole,
    /// What the template uses, where there is much more data than template.
    Used,
    /// The same of the data that records share, with what the pattern of their files uses.
    Shared(Option<&'p Template>),
}

impl Reading<'_> {
    /// Whether it is asked what is used, of data that is long or isn't.
    fn asks(self, is_long: bool) -> bool {
        match self {
            Reading::Whole => false,
            Reading::Used => is_long,
            Reading::Shared(_) => true,
        }
    }
}

/// What a page is made of, with its data as far as the template uses it.
#[derive(Drop)]
pub struct UsedParts<'c> {
    pub parts: PageParts,
    /// What is used of data, where it is known.
    pub uses: Option<Uses>,
    /// The texts of the data, where the data isn't whole.
    pub texts: Option<DataTexts<'c>>,
    /// How many bytes the texts of the data have.
    pub bytes: usize,
}

impl UsedParts<'_> {
    /// The parts with the whole data, and whether it wasn't whole before.
    pub fn complete(&mut self, rt: &HostRuntime) -> Result<bool, Stop> {
        let Some(texts) = self.texts.take() else {
            return Ok(false);
        };
        self.parts.data = texts.data(rt, None)?;
        Ok(true)
    }
}

/// Reads the template, the data, and the partials that the template leads to. A fault of the
/// template or of the data is printed; a partial that is refused counts where a page runs it.
pub fn read_parts(rt: &HostRuntime, inputs: &Inputs<'_>) -> Result<PageParts, Stop> {
    Ok(parts_read(rt, inputs, Reading::Whole)?.parts)
}

/// Reads the same, and where there is much data no more of it than the template and the filters of
/// the set use: over it the page has the same text and the same end, and its fault is of the same
/// kind, though not always in the same words.
pub fn read_used_parts<'c>(
    rt: &HostRuntime,
    inputs: &'c Inputs<'c>,
) -> Result<UsedParts<'c>, Stop> {
    parts_read(rt, inputs, Reading::Used)
}

/// Reads the same for a merge, whose pattern uses data too.
pub fn read_shared_parts<'c>(
    rt: &HostRuntime,
    inputs: &'c Inputs<'c>,
    pattern: Option<&Template>,
) -> Result<UsedParts<'c>, Stop> {
    parts_read(rt, inputs, Reading::Shared(pattern))
}

/// The fault of the template comes first, then those of the data, then those of the partials. These
/// are parsed before the data is read, so that it is known what is used of it.
fn parts_read<'c>(
    rt: &HostRuntime,
    inputs: &'c Inputs<'c>,
    reading: Reading<'_>,
) -> Result<UsedParts<'c>, Stop> {
    let language = language_for(rt.alloc(), inputs.filters, inputs.escapes_html)?;
    let mut sources = Sources::read(rt, inputs.template)?;
    let template = parsed(rt, sources.template(), &language)?;
    let texts = DataTexts::read(rt, &inputs.data, &inputs.values, inputs.forms)?;
    let partials = match partials_of(rt, inputs, &mut sources, &template, &language) {
        Ok(partials) => partials,
        Err(stop) => {
            drop(texts.data(rt, None)?);
            sources.print_left_out(rt);
            return Err(stop);
        }
    };
    let bytes = texts.bytes();
    let is_long = is_long(bytes, &template, &partials);
    let (alloc, filters) = (rt.alloc(), inputs.filters);
    let uses = if reading.asks(is_long) {
        uses_with(alloc, filters, &template, &partials, reading)?
    } else {
        None
    };
    let seen = if is_long { uses.as_ref() } else { None };
    let data = texts.data(rt, seen)?;
    sources.print_left_out(rt);
    Ok(UsedParts {
        texts: seen.is_some().then_some(texts),
        uses,
        parts: PageParts {
            sources,
            template,
            partials,
            data,
        },
        bytes,
    })
}

/// The partials that a template leads to.
fn partials_of(
    rt: &HostRuntime,
    inputs: &Inputs<'_>,
    sources: &mut Sources,
    template: &Template,
    language: &Language,
) -> Result<Partials, Stop> {
    sources.read_partials(rt, &inputs.partials)?;
    partials_in_reach(rt, sources, template, language)
}

/// Whether there are many bytes of data for each node of the templates: then to find out what these
/// use takes little time beside reading.
fn is_long(bytes: usize, template: &Template, partials: &Partials) -> bool {
    let mut nodes = template.nodes().len();
    for slot in partials.slots().values() {
        if let Some(partial) = slot {
            nodes = nodes.saturating_add(partial.nodes().len());
        }
    }
    bytes / BYTES_FOR_A_NODE >= nodes
}

/// What a template, the filters of a set and the pattern of a merge use of the data. None where it
/// can't be said.
fn uses_with(
    alloc: Global,
    filters: Option<FilterSet>,
    template: &Template,
    partials: &Partials,
    reading: Reading<'_>,
) -> Result<Option<Uses>, Stop> {
    let uses = data_uses(alloc, template, partials)?;
    let settings = setting_uses(alloc, filters)?;
    let Some(uses) = uses_together(alloc, &uses, &settings)? else {
        return Ok(None);
    };
    match reading {
        Reading::Shared(Some(pattern)) => {
            let names = data_uses(alloc, pattern, partials)?;
            Ok(uses_together(alloc, &uses, &names)?)
        }
        _ => Ok(Some(uses)),
    }
}

/// The template of a source. Its fault is printed.
fn parsed(rt: &HostRuntime, source: &Source, language: &Language) -> Result<Template, Stop> {
    let text = source.text.as_str();
    match parse_with_source(rt.alloc(), text, language) {
        Ok(template) => Ok(template),
        Err(fault) => {
            print_fault(rt, source.path.as_str(), &fault, Some(text));
            print_tip(rt, tip_for_source(rt.alloc(), text, &fault));
            Err(Stop::Faulted)
        }
    }
}

/// The template of the names of files, in the standard language. Its fault is printed.
pub fn read_pattern(rt: &HostRuntime, pattern: &str) -> Result<Template, Stop> {
    match parse_with_source(rt.alloc(), pattern, &language(rt.alloc())?) {
        Ok(template) => Ok(template),
        Err(fault) => {
            print_fault(rt, "--out", &fault, Some(pattern));
            Err(Stop::Faulted)
        }
    }
}

/// That template, where there is one without a fault.
pub fn pattern_if_parsed(alloc: Global, pattern: Option<&str>) -> Result<Option<Template>, Stop> {
    match pattern {
        Some(pattern) => Ok(parse_with_source(alloc, pattern, &language(alloc)?).ok()),
        None => Ok(None),
    }
}

impl PageParts {
    /// The sources, and a job of the others with filters of a host, in which partials nest as deep
    /// as they may by default.
    pub fn into_job<H>(self, host: H, missing: Missing, limits: Limits) -> (Sources, Job<H>)
        ensures sources { result.0 ≡ self.sources }
        ensures template { result.1.template ≡ self.template }
        ensures partials { result.1.partials ≡ self.partials }
        ensures shared { result.1.shared ≡ self.«data» }
        ensures depth { result.1.depth ≡ 32 }
        ensures host { result.1.host ≡ host }
        ensures missing { result.1.missing ≡ missing }
        ensures limits { result.1.limits ≡ limits }
    {
        let PageParts {
            sources,
            template,
            partials,
            data,
        } = self;
        let job = Job {
            template,
            partials,
            depth: DEFAULT_DEPTH,
            host,
            missing,
            limits,
            shared: data,
        };
        (sources, job)
    }
}
