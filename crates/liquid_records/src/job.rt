//! One template over many records.
ghost use Rattle.std.specs.Prelude.{◌≡◌, Ok, IfErr, IfOk, string_bytes};
ghost use Rattle.liquid_model.specs.Answer.{IsValueOrMemory};
ghost use Rattle.liquid_model.specs.View.{pairs_view};
ghost use Rattle.liquid_syntax.specs.Templates.{tree_of};
ghost use Rattle.liquid_engine.specs.LimitedPages.{KeepsLimits, PageWithin};
ghost use Rattle.liquid_engine.specs.Pages.{page_view};
ghost use Rattle.liquid_json.specs.Json.{data_of};
ghost use Rattle.liquid_records.specs.Records.{RecordComesTo, checked_name, made_by, made_page};
ghost use Rattle.liquid_records.specs.Records.{record_outcome};
ghost use Rattle.liquid_records.specs.Records.{record_file_name};
ghost use Rattle.liquid_records.specs.Records.{page_name, pattern_page, record_page};
ghost use Rattle.liquid_records.specs.Views.{KeepsBytes, job_view, made_view, outcome_view};
ghost use Rattle.liquid_records.specs.Views.{pattern_view};

use crate::data::{lay_over, take_off};
use crate::file_name::is_file_name;
use liquid_core::{Error, ErrorKind, Missing, NamedFilters, Object, Result};
use liquid_engine::{
    LimitReached, LimitedPage, Limits, Page, Surroundings, render_hosted_page, render_page,
};
use liquid_json::data_from_json;
use liquid_syntax::{Partials, Template};
use std::alloc::Global;

/// A template with its partials, how deep these may be nested, the filters of a host that it may
/// call, what becomes of a missing value in its page, what the page may take, and the data that all
/// records share.
#[derive(Drop)]
pub struct Job<H> {
    pub template: Template,
    pub partials: Partials,
    pub depth: u32,
    pub host: H,
    pub missing: Missing,
    pub limits: Limits,
    pub shared: Object,
}

/// A page without a fault, and the name of its file, which is empty where no files are named.
#[derive(Drop)]
pub struct Made {
    pub name: String,
    pub text: String,
}

/// Why a record has no page.
#[derive(Drop)]
pub enum Why {
    /// Its text is no data.
    NoData(Error),
    /// The page of the pattern, which is to be the name of its file, ends by a fault.
    Unnamed(Error),
    /// What the pattern gives is no name of a file below the folder.
    BadName(String),
    /// Its page ends by a fault.
    Faulted(Error),
    /// A limit ended its page.
    Limited(LimitReached),
}

/// What a record comes to.
pub type RecordResult<T> = std::result::Result<T, Why>;

impl<H: NamedFilters> Job<H> {
    /// What a record with these members comes to, over the shared data: the record's member stands
    /// in front of the shared one of its name.
    /// Where there is a pattern, its page is the name of the record's file. A value that is missing
    /// in the pattern is a fault, whatever becomes of it in the page, no limit ends the name, and
    /// it calls no filter of the host.
    ///
    /// Where a limit ends the page, the record comes to that. Without one no page ends so. No page
    /// has more bytes than the limit on them.
    ///
    /// The answer is `Memory` where a growth was refused, and no other kind. The job is as it was,
    /// on every answer.
    pub fn make_page(
        &mut self,
        alloc: Global,
        data: Object,
        pattern: Option<&Template>,
    ) -> Result<RecordResult<Made>>
        ensures made { IfOk result (λ r. RecordComesTo (job_view H.named self.old)
            (record_outcome (job_view H.named self.old) (pattern_view pattern.entry)
            (Ok (pairs_view «data».entries))) (outcome_view made_view r)) }
        ensures bytes { IfOk result (λ r. KeepsBytes self.old.limits (outcome_view made_view r)) }
        ensures memory { IfErr result (λ e. e.kind ≡ ErrorKind.Memory) }
        ensures same { job_view H.named self.new ≡ job_view H.named self.old }
    {
        let covered = lay_over(alloc, &mut self.shared, data)?;
        let outcome = self.made_over(alloc, pattern);
        take_off(&mut self.shared, covered);
        outcome
    }

    /// As `make_page`, of a record that is a text of JSON.
    pub fn make_page_of_json(
        &mut self,
        alloc: Global,
        text: &str,
        pattern: Option<&Template>,
    ) -> Result<RecordResult<Made>>
        ensures made { IfOk result (λ r. RecordComesTo (job_view H.named self.old)
            (record_outcome (job_view H.named self.old) (pattern_view pattern.entry)
            (data_of text.now)) (outcome_view made_view r)) }
        ensures bytes { IfOk result (λ r. KeepsBytes self.old.limits (outcome_view made_view r)) }
        ensures memory { IfErr result (λ e. e.kind ≡ ErrorKind.Memory) }
        ensures same { job_view H.named self.new ≡ job_view H.named self.old }
    {
        match data_from_json(alloc, text) {
            Ok(data) => self.make_page(alloc, data, pattern),
            Err(fault) => match fault.kind {
                ErrorKind::Memory => Err(fault),
                _ => Ok(Err(Why::NoData(fault))),
            },
        }
    }

    /// The name and the page, over the data as it stands.
    #[tactic(auto, using(crate::proofs::Making::made_is, crate::proofs::Making::unnamed_is))]
    fn made_over(&self, alloc: Global, pattern: Option<&Template>) -> Result<RecordResult<Made>>
        ensures made { IfOk result (λ r. RecordComesTo (job_view H.named self.now)
            (made_by (job_view H.named self.now) (pattern_view pattern.entry))
            (outcome_view made_view r)) }
        ensures bytes { IfOk result (λ r. KeepsBytes self.now.limits (outcome_view made_view r)) }
        ensures memory { IfErr result (λ e. e.kind ≡ ErrorKind.Memory) }
    {
        match self.name_over(alloc, pattern)? {
            Ok(name) => self.made_under(alloc, name),
            Err(why) => Ok(Err(why)),
        }
    }

    /// The page under its name. Without a limit none ends it.
    #[tactic(auto, using(crate::proofs::Making::whole_is, crate::proofs::Making::ended_is, crate::proofs::Making::made_keeps))]
    fn made_under(&self, alloc: Global, name: String) -> Result<RecordResult<Made>>
        ensures made { IfOk result (λ r. RecordComesTo (job_view H.named self.now)
            (made_page (string_bytes name) (record_page (job_view H.named self.now)))
            (outcome_view made_view r)) }
        ensures bytes { IfOk result (λ r. KeepsBytes self.now.limits (outcome_view made_view r)) }
        ensures memory { IfErr result (λ e. e.kind ≡ ErrorKind.Memory) }
    {
        let shown = self.shown(alloc)?;
        match shown.limit {
            Some(reached) => Ok(Err(Why::Limited(reached))),
            None => Ok(page_named(name, shown.page)),
        }
    }

    /// The page within the limits.
    fn shown(&self, alloc: Global) -> Result<LimitedPage>
        ensures page { IfOk result (PageWithin (record_page (job_view H.named self.now))) }
        ensures limits { IfOk result (KeepsLimits self.now.limits) }
        ensures memory { IfErr result (λ e. e.kind ≡ ErrorKind.Memory) }
    {
        let around = Surroundings {
            partials: &self.partials,
            depth: self.depth,
            missing: self.missing,
            limits: self.limits,
        };
        render_hosted_page(alloc, &self.template, &self.host, around, &self.shared)
    }

    /// The name of the page's file.
    #[tactic(auto, using(crate::proofs::Making::name_is))]
    fn name_over(&self, alloc: Global, pattern: Option<&Template>) -> Result<RecordResult<String>>
        ensures { IsValueOrMemory (outcome_view string_bytes) result
            (record_file_name (job_view H.named self.now) (pattern_view pattern.entry)) }
    {
        match pattern {
            Some(pattern) => {
                let page = self.pattern_page(alloc, pattern)?;
                Ok(name_in(page))
            }
            None => Ok(Ok(String::new(alloc))),
        }
    }

    fn pattern_page(&self, alloc: Global, pattern: &Template) -> Result<Page>
        ensures { IsValueOrMemory page_view result
            (pattern_page (job_view H.named self.now) (tree_of pattern.now)) }
    {
        render_page(alloc, pattern, &self.partials, self.depth, &self.shared)
    }
}

/// A page under its name, where it has no fault.
fn page_named(name: String, page: Page) -> RecordResult<Made>
    ensures { outcome_view made_view result ≡ made_page (string_bytes name) (page_view page) }
{
    let Page { text, fault } = page;
    match fault {
        Some(fault) => Err(Why::Faulted(fault)),
        None => Ok(Made { name, text }),
    }
}

/// The name that the text of a page is, where the page has no fault.
fn name_in(page: Page) -> RecordResult<String>
    ensures { outcome_view string_bytes result ≡ page_name (page_view page) }
{
    let Page { text, fault } = page;
    match fault {
        Some(fault) => Err(Why::Unnamed(fault)),
        None => checked_name(text),
    }
}

/// A name, where it is the name of a file.
fn checked_name(name: String) -> RecordResult<String>
    ensures { outcome_view string_bytes result ≡ checked_name (string_bytes name) }
{
    if is_file_name(name.as_str()) {
        Ok(name)
    } else {
        Err(Why::BadName(name))
    }
}
