//! A merge: the pages of records, each in a file of its own.
ghost use Rattle.std.specs.Prelude.{◌≡◌, IfOk, IfSome, Ok, OnErr, Some, IfErr};
ghost use Rattle.liquid_model.specs.Maps.{empty};
ghost use Rattle.liquid_model.specs.View.{pairs_view};
ghost use Rattle.liquid_core.specs.Held.{held};
ghost use Rattle.liquid_json.specs.Json.{data_of};
ghost use Rattle.liquid_syntax.specs.Templates.{tree_of};
ghost use Rattle.liquid_records.specs.Records.{record_outcome, sharing};
ghost use Rattle.liquid_records.specs.Steps.{IsRecordStep, IsStepWithin, Leaves};
ghost use Rattle.liquid_records.specs.Views.{fate_view, job_of, job_view, made_view, merge_names};
ghost use Rattle.liquid_records.specs.Views.{outcome_view, pattern_of};
ghost use Rattle.liquid_records.specs.inside.Puts.{map_names};

use crate::job::{Job, Made, RecordResult, Why};
use liquid_core::{ErrorKind, NamedFilters, Object, Result};
use liquid_files::{Disk, DiskFault};
use liquid_json::data_from_json;
use liquid_syntax::Template;
use std::alloc::Global;
use std::collections::BTreeMap;

/// Why a record's page is in no file.
#[derive(Drop)]
pub enum Failure {
    /// There is no page.
    NoPage(Why),
    /// The name is that of the page of an earlier record, which has this number.
    Again(String, usize),
    /// The file of this name isn't written, for this reason, and holds what it held.
    Unwritten(String, DiskFault),
}

/// What becomes of a record: the name of its page's file, or why its page is in none.
pub type Fate = std::result::Result<String, Failure>;

/// A job whose pages go into files that a pattern names, and the names that came before.
#[derive(Drop)]
pub struct Merge<H> {
    job: Job<H>,
    pattern: Template,
    names: BTreeMap<String, usize>,
}

impl<H: NamedFilters> Merge<H> {
    /// A merge before its first record. It takes no memory.
    pub fn new(alloc: Global, job: Job<H>, pattern: Template) -> Merge<H>
        ensures job { job_of H.named result ≡ job_view H.named job }
        ensures pattern { pattern_of result ≡ tree_of pattern }
        ensures names { merge_names result ≡ empty }
    {
        Merge {
            job,
            pattern,
            names: BTreeMap::new(alloc),
        }
    }

    /// What it makes of each record.
    pub fn job(&self) -> &Job<H>
        ensures { job_view H.named result.now ≡ job_of H.named self.now }
    {
        &self.job
    }

    /// Takes other data that all records share. It takes no memory.
    pub fn share(&mut self, data: Object)
        ensures job { job_of H.named self.new ≡ sharing (held «data») (job_of H.named self.old) }
        ensures pattern { pattern_of self.new ≡ pattern_of self.old }
        ensures names { merge_names self.new ≡ merge_names self.old }
    {
        self.job.shared = data;
    }

    /// Writes the page of a record with these members into its file. The answer is the file's name,
    /// or why the record has no page there, as where a limit ends it: then no file changed.
    ///
    /// It is `Memory` where a growth was refused, and no other kind; then no file changed, and the
    /// merge is as it was, so that the next record can be taken.
    pub fn take<D: Disk>(
        &mut self,
        alloc: Global,
        number: usize,
        data: Object,
        disk: &mut D,
    ) -> Result<Fate>
        ensures step { IfOk result
            (λ fate. IsStepWithin (job_of H.named self.old).has_limit number
            (record_outcome (job_of H.named self.old) (Some (pattern_of self.old))
            (Ok (pairs_view «data».entries)))
            (merge_names self.old) (fate_view fate) (merge_names self.new)) }
        ensures files { IfSome (D.files disk.old) (λ f. IfOk result (λ fate.
            Leaves (record_outcome (job_of H.named self.old) (Some (pattern_of self.old))
            (Ok (pairs_view «data».entries))) (fate_view fate) f (D.files disk.new))) }
        ensures job { job_of H.named self.new ≡ job_of H.named self.old }
        ensures pattern { pattern_of self.new ≡ pattern_of self.old }
        ensures names { OnErr result (merge_names self.new ≡ merge_names self.old) }
        ensures untouched { OnErr result (D.files disk.new ≡ D.files disk.old) }
        ensures memory { IfErr result (λ e. e.kind ≡ ErrorKind.Memory) }
    {
        let outcome = self.job.make_page(alloc, data, Some(&self.pattern))?;
        put_if_made(alloc, number, outcome, &mut self.names, disk)
    }

    /// As `take`, of a record that is a text of JSON.
    pub fn take_json<D: Disk>(
        &mut self,
        alloc: Global,
        number: usize,
        text: &str,
        disk: &mut D,
    ) -> Result<Fate>
        ensures step { IfOk result
            (λ fate. IsStepWithin (job_of H.named self.old).has_limit number
            (record_outcome (job_of H.named self.old) (Some (pattern_of self.old))
            (data_of text.now))
            (merge_names self.old) (fate_view fate) (merge_names self.new)) }
        ensures files { IfSome (D.files disk.old) (λ f. IfOk result (λ fate.
            Leaves
            (record_outcome (job_of H.named self.old) (Some (pattern_of self.old))
            (data_of text.now))
            (fate_view fate) f (D.files disk.new))) }
        ensures job { job_of H.named self.new ≡ job_of H.named self.old }
        ensures pattern { pattern_of self.new ≡ pattern_of self.old }
        ensures names { OnErr result (merge_names self.new ≡ merge_names self.old) }
        ensures untouched { OnErr result (D.files disk.new ≡ D.files disk.old) }
        ensures memory { IfErr result (λ e. e.kind ≡ ErrorKind.Memory) }
    {
        match data_from_json(alloc, text) {
            Ok(data) => self.take(alloc, number, data, disk),
            Err(fault) => match fault.kind {
                ErrorKind::Memory => Err(fault),
                _ => Ok(Err(Failure::NoPage(Why::NoData(fault)))),
            },
        }
    }
}

/// Writes the page of a record, where there is one.
fn put_if_made<D: Disk>(
    alloc: Global,
    number: usize,
    outcome: RecordResult<Made>,
    names: &mut BTreeMap<String, usize>,
    disk: &mut D,
) -> Result<Fate>
    ensures step { IfOk result (λ fate. IsRecordStep number (outcome_view made_view outcome)
        (map_names names.old) (fate_view fate) (map_names names.new)) }
    ensures files { IfSome (D.files disk.old) (λ f. IfOk result (λ fate.
        Leaves (outcome_view made_view outcome) (fate_view fate) f (D.files disk.new))) }
    ensures names { OnErr result (map_names names.new ≡ map_names names.old) }
    ensures untouched { OnErr result (D.files disk.new ≡ D.files disk.old) }
    ensures memory { IfErr result (λ e. e.kind ≡ ErrorKind.Memory) }
{
    match outcome {
        Ok(made) => put(alloc, number, made, names, disk),
        Err(why) => Ok(Err(Failure::NoPage(why))),
    }
}

/// Writes a page into the file of its name, unless the name came before.
#[tactic(auto, using(crate::proofs::Named::same_names))]
fn put<D: Disk>(
    alloc: Global,
    number: usize,
    made: Made,
    names: &mut BTreeMap<String, usize>,
    disk: &mut D,
) -> Result<Fate>
    ensures step { IfOk result (λ fate. IsRecordStep number (Ok (made_view made))
        (map_names names.old)
        (fate_view fate) (map_names names.new)) }
    ensures files { IfSome (D.files disk.old)
        (λ f. IfOk result (λ fate. Leaves (Ok (made_view made)) (fate_view fate) f
        (D.files disk.new))) }
    ensures names { OnErr result (map_names names.new ≡ map_names names.old) }
    ensures untouched { OnErr result (D.files disk.new ≡ D.files disk.old) }
    ensures memory { IfErr result (λ e. e.kind ≡ ErrorKind.Memory) }
{
    let Made { name, text } = made;
    match names.get(name.as_str()) {
        Some(before) => return Ok(Err(Failure::Again(name, *before))),
        None => {}
    }
    drop(names.insert(String::from_str(alloc, name.as_str())?, number)?);
    match disk.write(name.as_str(), text.as_str()) {
        Ok(()) => Ok(Ok(name)),
        Err(fault) => Ok(Err(Failure::Unwritten(name, fault))),
    }
}
