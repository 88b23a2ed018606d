//! Where the pages of a merge go.
ghost use Rattle.std.specs.Prelude.{◌≡◌};

use crate::files::{Nowhere, SystemPages};
use crate::gathered::Gathered;
use crate::report::Report;
use liquid_commands::{Stop, print_text};
use liquid_core::{HostFilters, Object, Result as Answer};
use liquid_data::RecordData;
use liquid_files::ShownName;
use liquid_records::{Disk, Fate, Job, Made, Merge, RecordResult};
use std::alloc::Global;

/// Whether a record's page is there, or why not.
pub type RecordOutcome = Result<(), Report>;

/// Where the pages of a merge go.
pub enum Target<'r> {
    /// Each into the file of its name.
    Files(FileMerge<'r>),
    /// Nowhere: the names of the files are printed.
    Names(Merge<HostFilters>),
    /// All to standard output.
    Output(PrintedMerge<'r>),
}

/// Drops what it holds. Written by hand, so that each early return drops the value by one call
/// to prove.
impl Drop for Target<'_> {
    fn drop(self) {
        match self {
            Target::Files(_) | Target::Names(_) | Target::Output(_) => {}
        }
    }
}

/// A merge, and the files that its pages go into.
#[derive(Drop)]
pub struct FileMerge<'r> {
    merge: Merge<HostFilters>,
    files: SystemPages<'r>,
}

/// What is made of each record, and standard output.
#[derive(Drop)]
pub struct PrintedMerge<'r> {
    job: Job<HostFilters>,
    output: Gathered<'r>,
}

impl FileMerge<'_> {
    /// Takes one record: whether its file has its page, or why not.
    fn take(&mut self, alloc: Global, number: usize, data: RecordData<'_>) -> RecordOutcome {
        file_outcome(merged(alloc, &mut self.merge, number, data, &mut self.files))
    }

    /// Makes sure that the names of all files are on the disk.
    fn finish(&mut self, alloc: Global) -> Result<(), Stop> {
        match self.files.flush_folders() {
            Ok(()) => Ok(()),
            Err(refused) => Err(Stop::unwritten(alloc, "the folder of the pages", refused.kind())),
        }
    }
}

impl<'r> Target<'r> {
    /// The names of a merge's files alone: a dry run writes no file.
    pub fn names(merge: Merge<HostFilters>) -> Target<'r>
        ensures { result ≡ Target.Names merge }
    {
        Target::Names(merge)
    }

    /// The files of a merge.
    pub fn files(merge: Merge<HostFilters>, files: SystemPages<'r>) -> Target<'r> {
        Target::Files(FileMerge { merge, files })
    }

    /// Standard output, and what is made of each record.
    pub fn output(job: Job<HostFilters>, output: Gathered<'r>) -> Target<'r> {
        Target::Output(PrintedMerge { job, output })
    }

    /// What is made of each record.
    pub fn job(&self) -> &Job<HostFilters> {
        match self {
            Target::Files(file_merge) => file_merge.merge.job(),
            Target::Names(merge) => merge.job(),
            Target::Output(printed) => &printed.job,
        }
    }

    /// Takes other data that all records share.
    pub fn share(&mut self, data: Object) {
        match self {
            Target::Files(file_merge) => file_merge.merge.share(data),
            Target::Names(merge) => merge.share(data),
            Target::Output(printed) => printed.job.shared = data,
        }
    }

    /// Makes sure that what was written is on the disk, after the last record.
    pub fn finish(&mut self, alloc: Global) -> Result<(), Stop> {
        match self {
            Target::Files(file_merge) => file_merge.finish(alloc),
            Target::Names(_) => Ok(()),
            Target::Output(printed) => printed.output.flush(),
        }
    }

    /// Writes the pages that are held back, where a merge ends early.
    pub fn end_early(&mut self) {
        if let Target::Output(printed) = self {
            let _ = printed.output.flush();
        }
    }

    /// Takes one record: whether its page is there, or why not. Standard output that can't be
    /// written ends the merge.
    pub fn take(
        &mut self,
        rt: &HostRuntime,
        separator: &str,
        number: usize,
        data: RecordData<'_>,
    ) -> Result<RecordOutcome, Stop> {
        match self {
            Target::Files(file_merge) => Ok(file_merge.take(rt.alloc(), number, data)),
            Target::Names(merge) => {
                print_name(rt, merged(rt.alloc(), merge, number, data, &mut Nowhere))
            }
            Target::Output(printed) => printed.take(rt.alloc(), separator, data),
        }
    }
}

/// A record that a merge takes.
fn merged<D: Disk>(
    alloc: Global,
    merge: &mut Merge<HostFilters>,
    number: usize,
    data: RecordData<'_>,
    disk: &mut D,
) -> Answer<Fate> {
    match data {
        RecordData::Text(text) => merge.take_json(alloc, number, text, disk),
        RecordData::Data(data) => merge.take(alloc, number, data, disk),
    }
}

/// A record whose page goes into no file.
fn made(
    alloc: Global,
    job: &mut Job<HostFilters>,
    data: RecordData<'_>,
) -> Answer<RecordResult<Made>> {
    match data {
        RecordData::Text(text) => job.make_page_of_json(alloc, text, None),
        RecordData::Data(data) => job.make_page(alloc, data, None),
    }
}

/// A record whose page was to go into a file.
fn file_outcome(fate: Answer<Fate>) -> RecordOutcome {
    match fate {
        Ok(Ok(_)) => Ok(()),
        Ok(Err(failure)) => Err(Report::NoFile(failure)),
        Err(fault) => Err(Report::Fault(fault)),
    }
}

/// A record whose file's name is printed: in a line, and no two names alike.
fn print_name(rt: &HostRuntime, fate: Answer<Fate>) -> Result<RecordOutcome, Stop> {
    match fate {
        Ok(Ok(name)) => {
            let name = ShownName {
                name: name.as_str(),
            };
            print_text(rt, format!(in rt.alloc(); "{name}\n")?.as_str())?;
            Ok(Ok(()))
        }
        Ok(Err(failure)) => Ok(Err(Report::NoFile(failure))),
        Err(fault) => Ok(Err(Report::Fault(fault))),
    }
}

impl PrintedMerge<'_> {
    /// Takes one record, whose page is printed.
    fn take(
        &mut self,
        alloc: Global,
        separator: &str,
        data: RecordData<'_>,
    ) -> Result<RecordOutcome, Stop> {
        match made(alloc, &mut self.job, data) {
            Ok(Ok(Made { name: _, text })) => {
                self.output.print(text.as_str(), separator)?;
                Ok(Ok(()))
            }
            Ok(Err(why)) => Ok(Err(Report::NoPage(why))),
            Err(fault) => Ok(Err(Report::Fault(fault))),
        }
    }
}
