//! The command `merge`.
use crate::data_notes::note_data;
use crate::extent::Extent;
use crate::files::record_files;
use crate::gathered::Gathered;
use crate::host_merge::merge_with;
use crate::parts::{UsedParts, pattern_if_parsed, read_pattern, read_shared_parts};
use crate::progress::Progress;
use crate::record_tips::Failing;
use crate::records::{front_of, note_columns, records_of, shown, unreadable};
use crate::report::Report;
use crate::table_notes::{MadeRows, MergedTable, has_empty_cells, print_notes};
use crate::target::{RecordOutcome, Target};
use crate::tips::Tips;
use crate::watch::{NewWarning, Seen, Watch};
use liquid_commands::{DataTexts, MergeCall, Sources, Stop, form_of, is_selected};
use liquid_core::{Error, ErrorKind, HostFilters, Object, Result as Answer, Uses};
use liquid_data::{RecordData, RecordFault, Records};
use liquid_json::DataReader;
use liquid_lib::Limits;
use liquid_records::{Job, Merge};
use std::alloc::AllocError;
use std::fs;
use std::io::Read;

/// To look a name up in what is used takes about as long as to build so many bytes of a record.
const BYTES_FOR_A_NAME: usize = 32;

/// Writes the page of each record. A record's fault is printed, and stops no other: the merge ends
/// where the disk takes no more files, where ten in a row are refused for want of permission, or
/// where the records or standard output fail.
pub fn merge<'r>(rt: &'r HostRuntime, call: &'r MergeCall<'r>) -> Result<(), Stop> {
    note_data(rt, &call.inputs, call.is_quiet);
    let pattern = pattern_if_parsed(rt.alloc(), call.out)?;
    let read = match read_shared_parts(rt, &call.inputs, pattern.as_ref()) {
        Ok(read) => read,
        Err(stop) => {
            note_columns(rt, call, &stop);
            return Err(stop);
        }
    };
    drop(pattern);
    merge_with(rt, call, read)
}

/// The same with these parts, and with filters of a host.
pub fn merge_by<'r>(
    rt: &'r HostRuntime,
    call: &'r MergeCall<'r>,
    read: UsedParts<'r>,
    host: HostFilters,
) -> Result<(), Stop> {
    let UsedParts {
        parts,
        uses,
        texts,
        bytes,
    } = read;
    let has_refusals = !parts.partials.refusals().is_empty();
    let limits = Limits {
        bytes: call.max_bytes,
        turns: call.max_turns,
    };
    let reader = match &uses {
        Some(uses) => DataReader::new(rt.alloc(), uses)?,
        None => DataReader::whole(rt.alloc()),
    };
    let (sources, job) = parts.into_job(host, call.missing, limits);
    let mut target = target_of(rt, call, &sources, job)?;
    let mut run = Run {
        rt,
        call,
        sources,
        has_refusals,
        uses,
        reader,
        texts,
        made: MadeRows::new(),
        is_after_fault: false,
        watch: Watch::new(rt, call, bytes)?,
    };
    run.merge_into(&mut target)
}

/// Where the pages of a merge go.
fn target_of<'r>(
    rt: &'r HostRuntime,
    call: &MergeCall<'_>,
    sources: &Sources,
    job: Job<HostFilters>,
) -> Result<Target<'r>, Stop> {
    let Some(out) = call.out else {
        let output = Gathered::new(rt, call.records == "-");
        return Ok(Target::output(job, output));
    };
    let merge = Merge::new(rt.alloc(), job, read_pattern(rt, out)?);
    if call.dry_run {
        return Ok(Target::names(merge));
    }
    Ok(Target::files(merge, record_files(rt, call, out, sources)?))
}

/// A merge of the program: what it is asked for, and the texts that faults are shown in.
#[derive(Drop)]
struct Run<'r> {
    rt: &'r HostRuntime,
    call: &'r MergeCall<'r>,
    sources: Sources,
    /// Whether a partial is refused, so that one that isn't known may be given.
    has_refusals: bool,
    /// What is used of data, where it is known.
    uses: Option<Uses>,
    /// Reads records of JSON as far as they are used, where that is known.
    reader: DataReader,
    /// The texts of the shared data, where that isn't whole.
    texts: Option<DataTexts<'r>>,
    /// The rows whose pages came out.
    made: MadeRows,
    /// Whether the page of the last record had a fault: then the next is read whole at once.
    is_after_fault: bool,
    /// Looks for what pages show silently.
    watch: Watch<'r>,
}

impl Run<'_> {
    /// Merges the records of standard input or of a file.
    fn merge_into(&mut self, target: &mut Target<'_>) -> Result<(), Stop> {
        if self.call.records == "-" {
            return self.all(target, self.rt.reader(), Extent::of(self.call));
        }
        match fs::open(self.rt, self.call.records) {
            Ok(file) => {
                let extent = Extent::of_file(self.call, &file);
                self.all(target, file, extent)
            }
            Err(refused) => Err(unreadable(self.rt, self.call, refused.kind())),
        }
    }

    /// Merges the records that a reader gives.
    fn all<R: Read + Drop>(
        &mut self,
        target: &mut Target<'_>,
        reader: R,
        extent: Extent,
    ) -> Result<(), Stop> {
        let mut reader = reader;
        let front = front_of(self.rt, self.call, &mut reader)?;
        let mut records = records_of(self.rt, self.call, front, reader)?;
        let answer = self.each(target, &mut records, extent);
        if answer.is_err() {
            target.end_early();
        }
        answer
    }

    /// Merges one record after another, up to the last that is asked for, and prints how many pages
    /// there are and how many records failed.
    fn each<R: Read + Drop>(
        &mut self,
        target: &mut Target<'_>,
        records: &mut Records<R>,
        extent: Extent,
    ) -> Result<(), Stop> {
        let mut progress = Progress::new(self.rt, self.call.progress, extent);
        let mut tips = Tips::new();
        for _ in 0..u64::MAX {
            if !self.advance(records)? {
                break;
            }
            self.one(target, records, &mut progress, &mut tips)?;
        }
        target.finish(self.rt.alloc())?;
        self.check_begun(records.number())?;
        self.print_notes(target, records)?;
        progress.end(self.rt, self.call.is_quiet)
    }

    /// Reports what is likely wrong with a table.
    fn print_notes<R: Read + Drop>(
        &self,
        target: &Target<'_>,
        records: &Records<R>,
    ) -> Result<(), Stop> {
        if self.call.is_quiet || records.columns().is_empty() {
            return Ok(());
        }
        let table = MergedTable {
            columns: records.columns(),
            rows: records.number(),
            made: &self.made,
            stray: records.stray(),
            uses: self.uses.as_ref(),
            shared: &target.job().shared,
        };
        print_notes(self.rt, self.call, table)
    }

    /// Refuses a `--from` past the last record, which is printed. Without one there may be no
    /// records at all.
    fn check_begun(&self, last: u64) -> Result<(), Stop> {
        let from = self.call.from;
        if from <= last.max(1) {
            return Ok(());
        }
        let path = shown(self.call);
        let _ = match last {
            0 => eprintln!(self.rt; "error: {path}: --from {from}: there are no records"),
            _ => eprintln!(self.rt; "error: {path}: --from {from}: the last record is {last}"),
        };
        Err(Stop::Faulted)
    }

    /// Reads the next record that is asked for. Whether there is one.
    fn advance<R: Read + Drop>(&self, records: &mut Records<R>) -> Result<bool, Stop> {
        let MergeCall { from, count, .. } = self.call;
        for _ in 0..u64::MAX {
            match records.advance() {
                Ok(true) => {}
                Ok(false) => return Ok(false),
                Err(refused) => return Err(unreadable(self.rt, self.call, refused.kind())),
            }
            if records.number() >= *from {
                return Ok(is_selected(records.number(), *from, *count));
            }
        }
        Ok(false)
    }

    /// Merges one record. What ends the merge is printed.
    fn one<R: Read + Drop>(
        &mut self,
        target: &mut Target<'_>,
        records: &Records<R>,
        progress: &mut Progress,
        tips: &mut Tips,
    ) -> Result<(), Stop> {
        let number = records.number();
        let (silent, outcome) = match self.silent_in(target, records) {
            Ok(silent) => (silent, self.taken(target, records)?),
            Err(fault) => (Vec::new(self.rt.alloc()), Err(Report::Fault(fault))),
        };
        let Err(report) = outcome else {
            self.watch.print(number, silent)?;
            progress.done(self.rt);
            return Ok(());
        };
        report.print(self.rt, &self.sources, number, records.text());
        self.failing().print_tip(&report, records, tips);
        if report.ends_merge() {
            return Err(Stop::Faulted);
        }
        progress.failed(self.rt, report.is_forbidden());
        if progress.is_forbidden() {
            let _ = eprintln!(self.rt;
                "error: ten files in a row can't be written; the merge ends"
            );
            return Err(Stop::Faulted);
        }
        Ok(())
    }

    /// What is known of the merge where a record has no page.
    fn failing(&self) -> Failing<'_> {
        Failing {
            rt: self.rt,
            call: self.call,
            sources: &self.sources,
            has_refusals: self.has_refusals,
        }
    }

    /// What the page of a record will show silently. One without data has no page, which is
    /// reported where it is taken. The fault is `Memory`.
    fn silent_in<R: Read + Drop>(
        &mut self,
        target: &Target<'_>,
        records: &Records<R>,
    ) -> Answer<Vec<NewWarning>> {
        if !self.watch.goes_on() {
            return Ok(Vec::new(self.rt.alloc()));
        }
        let Ok(data) = self.data_of(records) else {
            return Ok(Vec::new(self.rt.alloc()));
        };
        let number = records.number();
        self.watch
            .look(&self.sources, target.job(), Seen { number, data })
    }

    /// Takes one record: whether its page is there, or why not. After a fault it is taken once more
    /// with all of the data: what a message says may be in a part of it that nobody uses.
    fn taken<R: Read + Drop>(
        &mut self,
        target: &mut Target<'_>,
        records: &Records<R>,
    ) -> Result<RecordOutcome, Stop> {
        let (outcome, is_whole) = self.taken_as_used(target, records)?;
        self.is_after_fault = match &outcome {
            Ok(()) => false,
            Err(report) => report.is_page_fault(),
        };
        if is_whole || !self.is_after_fault {
            return Ok(outcome);
        }
        if let Some(texts) = &self.texts {
            // they were read before, so that want of memory alone refuses them
            match texts.data(self.rt, None) {
                Ok(data) => target.share(data),
                Err(_) => return Ok(Err(Report::Fault(Error::from(AllocError)))),
            }
        }
        self.texts = None;
        match self.data_of(records) {
            Ok(data) => self.put(target, records, data),
            Err(report) => Ok(Err(report)),
        }
    }

    /// Takes one record with what is used of the data, and whether that was all of it.
    fn taken_as_used<R: Read + Drop>(
        &mut self,
        target: &mut Target<'_>,
        records: &Records<R>,
    ) -> Result<(RecordOutcome, bool), Stop> {
        let (data, is_whole) = match self.data_of(records) {
            Ok(RecordData::Text(text)) => match self.data_in(text) {
                Ok((data, is_whole)) => (RecordData::Data(data), is_whole),
                Err(report) => return Ok((Err(report), true)),
            },
            Ok(data) => return self.row_taken(target, records, data),
            Err(report) => return Ok((Err(report), true)),
        };
        let is_whole = is_whole && self.texts.is_none();
        Ok((self.put(target, records, data)?, is_whole))
    }

    /// Takes the record of a row.
    fn row_taken<R: Read + Drop>(
        &mut self,
        target: &mut Target<'_>,
        records: &Records<R>,
        data: RecordData<'_>,
    ) -> Result<(RecordOutcome, bool), Stop> {
        let is_empty = has_empty_cells(&data);
        let outcome = self.put(target, records, data)?;
        if outcome.is_ok() {
            self.made.add(records.number(), is_empty);
        }
        Ok((outcome, self.texts.is_none()))
    }

    /// All data of a record.
    fn data_of<'d, R: Read + Drop>(
        &self,
        records: &'d Records<R>,
    ) -> Result<RecordData<'d>, Report> {
        match records.data(self.rt.alloc(), form_of(self.call.inputs.forms)) {
            Ok(Ok(data)) => Ok(data),
            Ok(Err(fault)) => Err(Report::from(fault)),
            Err(fault) => Err(Report::Fault(fault)),
        }
    }

    /// The data of a text of JSON, and whether it is all of it: what is used of it, where it has
    /// many bytes for each name that is asked for. To look a name up takes about as long as to
    /// build some bytes.
    fn data_in(&mut self, text: &str) -> Result<(Object, bool), Report> {
        let alloc = self.rt.alloc();
        let is_used = match self.reader.names() {
            Some(names) => !self.is_after_fault && text.len() / BYTES_FOR_A_NAME >= names,
            None => false,
        };
        let read = if is_used {
            self.reader.data(alloc, text)
        } else {
            self.reader.whole_data(alloc, text)
        };
        match read {
            Ok(data) => Ok((data, !is_used)),
            Err(fault) => match fault.kind {
                ErrorKind::Memory => Err(Report::Fault(fault)),
                _ => Err(Report::from(RecordFault::NoData(fault))),
            },
        }
    }

    /// Puts the page of a record where it belongs.
    fn put<R: Read + Drop>(
        &self,
        target: &mut Target<'_>,
        records: &Records<R>,
        data: RecordData<'_>,
    ) -> Result<RecordOutcome, Stop> {
        let number = records.number() as usize;
        target.take(self.rt, self.call.separator, number, data)
    }
}
