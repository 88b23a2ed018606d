//! Renders a page: `liquid_page TEMPLATE DATA [NAME=FILE ..]`.
#![tactic(auto)]

mod outcome;
mod page_from_files;
mod words;

use crate::outcome::Outcome;
use crate::page_from_files::{ReadError, ReadFiles, Texts, page};
use liquid_files::{Excerpt, Reason};
pub use liquid_page_texts::{data_from_json, run};
use std::alloc::AllocError;
use std::fs::File;
use std::io::Read;
use std::process::ExitCode;
use std::{env, io};

/// The files of the system.
#[derive(Drop)]
struct DiskFiles<'r> {
    rt: &'r HostRuntime,
    /// Why the last file that has no text has none.
    reason: Option<Reason>,
}

impl<'r> Texts for DiskFiles<'r> {
    fn text_at(&mut self, path: &str) -> Result<String, ReadError> {
        let reason = match bytes_at(self.rt, path) {
            Ok(bytes) => match String::from_utf8(bytes) {
                Ok(text) => return Ok(text),
                Err(refused) => Reason::of_bytes(&refused),
            },
            Err(refused) if refused.kind() == io::ErrorKind::OutOfMemory => {
                return Err(ReadError::Memory);
            }
            Err(refused) => Reason::from(refused.kind()),
        };
        self.reason = Some(reason);
        Err(ReadError::File)
    }
}

/// The bytes of a file, in a buffer that is as large from the start on as the system says the file
/// is, so that it doesn't grow. The byte more is for the look whether the file ends there.
fn bytes_at(rt: &HostRuntime, path: &str) -> io::Result<Vec<u8>> {
    let mut file = File::open(rt, path)?;
    let size = usize::try_from(file.metadata()?.len()).unwrap_or(0);
    let mut bytes = Vec::with_capacity(rt.alloc(), size.saturating_add(1))?;
    file.read_to_end(&mut bytes)?;
    Ok(bytes)
}

fn main(rt: HostRuntime) -> ExitCode {
    let mut files = DiskFiles {
        rt: &rt,
        reason: None,
    };
    let (outcome, read) = outcome_of(&rt, &mut files);
    let status = outcome.status();
    if status != 0 {
        let _ = eprintln!(rt; "{outcome}");
    }
    if let (Outcome::Unreadable(_), Some(reason)) = (&outcome, files.reason) {
        let _ = eprintln!(rt; "  {reason}");
    }
    if let Some(excerpt) = excerpt_of(&outcome, &read) {
        let _ = eprintln!(rt; "{excerpt}");
    }
    ExitCode::from(status)
}

/// How the call ended, and the texts that it read.
fn outcome_of(rt: &HostRuntime, files: &mut DiskFiles<'_>) -> (Outcome, Option<ReadFiles>) {
    let words = match words_given(rt) {
        Ok(words) => words,
        Err(outcome) => return (outcome, None),
    };
    let (_, outcome, read) = page(rt.alloc(), &words, files, io::writer(rt));
    (outcome, read)
}

/// The line that the fault stands in, where it says where it stands. It takes no memory.
fn excerpt_of<'t>(outcome: &Outcome, read: &'t Option<ReadFiles>) -> Option<Excerpt<'t>> {
    let Outcome::Fault(fault) = outcome else {
        return None;
    };
    let Some(location) = &fault.location else {
        return None;
    };
    let Some(texts) = read else {
        return None;
    };
    Excerpt::new(texts.text_of(&location.origin)?, location)
}

/// The words after the program's own. A word that isn't UTF-8 makes no call.
fn words_given(rt: &HostRuntime) -> Result<Vec<String>, Outcome> {
    let mut words: Vec<String> = Vec::new(rt.alloc());
    match env::args(rt) {
        Ok(all) => for word in all.skip(1) {
            words.push(word)?;
        },
        Err(refused) => {
            if refused.kind() == io::ErrorKind::OutOfMemory {
                return Err(Outcome::from(AllocError));
            }
            return Err(Outcome::Usage);
        }
    }
    Ok(words)
}
