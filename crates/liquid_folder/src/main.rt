//! Renders the pages of a folder, and then again what changed:
//! `liquid_folder [--missing fault|nil] FOLDER DATA OUT`.
#![tactic(auto)]

mod changes;
mod failure;
mod files;
mod folders;
mod paths;
mod readable;
mod rounds;
mod stop;
mod tell;
mod words;

use crate::changes::folder_of;
use crate::failure::Failure;
use crate::folders::check_folders;
use crate::rounds::Rounds;
use crate::stop::FolderStop;
use crate::words::{FolderCall, call_of};
use liquid_site::Folder;
use std::alloc::{AllocError, Global};
use std::process::ExitCode;
use std::{env, io};

fn main(rt: HostRuntime) -> ExitCode {
    match run(&rt) {
        Ok(true) => ExitCode::from(0),
        Ok(false) => ExitCode::from(1),
        Err(failure) => {
            let _ = eprintln!(&rt; "{failure}");
            ExitCode::from(failure.status())
        }
    }
}

/// All rounds. Whether no file was refused and no page ended by a fault.
fn run(rt: &HostRuntime) -> Result<bool, Failure> {
    let words = words_given(rt)?;
    let call = call_of(&words).ok_or(Failure::Usage)?;
    let folder = folder_of(rt.alloc(), &call)?;
    check_folders(rt, &call, &folder)?;
    Ok(all_rounds(rt, &folder, &call)?)
}

/// The first round and one for each empty line of standard input, as long as that lasts. A line
/// that isn't UTF-8 names no file of the site.
fn all_rounds(
    rt: &HostRuntime,
    folder: &Folder,
    call: &FolderCall<'_>,
) -> Result<bool, FolderStop> {
    let mut rounds = Rounds::new(rt, folder, call)?;
    let mut clean = rounds.first_round()?;
    for line in rt.lines(rt.alloc()) {
        clean &= is_clean(rt, &mut rounds, line)?;
    }
    clean &= rounds.last_round()?;
    Ok(clean)
}

/// Whether a line that was read asks for something, and nothing is wrong with it.
fn is_clean(
    rt: &HostRuntime,
    rounds: &mut Rounds<'_>,
    line: io::Result<String>,
) -> Result<bool, FolderStop> {
    match line {
        Ok(line) => rounds.take_line(line.as_str()),
        Err(refused) => {
            if refused.kind() != io::ErrorKind::InvalidData {
                return Err(FolderStop::input(refused.kind()));
            }
            let _ = eprintln!(rt; "error: no file of the site: a line that isn't UTF-8");
            Ok(false)
        }
    }
}

/// The words after the program's own. A word that isn't UTF-8 makes no call.
fn words_given(rt: &HostRuntime) -> Result<Vec<String>, Failure> {
    match env::args(rt) {
        Ok(all) => Ok(words_of(rt, all)?),
        Err(refused) if refused.kind() == io::ErrorKind::OutOfMemory => {
            Err(Failure::from(FolderStop::from(AllocError)))
        }
        Err(_) => Err(Failure::Usage),
    }
}

/// All words but the first.
fn words_of(rt: &HostRuntime, all: env::Args<Global>) -> Result<Vec<String>, FolderStop> {
    let mut words = Vec::new(rt.alloc());
    for word in all.skip(1) {
        words.push(word)?;
    }
    Ok(words)
}
