//! The files that pages go into.
use liquid_commands::{Inputs, MergeCall, Sources, Stop, TemplateWord};
use liquid_files::{
    Bounds, DiskFault, PageFiles, Reason, ShownPath, SystemFiles, hidden_names,
    written_hidden_names,
};
use liquid_records::Disk;
use std::alloc::AllocError;
use std::process;

/// The files of the system, into which the pages of a call go.
pub type SystemPages<'r> = PageFiles<SystemFiles<'r>>;

/// The file of a page that the call names, in a folder that is made if need be.
pub fn page_file<'r>(
    rt: &'r HostRuntime,
    inputs: &Inputs<'_>,
    sources: &Sources,
) -> Result<SystemPages<'r>, Stop> {
    let bounds = Bounds {
        front: String::new(rt.alloc()),
        hidden: usize::MAX,
        makes_folders: true,
    };
    let mut files = PageFiles::new(
        rt.alloc(),
        SystemFiles::new(rt, true),
        process::id(rt.process()),
        bounds,
    );
    keep_sources(rt, &mut files, inputs, sources)?;
    Ok(files)
}

/// The files that the pattern of a merge names, in folders that are made if need be. No name leaves
/// the folder that the call names or the pattern begins with.
pub fn record_files<'r>(
    rt: &'r HostRuntime,
    call: &MergeCall<'_>,
    pattern: &str,
    sources: &Sources,
) -> Result<SystemPages<'r>, Stop> {
    let front = front_of(rt, call.into)?;
    let root = root_of(rt, front.as_str(), pattern)?;
    let bounds = Bounds {
        hidden: hidden_names(front.as_str()).saturating_add(written_hidden_names(pattern)),
        front,
        makes_folders: true,
    };
    let mut files = PageFiles::new(
        rt.alloc(),
        SystemFiles::new(rt, call.is_flushed),
        process::id(rt.process()),
        bounds,
    );
    keep_sources(rt, &mut files, &call.inputs, sources)?;
    keep_source(rt, &mut files, path_of(call.records))?;
    match files.keep_inside(root.as_str()) {
        Ok(()) => Ok(files),
        Err(fault) => Err(unwritten(rt, root.as_str(), fault)),
    }
}

/// Why a command ends that can't write the file of its page. A file that is never written is
/// printed.
pub fn unwritten(rt: &HostRuntime, path: &str, fault: DiskFault) -> Stop {
    match fault {
        DiskFault::Memory => Stop::from(AllocError),
        DiskFault::Refused(kind) => Stop::unwritten(rt.alloc(), path, kind),
        DiskFault::Protected(why) => {
            let path = ShownPath { path };
            let _ = eprintln!(rt; "error: {path}: it can't be written: {why}");
            Stop::Faulted
        }
    }
}

/// What stands before the name of a page in its path: the folder with a slash after it.
fn front_of(rt: &HostRuntime, into: Option<&str>) -> Result<String, Stop> {
    let mut front = String::new(rt.alloc());
    if let Some(folder) = into {
        front.push_str(folder)?;
        if !folder.ends_with('/') {
            front.push('/')?;
        }
    }
    Ok(front)
}

/// The folder that no page leaves: as far as the pattern names one before its first value.
fn root_of(rt: &HostRuntime, front: &str, pattern: &str) -> Result<String, Stop> {
    let written = pattern.split('{').next().unwrap_or("");
    let folder = match written.rfind('/') {
        Some(at) => written.get(..at).unwrap_or(""),
        None => "",
    };
    match (front.is_empty(), folder.is_empty()) {
        (true, true) => Ok(String::from_str(rt.alloc(), ".")?),
        _ => Ok(format!(in rt.alloc(); "{front}{folder}")?),
    }
}

/// Keeps every file that the call reads for a template, as it is.
fn keep_sources(
    rt: &HostRuntime,
    files: &mut SystemPages<'_>,
    inputs: &Inputs<'_>,
    sources: &Sources,
) -> Result<(), Stop> {
    if let TemplateWord::Path(path) = inputs.template {
        keep_source(rt, files, path_of(path))?;
    }
    for file in inputs.data.as_slice() {
        keep_source(rt, files, path_of(file.path))?;
    }
    for source in sources.partials() {
        keep_source(rt, files, source.path.as_str())?;
    }
    Ok(())
}

fn keep_source(rt: &HostRuntime, files: &mut SystemPages<'_>, path: &str) -> Result<(), Stop> {
    match files.keep_source(path) {
        Ok(()) => Ok(()),
        Err(DiskFault::Refused(kind)) => {
            Err(Stop::unreadable(rt.alloc(), path, Reason::from(kind)))
        }
        Err(_) => Err(Stop::from(AllocError)),
    }
}

/// Where a word of the command line leads: `-` is standard input.
fn path_of(word: &str) -> &str {
    if word == "-" { "/dev/stdin" } else { word }
}

/// A disk that takes every file and keeps none.
#[derive(Drop)]
pub struct Nowhere;

impl Disk for Nowhere {
    fn read(&self, _path: &str) -> Result<Option<String>, DiskFault> {
        Ok(None)
    }

    fn write(&mut self, _path: &str, _text: &str) -> Result<(), DiskFault> {
        Ok(())
    }

    fn copy(&mut self, _from: &str, _path: &str) -> Result<(), DiskFault> {
        Ok(())
    }

    fn remove(&mut self, _path: &str) -> Result<(), DiskFault> {
        Ok(())
    }
}
