//! The partial that is likely meant by a name that none has.
use liquid_commands::{Inputs, Sources};
use liquid_core::{Error, ErrorKind, Quoted, more_likely};
use liquid_files::ShownPath;
use std::alloc::Global;

/// What the message of a partial that isn't there begins with.
const FRONT: &str = "no partial is named `";

/// Prints the file that is likely meant, where a page ended at a partial that isn't there, or that
/// no folder of the call has a partial. Whether anything is printed.
pub fn print_partial_tip(
    rt: &HostRuntime,
    inputs: &Inputs<'_>,
    sources: &Sources,
    fault: &Error,
) -> bool {
    let Some(name) = missing_name(fault) else {
        return false;
    };
    if sources.names().is_empty() && !inputs.partials.is_empty() {
        let _ = eprintln!(rt; "  tip: what -p names has no file that may be a partial");
        return true;
    }
    let Some(found) = likely_name(rt.alloc(), sources, name) else {
        return false;
    };
    let Some(source) = sources.partial_named(found) else {
        return false;
    };
    let path = ShownPath {
        path: source.path.as_str(),
    };
    let found = Quoted { text: found };
    let _ = eprintln!(rt; "  tip: there is a partial `{found}`: {path}");
    true
}

/// The name that no partial has.
fn missing_name(fault: &Error) -> Option<&str> {
    let (ErrorKind::UnknownPartial, Some(message)) = (fault.kind, &fault.message) else {
        return None;
    };
    let rest = message.as_str().strip_prefix(FRONT)?;
    let (name, _) = rest.split_once('`')?;
    Some(name)
}

/// The shortest name of the same file without its folders, its suffix and the `_` before it, or
/// else the most similar. None also where memory runs out.
fn likely_name<'s>(alloc: Global, sources: &'s Sources, name: &str) -> Option<&'s str> {
    let stem = stem_of(name);
    let mut same: Option<&'s str> = None;
    let mut likely = None;
    for (known, _) in sources.names() {
        let known = known.as_str();
        if stem_of(known).eq_ignore_ascii_case(stem) {
            match same {
                Some(before) if before.len() <= known.len() => {}
                _ => same = Some(known),
            }
        }
        likely = more_likely(alloc, known, name, likely).ok()?;
    }
    match (same, likely) {
        (Some(found), _) => Some(found),
        (None, Some(found)) => Some(found.name),
        (None, None) => None,
    }
}

/// The name of a file without its folders, the `_` with which some begin, and its suffix.
fn stem_of(name: &str) -> &str {
    let file = match name.rsplit_once('/') {
        Some((_, file)) => file,
        None => name,
    };
    let file = file.trim_start_matches('_');
    match file.rsplit_once('.') {
        Some((stem, _)) => stem,
        None => file,
    }
}
