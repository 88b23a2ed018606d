//! The command `paths`.
use crate::parts::read_parts;
use crate::reach::print_refusals;
use liquid_commands::{PathsCall, PathsFormat, Stop, print_text};
use liquid_core::Uses;
use liquid_json::schema_of;
use liquid_uses::{data_uses, paths_of};
use std::alloc::Global;

/// Prints what a template asks of its data. What a partial that is refused would ask isn't known:
/// its fault is printed, and no path.
pub fn paths(rt: &HostRuntime, call: &PathsCall<'_>) -> Result<(), Stop> {
    let parts = read_parts(rt, &call.inputs)?;
    if print_refusals(rt, &parts.sources, &parts.partials) {
        return Err(Stop::Faulted);
    }
    let uses = data_uses(rt.alloc(), &parts.template, &parts.partials)?;
    let text = match call.format {
        PathsFormat::Text => lines_of(rt.alloc(), &uses)?,
        PathsFormat::JsonSchema => schema_of(rt.alloc(), &uses)?,
    };
    print_text(rt, text.as_str())
}

fn lines_of(alloc: Global, uses: &Uses) -> Result<String, Stop> {
    let mut text = String::new(alloc);
    for path in paths_of(alloc, uses)? {
        text.push_str(path.as_str())?;
        text.push('\n')?;
    }
    Ok(text)
}
