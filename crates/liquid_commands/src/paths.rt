//! The words of `paths`.
use crate::arguments::{Argument, command};
use crate::inputs::{Inputs, WordFault, inputs_of};
use crate::template_word::placed_in;
use clap::{ArgMatches, Command};
use std::alloc::{AllocError, Global};

/// A call of `paths`.
#[derive(Drop)]
pub struct PathsCall<'w> {
    pub inputs: Inputs<'w>,
    pub format: PathsFormat,
}

/// How the paths are printed.
#[derive(Clone, Copy, Drop)]
pub enum PathsFormat {
    /// A path on each line.
    Text,
    /// A JSON Schema that has each path as a property.
    JsonSchema,
}

const ABOUT: &str = "Prints what a template asks of its data";

const ARGUMENTS: &[Argument] = &[
    Argument::Template,
    Argument::Partials,
    Argument::Filters,
    Argument::Escape,
    Argument::PathsFormat,
];

/// The command. `AllocError` where there is no room for it, and nowhere else.
pub(crate) fn paths_command<'a>(alloc: Global) -> Result<Command<'a>, AllocError> {
    command(alloc, "paths", ABOUT, ARGUMENTS)
}

/// What the words of `paths` ask for.
pub fn paths_call<'w>(alloc: Global, given: &ArgMatches<'w>) -> Result<PathsCall<'w>, WordFault> {
    let format = match given.get_str("format") {
        Some("json-schema") => PathsFormat::JsonSchema,
        _ => PathsFormat::Text,
    };
    Ok(PathsCall {
        inputs: inputs_of(alloc, given, placed_in(given, "DATA")?, None)?,
        format,
    })
}
