//! The words of `render`.
use crate::arguments::{Argument, command};
use crate::inputs::{Inputs, WordFault, inputs_of, out_of};
use crate::sizes::max_bytes_in;
use crate::template_word::placed_in;
use crate::words::missing_of;
use clap::{ArgMatches, Command};
use liquid_core::Missing;
use std::alloc::{AllocError, Global};

/// A call of `render`.
#[derive(Drop)]
pub struct RenderCall<'w> {
    pub inputs: Inputs<'w>,
    pub out: Option<&'w str>,
    /// How many bytes of text the page may have, and how many turns it may take.
    pub max_bytes: Option<u64>,
    pub max_turns: Option<u64>,
    /// What becomes of a missing value.
    pub missing: Missing,
    /// Whether no warnings and no notes are printed.
    pub is_quiet: bool,
}

const ARGUMENTS: &[Argument] = &[
    Argument::PageTemplate,
    Argument::PageData,
    Argument::Text,
    Argument::Data,
    Argument::Define,
    Argument::Partials,
    Argument::Filters,
    Argument::Assets,
    Argument::Escape,
    Argument::PageFile,
    Argument::Quiet,
    Argument::Missing,
    Argument::MaxBytes,
    Argument::MaxTurns,
    Argument::Decimals,
    Argument::Dates,
    Argument::Now,
];

/// The command. `AllocError` where there is no room for it, and nowhere else.
pub(crate) fn render_command<'a>(alloc: Global) -> Result<Command<'a>, AllocError> {
    command(alloc, "render", "Writes the page of a template", ARGUMENTS)
}

/// What the words of `render` ask for.
pub fn render_call<'w>(alloc: Global, given: &ArgMatches<'w>) -> Result<RenderCall<'w>, WordFault> {
    let placed = placed_in(given, "DATA")?;
    Ok(RenderCall {
        inputs: inputs_of(alloc, given, placed, None)?,
        out: out_of(given)?,
        max_bytes: max_bytes_in(given)?,
        max_turns: given.get_one::<u64>("max-turns"),
        missing: missing_of(given.get_str("missing")),
        is_quiet: given.get_flag("quiet"),
    })
}
