//! What is printed of a template.
ghost use Rattle.std.specs.Prelude.{◌≡◌, IfErr, IfOk, false, true};
ghost use Rattle.liquid_check.specs.Counted.{are_well};
ghost use Rattle.liquid_commands.specs.declared.stop.Stop.TheVariants.{Faulted};

use crate::files::Checked;
use crate::{MOST_FINDINGS, remarks_of};
use liquid_commands::{CheckCall, Diagnostic, DiagnosticFormat, Stop, diagnostic_line, print_text};
use liquid_files::{Excerpt, ShownPath};
use liquid_model::{Location, Origin};
use liquid_warnings::Remark;
use std::fmt::Write;

/// How much was found in all files.
#[derive(Clone, Copy, Drop)]
pub(crate) struct Counts {
    files: usize,
    faults: usize,
    warnings: usize,
    /// How many files and folders can't be read.
    pub(crate) unreadable: usize,
}

impl Counts {
    /// Nothing is found yet.
    pub(crate) fn new(unreadable: usize) -> Counts {
        Counts {
            files: 0,
            faults: 0,
            warnings: 0,
            unreadable,
        }
    }

    fn add(&mut self, is_warning: bool) {
        if is_warning {
            self.warnings = self.warnings.saturating_add(1);
        } else {
            self.faults = self.faults.saturating_add(1);
        }
    }

    /// Whether no file has a fault, and none a warning where these count, and each can be read.
    fn are_well(&self, is_strict: bool) -> bool
        ensures { result ≡ are_well is_strict self.now }
    {
        self.faults == 0 && self.unreadable == 0 && !(is_strict && self.warnings > 0)
    }
}

/// Prints how much was found, unless that is left out. Files with faults, or that can't be read,
/// aren't well, and with `--strict` those with warnings aren't either.
pub(crate) fn print_counts(
    rt: &HostRuntime,
    counts: Counts,
    call: &CheckCall<'_>,
) -> Result<(), Stop>
    ensures well { IfOk result (λ _. are_well call.now.is_strict counts ≡ true) }
    ensures faulted { IfErr result (λ stop. (stop ≡ Faulted)
        × (are_well call.now.is_strict counts ≡ false)) }
{
    let Counts {
        files,
        faults,
        warnings,
        unreadable: _,
    } = counts;
    if !call.is_quiet {
        let _ = eprintln!(rt; "files {files}, faults {faults}, warnings {warnings}");
    }
    if counts.are_well(call.is_strict) {
        Ok(())
    } else {
        Err(Stop::Faulted)
    }
}

/// Prints what is found in a template, and counts it.
pub(crate) fn print_file(
    rt: &HostRuntime,
    format: DiagnosticFormat,
    file: &Checked,
    warnings: Vec<Remark>,
    counts: &mut Counts,
) -> Result<(), Stop> {
    counts.files = counts.files.saturating_add(1);
    for remark in &remarks_of(rt.alloc(), &file.findings, warnings)? {
        counts.add(remark.is_warning);
        print_remark(rt, format, file, remark)?;
    }
    if file.template.is_none() {
        let path = ShownPath {
            path: file.path.as_str(),
        };
        let most = MOST_FINDINGS;
        let _ = eprintln!(rt; "error: {path}: only the first {most} faults are looked for");
    }
    Ok(())
}

/// Prints a remark of a file on standard output. For people, the line of the text follows.
fn print_remark(
    rt: &HostRuntime,
    format: DiagnosticFormat,
    file: &Checked,
    remark: &Remark,
) -> Result<(), Stop> {
    let said = Diagnostic {
        path: file.path.as_str(),
        line: remark.line,
        column: remark.column,
        kind: remark.kind,
        is_warning: remark.is_warning,
        message: remark.message.as_str(),
    };
    let mut line = diagnostic_line(rt.alloc(), &said, format)?;
    if let DiagnosticFormat::Text = format {
        if let Some(excerpt) = excerpt_of(file.text.as_str(), remark) {
            write!(line, "{excerpt}\n")?;
        }
    }
    print_text(rt, line.as_str())
}

/// The line of the text that a remark is of.
fn excerpt_of<'t>(text: &'t str, remark: &Remark) -> Option<Excerpt<'t>> {
    let location = Location {
        origin: Origin::Template,
        line: remark.line,
        column: remark.column,
    };
    Excerpt::new(text, &location)
}
