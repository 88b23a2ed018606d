//! What is said of a place in a file.
ghost use Rattle.std.specs.Prelude.{◌≡◌, ◌++◌, IfOk, OnOk, string_bytes};
ghost use Rattle.std.specs.Fmt.{decimal};
ghost use Rattle.liquid_commands.specs.Diagnostics.{command_head, command_line, diagnostic_line};
ghost use Rattle.liquid_commands.specs.Diagnostics.{json_head, json_kind, json_line};
ghost use Rattle.liquid_commands.specs.Diagnostics.{json_message, numbers, severity};
ghost use Rattle.liquid_commands.specs.Diagnostics.{text_line, warning_mark};

use crate::escaped::{Place, push_escaped};
use std::alloc::{AllocError, Global};

/// What is said of a place in a file.
#[derive(Clone, Copy, Debug, Drop)]
pub struct Diagnostic<'d> {
    /// The path of the file.
    pub path: &'d str,
    /// The line and the column there, each from 1.
    pub line: usize,
    pub column: usize,
    /// The name of the kind of fault or warning, of letters and digits.
    pub kind: &'d str,
    pub is_warning: bool,
    /// What is said, in one line.
    pub message: &'d str,
}

/// How it is written.
#[derive(Clone, Copy, Debug, Drop)]
pub enum DiagnosticFormat {
    /// `file:line:column: kind: message`; a path shows no control character.
    Text,
    /// An object of JSON.
    Json,
    /// A command that GitHub shows beside the file.
    Github,
}

/// What is said, as a line in this format, with its end. In JSON, and in a command of GitHub's,
/// nothing of the path or the message ends a text, a property or the line.
///
/// `AllocError` where there is no room for it, and nowhere else.
pub fn diagnostic_line(
    alloc: Global,
    said: &Diagnostic<'_>,
    format: DiagnosticFormat,
) -> Result<String, AllocError>
    ensures { IfOk result (λ line. string_bytes line ≡ diagnostic_line format said.now) }
{
    match format {
        DiagnosticFormat::Text => text_line(alloc, said),
        DiagnosticFormat::Json => json_line(alloc, said),
        DiagnosticFormat::Github => command_line(alloc, said),
    }
}

fn text_line(alloc: Global, said: &Diagnostic<'_>) -> Result<String, AllocError>
    ensures { IfOk result (λ line. string_bytes line ≡ text_line said.now) }
{
    let mut out = String::new(alloc);
    push_escaped(&mut out, said.path, Place::Line)?;
    push_numbers(&mut out, alloc, said.line, said.column)?;
    out.push_str(warning_mark(said.is_warning))?;
    out.push_str(said.kind)?;
    out.push_str(": ")?;
    out.push_str(said.message)?;
    out.push_str("\n")?;
    Ok(out)
}

fn push_numbers(
    out: &mut String,
    alloc: Global,
    line: usize,
    column: usize,
) -> Result<(), AllocError>
    ensures { OnOk result (string_bytes out.new ≡ string_bytes out.old ++ numbers line column) }
{
    let shown = format!(in alloc; ":{line}:{column}: ")?;
    out.push_str(shown.as_str())
}

fn warning_mark(is_warning: bool) -> &'static str
    ensures { result.now ≡ warning_mark is_warning }
{
    if is_warning { "warning: " } else { "" }
}

fn severity(is_warning: bool) -> &'static str
    ensures { result.now ≡ severity is_warning }
{
    if is_warning { "warning" } else { "error" }
}

fn json_line(alloc: Global, said: &Diagnostic<'_>) -> Result<String, AllocError>
    ensures { IfOk result (λ line. string_bytes line ≡ json_line said.now) }
{
    let mut out = String::new(alloc);
    push_json_head(&mut out, alloc, said)?;
    push_json_kind(&mut out, said)?;
    push_json_message(&mut out, said)?;
    Ok(out)
}

/// Appends the kind, and whether it is a warning.
fn push_json_kind(out: &mut String, said: &Diagnostic<'_>) -> Result<(), AllocError>
    ensures { OnOk result (string_bytes out.new ≡ string_bytes out.old ++ json_kind said.now) }
{
    out.push_str(said.kind)?;
    out.push_str("\",\"severity\":\"")?;
    out.push_str(severity(said.is_warning))?;
    Ok(())
}

/// Appends what is said, and what ends the line.
fn push_json_message(out: &mut String, said: &Diagnostic<'_>) -> Result<(), AllocError>
    ensures { OnOk result (string_bytes out.new ≡ string_bytes out.old ++ json_message said.now) }
{
    out.push_str("\",\"message\":\"")?;
    push_escaped(out, said.message, Place::Json)?;
    out.push_str("\"}\n")
}

/// Appends what stands before the kind.
fn push_json_head(out: &mut String, alloc: Global, said: &Diagnostic<'_>) -> Result<(), AllocError>
    ensures { OnOk result (string_bytes out.new ≡ string_bytes out.old ++ json_head said.now) }
{
    out.push_str("{\"file\":\"")?;
    push_escaped(out, said.path, Place::Json)?;
    out.push_str("\",\"line\":")?;
    push_number(out, alloc, said.line)?;
    out.push_str(",\"column\":")?;
    push_number(out, alloc, said.column)?;
    out.push_str(",\"kind\":\"")
}

fn push_number(out: &mut String, alloc: Global, number: usize) -> Result<(), AllocError>
    ensures { OnOk result (string_bytes out.new ≡ string_bytes out.old ++ decimal number) }
{
    let digits = format!(in alloc; "{number}")?;
    out.push_str(digits.as_str())
}

fn command_line(alloc: Global, said: &Diagnostic<'_>) -> Result<String, AllocError>
    ensures { IfOk result (λ line. string_bytes line ≡ command_line said.now) }
{
    let mut out = String::new(alloc);
    push_command_head(&mut out, alloc, said)?;
    out.push_str(",title=")?;
    out.push_str(said.kind)?;
    out.push_str("::")?;
    push_escaped(&mut out, said.message, Place::Message)?;
    out.push_str("\n")?;
    Ok(out)
}

/// Appends what stands before the title.
fn push_command_head(
    out: &mut String,
    alloc: Global,
    said: &Diagnostic<'_>,
) -> Result<(), AllocError>
    ensures { OnOk result (string_bytes out.new ≡ string_bytes out.old ++ command_head said.now) }
{
    out.push_str("::")?;
    out.push_str(severity(said.is_warning))?;
    out.push_str(" file=")?;
    push_escaped(out, said.path, Place::Property)?;
    out.push_str(",line=")?;
    push_number(out, alloc, said.line)?;
    out.push_str(",col=")?;
    push_number(out, alloc, said.column)
}
