//! Where pages go.
ghost use Rattle.std.specs.Prelude.{◌≡◌};
ghost use Rattle.liquid_commands.specs.Lines.{is_line_open};

use crate::stop::Stop;
use std::io;
use std::io::{IsTerminal, Write};

/// Writes a text to standard output.
pub fn print_text(rt: &HostRuntime, text: &str) -> Result<(), Stop> {
    let mut writer = io::writer(rt);
    match writer.write_all(text.as_bytes()) {
        Ok(()) => Ok(()),
        Err(refused) => Err(Stop::Output(refused.kind())),
    }
}

/// Ends the line that a page on standard output left open, where a message is to follow it: with a
/// line end on standard error, where both are terminals. Standard output gets nothing.
pub fn end_line(rt: &HostRuntime, is_line_open: bool) {
    if is_line_open && rt.stdout().is_terminal() && rt.stderr().is_terminal() {
        let _ = eprintln!(rt; "");
    }
}

/// Whether the last line of these bytes has no end. It takes no memory.
pub fn is_line_open(bytes: &[u8]) -> bool
    ensures { result ≡ is_line_open bytes.now }
{
    match bytes.last() {
        Some(byte) => *byte != b'\n',
        None => false,
    }
}
