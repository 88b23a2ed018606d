//! A fault as a message shows it.
ghost use Rattle.std.specs.Prelude.{Some};
ghost use Rattle.liquid_files.specs.Faults.{shown_fault};

use liquid_model::{Error, ErrorKind};
use std::fmt;

/// A fault as a message shows it: `out of memory` where memory ran out, and else its kind, its
/// location and what it says. It takes no memory.
#[derive(Clone, Copy)]
pub struct ShownFault<'f> {
    pub fault: &'f Error,
}

impl fmt::Display for ShownFault<'_> {
    ghost output = { λ f. Some (shown_fault f.fault.now) };

    fn fmt<W: fmt::Write>(&self, f: &mut fmt::Formatter<W>) -> fmt::Result {
        match self.fault.kind {
            ErrorKind::Memory => f.write_str("out of memory"),
            _ => write!(f, "{}", self.fault),
        }
    }
}
