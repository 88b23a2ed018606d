//! The path of a file as a message shows it.
ghost use Rattle.std.specs.Prelude.{◌≡◌, Some};
ghost use Rattle.std.specs.List.{list_all};
ghost use Rattle.liquid_files.specs.ShownPaths.{is_printable, prints, shown_path};

use liquid_model::Quoted;
use std::fmt;
use std::fmt::{Formatter, Write};

/// The path of a file as a message shows it: as it is where it is of ASCII and each of its
/// characters prints, and else as `Quoted` shows it. It takes no memory.
#[derive(Clone, Copy)]
pub struct ShownPath<'p> {
    /// The whole path.
    pub path: &'p str,
}

impl fmt::Display for ShownPath<'_> {
    ghost output = { λ p. Some (shown_path p.path.now) };

    fn fmt<W: Write>(&self, f: &mut Formatter<W>) -> fmt::Result {
        if is_plain(self.path) {
            return f.write_str(self.path);
        }
        let quoted = Quoted { text: self.path };
        write!(f, "{quoted}")
    }
}

/// Whether a text is of ASCII, and each of its characters prints.
fn is_plain(text: &str) -> bool
    ensures { result ≡ is_printable text.now }
{
    all_print(text.as_bytes())
}

fn all_print(bytes: &[u8]) -> bool
    ensures { result ≡ list_all prints bytes.now }
{
    for byte in bytes {
        if !prints(*byte) {
            return false;
        }
    }
    true
}

fn prints(byte: u8) -> bool
    ensures { result ≡ prints byte }
{
    matches!(byte, 0x20..=0x7e)
}
