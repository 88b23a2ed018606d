//! What is left out of a folder whose files are read.
ghost use Rattle.std.specs.Prelude.{◌≡◌, Some};
ghost use Rattle.liquid_files.specs.Entries.{left_out_line, left_out_words};

use crate::shown_path::ShownPath;
use std::fmt;
use std::fmt::{Formatter, Write};

/// Why an entry of a folder is left out.
#[derive(Clone, Copy, Debug, PartialEq, Eq, PartialOrd, Ord)]
pub enum LeftOut {
    /// It is a folder, where only files are looked for.
    Folder,
    Pipe,
    Socket,
    Device,
    /// It is a link, and what it leads to isn't below the folder.
    LeadsOut,
    /// It is a link to what isn't there, or to itself.
    LeadsNowhere,
    /// It is a link to a path that isn't UTF-8.
    LeadsUnnamed,
    /// It is a link that the user may not follow.
    Barred,
    /// It is a file that has a byte 0, as images do and texts don't.
    NoText,
    /// Its name isn't UTF-8.
    Unnamed,
}

impl LeftOut {
    /// What the line says after the path.
    fn words(self) -> &'static str
        ensures { result.now ≡ left_out_words self }
    {
        match self {
            LeftOut::Folder => "is a folder",
            LeftOut::Pipe => "is a pipe",
            LeftOut::Socket => "is a socket",
            LeftOut::Device => "is a device",
            LeftOut::LeadsOut => "is a link that leads out of the folder",
            LeftOut::LeadsNowhere => "is a link that leads nowhere",
            LeftOut::LeadsUnnamed => "is a link to a path that isn't UTF-8",
            LeftOut::Barred => "is a link that you have no right to follow",
            LeftOut::NoText => "is no text: it has a byte 0",
            LeftOut::Unnamed => "has a name that isn't UTF-8",
        }
    }
}

/// The line that says what is left out, and why. It takes no memory.
#[derive(Clone, Copy)]
pub struct LeftOutLine<'p> {
    /// The path of the entry; of one whose name isn't UTF-8 that of its folder.
    pub path: &'p str,
    pub why: LeftOut,
}

impl fmt::Display for LeftOutLine<'_> {
    ghost output = { λ l. Some (left_out_line l.path.now l.why) };

    fn fmt<W: Write>(&self, f: &mut Formatter<W>) -> fmt::Result {
        let path = ShownPath { path: self.path };
        match self.why {
            LeftOut::Unnamed => write!(f, "left out: a name in {path} isn't UTF-8"),
            why => write!(f, "left out: {path} {}", why.words()),
        }
    }
}
