//! What a message says of a file that is never written.
ghost use Rattle.std.specs.Prelude.{Some};
ghost use Rattle.liquid_files.specs.Words.{occupant_text, protected_text};

use crate::disk::Protected;
use crate::system::Occupant;
use liquid_model::Quoted;
use std::fmt;

/// What follows `the file can't be written: `.
impl fmt::Display for Protected {
    ghost output = { λ why. Some (protected_text why) };

    fn fmt<W: fmt::Write>(&self, f: &mut fmt::Formatter<W>) -> fmt::Result {
        match self {
            Protected::Part => {
                f.write_str("names that end in `.bikleinu-part` are those of unfinished pages")
            }
            Protected::Hidden => f.write_str(
                "a part of its name begins with a dot that the pattern doesn't write",
            ),
            Protected::Occupied(occupant) => write!(f, "{occupant}"),
            Protected::Source => f.write_str("this call reads it"),
            Protected::Page(earlier) => {
                let earlier = Quoted {
                    text: earlier.as_str(),
                };
                write!(f, "it is the file of an earlier page, `{earlier}`")
            }
            Protected::Outside => f.write_str("its folder leads out of the folder of the pages"),
        }
    }
}

/// What stands in the place of a file.
impl fmt::Display for Occupant {
    ghost output = { λ occupant. Some (occupant_text occupant) };

    fn fmt<W: fmt::Write>(&self, f: &mut fmt::Formatter<W>) -> fmt::Result {
        f.write_str(match self {
            Occupant::Link => "a link is in its place",
            Occupant::Folder => "a folder is in its place",
            Occupant::Pipe => "a pipe is in its place",
            Occupant::Device => "a device is in its place",
        })
    }
}
