//! The name of a file as a list of files shows it.
ghost use Rattle.std.specs.Prelude.{Some};
ghost use Rattle.std.specs.Fmt.{WritesOnOk};
ghost use Rattle.liquid_files.specs.ShownNames.{shown_letter, shown_name};

use liquid_model::Quoted;
use std::fmt;
use std::fmt::{Formatter, Write};

/// The name of a file as a list of files shows it: all of it, on one line, and no two names alike.
/// What a message escapes is escaped as there, and a backslash is doubled. It takes no memory.
#[derive(Clone, Copy)]
pub struct ShownName<'n> {
    /// The whole name.
    pub name: &'n str,
}

impl fmt::Display for ShownName<'_> {
    ghost output = { λ n. Some (shown_name n.name.now) };

    fn fmt<W: Write>(&self, f: &mut Formatter<W>) -> fmt::Result {
        write_name(self.name, f)
    }
}

fn write_name<W: Write>(name: &str, f: &mut Formatter<W>) -> fmt::Result
    ensures { WritesOnOk W.write_str_gives f.old result (shown_name name.now) f.new }
{
    let mut rest = name.chars();
    while let Some(letter) = rest.next() {
        write_letter(letter, f)?;
    }
    Ok(())
}

fn write_letter<W: Write>(letter: char, f: &mut Formatter<W>) -> fmt::Result
    ensures { WritesOnOk W.write_str_gives f.old result (shown_letter letter) f.new }
{
    if letter == '\\' {
        return f.write_str("\\\\");
    }
    let mut bytes = [0; 4];
    let letter = Quoted {
        text: letter.encode_utf8(&mut bytes),
    };
    write!(f, "{letter}")
}
