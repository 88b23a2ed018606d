//! What a message shows of a stranger's text: little of it, on one line, and nothing that a
//! terminal would obey.
ghost use Rattle.std.specs.Prelude.{◌≡◌, Some, IfOk, string_bytes};
ghost use Rattle.std.specs.Fmt.{WritesOnOk};
ghost use Rattle.liquid_model.specs.Quotes.{character_shown, cost, hidden_escape, is_hidden};
ghost use Rattle.liquid_model.specs.Quotes.{quotation};

use std::alloc::{AllocError, Global};
use std::fmt;
use std::fmt::{Formatter, Write};

/// The most characters of a text that a message shows.
const MOST_QUOTED: usize = 60;

/// A text as a message shows it: its beginning of at most 60 characters, with `...` where more
/// follow. A character that prints nothing, or that a terminal would obey, is escaped, as `\n` or
/// `\u{1b}`, and counts as 8. It takes no memory, and its length is bounded, whatever the text's
/// is.
#[derive(Clone, Copy)]
pub struct Quoted<'t> {
    /// The whole text.
    pub text: &'t str,
}

/// The text as a message shows it, as `Quoted` writes it.
pub fn excerpt(alloc: Global, text: &str) -> Result<String, AllocError>
    ensures { IfOk result (λ s. string_bytes s ≡ quotation text.now) }
{
    Quoted { text }.to_string(alloc)
}

impl fmt::Display for Quoted<'_> {
    ghost output = { λ q. Some (quotation q.text.now) };

    fn fmt<W: Write>(&self, f: &mut Formatter<W>) -> fmt::Result {
        write_quotation(self.text, f)
    }
}

fn write_quotation<W: Write>(text: &str, f: &mut Formatter<W>) -> fmt::Result
    ensures { WritesOnOk W.write_str_gives f.old result (quotation text.now) f.new }
{
    let mut rest = text.chars();
    let mut left = MOST_QUOTED;
    while let Some(letter) = rest.next() {
        let cost = cost(letter);
        if left < cost {
            return f.write_str("...");
        }
        left -= cost;
        write_shown(letter, f)?;
    }
    Ok(())
}

/// How many characters a character counts as.
fn cost(letter: char) -> usize
    ensures { result ≡ cost letter }
{
    if is_hidden(letter) { 8 } else { 1 }
}

/// Writes a character as it is shown.
fn write_shown<W: Write>(letter: char, f: &mut Formatter<W>) -> fmt::Result
    ensures { WritesOnOk W.write_str_gives f.old result (character_shown letter) f.new }
{
    if is_hidden(letter) {
        write_escaped(letter, f)
    } else {
        f.write_char(letter)
    }
}

fn write_escaped<W: Write>(letter: char, f: &mut Formatter<W>) -> fmt::Result
    ensures { WritesOnOk W.write_str_gives f.old result (hidden_escape letter) f.new }
{
    match letter {
        '\n' => f.write_str("\\n"),
        '\r' => f.write_str("\\r"),
        '\t' => f.write_str("\\t"),
        _ => write!(f, "\\u{{{:x}}}", letter as u32),
    }
}

/// Whether a character would not stand for itself on a line: a control character, one that turns
/// the direction of what follows, one that prints nothing, or white space other than a plain space.
fn is_hidden(letter: char) -> bool
    ensures { result ≡ is_hidden letter }
{
    letter.is_control()
        || matches!(
            letter,
            '\u{a0}'
                | '\u{ad}'
                | '\u{61c}'
                | '\u{2000}'..='\u{200f}'
                | '\u{2028}'..='\u{202f}'
                | '\u{205f}'..='\u{206f}'
                | '\u{3000}'
                | '\u{feff}'
        )
}
