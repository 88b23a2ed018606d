//! The line of a text in which a fault stands, as it is shown after the fault: with its number,
//! and a mark under the column.
ghost use Rattle.std.specs.Prelude.{◌≡◌, IfSome, option_map};
ghost use Rattle.std.specs.Str.{trim_end};
ghost use Rattle.liquid_files.specs.Lines.{IsUnmarked, ShowsLine, excerpt_line, line_numbered};
ghost use Rattle.liquid_files.specs.Lines.{lines_in};

use liquid_model::Location;
use std::fmt;
use unicode_width::UnicodeWidthChar;

/// How many characters of a line are shown at most.
const SHOWN: usize = 100;

/// How many of them stand before the column, in a line that isn't shown from its start.
const BEFORE: usize = 60;

/// A line of a text, and the column in it that is meant, in characters and from 1.
#[derive(Drop)]
pub struct Excerpt<'t> {
    text: &'t str,
    line: usize,
    column: usize,
}

impl<'t> Excerpt<'t> {
    /// The line of the location, where the text has it. A mark of the byte order at the start is no
    /// part of the text.
    pub fn new(text: &'t str, location: &Location) -> Option<Excerpt<'t>>
        ensures line { ShowsLine text.now location.now.line (option_map excerpt_line result) }
        ensures number { IfSome result (λ e. e.line ≡ location.now.line) }
        ensures column { IfSome result (λ e. e.column ≡ location.now.column) }
    {
        match shown_line(text, location.line) {
            Some(text) => Some(Excerpt {
                text,
                line: location.line,
                column: location.column,
            }),
            None => None,
        }
    }
}

/// The line of this number, counted from 1, without the white space at its end.
fn shown_line(text: &str, number: usize) -> Option<&str>
    ensures { ShowsLine text.now number (option_map (λ l. l.now) result) }
{
    trimmed(line_numbered(without_mark(text), number))
}

fn trimmed(line: Option<&str>) -> Option<&str>
    ensures { option_map (λ l. l.now) result
        ≡ option_map trim_end (option_map (λ l. l.now) line.entry) }
{
    match line {
        Some(line) => Some(line.trim_end()),
        None => None,
    }
}

fn line_numbered(text: &str, number: usize) -> Option<&str>
    ensures { option_map (λ l. l.now) result ≡ line_numbered number (lines_in text.now) }
{
    if number == 0 {
        None
    } else {
        text.split('\n').nth(number - 1)
    }
}

/// A text without the mark of the byte order at its start.
fn without_mark(text: &str) -> &str
    ensures { IsUnmarked text.now result.now }
{
    match text.strip_prefix('\u{feff}') {
        Some(rest) => rest,
        None => text,
    }
}

/// Three lines: an empty one, the line with its number, and the mark.
impl fmt::Display for Excerpt<'_> {
    fn fmt<W: fmt::Write>(&self, f: &mut fmt::Formatter<W>) -> fmt::Result {
        let before = self.column.saturating_sub(1);
        let hidden = if before >= SHOWN {
            before.saturating_sub(BEFORE)
        } else {
            0
        };
        let front = if hidden > 0 { ".." } else { "" };
        let mark = Blank(columns(self.text, hidden, before).saturating_add(front.len()));
        let margin = Blank(digits(self.line));
        let shown = Shown {
            text: self.text,
            hidden,
        };
        let line = self.line;
        write!(f, "{margin} |\n{line} | {front}{shown}\n{margin} | {mark}^")
    }
}

/// The given number of spaces.
#[derive(Drop)]
struct Blank(usize);

impl fmt::Display for Blank {
    fn fmt<W: fmt::Write>(&self, f: &mut fmt::Formatter<W>) -> fmt::Result {
        for _ in 0..self.0 {
            f.write_str(" ")?;
        }
        Ok(())
    }
}

/// A part of a line after its hidden characters, with `..` where it goes on. What has no width or
/// moves the cursor, as a tab, is a space.
#[derive(Drop)]
struct Shown<'t> {
    text: &'t str,
    hidden: usize,
}

impl fmt::Display for Shown<'_> {
    fn fmt<W: fmt::Write>(&self, f: &mut fmt::Formatter<W>) -> fmt::Result {
        for (place, c) in self.text.chars().skip(self.hidden).enumerate() {
            if place == SHOWN {
                return f.write_str("..");
            }
            f.write_char(if is_visible(c) { c } else { ' ' })?;
        }
        Ok(())
    }
}

/// How many columns of a terminal stand before a place, from the first character that is shown on.
/// A letter of Chinese takes two, a combining mark none. Past the end of the line each character
/// counts as one.
fn columns(text: &str, hidden: usize, before: usize) -> usize {
    let mut columns: usize = 0;
    let mut left = before.saturating_sub(hidden);
    for c in text.chars().take(before).skip(hidden) {
        columns = columns.saturating_add(width(c));
        left = left.saturating_sub(1);
    }
    columns.saturating_add(left)
}

/// How many columns a character takes, as it is shown.
fn width(c: char) -> usize {
    if is_visible(c) {
        c.width().unwrap_or(1)
    } else {
        1
    }
}

fn is_visible(c: char) -> bool {
    let invisible = matches!(
        c,
        '\u{ad}'
            | '\u{200b}'..='\u{200f}'
            | '\u{2028}'..='\u{202e}'
            | '\u{2060}'..='\u{206f}'
            | '\u{feff}'
    );
    !invisible && !c.is_control()
}

/// How many decimal digits a number has.
fn digits(number: usize) -> usize {
    number.checked_ilog10().map_or(1, |log| log as usize + 1)
}
