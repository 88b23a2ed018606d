//! Texts over several lines, below `|` or `>`.
ghost use Rattle.std.specs.Prelude.{◌≡◌, ◌≤◌, None, drop, option_map, map, string_bytes};
ghost use Rattle.liquid_model.specs.Answer.{IsValueOrMemory};
ghost use Rattle.liquid_yaml.specs.Blocks as spec;
ghost use Rattle.liquid_yaml.specs.Bytes.{spaces_in};
ghost use Rattle.liquid_yaml.specs.Blocks.{block_view, stepped_view};

use crate::scan::{is_rest, spaces_in, without_feeds};
use liquid_model::{Result, append_str};
use std::alloc::Global;

/// The lines of a text so far.
#[derive(Drop)]
pub(crate) struct Block<'t> {
    /// Whether line feeds between lines become spaces.
    pub folds: bool,
    /// Whether the text ends with a line feed.
    pub ends: bool,
    /// After how many spaces the key or the item stands.
    pub below: usize,
    /// After how many spaces the lines stand; 0 before the first that isn't blank.
    pub column: usize,
    pub lines: Vec<&'t str>,
}

/// What a line is to a text.
#[derive(Clone, Copy, Drop)]
pub(crate) enum Step {
    /// The text ended before the line.
    EndsBefore,
    /// The line isn't read.
    Refused,
    /// The line is one of the text's.
    GoesOn,
}

/// The text that begins with what follows `|` or `>`, below what stands after so many spaces.
pub(crate) fn block_at<'t>(
    alloc: Global,
    folds: bool,
    below: usize,
    text: &str,
) -> Option<Block<'t>>
    ensures { option_map block_view result ≡ spec.header_at folds below text.now }
{
    match text.as_bytes() {
        [b'-', rest @ ..] => with_header(alloc, folds, below, false, rest),
        bytes => with_header(alloc, folds, below, true, bytes),
    }
}

fn with_header<'t>(
    alloc: Global,
    folds: bool,
    below: usize,
    ends: bool,
    rest: &[u8],
) -> Option<Block<'t>>
    ensures { option_map block_view result ≡ spec.header_by folds below ends rest.now }
{
    if !is_rest(true, rest) {
        return None;
    }
    Some(Block {
        folds,
        ends,
        below,
        column: 0,
        lines: Vec::new(alloc),
    })
}

impl<'t> Block<'t> {
    /// What one more line is to the text, which takes the line where that is one of it. The answer
    /// is `Memory` where a growth was refused, and no other kind.
    #[tactic(auto, using(crate::proofs::Blocks::line_push))]
    pub(crate) fn step(&mut self, line: &'t str) -> Result<Step>
        ensures { IsValueOrMemory (λ s. stepped_view s (block_view self.new)) result
            (spec.block_step (block_view self.old) line.now) }
    {
        let spaces = spaces_in(line);
        if spaces == line.len() {
            return self.step_blank(line.len());
        }
        if spaces <= self.below || spaces < self.column {
            return Ok(Step::EndsBefore);
        }
        let column = if self.column == 0 {
            spaces
        } else {
            self.column
        };
        if self.folds && spaces > column {
            return Ok(Step::Refused);
        }
        self.column = column;
        self.lines.push(without_column(line, column))?;
        Ok(Step::GoesOn)
    }

    /// A line of spaces alone, so many.
    #[tactic(auto, using(crate::proofs::Blocks::line_push))]
    fn step_blank(&mut self, spaces: usize) -> Result<Step>
        ensures { IsValueOrMemory (λ s. stepped_view s (block_view self.new)) result
            (spec.blank_step (block_view self.old) spaces) }
    {
        if spaces > self.column {
            return Ok(Step::Refused);
        }
        self.lines.push("")?;
        Ok(Step::GoesOn)
    }

    /// The text of the lines so far. The answer is `Memory` where a growth was refused, and no
    /// other kind.
    pub(crate) fn text(&self, alloc: Global) -> Result<String>
        ensures { IsValueOrMemory string_bytes result (spec.block_text (block_view self.now)) }
    {
        let all = joined_text(alloc, self.folds, &self.lines)?;
        let mut text = String::from_str(alloc, without_feeds(all.as_str()))?;
        if self.ends && !text.is_empty() {
            append_str(&mut text, "\n")?;
        }
        Ok(text)
    }

    /// At the end of all lines: the last one gets no line feed that it hasn't.
    pub(crate) fn cut_off(&mut self)
        ensures { block_view self.new ≡ spec.cut_off (block_view self.old) }
    {
        if !ends_blank(&self.lines) {
            self.ends = false;
        }
    }
}

fn ends_blank(lines: &[&str]) -> bool
    ensures { result ≡ spec.ends_blank (map (λ l. l.now) lines.now) }
{
    match lines.last() {
        Some(line) => line.is_empty(),
        None => true,
    }
}

/// A line without some of the spaces at its front.
#[tactic(auto, using(crate::proofs::Cuts::column_cut))]
fn without_column(line: &str, column: usize) -> &str
    requires { column ≤ spaces_in line.now }
    ensures { result.now ≡ drop column line.now }
{
    &line[column..]
}

/// What stands between two lines, and before the first.
fn gap(folds: bool, before: Option<&str>, line: &str) -> &'static str
    ensures { result.now ≡ spec.gap folds (option_map (λ l. l.now) before.entry) line.now }
{
    match before {
        None => "",
        Some(before) if !folds || before.is_empty() => "\n",
        Some(_) if line.is_empty() => "",
        Some(_) => " ",
    }
}

fn joined_text(alloc: Global, folds: bool, lines: &[&str]) -> Result<String>
    ensures { IsValueOrMemory string_bytes result
        (spec.joined_text folds None (map (λ l. l.now) lines.now)) }
{
    let mut text = String::new(alloc);
    let mut before = None;
    for line in lines {
        append_str(&mut text, gap(folds, before, line))?;
        append_str(&mut text, line)?;
        before = Some(*line);
    }
    Ok(text)
}
