//! The data of a text of YAML, and the front matter of a text.
ghost use Rattle.std.specs.Prelude.{◌≡◌, ◌&&◌, Some, false, true};
ghost use Rattle.liquid_model.specs.Answer.{Answers, IsValueOrMemory};
ghost use Rattle.liquid_model.specs.View.{pairs_view, view};
ghost use Rattle.liquid_yaml.specs.Bytes.{left_view, parts_left};
ghost use Rattle.liquid_yaml.specs.Lines.{ends_front};
ghost use Rattle.liquid_yaml.specs.Places.{nothing_read, gathering_view, taken_line};
ghost use Rattle.liquid_yaml.specs.Reading as spec;
ghost use Rattle.liquid_yaml.specs.Reading.{document_view, front_found_view};

use crate::fault::{bad_line, lone_return, no_end, no_map};
use crate::line::{closes, opens};
use crate::places::Gathered;
use crate::scan::{ends_with_return, first_part};
use liquid_model::{Location, Object, Origin, Result, Value};
use std::alloc::Global;

/// The members that stand before a text, and the text after them.
#[derive(Drop)]
pub struct FrontMatter<'t> {
    /// The members.
    pub members: Object,
    /// What stands after the line that ends them.
    pub body: &'t str,
}

/// A value, and the text after it.
#[derive(Drop)]
pub(crate) struct Document<'t> {
    pub value: Value,
    pub rest: &'t str,
}

/// Where lines of YAML stand.
#[derive(Clone, Copy, Drop)]
struct Lines {
    /// Whether a line `---` or `...` must end them.
    is_front: bool,
    /// The number of the line before them.
    before: usize,
}

impl Lines {
    fn end_at(self, line: &str) -> bool
        ensures { result ≡ (self.is_front && ends_front line.now) }
    {
        self.is_front && closes(line)
    }

    /// The line of this number.
    fn at(self, line: usize) -> Location {
        let origin = if self.is_front {
            Origin::Template
        } else {
            Origin::Data
        };
        Location {
            origin,
            line,
            column: 1,
        }
    }
}

/// The value of a text of YAML. A text without any is nil.
///
/// The text is refused, by `InvalidInput`, where a line isn't of the part of YAML that is read here
/// or doesn't fit the lines before it, and where it ends with a carriage return. `Memory` where a
/// growth was refused.
pub fn value_from_yaml(alloc: Global, text: &str) -> Result<Value>
    ensures { Answers view result (spec.yaml_value text.now) }
{
    if ends_with_return(text) {
        return Err(lone_return(alloc));
    }
    let (left, before) = yaml_content(text);
    let found = read_left(
        alloc,
        left,
        Lines {
            is_front: false,
            before,
        },
    )?;
    Ok(found.value)
}

/// The data of a text of YAML, which is a map or nothing.
///
/// The text is refused, by `InvalidInput`, where it is no map, where a line isn't of the part of
/// YAML that is read here or doesn't fit the lines before it, and where it ends with a carriage
/// return. `Memory` where a growth was refused.
pub fn data_from_yaml(alloc: Global, text: &str) -> Result<Object>
    ensures { Answers (λ m. pairs_view m.entries) result (spec.yaml_data text.now) }
{
    yaml_members(alloc, value_from_yaml(alloc, text)?)
}

/// The front matter of a text, or none where its first line isn't `---`.
///
/// The text is refused, by `InvalidInput`, where no line `---` or `...` ends its front matter,
/// where a line before that isn't of the part of YAML that is read here or doesn't fit the lines
/// before it, and where they are no map. `Memory` where a growth was refused.
pub fn front_matter(alloc: Global, source: &str) -> Result<Option<FrontMatter<'_>>>
    ensures { Answers front_found_view result (spec.front_matter_of source.now) }
{
    let (first, rest) = first_part(source, '\n');
    if !opens(first) {
        return Ok(None);
    }
    let found = read_left(
        alloc,
        rest,
        Lines {
            is_front: true,
            before: 1,
        },
    )?;
    Ok(Some(FrontMatter {
        members: yaml_members(alloc, found.value)?,
        body: found.rest,
    }))
}

/// The text without a first line `---`, and the number of such lines.
fn yaml_content(text: &str) -> (Option<&str>, usize)
    ensures { left_view result.0 ≡ spec.yaml_content text.now }
{
    let (first, rest) = first_part(text, '\n');
    if opens(first) {
        (rest, 1)
    } else {
        (Some(text), 0)
    }
}

/// The members of a map; nil has none.
fn yaml_members(alloc: Global, value: Value) -> Result<Object>
    ensures { Answers (λ m. pairs_view m.entries) result (spec.yaml_members (view value)) }
{
    match value {
        Value::Nil => Ok(Object::new(alloc)),
        Value::Object(members) => Ok(members),
        _ => Err(no_map(alloc)),
    }
}

/// Reads what is left of a text after its first line.
fn read_left<'t>(alloc: Global, left: Option<&'t str>, lines: Lines) -> Result<Document<'t>>
    ensures { Answers document_view result (spec.read_on lines.is_front (Some nothing_read)
        (parts_left 10 (left_view left.entry))) }
{
    let mut gathered = Gathered::new(alloc);
    let mut left = left;
    let mut number = lines.before;
    while let Some(text) = left {
        let (line, rest) = first_part(text, '\n');
        if lines.end_at(line) {
            return document_before(alloc, &mut gathered, rest);
        }
        number = number.saturating_add(1);
        take_line(alloc, &mut gathered, line, lines.at(number))?;
        left = rest;
    }
    if lines.is_front {
        return Err(no_end(alloc));
    }
    gathered.cut_off();
    document_before(alloc, &mut gathered, None)
}

/// Takes one more line, of this number.
fn take_line<'t>(
    alloc: Global,
    gathered: &mut Gathered<'t>,
    line: &'t str,
    at: Location,
) -> Result<()>
    ensures { Answers (λ _. gathering_view gathered.new) result
        (spec.or_fault (taken_line (gathering_view gathered.old) line.now)) }
{
    if gathered.take_line(alloc, line)? {
        Ok(())
    } else {
        Err(bad_line(alloc, line, at))
    }
}

/// The value, which is taken, and what follows the line that ends it.
fn document_before<'t>(
    alloc: Global,
    gathered: &mut Gathered<'t>,
    rest: Option<&'t str>,
) -> Result<Document<'t>>
    ensures { IsValueOrMemory document_view result
        (spec.document_before (gathering_view gathered.old) (left_view rest.entry)) }
{
    Ok(Document {
        value: gathered.document(alloc)?,
        rest: rest.unwrap_or(""),
    })
}
