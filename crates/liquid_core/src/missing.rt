//! What a message says of an expression that has no value, after its spelling: which step leads
//! nowhere, and which name may be meant.
//! It is made only where a run ends by that fault.
use crate::expression::{Expression, Variable, expression_value};
use crate::foreign_name::{filter_meant, is_file_suffix, is_of_data, name_meant};
use crate::frame::{LoopFrame, LoopKind, Scope};
use crate::resolved::Resolved;
use crate::similar_name::{SimilarName, may_be_more_similar, more_likely};
use crate::spelled::{Spelled, SpelledPath};
use crate::state::State;
use crate::step_kind::{Kind, kind_of, kind_word};
use liquid_model::{Object, Quoted, Value};
use std::alloc::{AllocError, Global};
use std::fmt::Write;

/// The most names that are compared with a missing one, so that the search is short, whatever the
/// data holds.
const MOST_NAMES: usize = 2000;

/// Counting the edits between two names takes as long as a look at the letters of so many: edits
/// are counted for a hundred names at most.
const NAMES_FOR_EDITS: usize = 20;

/// What to do about a path that has no value.
const CHECK_SPELLING: &str = "; check its spelling, or test for it with `if`";

/// Words, or refused memory.
pub(crate) type Words = Result<String, AllocError>;

/// The most keys of a map that a message lists.
const MOST_KEYS: usize = 4;

/// The parts of a loop's object.
static LOOP_PARTS: [&str; 8] = [
    "first",
    "index",
    "index0",
    "last",
    "length",
    "parentloop",
    "rindex",
    "rindex0",
];

/// A search for the name most similar to one that is meant.
#[derive(Drop)]
struct Search<'n, 'm> {
    meant: &'m str,
    similar: Option<SimilarName<'n>>,
    /// How many names may still be looked at.
    left: usize,
}

impl<'n, 'm> Search<'n, 'm> {
    fn new(meant: &'m str) -> Search<'n, 'm> {
        Search {
            meant,
            similar: None,
            left: MOST_NAMES,
        }
    }

    fn look(&mut self, alloc: Global, name: &'n str) -> Result<(), AllocError> {
        if self.left == 0 || !may_be_more_similar(name, self.meant, self.similar) {
            self.left = self.left.saturating_sub(1);
            return Ok(());
        }
        self.left = self.left.saturating_sub(NAMES_FOR_EDITS);
        self.similar = more_likely(alloc, name, self.meant, self.similar)?;
        Ok(())
    }

    fn look_in(&mut self, alloc: Global, object: &'n Object) -> Result<(), AllocError> {
        for name in object.keys() {
            if self.left == 0 {
                return Ok(());
            }
            self.look(alloc, name.as_str())?;
        }
        Ok(())
    }
}

/// The words after `X has no value`.
pub(crate) fn words_of(alloc: Global, expression: &Expression, state: &State<'_>) -> Words {
    match expression {
        Expression::Literal(_) => Ok(String::new(alloc)),
        Expression::Variable(variable) => words_of_variable(alloc, variable, state),
    }
}

/// The same for a variable.
pub(crate) fn words_of_variable<'a, 'd>(
    alloc: Global,
    variable: &'a Variable,
    state: &'a State<'d>,
) -> Words {
    let name = variable.name.as_str();
    let first: Option<Resolved<'a, 'd>> = state.resolve(name);
    let Some(first) = first else {
        return without_name(alloc, variable, state);
    };
    let mut found: Resolved<'a, 'd> = first;
    let mut at = 0;
    while at < variable.indexes.len() {
        let index = &variable.indexes[at];
        let base = kind_of(&found);
        let Some(part) = expression_value(index, state) else {
            let path = SpelledPath {
                name,
                steps: &variable.indexes[..at],
            };
            return without_index(alloc, &path, base, index);
        };
        let key = kind_of(&part);
        match found.stepped_by(part) {
            Some(next) => found = next,
            None => {
                let path = SpelledPath {
                    name,
                    steps: &variable.indexes[..at],
                };
                return without_step(alloc, &path, base, key);
            }
        }
        at += 1;
    }
    Ok(String::new(alloc))
}

/// The words for a name that nothing has.
fn without_name(alloc: Global, variable: &Variable, state: &State<'_>) -> Words {
    let name = variable.name.as_str();
    let quoted = Quoted { text: name };
    let mut words = if variable.indexes.is_empty() {
        String::new(alloc)
    } else {
        format!(in alloc; ": there is no `{quoted}`")?
    };
    let mut search = Search::new(name);
    look_in_state(alloc, &mut search, state)?;
    match search.similar {
        Some(similar) => push_similar(&mut words, &similar)?,
        None => push_advice(&mut words, variable, state)?,
    }
    Ok(words)
}

/// Adds advice on a name that nothing has and that is similar to no other.
fn push_advice(
    words: &mut String,
    variable: &Variable,
    state: &State<'_>,
) -> Result<(), AllocError> {
    let text = variable.name.as_str();
    let quoted = Quoted { text };
    match name_meant(text) {
        Some(meant) if !(state.sees_alone() && is_of_data(meant)) => {
            return write!(words, "; {meant}");
        }
        _ => {}
    }
    if let Some(suffix) = file_suffix(variable) {
        return write!(
            words,
            "; the name of a file stands in quotes, as `'{quoted}.{suffix}'`"
        );
    }
    if state.sees_alone() {
        return write!(
            words,
            "; a partial that `render` runs sees only what it is given, as by `{quoted}: {quoted}`"
        );
    }
    if variable.indexes.is_empty() {
        return write!(
            words,
            "; check its spelling, test for it with `if`, or write `'{quoted}'` for a text"
        );
    }
    words.push_str(CHECK_SPELLING)
}

/// The suffix of a file's name that isn't quoted.
fn file_suffix(variable: &Variable) -> Option<&str> {
    match variable.indexes.as_slice() {
        [Expression::Literal(Value::Text(step))] if is_file_suffix(step.as_str()) => {
            Some(step.as_str())
        }
        _ => None,
    }
}

/// The words for a step whose own value is missing. Where it is a name that stands without quotes,
/// the key of this name is meant.
fn without_index(
    alloc: Global,
    path: &SpelledPath<'_>,
    base: Kind<'_>,
    index: &Expression,
) -> Words {
    let spelled = Spelled { expression: index }.to_string(alloc)?;
    let quoted = Quoted {
        text: spelled.as_str(),
    };
    let mut words = format!(in alloc; ", since `{quoted}` has none")?;
    match base {
        Kind::Map(object) if object.get(spelled.as_str()).is_some() => {
            let path = path.to_string(alloc)?;
            let path = Quoted {
                text: path.as_str(),
            };
            write!(words, "; did you mean `{path}.{quoted}`?")?;
        }
        _ => {}
    }
    Ok(words)
}

/// The words for a step that leads nowhere from what stands before it.
fn without_step(alloc: Global, path: &SpelledPath<'_>, base: Kind<'_>, key: Kind<'_>) -> Words {
    let spelled = path.to_string(alloc)?;
    let quoted = Quoted {
        text: spelled.as_str(),
    };
    match key {
        Kind::Nil | Kind::List(_) | Kind::Map(_) | Kind::Loop => {
            let what = kind_word(key);
            return format!(in alloc; ": {what} is no key of `{quoted}`");
        }
        Kind::Text(name) => match base {
            Kind::Map(object) => return without_key(alloc, &quoted, name, Some(object)),
            Kind::Loop => return without_key(alloc, &quoted, name, None),
            _ => {}
        },
        Kind::Truth | Kind::Number(_) => {}
    }
    let mut words = without_parts(alloc, &quoted, base)?;
    push_other_step(alloc, &mut words, &quoted, base, key)?;
    Ok(words)
}

/// What it is that a step leads nowhere from.
fn without_parts(alloc: Global, path: &Quoted<'_>, base: Kind<'_>) -> Words {
    match base {
        Kind::List(1) => format!(in alloc; ": `{path}` is a list of 1 item"),
        Kind::List(count) => format!(in alloc; ": `{path}` is a list of {count} items"),
        _ => {
            let what = kind_word(base);
            format!(in alloc; ": `{path}` is {what}")
        }
    }
}

/// What to write in place of a step that leads nowhere.
fn push_other_step(
    alloc: Global,
    words: &mut String,
    path: &Quoted<'_>,
    base: Kind<'_>,
    key: Kind<'_>,
) -> Result<(), AllocError> {
    match (base, key) {
        (Kind::Nil, _) => Ok(()),
        (_, Kind::Text(name)) if filter_meant(name).is_some() => push_filter(words, path, name),
        (Kind::List(count), Kind::Text(name)) => {
            match part_meant(alloc, name)? {
                Some(part) => write!(words, "; did you mean `{path}.{part}`?"),
                None if count == 0 => Ok(()),
                None => write!(
                    words,
                    "; its first is `{path}[0]`, and a `for` goes over all"
                ),
            }
        }
        (Kind::List(0), _) => Ok(()),
        (Kind::List(_), _) => words.push_str(", whose places count from 0"),
        _ => Ok(()),
    }
}

/// The part of a list whose name is similar to this one.
fn part_meant(alloc: Global, name: &str) -> Result<Option<&'static str>, AllocError> {
    let mut search = Search::new(name);
    for part in &["first", "last", "length", "size"] {
        search.look(alloc, *part)?;
    }
    match search.similar {
        Some(SimilarName { name: "length", .. }) => Ok(Some("size")),
        Some(similar) => Ok(Some(similar.name)),
        None => Ok(None),
    }
}

/// Adds advice on a step with the name of a filter.
fn push_filter(words: &mut String, path: &Quoted<'_>, name: &str) -> Result<(), AllocError> {
    match filter_meant(name) {
        Some("size") => write!(words, "; write `{path}.size`"),
        Some(filter) => write!(words, "; write `{path} | {filter}`"),
        None => Ok(()),
    }
}

/// The words for a key that a map or the object of a loop doesn't have.
fn without_key(alloc: Global, path: &Quoted<'_>, name: &str, map: Option<&Object>) -> Words {
    let quoted = Quoted { text: name };
    let mut words = format!(in alloc; ": `{path}` has no `{quoted}`")?;
    let mut search = Search::new(name);
    match map {
        Some(object) => search.look_in(alloc, object)?,
        None => {
            for part in &LOOP_PARTS {
                search.look(alloc, *part)?;
            }
        }
    }
    match search.similar {
        Some(similar) => push_similar(&mut words, &similar)?,
        None if filter_meant(name).is_some() => push_filter(&mut words, path, name)?,
        None => push_keys(&mut words, map)?,
    }
    Ok(words)
}

/// The keys that a map or the object of a loop has, or some of them.
fn push_keys(words: &mut String, map: Option<&Object>) -> Result<(), AllocError> {
    let Some(object) = map else {
        return words.push_str(
            "; it has `first`, `index`, `index0`, `last`, `length`, `parentloop`, `rindex` and `rindex0`",
        );
    };
    if object.is_empty() {
        return words.push_str(CHECK_SPELLING);
    }
    for (count, name) in object.keys().enumerate() {
        if count == MOST_KEYS {
            return words.push_str(" and others");
        }
        let before = if count == 0 { "; it has `" } else { ", `" };
        let quoted = Quoted {
            text: name.as_str(),
        };
        write!(words, "{before}{quoted}`")?;
    }
    Ok(())
}

fn push_similar(words: &mut String, similar: &SimilarName<'_>) -> Result<(), AllocError> {
    let quoted = Quoted { text: similar.name };
    write!(words, "; did you mean `{quoted}`?")
}

/// Looks at the names that a state holds, and at the words that are values.
fn look_in_state<'n>(
    alloc: Global,
    search: &mut Search<'n, '_>,
    state: &'n State<'_>,
) -> Result<(), AllocError> {
    look_at_words(alloc, search)?;
    for scope in state.frames() {
        look_in_scope(alloc, search, scope)?;
    }
    look_in_objects(alloc, search, state)
}

/// Looks at the words that are values, and at the name of a loop's object.
fn look_at_words(alloc: Global, search: &mut Search<'_, '_>) -> Result<(), AllocError> {
    for word in &["true", "false", "nil", "null"] {
        if word.eq_ignore_ascii_case(search.meant) {
            search.look(alloc, *word)?;
        }
    }
    if search.meant == "forloop" {
        return Ok(());
    }
    search.look(alloc, "forloop")
}

/// Looks at the names of the objects that a state holds.
fn look_in_objects<'n>(
    alloc: Global,
    search: &mut Search<'n, '_>,
    state: &'n State<'_>,
) -> Result<(), AllocError> {
    for object in state.scopes() {
        search.look_in(alloc, object)?;
    }
    search.look_in(alloc, state.assigned())?;
    search.look_in(alloc, state.counters())?;
    search.look_in(alloc, state.data())
}

fn look_in_scope<'n>(
    alloc: Global,
    search: &mut Search<'n, '_>,
    scope: &'n Scope<'_>,
) -> Result<(), AllocError> {
    match scope {
        Scope::Names(object) => search.look_in(alloc, object),
        Scope::Borrowed(name, _) => search.look(alloc, *name),
        Scope::LoopFrame(frame) => look_in_frame(alloc, search, frame),
    }
}

fn look_in_frame<'n>(
    alloc: Global,
    search: &mut Search<'n, '_>,
    frame: &'n LoopFrame<'_>,
) -> Result<(), AllocError> {
    search.look(alloc, frame.name)?;
    match &frame.kind {
        LoopKind::For(_) | LoopKind::Render => search.look(alloc, "forloop"),
        LoopKind::TableRow(_) => search.look(alloc, "tablerow"),
    }
}
