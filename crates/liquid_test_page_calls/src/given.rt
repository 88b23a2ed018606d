//! What a page is given beside its source and its data.
use liquid_core::{Error, Expression, Missing, Object, Result, Value, Variable, look_up};
use liquid_lib::{
    HostBlock, HostCall, Language, Partials, Style, TagError, jekyll, language, parse, stdlib,
};
use liquid_parser::{FilterRegistry, Registry, TagKind};
use liquid_test_refusals::{items, text_of};
use std::alloc::{AllocError, Global};

/// A field of the options.
pub(crate) fn option<'o>(options: &'o Value, name: &str) -> Option<&'o Value> {
    match options {
        Value::Object(pairs) => look_up(pairs, name),
        _ => None,
    }
}

/// The map that a field of the options is, if it is one.
fn map_option<'o>(options: &'o Value, name: &str) -> Option<&'o Object> {
    match option(options, name) {
        Some(Value::Object(pairs)) => Some(pairs),
        _ => None,
    }
}

/// The number that a field of the options is, or another one.
pub(crate) fn number_option(options: &Value, name: &str, other: usize) -> usize {
    match option(options, name) {
        Some(value) => number_or(value, other),
        None => other,
    }
}

/// The number that the value is, or another one.
pub(crate) fn number_or(value: &Value, other: usize) -> usize {
    match value {
        Value::Integer(number) => usize::try_from(*number).unwrap_or(other),
        _ => other,
    }
}

/// The depth of the options, or the one that a runtime has by itself.
pub(crate) fn depth(options: &Value) -> u32 {
    u32::try_from(number_option(options, "depth", 32)).unwrap_or(32)
}

/// What the options make of a missing value: nil, or else a fault.
pub(crate) fn missing(options: &Value) -> Missing {
    match option(options, "missing") {
        Some(value) if text_of(value) == "nil" => Missing::IsNil,
        _ => Missing::IsFault,
    }
}

/// The standard language with what the options register in it: tags, names that stand for filters
/// of the host, and tags and blocks of the host.
pub(crate) fn language_with(alloc: Global, options: &Value) -> Result<Language> {
    let mut language = language(alloc)?;
    register(alloc, &mut language, options)?;
    Ok(language)
}

fn register(alloc: Global, language: &mut Language, options: &Value) -> Result<()> {
    if let Some(kinds) = map_option(options, "tags") {
        register_tags(alloc, &mut language.tags, kinds)?;
    }
    language.include_paths = option(options, "paths").is_some();
    language.drops_blanks = option(options, "blanks").is_some();
    language.escapes_html = option(options, "escape").is_some();
    if let Some(names) = map_option(options, "host") {
        register_host(alloc, &mut language.filters, names)?;
    }
    if let Some(calls) = map_option(options, "host tags") {
        register_host_tags(alloc, language, calls)?;
    }
    match map_option(options, "host blocks") {
        Some(blocks) => register_host_blocks(alloc, language, blocks),
        None => Ok(()),
    }
}

fn register_tags(alloc: Global, tags: &mut Registry<TagKind>, kinds: &Object) -> Result<()> {
    for (name, kind) in kinds.iter() {
        register_tag(alloc, tags, name.as_str(), kind)?;
    }
    Ok(())
}

fn register_tag(
    alloc: Global,
    tags: &mut Registry<TagKind>,
    name: &str,
    kind: &Value,
) -> Result<()> {
    let name = String::from_str(alloc, name)?;
    tags.register(name, tag_kind(kind))
}

/// The kind of a tag of this name: Jekyll's `include`, the standard one, or else `assign`.
fn tag_kind(name: &Value) -> TagKind {
    match text_of(name) {
        "jekyll" => TagKind::from(jekyll::IncludeTag::new()),
        "include" => TagKind::from(stdlib::IncludeTag::new()),
        _ => TagKind::from(stdlib::AssignTag::new()),
    }
}

/// Registers each name with the greatest number of arguments that a template may give the filter.
fn register_host(alloc: Global, filters: &mut FilterRegistry, names: &Object) -> Result<()> {
    for (name, most) in names.iter() {
        register_filter(alloc, filters, name.as_str(), number_or(most, 0))?;
    }
    Ok(())
}

fn register_filter(
    alloc: Global,
    filters: &mut FilterRegistry,
    name: &str,
    most: usize,
) -> Result<()> {
    let name = String::from_str(alloc, name)?;
    filters.register_host(name, 0, most)
}

/// Registers each tag with the filter, the variable and the style that its list names, or with a
/// part of them; what follows are variables that are given with it.
fn register_host_tags(alloc: Global, language: &mut Language, calls: &Object) -> Result<()> {
    for (name, call) in calls.iter() {
        let name = String::from_str(alloc, name.as_str())?;
        let call = host_call(alloc, items(call))?;
        if let Err(TagError::Memory) = language.register_tag(name, call) {
            return Err(Error::from(AllocError));
        }
    }
    Ok(())
}

fn host_call(alloc: Global, words: &[Value]) -> Result<HostCall> {
    let input = match words.get(1) {
        Some(Value::Text(name)) => variable(alloc, name.as_str())?,
        _ => Expression::Literal(Value::Nil),
    };
    Ok(HostCall {
        filter: word_at(alloc, words, 0)?,
        input,
        style: style_at(words, 2),
        given: given_from(alloc, words, 3)?,
    })
}

/// Registers each block with the filter and the style that its list names, or the filter alone, and
/// with variables as a tag.
fn register_host_blocks(alloc: Global, language: &mut Language, blocks: &Object) -> Result<()> {
    for (name, words) in blocks.iter() {
        let name = String::from_str(alloc, name.as_str())?;
        let block = HostBlock {
            filter: word_at(alloc, items(words), 0)?,
            style: style_at(items(words), 1),
            given: given_from(alloc, items(words), 2)?,
        };
        if let Err(TagError::Memory) = language.register_block(alloc, name, block) {
            return Err(Error::from(AllocError));
        }
    }
    Ok(())
}

/// The variables that are given with a tag, from a place of its list on: a name, or a list of a
/// name and steps.
fn given_from(alloc: Global, words: &[Value], place: usize) -> Result<Vec<Expression>> {
    let mut given = Vec::new(alloc);
    for word in words.iter().skip(place) {
        given.push(path_of(alloc, word)?)?;
    }
    Ok(given)
}

/// The variable of the name, or of the name and the steps.
fn path_of(alloc: Global, word: &Value) -> Result<Expression> {
    let Some((name, steps)) = items(word).split_first() else {
        return variable(alloc, text_of(word));
    };
    let mut indexes = Vec::new(alloc);
    for step in steps {
        let step = Value::Text(String::from_str(alloc, text_of(step))?);
        indexes.push(Expression::Literal(step))?;
    }
    Ok(Expression::Variable(Variable {
        name: String::from_str(alloc, text_of(name))?,
        indexes,
    }))
}

fn word_at(alloc: Global, words: &[Value], place: usize) -> Result<String> {
    let word = match words.get(place) {
        Some(value) => text_of(value),
        None => "",
    };
    Ok(String::from_str(alloc, word)?)
}

/// The style that the word names, or else that of items.
fn style_at(words: &[Value], place: usize) -> Style {
    match words.get(place).map_or("", text_of) {
        "text" => Style::Text,
        "path" => Style::PathFirst,
        _ => Style::Items,
    }
}

fn variable(alloc: Global, name: &str) -> Result<Expression> {
    Ok(Expression::Variable(Variable {
        name: String::from_str(alloc, name)?,
        indexes: Vec::new(alloc),
    }))
}

/// The partials of the options, parsed.
pub(crate) fn partials_of(alloc: Global, options: &Value, language: &Language) -> Result<Partials> {
    let mut partials = Partials::new(alloc);
    if let Some(sources) = map_option(options, "partials") {
        insert_each(alloc, &mut partials, sources, language)?;
    }
    Ok(partials)
}

fn insert_each(
    alloc: Global,
    partials: &mut Partials,
    sources: &Object,
    language: &Language,
) -> Result<()> {
    for (name, source) in sources.iter() {
        if let Value::Text(source) = source {
            insert(alloc, partials, name.as_str(), source.as_str(), language)?;
        }
    }
    Ok(())
}

fn insert(
    alloc: Global,
    partials: &mut Partials,
    name: &str,
    source: &str,
    language: &Language,
) -> Result<()> {
    let name = String::from_str(alloc, name)?;
    partials.insert(name, parse(alloc, source, language)?)
}

/// A copy of the data.
pub(crate) fn copied(alloc: Global, data: &Value) -> Result<Object> {
    match data.copy(alloc)? {
        Value::Object(pairs) => Ok(pairs),
        _ => Ok(Object::new(alloc)),
    }
}
