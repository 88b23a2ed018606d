//! Languages and partials: what is registered and put in; and the object of a loop.
use crate::given::number_or;
use liquid_core::{Error, Expression, Result, Value};
use liquid_filters::FilterKind;
use liquid_lib::stdlib::{ForloopObject, IfBlock};
use liquid_lib::{
    HostBlock, HostCall, HostKind, Language, Partials, Style, TagError, language, parse,
};
use liquid_parser::{BlockKind, TagKind};
use liquid_test_refusals::{Reporter, WorkedRow, items, text_of};
use std::alloc::{AllocError, Global};

/// Whether the standard language, as it is made, has the filter that the row's `source` names, and
/// that filter takes as many arguments as `on` says.
pub(crate) fn has_filter(alloc: Global, row: &WorkedRow) -> Result<bool> {
    let language = language(alloc)?;
    Ok(accepts(&language, row.source.as_str(), number_or(&row.on, 0)))
}

/// Whether the language has a filter of the name that takes `count` arguments.
fn accepts(language: &Language, name: &str, count: usize) -> bool {
    match language.filters.get(name) {
        Some(filter) => filter.accepts(count),
        None => false,
    }
}

/// The calls that put something in under a name.
const CALLS: [&str; 7] = [
    "Language::register_tag",
    "Language::register_block",
    "tags.register",
    "blocks.register",
    "filters.register",
    "filters.register_host",
    "Partials::insert",
];

/// Registers a kind of each sort under each name of the row, in a language of its own, and puts a
/// partial in under it.
pub(crate) fn registered<R: Print>(reporter: &Reporter<'_, R>, row: &WorkedRow) -> Result<()> {
    let mut language = Language::new(reporter.alloc);
    let mut partials = Partials::new(reporter.alloc);
    put_under_each(reporter, &mut language, &mut partials, items(&row.with))
}

fn put_under_each<R: Print>(
    reporter: &Reporter<'_, R>,
    language: &mut Language,
    partials: &mut Partials,
    names: &[Value],
) -> Result<()> {
    for name in names {
        put_under(reporter, language, partials, text_of(name))?;
    }
    Ok(())
}

fn put_under<R: Print>(
    reporter: &Reporter<'_, R>,
    language: &mut Language,
    partials: &mut Partials,
    name: &str,
) -> Result<()> {
    for call in CALLS {
        put_by(reporter, language, partials, call, name)?;
    }
    Ok(())
}

/// Makes a call, and again where it was refused memory.
fn put_by<R: Print>(
    reporter: &Reporter<'_, R>,
    language: &mut Language,
    partials: &mut Partials,
    call: &str,
    name: &str,
) -> Result<()> {
    reporter.begin();
    let answer = put(reporter.alloc, language, partials, call, name);
    reporter.end();
    match answer {
        Ok(()) if is_there(language, partials, call, name) => reporter.ended(call, name, "done"),
        Ok(()) => reporter.ended(call, name, "nothing_is_registered"),
        Err(fault) => {
            reporter.ended(call, name, fault.kind.name());
            put(reporter.alloc, language, partials, call, name)?;
        }
    }
    Ok(())
}

/// Puts something in under the name.
fn put(
    alloc: Global,
    language: &mut Language,
    partials: &mut Partials,
    call: &str,
    name: &str,
) -> Result<()> {
    let key = String::from_str(alloc, name)?;
    match call {
        "Language::register_tag" => put_host_tag(alloc, language, key),
        "Language::register_block" => put_host_block(alloc, language, key),
        "tags.register" => language.tags.register(key, TagKind::Assign),
        "blocks.register" => language
            .blocks
            .register(key, BlockKind::from(IfBlock::new())),
        "filters.register" => language.filters.register(key, FilterKind::Sort),
        "filters.register_host" => language.filters.register_host(key, 0, 2),
        _ => partials.insert(key, parse(alloc, "x{{ y }}", language)?),
    }
}

fn put_host_tag(alloc: Global, language: &mut Language, name: String) -> Result<()> {
    let call = HostCall {
        filter: String::from_str(alloc, "sort")?,
        input: Expression::Literal(Value::Nil),
        style: Style::Items,
        given: Vec::new(alloc),
    };
    past_refusal(language.register_tag(name, call))
}

fn put_host_block(alloc: Global, language: &mut Language, name: String) -> Result<()> {
    let block = HostBlock {
        filter: String::from_str(alloc, "upcase")?,
        style: Style::Text,
        given: Vec::new(alloc),
    };
    past_refusal(language.register_block(alloc, name, block))
}

/// A refused name is no fault here.
fn past_refusal(registered: std::result::Result<(), TagError>) -> Result<()> {
    match registered {
        Err(TagError::Memory) => Err(Error::from(AllocError)),
        Ok(()) | Err(TagError::Refused(_)) => Ok(()),
    }
}

/// Whether a host's tag of the name is there, or none can be.
fn is_host_tag(language: &Language, name: &str) -> bool {
    matches!(language.host_tags.get(name), Some(HostKind::Tag(_)))
        || language.name_refusal(name).is_some()
}

/// Whether a host's block of the name is there, or none can be.
fn is_host_block(language: &Language, name: &str) -> bool {
    matches!(language.host_tags.get(name), Some(HostKind::Block(_)))
        || language.name_refusal(name).is_some()
}

/// Whether what the call put in under the name is there.
fn is_there(language: &Language, partials: &Partials, call: &str, name: &str) -> bool {
    match call {
        "Language::register_tag" => is_host_tag(language, name),
        "Language::register_block" => is_host_block(language, name),
        "tags.register" => language.tags.get(name).is_some(),
        "blocks.register" => language.blocks.get(name).is_some(),
        "Partials::insert" => has_partial(partials, name),
        _ => accepts(language, name, 1),
    }
}

fn has_partial(partials: &Partials, name: &str) -> bool {
    match partials.get(name) {
        Some(partial) => partial.node_count() == 2,
        None => false,
    }
}

/// What `forloop` is at the second of three items, in a loop or in none.
pub(crate) fn forloop(alloc: Global, row: &WorkedRow) -> Result<Value> {
    let parent = match &row.on {
        Value::Nil => None,
        parent => Some(parent),
    };
    let forloop = ForloopObject::new(1, 3).parentloop(parent);
    Ok(Value::Object(forloop.to_object(alloc)?))
}
