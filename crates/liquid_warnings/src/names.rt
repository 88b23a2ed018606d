//! The names that templates read and set.
ghost use Rattle.std.specs.Prelude.{◌≡◌, IfOk, IfSome, codes, string_bytes};
ghost use Rattle.liquid_warnings.specs.Messages.{unused_message};
ghost use Rattle.liquid_warnings.specs.Remarks.{remark_view, warning};
ghost use Rattle.liquid_warnings.specs.Sorts.{IsUnknownName, IsUnusedName};
ghost use Rattle.liquid_warnings.specs.inside.Tellings.{trivial_telling};

use crate::escaped_twice::shown_escaped;
use crate::messages::lack_message;
use crate::remark::Remark;
use crate::suggestions::{KnownNames, Suggestions, suggestion_for};
use liquid_core::Quoted;
use liquid_evaluation::{
    NameVisitor, visit_chain, visit_condition, visit_expression, visit_expressions, visit_filters,
    visit_optional, visit_source,
};
use liquid_syntax::{Binding, Node, Position, Template, WindowExpression};
use std::alloc::{AllocError, Global};
use std::collections::{BTreeMap, BTreeSet};

/// Names, each with the place where it stands first.
pub(crate) type Places = BTreeMap<String, Position>;

/// The names of a template.
#[derive(Drop)]
pub(crate) struct NamesOf {
    /// Those that it reads.
    pub read: Places,
    /// Those that an `assign` or a `capture` sets.
    pub stored: Places,
    /// Those that a tag sets or binds: these, counters, the variables of loops and the pairs of
    /// partials.
    pub set: BTreeSet<String>,
    /// Those of captured texts that an output escapes.
    pub escaped: Places,
}

/// The names that a template reads and sets.
pub(crate) fn names_of(alloc: Global, template: &Template) -> Result<NamesOf, AllocError> {
    let mut read = Gather {
        alloc,
        names: BTreeMap::new(alloc),
        position: Position { line: 1, column: 1 },
    };
    let mut stored = BTreeMap::new(alloc);
    let mut set = BTreeSet::new(alloc);
    for (node, position) in template.nodes().iter().zip(template.positions()) {
        read.position = *position;
        if read_node(node, &mut read) {
            return Err(AllocError);
        }
        if let Node::Assign(name, _) | Node::Capture(name, _) = node {
            add_place(alloc, &mut stored, name.as_str(), *position)?;
        }
        add_set(alloc, node, &mut set)?;
    }
    let Gather {
        alloc: _,
        names,
        position: _,
    } = read;
    Ok(NamesOf {
        read: names,
        stored,
        set,
        escaped: shown_escaped(alloc, template)?,
    })
}

/// `UnknownName`: neither the data nor a tag has the name.
pub(crate) fn unknown_name(
    alloc: Global,
    known: KnownNames<'_>,
    suggestions: &Suggestions,
    name: &str,
    position: Position,
) -> Result<Option<Remark>, AllocError>
    ensures { IfOk result (λ r. IfSome r (λ w. IsUnknownName (remark_view w))) }
{
    if known.has(name) {
        return Ok(None);
    }
    let similar = suggestion_for(suggestions, name);
    let message = lack_message(alloc, "the data has no", name, similar)?;
    Ok(Some(Remark::warning(position, "UnknownName", message)))
}

/// The warning about a name that an `assign` or a `capture` sets, unless it is read.
pub(crate) fn unused_name(
    alloc: Global,
    name: &str,
    position: Position,
    is_read: bool,
) -> Result<Option<Remark>, AllocError>
    ensures { IfOk result (λ r. IfSome r (λ w. IsUnusedName (remark_view w))) }
{
    if is_read {
        return Ok(None);
    }
    Ok(Some(unused_variable(alloc, name, position)?))
}

/// `UnusedVariable`: an `assign` or a `capture` sets a name that nothing reads.
fn unused_variable(alloc: Global, name: &str, position: Position) -> Result<Remark, AllocError>
    ensures { IfOk result (λ r. remark_view r
        ≡ warning position (codes "UnusedVariable") (unused_message name.now)) }
{
    let message = unused_message(alloc, name)?;
    Ok(Remark::warning(position, "UnusedVariable", message))
}

fn unused_message(alloc: Global, name: &str) -> Result<String, AllocError>
    ensures { IfOk result (λ message. string_bytes message ≡ unused_message name.now) }
{
    let name = Quoted { text: name };
    format!(in alloc; "`{name}` is set here, and nothing reads it")
}

/// Gathers the names that it is given, each with the place where it stands first, and ends the
/// visit where there is no room for one.
#[derive(Drop)]
struct Gather {
    alloc: Global,
    names: Places,
    /// Where the names stand that are given now.
    position: Position,
}

impl NameVisitor for Gather {
    ghost tells = { λ before names ended after. Unit {0} };

    fn visit(&mut self, name: &str) -> bool {
        add_place(self.alloc, &mut self.names, name, self.position).is_err()
    }

    ghost laws = { trivial_telling };
}

/// Adds a name with its place, unless it is there.
pub(crate) fn add_place(
    alloc: Global,
    places: &mut Places,
    name: &str,
    position: Position,
) -> Result<(), AllocError> {
    if places.get(name).is_none() {
        drop(places.insert(String::from_str(alloc, name)?, position)?);
    }
    Ok(())
}

/// Gives a visitor the names that a node reads, and not those of its bodies. The answer is whether
/// the visitor ended the visit.
fn read_node<V: NameVisitor>(node: &Node, visitor: &mut V) -> bool {
    match node {
        Node::Output(chain) | Node::Assign(_, chain) => visit_chain(chain, visitor),
        Node::If(condition, _) | Node::Unless(condition, _) => visit_condition(condition, visitor),
        Node::Case(target, arms, _) => {
            let mut is_ended = visit_expression(target, visitor);
            for arm in arms {
                is_ended = is_ended || visit_expressions(&arm.values, visitor);
            }
            is_ended
        }
        Node::For(head, _) => {
            visit_source(&head.source, visitor) || read_window(&head.window, visitor)
        }
        Node::TableRow(head, _) => {
            visit_source(&head.source, visitor)
                || read_window(&head.window, visitor)
                || visit_optional(&head.cols, visitor)
        }
        Node::Cycle(_, values) => visit_expressions(values, visitor),
        Node::Filtered(filters, _) => visit_filters(filters, visitor),
        Node::JekyllInclude(_, pairs) => read_values(pairs, visitor),
        Node::Include(name, pairs) | Node::Render(name, pairs) => {
            visit_expression(name, visitor) || read_values(pairs, visitor)
        }
        Node::RenderEach(name, each, pairs) => {
            visit_expression(name, visitor)
                || visit_source(&each.source, visitor)
                || read_values(pairs, visitor)
        }
        _ => false,
    }
}

fn read_window<V: NameVisitor>(window: &WindowExpression, visitor: &mut V) -> bool {
    visit_optional(&window.limit, visitor) || visit_optional(&window.offset, visitor)
}

fn read_values<V: NameVisitor>(pairs: &[Binding], visitor: &mut V) -> bool {
    for pair in pairs {
        if visit_expression(&pair.value, visitor) {
            return true;
        }
    }
    false
}

/// Adds the names that a node sets or binds.
fn add_set(alloc: Global, node: &Node, set: &mut BTreeSet<String>) -> Result<(), AllocError> {
    match node {
        Node::Assign(name, _)
        | Node::Capture(name, _)
        | Node::Increment(name)
        | Node::Decrement(name) => add_name(alloc, set, name.as_str()),
        Node::For(head, _) => {
            add_name(alloc, set, "forloop")?;
            add_name(alloc, set, head.variable.as_str())
        }
        Node::TableRow(head, _) => {
            add_name(alloc, set, "tablerow")?;
            add_name(alloc, set, head.variable.as_str())
        }
        Node::RenderEach(_, each, pairs) => {
            add_name(alloc, set, "forloop")?;
            add_name(alloc, set, each.variable.as_str())?;
            add_targets(alloc, set, pairs)
        }
        Node::Include(_, pairs) | Node::Render(_, pairs) => add_targets(alloc, set, pairs),
        Node::JekyllInclude(_, _) => add_name(alloc, set, "include"),
        _ => Ok(()),
    }
}

fn add_targets(
    alloc: Global,
    set: &mut BTreeSet<String>,
    pairs: &[Binding],
) -> Result<(), AllocError> {
    for pair in pairs {
        add_name(alloc, set, pair.name.as_str())?;
    }
    Ok(())
}

/// Adds a name to a set, which has each once.
pub(crate) fn add_name(
    alloc: Global,
    set: &mut BTreeSet<String>,
    name: &str,
) -> Result<(), AllocError> {
    if !set.contains(name) {
        set.insert(String::from_str(alloc, name)?)?;
    }
    Ok(())
}

/// Adds names to a set.
pub(crate) fn add_names(
    alloc: Global,
    names: &BTreeSet<String>,
    set: &mut BTreeSet<String>,
) -> Result<(), AllocError> {
    for name in names {
        add_name(alloc, set, name.as_str())?;
    }
    Ok(())
}
