//! Names that tags set to texts, and that conditions take for something else.
use crate::tag_output::plain_name;
use liquid_core::{Expression, Object, Value};
use liquid_evaluation::{Atom, ComparisonOperator, Condition, FilterChain};
use liquid_syntax::{Node, Position, Template};
use std::alloc::{AllocError, Global};
use std::collections::BTreeMap;

/// What a condition takes a text for.
#[derive(Clone, Copy)]
pub(crate) enum TakenFor {
    /// A number that it is compared with.
    Number,
    /// A truth value that it is compared with.
    Truth,
    /// What is false where it is empty.
    Test,
}

/// A name of a text in a condition.
#[derive(Clone, Copy, Drop)]
pub(crate) struct TextTest<'t> {
    pub name: &'t str,
    pub position: Position,
    pub taken_for: TakenFor,
}

/// What tags set a name to.
#[derive(Clone, Copy, Drop)]
struct SetTo {
    /// Whether each of them sets a text.
    is_text: bool,
    /// Where a `capture` that always runs sets it first.
    captured: Option<usize>,
}

type TextNames<'t> = BTreeMap<&'t str, SetTo>;

/// The conditions of a template that take a text for something else: a name that the data hasn't,
/// and that each `assign` and `capture` sets to a text. None where an `include` may set it too.
pub(crate) fn text_tests<'t>(
    alloc: Global,
    template: &'t Template,
    data: Option<&Object>,
) -> Result<Vec<TextTest<'t>>, AllocError> {
    let mut tests = Vec::new(alloc);
    if template.nodes().iter().any(|node| is_include(node)) {
        return Ok(tests);
    }
    let names = text_names(alloc, template)?;
    for (place, (node, position)) in template
        .nodes()
        .iter()
        .zip(template.positions())
        .enumerate()
    {
        if let Node::If(condition, _) | Node::Unless(condition, _) = node {
            let tested = Tested {
                names: &names,
                data,
                place,
                position: *position,
            };
            tested.add_of(condition, &mut tests)?;
        }
    }
    Ok(tests)
}

fn is_include(node: &Node) -> bool {
    matches!(node, Node::Include(_, _) | Node::JekyllInclude(_, _))
}

/// The names that a template sets, with what it sets them to.
fn text_names<'t>(alloc: Global, template: &'t Template) -> Result<TextNames<'t>, AllocError> {
    let mut names = BTreeMap::new(alloc);
    // where the bodies so far that may not run have ended
    let mut end = 0_usize;
    for (place, node) in template.nodes().iter().enumerate() {
        if let Some((name, is_text, is_captured)) = set_by(node) {
            let captured = (is_captured && place >= end).then_some(place);
            note(&mut names, name, SetTo { is_text, captured })?;
        }
        end = end.max(body_end(node));
    }
    Ok(names)
}

/// The name that a node sets or binds, whether to a text, and whether by a `capture`.
fn set_by(node: &Node) -> Option<(&str, bool, bool)> {
    match node {
        Node::Capture(name, _) => Some((name.as_str(), true, true)),
        Node::Assign(name, chain) => Some((name.as_str(), makes_text(chain), false)),
        Node::Increment(name) | Node::Decrement(name) => Some((name.as_str(), false, false)),
        Node::For(head, _) => Some((head.variable.as_str(), false, false)),
        Node::TableRow(head, _) => Some((head.variable.as_str(), false, false)),
        _ => None,
    }
}

/// Where the bodies of a node end that may not run, or run more than once.
fn body_end(node: &Node) -> usize {
    match node {
        Node::If(_, ends) | Node::Unless(_, ends) | Node::For(_, ends) => ends.last_end,
        Node::Case(_, _, end) | Node::TableRow(_, end) => *end,
        _ => 0,
    }
}

fn note<'t>(names: &mut TextNames<'t>, name: &'t str, set_to: SetTo) -> Result<(), AllocError> {
    let before = names.get(name).copied().unwrap_or(SetTo {
        is_text: true,
        captured: None,
    });
    let both = SetTo {
        is_text: before.is_text && set_to.is_text,
        captured: before.captured.or(set_to.captured),
    };
    drop(names.insert(name, both)?);
    Ok(())
}

/// Whether a chain always makes a text: it is a literal one, or ends with a filter that does.
fn makes_text(chain: &FilterChain) -> bool {
    match chain.filters.last() {
        Some(filter) => matches!(
            filter.filter.name(),
            "append" | "prepend" | "upcase" | "downcase" | "capitalize" | "strip" | "join"
        ),
        None => matches!(&chain.entry, Expression::Literal(Value::Text(_))),
    }
}

/// A condition that is looked at.
#[derive(Clone, Copy)]
struct Tested<'n, 't> {
    names: &'n TextNames<'t>,
    data: Option<&'n Object>,
    /// Where the node of the condition stands.
    place: usize,
    position: Position,
}

impl<'t> Tested<'_, 't> {
    /// Adds the first of a condition.
    fn add_of(
        &self,
        condition: &'t Condition,
        tests: &mut Vec<TextTest<'t>>,
    ) -> Result<(), AllocError> {
        for atoms in &condition.conjunctions {
            for atom in atoms {
                if let Some((name, taken_for)) = self.taken(atom) {
                    let position = self.position;
                    tests.push(TextTest {
                        name,
                        position,
                        taken_for,
                    })?;
                    return Ok(());
                }
            }
        }
        Ok(())
    }

    /// The name of a text in an atom, and what it is taken for.
    fn taken(&self, atom: &'t Atom) -> Option<(&'t str, TakenFor)> {
        match atom {
            Atom::Bare(value) => {
                let name = plain_name(value)?;
                let captured = self.text_of(name)?.captured?;
                (captured < self.place).then_some((name, TakenFor::Test))
            }
            Atom::Compared(_, ComparisonOperator::Contains, _) => None,
            Atom::Compared(left, _, right) => {
                self.beside(left, right).or(self.beside(right, left))
            }
        }
    }

    /// The name of a text beside a number or a truth value.
    fn beside(&self, value: &'t Expression, other: &Expression) -> Option<(&'t str, TakenFor)> {
        let name = plain_name(value)?;
        self.text_of(name)?;
        match other {
            Expression::Literal(Value::Integer(_)) => Some((name, TakenFor::Number)),
            Expression::Literal(Value::Bool(_)) => Some((name, TakenFor::Truth)),
            _ => None,
        }
    }

    /// What tags set a name to, where that is a text each time, and the data hasn't the name.
    fn text_of(&self, name: &str) -> Option<SetTo> {
        if let Some(data) = self.data {
            if data.get(name).is_some() {
                return None;
            }
        }
        let set_to = self.names.get(name).copied()?;
        set_to.is_text.then_some(set_to)
    }
}
