//! The names that a template reads of its data, found in one walk over its nodes. Nothing here has
//! a contract: what comes of it is tested by `are_scoped`.
ghost use Rattle.liquid_uses.specs.inside.Telling.{trivial};

use crate::partial_reads::{Included, Targets, included_by, reading_of};
use crate::readings::{Reading, Readings};
use crate::reads::visit_reads;
use crate::scopes::{Reader, Scopes};
use liquid_evaluation::NameVisitor;
use liquid_syntax::{Node, add_name};
use std::alloc::{AllocError, Global};
use std::collections::{BTreeMap, BTreeSet};

/// Gathers the names that it is given and that aren't visible to a reader.
#[derive(Drop)]
struct Gather<'n> {
    alloc: Global,
    reader: Reader<'n>,
    names: BTreeSet<String>,
}

impl NameVisitor for Gather<'_> {
    ghost tells = { λ before names ended after. Unit {0} };

    fn visit(&mut self, name: &str) -> bool {
        if self.reader.is_visible(name) {
            return false;
        }
        add_name(self.alloc, &mut self.names, name).is_err()
    }

    ghost laws = { trivial };
}

/// For each node where the body ends that it stands in.
pub(crate) fn body_ends(alloc: Global, nodes: &[Node]) -> Result<Vec<usize>, AllocError> {
    let mut ends = Vec::new(alloc);
    let mut open = Vec::new(alloc);
    open.push(nodes.len())?;
    for (at, node) in nodes.iter().enumerate() {
        while let Some(end) = open.last()
            && *end <= at
        {
            let _ = open.pop();
        }
        ends.push(open.last().copied().unwrap_or(nodes.len()))?;
        open_bodies(&mut open, node)?;
    }
    Ok(ends)
}

/// Enters the bodies of a node, of which the first is left first.
fn open_bodies(open: &mut Vec<usize>, node: &Node) -> Result<(), AllocError> {
    match node {
        Node::If(_, bodies) | Node::Unless(_, bodies) | Node::For(_, bodies) => {
            open.push(bodies.last_end)?;
            open.push(bodies.first_end)?;
        }
        Node::Capture(_, end)
        | Node::TableRow(_, end)
        | Node::IfChanged(end)
        | Node::Filtered(_, end) => {
            open.push(*end)?;
        }
        Node::Case(_, arms, end) => {
            open.push(*end)?;
            for arm in arms.iter().rev() {
                open.push(arm.end)?;
            }
        }
        _ => {}
    }
    Ok(())
}

/// The names that are read where they aren't bound, where partials read these.
pub(crate) fn free_names(
    alloc: Global,
    nodes: &[Node],
    ends: &[usize],
    readings: &Readings,
) -> Result<Reading, AllocError> {
    let mut free = BTreeSet::new(alloc);
    let mut binders = BTreeMap::new(alloc);
    for (at, node) in nodes.iter().enumerate() {
        let scopes = Scopes {
            nodes,
            ends,
            readings,
            kept: &free,
        };
        let reader = Reader {
            scopes,
            binders: &binders,
            at,
        };
        let Some(names) = names_unbound(alloc, reader, node)? else {
            return Ok(Reading::Any);
        };
        note_binders(alloc, &mut binders, scopes, at)?;
        for name in names {
            free.insert(name)?;
        }
    }
    Ok(Reading::Only(free))
}

/// The names that a node and a partial that it includes read and that aren't visible. None where
/// that may be any name.
fn names_unbound(
    alloc: Global,
    reader: Reader<'_>,
    node: &Node,
) -> Result<Option<BTreeSet<String>>, AllocError> {
    let mut gather = Gather {
        alloc,
        reader,
        names: BTreeSet::new(alloc),
    };
    if visit_reads(node, &mut gather) {
        return Err(AllocError);
    }
    let is_listed = match included_by(node) {
        Included::Nothing => true,
        Included::Unknown => false,
        Included::Named(name, targets) => gather.add_read(name, targets)?,
    };
    let Gather { names, .. } = gather;
    if is_listed { Ok(Some(names)) } else { Ok(None) }
}

impl Gather<'_> {
    /// What a partial reads that these pairs don't bind. The answer is whether that is known.
    fn add_read(&mut self, name: &str, targets: Targets<'_>) -> Result<bool, AllocError> {
        match reading_of(self.reader.scopes.readings, name) {
            Some(Reading::Only(names)) => {
                for name in names {
                    if !targets.bind(name.as_str()) && self.visit(name.as_str()) {
                        return Err(AllocError);
                    }
                }
                Ok(true)
            }
            Some(Reading::Any) => Ok(false),
            None => Ok(true),
        }
    }
}

/// Notes the names that a node binds. Each note is tested where it is used.
pub(crate) fn note_binders(
    alloc: Global,
    binders: &mut BTreeMap<String, usize>,
    scopes: Scopes<'_>,
    at: usize,
) -> Result<(), AllocError> {
    match scopes.nodes.get(at) {
        Some(Node::Assign(name, _) | Node::Capture(name, _)) => {
            note(alloc, binders, scopes, at, name.as_str())
        }
        Some(Node::Increment(name) | Node::Decrement(name)) => {
            note(alloc, binders, scopes, at, name.as_str())
        }
        Some(Node::For(head, _)) => {
            note(alloc, binders, scopes, at, "forloop")?;
            note(alloc, binders, scopes, at, head.variable.as_str())
        }
        Some(Node::TableRow(head, _)) => {
            note(alloc, binders, scopes, at, "tablerow")?;
            note(alloc, binders, scopes, at, head.variable.as_str())
        }
        _ => Ok(()),
    }
}

/// Notes a name, unless it is bound already: then it is so for at least as long.
fn note(
    alloc: Global,
    binders: &mut BTreeMap<String, usize>,
    scopes: Scopes<'_>,
    at: usize,
    name: &str,
) -> Result<(), AllocError> {
    match binders.get_mut(name) {
        Some(place) => {
            if !scopes.binds(*place, at, name) {
                *place = at;
            }
            Ok(())
        }
        None => {
            drop(binders.insert(String::from_str(alloc, name)?, at)?);
            Ok(())
        }
    }
}
