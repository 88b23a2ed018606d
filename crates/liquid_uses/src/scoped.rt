//! Whether each name that a template reads is bound where it is read, or kept: a test of scopes
//! that were found.
ghost use Rattle.std.specs.Prelude.{◌≡◌, ◌+◌, ◌≤◌, ◌&&◌, ◌++◌, ◌∷◌, [], length, true, IfOk, IfErr};
ghost use Rattle.liquid_syntax.specs.Flats.{arm_ends};
ghost use Rattle.liquid_uses.specs.inside.Readings.{reads_in};
ghost use Rattle.liquid_uses.specs.inside.Scopes.{AreScoped, NodeScoped, bodies_end};
ghost use Rattle.liquid_uses.specs.inside.Scopes.{ends_after, ends_at, kept_in};

use crate::free_names::note_binders;
use crate::reads::visit_reads;
use crate::scopes::{Reader, Scopes};
use liquid_core::{ErrorKind, Result};
use liquid_syntax::{Arm, BodyEnds, Node};
use std::alloc::Global;
use std::collections::BTreeMap;

/// Whether all bodies end where they are said to, and each name is bound where it is read, or kept,
/// also where a partial reads it that is included.
///
/// `Memory` where there is no room for the names that are bound.
pub(crate) fn are_scoped(alloc: Global, scopes: Scopes<'_>) -> Result<bool>
    ensures scoped { IfOk result (λ b. b ≡ true →
        AreScoped (reads_in scopes.entry.readings.now.entries) (kept_in scopes.entry)
        scopes.entry.nodes.now scopes.entry.ends.now) }
    ensures memory { IfErr result (λ e. e.kind ≡ ErrorKind.Memory) }
{
    if !scopes.ends_at(0, scopes.nodes.len()) {
        return Ok(false);
    }
    let mut binders = BTreeMap::new(alloc);
    for at in 0..scopes.nodes.len() {
        let node = &scopes.nodes[at];
        if !is_scoped(scopes, &binders, at, node) {
            return Ok(false);
        }
        note_binders(alloc, &mut binders, scopes, at)?;
    }
    Ok(true)
}

/// A node at an index.
fn is_scoped(scopes: Scopes<'_>, binders: &BTreeMap<String, usize>, at: usize, node: &Node) -> bool
    requires { at + 1 ≤ length scopes.nodes.now }
    ensures { result ≡ true → NodeScoped scopes.entry at node.now }
{
    if !ends_after(scopes, at, at + 1, node) {
        return false;
    }
    let mut reader = Reader {
        scopes,
        binders,
        at,
    };
    if visit_reads(node, &mut reader) {
        return false;
    }
    reader.sees_partial(node)
}

/// Whether the bodies of a node, of which the first begins at `next`, end where they are said to,
/// and what follows in its own body does.
fn ends_after(scopes: Scopes<'_>, at: usize, next: usize, node: &Node) -> bool
    ensures { result ≡ true → ends_after scopes.entry.ends.now at next node.now ≡ true }
{
    let end = scopes.end_at(at);
    match node {
        Node::If(_, bodies) => two_end(scopes, next, bodies, end),
        Node::Unless(_, bodies) => two_end(scopes, next, bodies, end),
        Node::For(_, bodies) => two_end(scopes, next, bodies, end),
        Node::Capture(_, last) => scopes.ends_at(next, *last) && scopes.ends_at(*last, end),
        Node::TableRow(_, last) => scopes.ends_at(next, *last) && scopes.ends_at(*last, end),
        Node::IfChanged(last) => scopes.ends_at(next, *last) && scopes.ends_at(*last, end),
        Node::Filtered(_, last) => scopes.ends_at(next, *last) && scopes.ends_at(*last, end),
        Node::Case(_, arms, last) => {
            arms_end(scopes, next, arms, *last) && scopes.ends_at(*last, end)
        }
        Node::Text(_) | Node::Raw(_) | Node::Comment | Node::Output(_) => scopes.ends_at(next, end),
        Node::Assign(_, _) | Node::Increment(_) | Node::Decrement(_) => scopes.ends_at(next, end),
        Node::Break | Node::Continue | Node::Cycle(_, _) => scopes.ends_at(next, end),
        Node::Include(_, _) | Node::JekyllInclude(_, _) => scopes.ends_at(next, end),
        Node::Render(_, _) | Node::RenderEach(_, _, _) => scopes.ends_at(next, end),
    }
}

fn two_end(scopes: Scopes<'_>, next: usize, bodies: &BodyEnds, end: usize) -> bool
    ensures { result ≡ true → (bodies_end scopes.entry.ends.now next
        (bodies.now.first_end ∷ bodies.now.last_end ∷ []) && ends_at scopes.entry.ends.now
        bodies.now.last_end end) ≡ true }
{
    scopes.ends_at(next, bodies.first_end)
        && scopes.ends_at(bodies.first_end, bodies.last_end)
        && scopes.ends_at(bodies.last_end, end)
}

/// The bodies of a `case`.
fn arms_end(scopes: Scopes<'_>, next: usize, arms: &[Arm], last: usize) -> bool
    ensures { result ≡ true → bodies_end scopes.entry.ends.now next
        (arm_ends arms.now ++ last ∷ []) ≡ true }
{
    let mut start = next;
    for arm in arms {
        if !scopes.ends_at(start, arm.end) {
            return false;
        }
        start = arm.end;
    }
    scopes.ends_at(start, last)
}
