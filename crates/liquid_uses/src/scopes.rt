//! Where names are bound in the list of nodes of a template: a test of what was found.
ghost use Rattle.std.specs.Prelude.{◌≡◌, true};
ghost use Rattle.liquid_uses.specs.inside.Scopes.{BindsIn, Tests, end_at, ends_at, is_either};
ghost use Rattle.liquid_uses.specs.inside.Scopes.{kept_in, visible_to};
ghost use Rattle.liquid_uses.specs.inside.Telling.{tests};

use crate::readings::Readings;
use liquid_evaluation::NameVisitor;
use liquid_syntax::Node;
use std::collections::{BTreeMap, BTreeSet};

/// What is said of the list of nodes of a template.
#[derive(Clone, Copy, Drop)]
pub(crate) struct Scopes<'n> {
    pub nodes: &'n [Node],
    /// For each node where the body ends that it stands in.
    pub ends: &'n [usize],
    /// What partials read of what is around the place that includes them.
    pub readings: &'n Readings,
    /// The names that may be read where they aren't bound.
    pub kept: &'n BTreeSet<String>,
}

/// Tests the names that are read at an index, and ends the visit where one isn't bound there and
/// isn't kept.
#[derive(Clone, Copy, Drop)]
pub(crate) struct Reader<'n> {
    pub scopes: Scopes<'n>,
    /// A node that binds a name, by the name. It is tested before it is believed.
    pub binders: &'n BTreeMap<String, usize>,
    pub at: usize,
}

impl NameVisitor for Reader<'_> {
    ghost tells = { Tests };

    fn visit(&mut self, name: &str) -> bool {
        !self.is_visible(name)
    }

    ghost laws = { tests };
}

impl Reader<'_> {
    pub(crate) fn is_visible(&self, name: &str) -> bool
        ensures { result ≡ true → visible_to self.now name.now }
    {
        if self.scopes.is_kept(name) {
            return true;
        }
        match self.binders.get(name) {
            Some(place) => self.is_bound(*place, name),
            None => false,
        }
    }

    fn is_bound(&self, place: usize, name: &str) -> bool
        ensures { result ≡ true → visible_to self.now name.now }
    {
        if place >= self.at || place >= self.scopes.nodes.len() {
            return false;
        }
        let end = self.scopes.end_at(place);
        binds_at(&self.scopes.nodes[place], end, self.at, name)
    }
}

impl Scopes<'_> {
    fn is_kept(&self, name: &str) -> bool
        ensures { result ≡ true → kept_in self.now name.now ≡ true }
    {
        self.kept.contains(name)
    }

    /// Where the body ends that a node stands in.
    pub(crate) fn end_at(&self, place: usize) -> usize
        ensures { result ≡ end_at self.now.ends.now place }
    {
        match self.ends.get(place) {
            Some(end) => *end,
            None => 0,
        }
    }

    /// Whether a node binds a name at a later index.
    pub(crate) fn binds(&self, place: usize, at: usize, name: &str) -> bool {
        match self.nodes.get(place) {
            Some(node) => binds_at(node, self.end_at(place), at, name),
            None => false,
        }
    }

    /// Whether a body between two indices is empty, or its first node stands in it.
    pub(crate) fn ends_at(&self, start: usize, end: usize) -> bool
        ensures { result ≡ ends_at self.now.ends.now start end }
    {
        start == end || self.end_at(start) == end
    }
}

/// Whether a node in a body that ends at `end` binds a name at a later index.
fn binds_at(node: &Node, end: usize, at: usize, name: &str) -> bool
    ensures { result ≡ true → BindsIn node.now end at name.now }
{
    match node {
        Node::Assign(own, _) => name == own.as_str() && at < end,
        Node::Increment(own) => name == own.as_str() && at < end,
        Node::Decrement(own) => name == own.as_str() && at < end,
        Node::Capture(own, last) => name == own.as_str() && *last <= at && at < end,
        Node::For(head, bodies) => {
            is_either("forloop", head.variable.as_str(), name) && at < bodies.first_end
        }
        Node::TableRow(head, last) => {
            is_either("tablerow", head.variable.as_str(), name) && at < *last
        }
        Node::Text(_) | Node::Raw(_) | Node::Comment | Node::Output(_) => false,
        Node::Break | Node::Continue | Node::Cycle(_, _) => false,
        Node::IfChanged(_) | Node::Filtered(_, _) => false,
        Node::If(_, _) | Node::Unless(_, _) | Node::Case(_, _, _) => false,
        Node::Include(_, _) | Node::JekyllInclude(_, _) => false,
        Node::Render(_, _) | Node::RenderEach(_, _, _) => false,
    }
}

fn is_either(first: &str, second: &str, name: &str) -> bool
    ensures { result ≡ is_either first.now second.now name.now }
{
    name == first || name == second
}
