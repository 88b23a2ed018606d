//! Whether the names that a partial reads are bound where it is included: a test of what was found.
ghost use Rattle.std.specs.Prelude.{◌≡◌, T, not, true, option_map, Some, IfOk, IfErr};
ghost use Rattle.liquid_evaluation.specs.Names.{mentioned};
ghost use Rattle.liquid_language.specs.Entries.{seen};
ghost use Rattle.liquid_meaning.specs.FreeNames.{CoversPartials, PartialsRead, nodes_reads};
ghost use Rattle.liquid_meaning.specs.FreeNames.{unbound};
ghost use Rattle.liquid_model.specs.Maps.{listed};
ghost use Rattle.liquid_model.specs.Texts.{Text};
ghost use Rattle.liquid_syntax.specs.NameSets.{mentioned_in_set};
ghost use Rattle.liquid_syntax.specs.Templates.{partials_of, tree_of};
ghost use Rattle.liquid_uses.specs.inside.Readings.{SlotKnown, included_reads, reads_in};
ghost use Rattle.liquid_uses.specs.inside.Readings.{targets_of};
ghost use Rattle.liquid_uses.specs.inside.Scopes.{partial_reads, visible_to};

use crate::free_names::body_ends;
use crate::readings::{Reading, Readings};
use crate::scoped::are_scoped;
use crate::scopes::{Reader, Scopes};
use liquid_core::{ErrorKind, Expression, Result, Value};
use liquid_syntax::{Binding, Node, Partials, Template, binds_include, binds_name};
use std::alloc::Global;
use std::collections::BTreeSet;

/// The pairs of an include, which bind names in the partial.
#[derive(Clone, Copy, Drop)]
pub(crate) enum Targets<'n> {
    /// Each pair its own name.
    Each(&'n [Binding]),
    /// All of them `include`.
    Include(&'n [Binding]),
}

/// The partial that a node includes, and the pairs there.
#[derive(Clone, Copy, Drop)]
pub(crate) enum Included<'n> {
    /// None.
    Nothing,
    /// One whose name only a run knows.
    Unknown,
    /// That of this name.
    Named(&'n str, Targets<'n>),
}

impl Targets<'_> {
    pub(crate) fn bind(&self, name: &str) -> bool
        ensures { result ≡ mentioned (targets_of self.now) name.now }
    {
        match self {
            Targets::Each(pairs) => binds_name(pairs, name),
            Targets::Include(pairs) => binds_include(pairs, name),
        }
    }
}

/// The partial that a node includes.
pub(crate) fn included_by(node: &Node) -> Included<'_>
    ensures { (R : PartialsRead) (q : Text) → T (partial_reads R node.now q)
        → T (included_reads R result q) }
{
    match node {
        Node::Include(Expression::Literal(Value::Text(name)), pairs) => {
            Included::Named(name.as_str(), Targets::Each(pairs))
        }
        Node::Include(_, _) => Included::Unknown,
        Node::JekyllInclude(name, pairs) => {
            Included::Named(name.as_str(), Targets::Include(pairs))
        }
        _ => Included::Nothing,
    }
}

/// What was found of a partial.
pub(crate) fn reading_of<'n>(readings: &'n Readings, name: &str) -> Option<&'n Reading>
    ensures { option_map (λ r. r.now) result ≡
        listed (seen (λ r. r) readings.now.entries) name.now }
{
    readings.get(name)
}

impl Reader<'_> {
    /// Whether what the partial reads that a node includes is bound by its pairs, or where the node
    /// stands, or kept.
    pub(crate) fn sees_partial(&self, node: &Node) -> bool
        ensures { result ≡ true → (q : Text)
            → T (partial_reads (reads_in self.now.scopes.readings.now.entries) node.now q)
            → visible_to self.now q }
    {
        match included_by(node) {
            Included::Nothing => true,
            Included::Unknown => false,
            Included::Named(name, targets) => self.sees_named(name, targets),
        }
    }

    fn sees_named(&self, name: &str, targets: Targets<'_>) -> bool
        ensures { result ≡ true → (q : Text)
            → T (unbound (targets_of targets.entry)
            (reads_in self.now.scopes.readings.now.entries (Some name.now)) q)
            → visible_to self.now q }
    {
        match reading_of(self.scopes.readings, name) {
            Some(Reading::Only(names)) => self.sees_all(names, targets),
            Some(Reading::Any) => false,
            None => true,
        }
    }

    fn sees_all(&self, names: &BTreeSet<String>, targets: Targets<'_>) -> bool
        ensures { result ≡ true → (q : Text)
            → T (unbound (targets_of targets.entry) (mentioned_in_set names.now) q)
            → visible_to self.now q }
    {
        for name in names.iter() {
            if !self.sees_one(name.as_str(), targets) {
                return false;
            }
        }
        true
    }

    fn sees_one(&self, name: &str, targets: Targets<'_>) -> bool
        ensures { result ≡ true → T (not (mentioned (targets_of targets.entry) name.now))
            → visible_to self.now name.now }
    {
        targets.bind(name) || self.is_visible(name)
    }
}

/// Whether each partial reads no other names than were found of it.
///
/// `Memory` where there is no room for the names that are bound.
pub(crate) fn are_known(alloc: Global, readings: &Readings, partials: &Partials) -> Result<bool>
    ensures covered { IfOk result (λ b. b ≡ true → CoversPartials (reads_in readings.now.entries)
        (partials_of partials.now)) }
    ensures memory { IfErr result (λ e. e.kind ≡ ErrorKind.Memory) }
{
    for (name, slot) in partials.slots() {
        let is_known = is_known(alloc, readings, name.as_str(), slot)?;
        if !is_known {
            return Ok(false);
        }
    }
    Ok(true)
}

fn is_known(alloc: Global, readings: &Readings, name: &str, slot: &Option<Template>) -> Result<bool>
    ensures known { IfOk result (λ b. b ≡ true → SlotKnown readings.now.entries name.now slot.now) }
    ensures memory { IfErr result (λ e. e.kind ≡ ErrorKind.Memory) }
{
    match slot {
        Some(partial) => reads_known(alloc, readings, name, partial),
        None => Ok(true),
    }
}

fn reads_known(alloc: Global, readings: &Readings, name: &str, partial: &Template) -> Result<bool>
    ensures known { IfOk result (λ b. b ≡ true → SlotKnown readings.now.entries name.now
        (Some partial.now)) }
    ensures memory { IfErr result (λ e. e.kind ≡ ErrorKind.Memory) }
{
    match reading_of(readings, name) {
        Some(Reading::Only(names)) => names_known(alloc, readings, names, partial),
        Some(Reading::Any) => Ok(true),
        None => Ok(false),
    }
}

fn names_known(
    alloc: Global,
    readings: &Readings,
    names: &BTreeSet<String>,
    partial: &Template,
) -> Result<bool>
    ensures known { IfOk result (λ b. b ≡ true → (q : Text)
        → T (nodes_reads (reads_in readings.now.entries) (tree_of partial.now) q)
        → T (mentioned_in_set names.now q)) }
    ensures memory { IfErr result (λ e. e.kind ≡ ErrorKind.Memory) }
{
    let nodes = partial.nodes();
    let ends = body_ends(alloc, nodes)?;
    let scopes = Scopes {
        nodes,
        ends: &ends,
        readings,
        kept: names,
    };
    let is_scoped = are_scoped(alloc, scopes)?;
    Ok(is_scoped)
}
