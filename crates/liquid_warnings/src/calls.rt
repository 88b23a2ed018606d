//! The partials that templates run.
ghost use Rattle.std.specs.Prelude.{◌≡◌, ◌++◌, IfOk, codes, option_map};
ghost use Rattle.std.specs.BTreeMap.{get_by_text};
ghost use Rattle.liquid_warnings.specs.Calls.{called_by, partial_file};

use crate::literals::literal_text;
use liquid_syntax::{Binding, Node, Position, Template};
use std::alloc::{AllocError, Global};
use std::collections::BTreeMap;

/// The places of the files of partials, by the partials' names.
pub(crate) type PartialFiles = BTreeMap<String, usize>;

/// A tag that runs a partial.
#[derive(Clone, Copy)]
pub(crate) struct Call<'t> {
    pub position: Position,
    /// The name of the partial; none where the run alone knows it.
    pub name: Option<&'t str>,
    /// The place of its file, where there is one.
    pub file: Option<usize>,
    /// Whether the partial sees only what it is given.
    pub is_render: bool,
    /// The pairs that it is given.
    pub pairs: &'t [Binding],
    /// The name of the item, of a `render` that runs once for each.
    pub item: Option<&'t str>,
}

/// The tags of a template that run partials.
pub(crate) fn calls_of<'t>(
    alloc: Global,
    partials: &PartialFiles,
    template: &'t Template,
) -> Result<Vec<Call<'t>>, AllocError> {
    let mut calls = Vec::new(alloc);
    for (node, position) in template.nodes().iter().zip(template.positions()) {
        if let Some((name, is_render)) = called_by(node) {
            calls.push(Call {
                position: *position,
                name,
                file: file_of(alloc, partials, name, is_render)?,
                is_render,
                pairs: pairs_of(node),
                item: item_of(node),
            })?;
        }
    }
    Ok(calls)
}

/// The name of the partial that a node runs, where it runs one, and whether it is a `render`.
fn called_by(node: &Node) -> Option<(Option<&str>, bool)>
    ensures { option_map (λ p. (option_map (λ n. n.now) p.0, p.1)) result ≡ called_by node.now }
{
    match node {
        Node::Include(name, _) => Some((literal_text(name), false)),
        Node::JekyllInclude(name, _) => Some((Some(name.as_str()), false)),
        Node::Render(name, _) | Node::RenderEach(name, _, _) => Some((literal_text(name), true)),
        _ => None,
    }
}

/// The pairs of a node that runs a partial, as far as they are names of it.
fn pairs_of(node: &Node) -> &[Binding] {
    match node {
        Node::Include(_, pairs) | Node::Render(_, pairs) | Node::RenderEach(_, _, pairs) => pairs,
        _ => &[],
    }
}

fn item_of(node: &Node) -> Option<&str> {
    match node {
        Node::RenderEach(_, each, _) => Some(each.variable.as_str()),
        _ => None,
    }
}

/// The file of a partial, which a `render` also finds by its name with `.liquid`.
fn file_of(
    alloc: Global,
    partials: &PartialFiles,
    name: Option<&str>,
    is_render: bool,
) -> Result<Option<usize>, AllocError>
    ensures { IfOk result (λ file. file ≡ partial_file (λ n. get_by_text partials.now n)
        (option_map (λ n. n.now) name.entry) is_render) }
{
    let Some(name) = name else {
        return Ok(None);
    };
    match partials.get(name) {
        Some(file) => Ok(Some(*file)),
        None => if is_render {
            file_with_suffix(alloc, partials, name)
        } else {
            Ok(None)
        },
    }
}

/// The file of a partial by its name with `.liquid`.
fn file_with_suffix(
    alloc: Global,
    partials: &PartialFiles,
    name: &str,
) -> Result<Option<usize>, AllocError>
    ensures { IfOk result (λ file. file
        ≡ get_by_text partials.now (name.now ++ codes ".liquid")) }
{
    let whole = format!(in alloc; "{name}.liquid")?;
    match partials.get(whole.as_str()) {
        Some(file) => Ok(Some(*file)),
        None => Ok(None),
    }
}

/// Whether a tag runs the file, for each; none where a tag may run any of them.
pub(crate) fn used_files(
    alloc: Global,
    calls: &[Vec<Call<'_>>],
) -> Result<Option<Vec<bool>>, AllocError> {
    let mut used = Vec::new(alloc);
    used.resize(calls.len(), false)?;
    for of_file in calls {
        if !mark_used(of_file, &mut used) {
            return Ok(None);
        }
    }
    Ok(Some(used))
}

/// Marks the files that tags run. Whether the name of each is known.
fn mark_used(calls: &[Call<'_>], used: &mut [bool]) -> bool {
    for call in calls {
        if call.name.is_none() {
            return false;
        }
        if let Some(place) = call.file {
            if let Some(file) = used.get_mut(place) {
                *file = true;
            }
        }
    }
    true
}

/// The files of the partials by their names. Of two with one name the later counts.
pub(crate) fn files_by_name(
    alloc: Global,
    partials: &[(String, usize)],
) -> Result<PartialFiles, AllocError> {
    let mut names = BTreeMap::new(alloc);
    for (name, place) in partials {
        drop(names.insert(String::from_str(alloc, name.as_str())?, *place)?);
    }
    Ok(names)
}
