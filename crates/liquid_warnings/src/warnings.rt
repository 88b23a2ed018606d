//! What no parser refuses, and people fall over all the same.
ghost use Rattle.std.specs.Prelude.{◌≡◌, [], ◌∷◌, ◌++◌, IfErr, IfOk, OnOk, length, nat_le};
ghost use Rattle.std.specs.Prelude.{option_map, take};
ghost use Rattle.liquid_warnings.specs.Remarks.{all_said, remark_view};
ghost use Rattle.liquid_warnings.specs.Warnings.{AreWarned, AreOfSource, IsWarned, lists_of};
ghost use Rattle.liquid_warnings.specs.Warnings.{engine_said, node_said, nodes_said, odd_said};
ghost use Rattle.liquid_warnings.specs.Warnings.{said_at, template_said};

use crate::attributes::add_unescaped;
use crate::dates::{no_clock, no_pattern};
use crate::else_if::add_else_if;
use crate::filter_pairs::pair_warning;
use crate::fixed::fixed_warning;
use crate::joins::join_warning;
use crate::loops::no_list;
use crate::of_jekyll::jekyll_warning;
use crate::remark::{Remark, push_found};
use crate::slips::slip_warning;
use crate::tag_output::tag_as_output;
use crate::truths::always_true;
use crate::whole::Whole;
use crate::written_for::WrittenFor;
use liquid_core::{ErrorKind, Object, Result};
use liquid_language::Language;
use liquid_syntax::{Node, Position, Template};
use std::alloc::{AllocError, Global};

/// The warnings of each file, in the order of the files.
pub type Warnings = Vec<Vec<Remark>>;

/// The most warnings of a file that are looked for.
pub const MOST_WARNINGS: usize = 100;

/// A file of those that are looked at together.
#[derive(Clone, Copy)]
pub struct CheckedFile<'t> {
    /// Its text; none where it isn't read.
    pub text: Option<&'t str>,
    /// The template that is there once its faults are text; none where they are too many.
    pub template: Option<&'t Template>,
    /// Whether it is a template of its own, also where no other runs it.
    pub is_page: bool,
}

/// What the warnings are made by.
#[derive(Clone, Copy)]
pub struct Given<'c> {
    /// The data that the templates are for, where there is some.
    pub data: Option<&'c Object>,
    pub language: &'c Language,
    /// The engine that the templates are written for.
    pub written_for: WrittenFor,
    /// The names of the partials, each with the place of its file, where partials are asked for;
    /// there may be none. Of two with one name the later counts.
    pub partials: Option<&'c [(String, usize)]>,
    /// Whether outputs in attributes are looked at.
    pub attributes: bool,
}

/// The warnings of all files: a list for each, in their order. It has the first hundred of these:
/// what stands in the source, the warnings of single tags and outputs in the order of the source,
/// and what is known by all files together. Those about partials come only where partials are asked
/// for, those about what the data lacks, or has otherwise, only where data is, and those about what
/// another engine does otherwise only where the templates are written for it.
///
/// The answer is `Memory` where a growth was refused, and no other kind.
pub fn warnings_of(alloc: Global, files: &[CheckedFile<'_>], given: Given<'_>) -> Result<Warnings>
    ensures warned { IfOk result (λ ws. AreWarned given.entry files.now (lists_of ws.items)) }
    ensures memory { IfErr result (λ e. e.kind ≡ ErrorKind.Memory) }
{
    let whole = Whole::of(alloc, given.partials.unwrap_or(&[]), files)?;
    let mut warnings = Vec::new(alloc);
    let whole = whole.with_suggestions(alloc, given.data)?;
    for file in files {
        let remarks = file_warnings(alloc, &whole, warnings.len(), file, given)?;
        add_list(&mut warnings, remarks)?;
    }
    Ok(warnings)
}

/// Adds the list of one more file.
fn add_list(warnings: &mut Warnings, remarks: Vec<Remark>) -> std::result::Result<(), AllocError>
    ensures { OnOk result (lists_of warnings.new.items
        ≡ lists_of warnings.old.items ++ remarks.items ∷ []) }
{
    warnings.push(remarks)?;
    Ok(())
}

/// The warnings of the file at this place.
fn file_warnings(
    alloc: Global,
    whole: &Whole<'_>,
    place: usize,
    file: &CheckedFile<'_>,
    given: Given<'_>,
) -> Result<Vec<Remark>>
    ensures warned { IfOk result (λ rs. IsWarned given.entry file.now rs.items) }
    ensures memory { IfErr result (λ e. e.kind ≡ ErrorKind.Memory) }
{
    let of_source = source_warnings(alloc, file, given)?;
    let of_nodes = node_warnings_of(alloc, given.written_for, file.template)?;
    let others = whole.warnings(alloc, place, file, given)?;
    Ok(first_of(of_source, of_nodes, others)?)
}

/// The first hundred of the warnings of a source, of nodes, and of others.
fn first_of(
    of_source: Vec<Remark>,
    of_nodes: Vec<Remark>,
    others: Vec<Remark>,
) -> std::result::Result<Vec<Remark>, AllocError>
    ensures { IfOk result (λ rs. rs.items
        ≡ take 100 ((of_source.items ++ of_nodes.items) ++ others.items)) }
{
    let mut remarks = of_source;
    let mut of_nodes = of_nodes;
    let mut others = others;
    remarks.append(&mut of_nodes)?;
    remarks.append(&mut others)?;
    remarks.truncate(MOST_WARNINGS);
    Ok(remarks)
}

/// The warnings about what stands in the source of a file.
fn source_warnings(alloc: Global, file: &CheckedFile<'_>, given: Given<'_>) -> Result<Vec<Remark>>
    ensures source { IfOk result (λ rs. AreOfSource given.entry.attributes (all_said rs.items)) }
    ensures memory { IfErr result (λ e. e.kind ≡ ErrorKind.Memory) }
{
    match file.text {
        Some(source) => warnings_in(alloc, source, given),
        None => Ok(Vec::new(alloc)),
    }
}

fn warnings_in(alloc: Global, source: &str, given: Given<'_>) -> Result<Vec<Remark>>
    ensures source { IfOk result (λ rs. AreOfSource given.entry.attributes (all_said rs.items)) }
    ensures memory { IfErr result (λ e. e.kind ≡ ErrorKind.Memory) }
{
    let mut remarks = Vec::new(alloc);
    add_else_if(alloc, given.language, source, &mut remarks)?;
    add_unescaped(alloc, given, source, &mut remarks)?;
    Ok(remarks)
}

/// The warnings of the single tags and outputs of a template, where there is one.
fn node_warnings_of(
    alloc: Global,
    written_for: WrittenFor,
    template: Option<&Template>,
) -> std::result::Result<Vec<Remark>, AllocError>
    ensures { IfOk result (λ rs. all_said rs.items
        ≡ template_said written_for (option_map (λ t. t.now) template.entry)) }
{
    match template {
        Some(template) => {
            node_warnings(alloc, written_for, template.nodes(), template.positions())
        }
        None => Ok(Vec::new(alloc)),
    }
}

/// The warnings of nodes that begin at these positions, in their order.
fn node_warnings(
    alloc: Global,
    written_for: WrittenFor,
    nodes: &[Node],
    positions: &[Position],
) -> std::result::Result<Vec<Remark>, AllocError>
    ensures { IfOk result (λ rs. all_said rs.items
        ≡ nodes_said written_for 0 nodes.now positions.now) }
{
    let mut remarks = Vec::new(alloc);
    for (place, node) in nodes.iter().enumerate() {
        add_of_node(alloc, written_for, node, positions.get(place), &mut remarks)?;
    }
    Ok(remarks)
}

/// Adds the warnings of a node that begins at a position.
fn add_of_node(
    alloc: Global,
    written_for: WrittenFor,
    node: &Node,
    position: Option<&Position>,
    remarks: &mut Vec<Remark>,
) -> std::result::Result<(), AllocError>
    ensures { OnOk result (all_said remarks.new.items ≡ all_said remarks.old.items
        ++ said_at written_for (option_map (λ p. p.now) position.entry) node.now) }
{
    let Some(position) = position else {
        return Ok(());
    };
    push_found(remarks, node_warning(alloc, node, *position)?)?;
    push_found(
        remarks,
        engine_warning(alloc, written_for, node, *position)?,
    )
}

/// The warning of a tag or an output that begins at a position, where it has one whatever engine it
/// is written for.
fn node_warning(
    alloc: Global,
    node: &Node,
    position: Position,
) -> std::result::Result<Option<Remark>, AllocError>
    ensures { IfOk result (λ r. option_map remark_view r ≡ node_said position node.now) }
{
    if let Some(remark) = no_clock(alloc, node, position)? {
        return Ok(Some(remark));
    }
    if let Some(remark) = no_list(alloc, node, position)? {
        return Ok(Some(remark));
    }
    if let Some(remark) = no_pattern(alloc, node, position)? {
        return Ok(Some(remark));
    }
    if let Some(remark) = always_true(alloc, node, position)? {
        return Ok(Some(remark));
    }
    odd_warning(alloc, node, position)
}

/// The warning of a tag or an output where an expression in it, a pair of its filters, or all of it
/// is read otherwise than it looks.
fn odd_warning(
    alloc: Global,
    node: &Node,
    position: Position,
) -> std::result::Result<Option<Remark>, AllocError>
    ensures { IfOk result (λ r. option_map remark_view r ≡ odd_said position node.now) }
{
    if let Some(remark) = slip_warning(alloc, node, position)? {
        return Ok(Some(remark));
    }
    if let Some(remark) = pair_warning(alloc, node, position)? {
        return Ok(Some(remark));
    }
    if let Some(remark) = fixed_warning(alloc, node, position)? {
        return Ok(Some(remark));
    }
    tag_as_output(alloc, node, position)
}

/// The warning of a node that the engine which it is written for reads otherwise.
fn engine_warning(
    alloc: Global,
    written_for: WrittenFor,
    node: &Node,
    position: Position,
) -> std::result::Result<Option<Remark>, AllocError>
    ensures { IfOk result (λ r. option_map remark_view r
        ≡ engine_said written_for position node.now) }
{
    match jekyll_warning(alloc, written_for, node, position)? {
        Some(remark) => Ok(Some(remark)),
        None => join_warning(alloc, written_for, node, position),
    }
}

/// Whether no more warnings of this sort are looked for in a file.
pub(crate) fn is_full(remarks: &[Remark]) -> bool
    ensures { result ≡ nat_le 100 (length remarks.now) }
{
    remarks.len() >= MOST_WARNINGS
}
