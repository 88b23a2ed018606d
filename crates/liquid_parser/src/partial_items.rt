//! Tags that run a partial, read from the items of a piece.
ghost use Rattle.std.specs.Prelude.{◌≡◌, [], ◌∷◌, IfOk, length, option_map, string_bytes};
ghost use Rattle.liquid_core.specs.ExpressionView.{expression_view};
ghost use Rattle.liquid_lexer.specs.PieceView.{item_view, lexed_items_view};
ghost use Rattle.liquid_lexer.specs.Readers.{Parses};
ghost use Rattle.liquid_lexer.specs.Tokens.{tokens_view, value_first};
ghost use Rattle.liquid_parser.specs.Faults.{FaultsAs, FaultsAt};
ghost use Rattle.liquid_syntax.specs.Flats.{binding_view, bindings_view, each_view, flat_of, leaf};
ghost use Rattle.liquid_parser.specs.inside.Classifies.{Classifies};
ghost use Rattle.liquid_parser.specs.inside.PartialAnswers.{first_spelling, rendered_view};
ghost use Rattle.liquid_parser.specs.inside.PartialAnswers.{value_spelling};
ghost use Rattle.liquid_parser.specs.Classification.{leaf_or};
ghost use Rattle.liquid_parser.specs.PartialItems.{each_first, include_node, include_of};
ghost use Rattle.liquid_parser.specs.PartialItems.{included_pairs, jekyll_node, jekyll_of};
ghost use Rattle.liquid_parser.specs.PartialItems.{render_node, render_of, rendered_each};
ghost use Rattle.liquid_parser.specs.PartialItems.{rendered_of, rendered_with, spelled_name};
ghost use Rattle.liquid_parser.specs.PartialItems.{with_first};

use crate::build::Statement;
use crate::chain_items::expected_before;
use crate::loop_items::next_source;
use crate::pair_items::{PairStyle, next_pair, read_pairs};
use liquid_core::{Expression, Value};
use liquid_lexer::{
    Expectation, FaultKind, Item, ParseError, Symbol, is_over, next_value, next_word, skip_word,
};
use liquid_syntax::{Binding, Each, Node};
use std::alloc::{AllocError, Global};
use std::collections::VecDeque;

/// `name w: v, w: v`: the node of an `include`.
pub(crate) fn read_include(
    alloc: Global,
    items: VecDeque<Item<'_>>,
    at: &str,
) -> Result<Statement, ParseError>
    ensures statement { Classifies
        (leaf_or (option_map include_node (include_of (tokens_view items.entry.items))))
        result }
    ensures kind { FaultsAs FaultKind.Expected result }
    ensures place { FaultsAt (length at.now) result }
{
    let mut items = items;
    let Some(name) = next_value(&mut items) else {
        return Err(expected_before(at, items, Expectation::PartialName));
    };
    match read_included_pairs(alloc, items, at) {
        Ok(all) => Ok(Statement::Leaf(Node::Include(name, all))),
        Err(error) => {
            drop(name);
            Err(error)
        }
    }
}

/// `w: v, w: v`, after the name of an `include`: no pairs, or a first one and those after it.
fn read_included_pairs(
    alloc: Global,
    items: VecDeque<Item<'_>>,
    at: &str,
) -> Result<Vec<Binding>, ParseError>
    ensures pairs { Parses (λ ps. bindings_view ps.items) result
        (included_pairs (tokens_view items.entry.items)) }
    ensures kind { FaultsAs FaultKind.Expected result }
    ensures place { FaultsAt (length at.now) result }
{
    let mut items = items;
    if is_over(&items) {
        return Ok(Vec::new(alloc));
    }
    let Some(first) = next_pair(&mut items, Symbol::Colon) else {
        return Err(expected_before(at, items, Expectation::Pair));
    };
    let first = only(alloc, first)?;
    read_pairs(first, items, PairStyle::Include, at)
}

/// What follows the name of a `render`: what it runs for each item of, if `for` stands there,
/// and its pairs.
#[derive(Drop)]
struct Rendered {
    each: Option<Each>,
    pairs: Vec<Binding>,
}

/// `name w: v`, with `with v as w` or `for R as w` after the name: the node of a `render`.
pub(crate) fn read_render(
    alloc: Global,
    items: VecDeque<Item<'_>>,
    at: &str,
) -> Result<Statement, ParseError>
    ensures statement { Classifies
        (leaf_or (option_map render_node (render_of (tokens_view items.entry.items))))
        result }
    ensures kind { FaultsAs FaultKind.Expected result }
    ensures place { FaultsAt (length at.now) result }
{
    let mut items = items;
    let Some(name) = next_value(&mut items) else {
        return Err(expected_before(at, items, Expectation::PartialName));
    };
    match read_rendered(alloc, items, at) {
        Ok(rendered) => Ok(Statement::Leaf(render_node(name, rendered))),
        Err(error) => {
            drop(name);
            Err(error)
        }
    }
}

/// The node of a `render` of this name, by what follows the name.
fn render_node(name: Expression, rendered: Rendered) -> Node
    ensures { flat_of result ≡ leaf (render_node (expression_view name, rendered_view rendered)) }
{
    let Rendered { each, pairs } = rendered;
    match each {
        None => Node::Render(name, pairs),
        Some(each) => Node::RenderEach(name, each, pairs),
    }
}

/// What all the items are, after the name of a `render`.
fn read_rendered(alloc: Global, items: VecDeque<Item<'_>>, at: &str) -> Result<Rendered, ParseError>
    ensures rendered { Parses rendered_view result (rendered_of (tokens_view items.entry.items)) }
    ensures kind { FaultsAs FaultKind.Expected result }
    ensures place { FaultsAt (length at.now) result }
{
    let mut items = items;
    if skip_word(&mut items, "with") {
        return read_rendered_with(alloc, items, at);
    }
    if skip_word(&mut items, "for") {
        return read_rendered_each(alloc, items, at);
    }
    let pairs = read_pairs(Vec::new(alloc), items, PairStyle::Render, at)?;
    Ok(Rendered { each: None, pairs })
}

/// `v as w, w: v`, after `with`: a `render` that runs once.
fn read_rendered_with(
    alloc: Global,
    items: VecDeque<Item<'_>>,
    at: &str,
) -> Result<Rendered, ParseError>
    ensures rendered { Parses rendered_view result (rendered_with (tokens_view items.entry.items)) }
    ensures kind { FaultsAs FaultKind.Expected result }
    ensures place { FaultsAt (length at.now) result }
{
    let mut items = items;
    let Some(first) = next_with(&mut items) else {
        return Err(expected_before(at, items, Expectation::ValueAsName));
    };
    let first = only(alloc, first)?;
    let pairs = read_pairs(first, items, PairStyle::Render, at)?;
    Ok(Rendered { each: None, pairs })
}

/// `R as w, w: v`, after `for`: a `render` that runs for each item.
fn read_rendered_each(
    alloc: Global,
    items: VecDeque<Item<'_>>,
    at: &str,
) -> Result<Rendered, ParseError>
    ensures rendered { Parses rendered_view result (rendered_each (tokens_view items.entry.items)) }
    ensures kind { FaultsAs FaultKind.Expected result }
    ensures place { FaultsAt (length at.now) result }
{
    let mut items = items;
    let Some(each) = next_each(&mut items) else {
        return Err(expected_before(at, items, Expectation::ListAsName));
    };
    match read_pairs(Vec::new(alloc), items, PairStyle::Render, at) {
        Ok(pairs) => Ok(Rendered {
            each: Some(each),
            pairs,
        }),
        Err(error) => {
            drop(each);
            Err(error)
        }
    }
}

/// Takes what follows `for` off the front, if it stands there: a source, `as` and the name of
/// an item.
fn next_each(items: &mut VecDeque<Item<'_>>) -> Option<Each>
    ensures { option_map (λ e. (each_view e, tokens_view items.new.items)) result ≡
        each_first (tokens_view items.old.items) }
{
    let source = next_source(items)?;
    if !skip_word(items, "as") {
        return None;
    }
    let variable = next_word(items)?;
    Some(Each { source, variable })
}

/// Takes the pair after `with` off the front, if it stands there: a value, `as` and its name.
fn next_with(items: &mut VecDeque<Item<'_>>) -> Option<Binding>
    ensures { option_map (λ p. (binding_view p, tokens_view items.new.items)) result ≡
        with_first (tokens_view items.old.items) }
{
    let value = next_value(items)?;
    if !skip_word(items, "as") {
        return None;
    }
    let name = next_word(items)?;
    Some(Binding { name, value })
}

/// `name w=v w=v`: the node of Jekyll's `include`.
pub(crate) fn read_jekyll_include(
    alloc: Global,
    items: VecDeque<Item<'_>>,
    at: &str,
) -> Result<Statement, ParseError>
    ensures statement { Classifies
        (leaf_or (option_map jekyll_node (jekyll_of (lexed_items_view items.entry.items))))
        result }
    ensures kind { FaultsAs FaultKind.Expected result }
    ensures place { FaultsAt (length at.now) result }
{
    let mut items = items;
    let Some((value, spelling)) = next_spelled(&mut items) else {
        return Err(expected_before(at, items, Expectation::PartialName));
    };
    let name = spelled_name(alloc, value, spelling)?;
    let all = read_pairs(Vec::new(alloc), items, PairStyle::JekyllInclude, at)?;
    Ok(Statement::Leaf(Node::JekyllInclude(name, all)))
}

/// Takes the value at the front, with how it is spelled, if one stands there; else takes nothing.
fn next_spelled<'s>(items: &mut VecDeque<Item<'s>>) -> Option<(Expression, &'s str)>
    ensures value { option_map (λ x. (expression_view x.0, tokens_view items.new.items)) result ≡
        value_first (tokens_view items.old.items) }
    ensures spelling { option_map (λ x. x.1.now) result ≡
        first_spelling (lexed_items_view items.old.items) }
{
    let spelling = spelling_of(items.front()?)?;
    Some((next_value(items)?, spelling))
}

/// How the item is spelled, if it is a value.
fn spelling_of<'s>(item: &Item<'s>) -> Option<&'s str>
    ensures { option_map (λ s. s.now) result ≡ value_spelling (item_view item.now) }
{
    match item {
        Item::Value(_, spelling) => Some(*spelling),
        Item::Range(_, _) => None,
        Item::Symbol(_) => None,
    }
}

/// A list of one pair.
fn only(alloc: Global, pair: Binding) -> Result<Vec<Binding>, AllocError>
    ensures { IfOk result (λ ps. bindings_view ps.items ≡ binding_view pair ∷ []) }
{
    let mut pairs = Vec::with_capacity(alloc, 1)?;
    pairs.push(pair)?;
    Ok(pairs)
}

/// The text of a text literal, or else the value as it is spelled.
fn spelled_name(alloc: Global, value: Expression, spelling: &str) -> Result<String, AllocError>
    ensures { IfOk result (λ t. string_bytes t ≡
        spelled_name (expression_view value) spelling.now) }
{
    match value {
        Expression::Literal(Value::Text(text)) => Ok(text),
        Expression::Literal(_) => String::from_str(alloc, spelling),
        Expression::Variable(_) => String::from_str(alloc, spelling),
    }
}
