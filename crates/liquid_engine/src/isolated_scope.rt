//! The state of its own in which `render` runs a partial.
ghost use Rattle.std.specs.Prelude.{◌≡◌, ◌<◌, ◌≤◌, IfOk, string_bytes};
ghost use Rattle.liquid_model.specs.Answer.{Answers, IsValueOrMemory};
ghost use Rattle.liquid_model.specs.Data.{Datum};
ghost use Rattle.liquid_model.specs.Maps.{Map, empty, insert, merged};
ghost use Rattle.liquid_model.specs.View.{view};
ghost use Rattle.liquid_core.specs.Environment.{own_environment};
ghost use Rattle.liquid_core.specs.ExpressionView.{expression_view};
ghost use Rattle.liquid_core.specs.Held.{held};
ghost use Rattle.liquid_core.specs.States.{environment_of};
ghost use Rattle.liquid_core.specs.LoopFrames.{item_of, frame_map};
ghost use Rattle.liquid_syntax.specs.Flats.{bindings_view};
ghost use Rattle.liquid_syntax.specs.Templates.{partials_of, tree_of};
ghost use Rattle.liquid_engine.specs.inside.Partials.{IsWithin, item_entry, item_scope, left_with};
ghost use Rattle.liquid_engine.specs.inside.Partials.{bound_scope, render_entry};
ghost use Rattle.liquid_engine.specs.inside.Given.{given_map};

use crate::context::RunContext;
use crate::partial::{Entered, pairs_scope, partial_name, partial_rendered};
use liquid_core::{
    Expression, Interrupt, Items, LoopFrame, LoopKind, Missing, Object, Result, State, Value,
};
use liquid_evaluation::LoopItems;
use liquid_syntax::{Binding, Each};
use std::alloc::Global;
use std::collections::BTreeMap;

/// A partial that runs apart, with the state of its own.
#[derive(Drop)]
pub(crate) struct Apart<'d, H> {
    pub(crate) inner: Entered<'d, H>,
    pub(crate) own: State<'d>,
}

/// The names that a partial is given: with values of their own, or a single one that is borrowed.
#[derive(Drop)]
enum Given<'d> {
    Names(Object),
    Borrowed(&'d str, &'d Value),
}

/// An item of a `render .. for`.
#[derive(Drop)]
pub(crate) struct EachItem<'d> {
    pub(crate) each: &'d Each,
    pub(crate) source: &'d LoopItems<'d>,
    pub(crate) at: usize,
}

/// The partial of a `render`, with the pairs alone in its state; its name comes with it. The name
/// is evaluated before the pairs, and the partial is looked up after them.
#[inline(never)]
pub(crate) fn enter_render<'d, H>(
    alloc: Global,
    context: &RunContext<'d, H>,
    name: &Expression,
    bindings: &'d [Binding],
    state: &State<'d>,
) -> Result<(String, Apart<'d, H>)>
    ensures apart { Answers (λ r. (
      environment_of r.1.own,
      (string_bytes r.0, (tree_of r.1.inner.partial.now, r.1.inner.context.depth)),
    )) result
        (render_entry (partials_of context.now.partials.now) context.now.depth
        (expression_view name.now) (bindings_view bindings.now) (environment_of state.now)) }
    ensures within { IfOk result
        (λ r. IsWithin context.now r.1.inner.partial.now r.1.inner.context) }
{
    let called = partial_name(alloc, name, state)?;
    let names = given_names(alloc, bindings, state)?;
    let partial = partial_rendered(alloc, context.partials, called.as_str())?;
    let context = context.deeper(alloc, partial)?;
    let own = given_state(alloc, names, state.missing())?;
    let inner = Entered { partial, context };
    Ok((called, Apart { inner, own }))
}

/// The names that a partial is given which runs apart: a single one is borrowed where its value
/// is.
fn given_names<'d>(alloc: Global, bindings: &'d [Binding], state: &State<'d>) -> Result<Given<'d>>
    ensures { Answers given_map result (bound_scope (bindings_view bindings.now)
        (environment_of state.now)) }
{
    if let [binding] = bindings {
        if let Some(value) = binding.value.borrowed_value(state) {
            return Ok(Given::Borrowed(binding.name.as_str(), value));
        }
    }
    Ok(Given::Names(pairs_scope(alloc, bindings, state)?))
}

/// A state that holds these names alone.
fn given_state<'d>(alloc: Global, names: Given<'d>, missing: Missing) -> Result<State<'d>>
    ensures { IsValueOrMemory environment_of result
        (own_environment missing (given_map names.entry)) }
{
    match names {
        Given::Names(names) => isolated_state(alloc, names, missing),
        Given::Borrowed(name, value) => state_with_borrowed(alloc, name, value, missing),
    }
}

/// A state that holds this name alone, whose value is borrowed.
fn state_with_borrowed<'d>(
    alloc: Global,
    name: &'d str,
    value: &'d Value,
    missing: Missing,
) -> Result<State<'d>>
    ensures { IsValueOrMemory environment_of result
        (own_environment missing (insert empty name.now (view value.now))) }
{
    let mut own = State::isolated(alloc, BTreeMap::new(alloc), missing);
    if let Err(fault) = own.push_borrowed(name, value) {
        drop(own);
        return Err(fault);
    }
    Ok(own)
}

/// The partial of a `render .. for` at one of its items, with the pairs in its state, and the loop
/// over them. The pairs are evaluated before the partial is looked up.
#[inline(never)]
pub(crate) fn enter_render_item<'d, H>(
    alloc: Global,
    context: &RunContext<'d, H>,
    name: &str,
    bindings: &[Binding],
    item: &EachItem<'d>,
    state: &State<'_>,
) -> Result<Apart<'d, H>>
    requires item { item.now.at < item.now.source.now.count }
    requires within { item.now.source.now.count ≤ 9223372036854775807 }
    ensures apart { Answers
        (λ r. (environment_of r.own, (tree_of r.inner.partial.now, r.inner.context.depth)))
        result (item_entry (partials_of context.now.partials.now) context.now.depth name.now
        (bindings_view bindings.now) (item_scope item.now) (environment_of state.now)) }
    ensures within { IfOk result (λ r. IsWithin context.now r.inner.partial.now r.inner.context) }
{
    let names = pairs_scope(alloc, bindings, state)?;
    let partial = partial_rendered(alloc, context.partials, name)?;
    let context = context.deeper(alloc, partial)?;
    let own = state_at(alloc, names, item, state.missing())?;
    let inner = Entered { partial, context };
    Ok(Apart { inner, own })
}

/// How a run apart ended, with the interrupt that it left in its state.
pub(crate) fn left_by(answer: Result<()>, own: &State<'_>) -> Result<Option<Interrupt>>
    ensures { result ≡ left_with answer (environment_of own.now).registers.interrupt }
{
    match answer {
        Ok(()) => Ok(own.interrupt),
        Err(fault) => Err(fault),
    }
}

/// A state that holds these names alone.
#[inline(never)]
fn isolated_state<'d>(alloc: Global, names: Object, missing: Missing) -> Result<State<'d>>
    ensures { IsValueOrMemory environment_of result (own_environment missing (held names)) }
{
    let mut own = State::isolated(alloc, BTreeMap::new(alloc), missing);
    if let Err(fault) = own.push_scope(names) {
        drop(own);
        return Err(fault);
    }
    Ok(own)
}

/// A state that holds these names, and over them a loop of `render` at one of its items.
fn state_at<'d>(
    alloc: Global,
    names: Object,
    item: &EachItem<'d>,
    missing: Missing,
) -> Result<State<'d>>
    requires item { item.now.at < item.now.source.now.count }
    requires within { item.now.source.now.count ≤ 9223372036854775807 }
    ensures { IsValueOrMemory environment_of result
        (own_environment missing (merged (item_scope item.now) (held names))) }
{
    let mut own = isolated_state(alloc, names, missing)?;
    if let Err(fault) = own.push_frame(frame_at(item)) {
        drop(own);
        return Err(fault);
    }
    Ok(own)
}

/// The loop of a `render .. for` at one of its items, of which none is copied.
fn frame_at<'d>(item: &EachItem<'d>) -> LoopFrame<'d>
    requires item { item.now.at < item.now.source.now.count }
    requires within { item.now.source.now.count ≤ 9223372036854775807 }
    ensures { (local : Map Datum) → frame_map result local ≡ item_scope item.now }
{
    LoopFrame {
        name: item.each.variable.as_str(),
        items: borrowed_items(&item.source.items),
        from: 0,
        count: item.source.count,
        reversed: false,
        at: item.at,
        kind: LoopKind::Render,
    }
}

/// The same items, borrowed.
fn borrowed_items<'x>(items: &'x Items<'_>) -> Items<'x>
    ensures { item_of result ≡ item_of items.now }
{
    match items {
        Items::Borrowed(list) => Items::Borrowed(*list),
        Items::Owned(list) => Items::Borrowed(list.as_slice()),
        Items::Numbers(first, last) => Items::Numbers(*first, *last),
    }
}
