//! What a tag that runs a partial names: the partial, and the scope of its pairs; and how an
//! `include` enters it.
ghost use Rattle.std.specs.Prelude.{◌≡◌, ◌≤◌, IfOk, OnErr, length, string_bytes};
ghost use Rattle.liquid_model.specs.Answer.{Answers};
ghost use Rattle.liquid_model.specs.View.{pairs_view};
ghost use Rattle.liquid_core.specs.ExpressionView.{expression_view};
ghost use Rattle.liquid_core.specs.Held.{held};
ghost use Rattle.liquid_core.specs.LoopFrames.{without_innermost};
ghost use Rattle.liquid_core.specs.States.{environment_of, layers_of, loops_of};
ghost use Rattle.liquid_syntax.specs.Flats.{bindings_view};
ghost use Rattle.liquid_syntax.specs.Templates.{template_nodes, most_of, partials_of, tree_of};
ghost use Rattle.liquid_engine.specs.inside.Partials.{Enters, IsWithin, bound_include};
ghost use Rattle.liquid_engine.specs.inside.Partials.{bound_object};
ghost use Rattle.liquid_engine.specs.inside.Partials.{bound_scope, entry_at, include_entry};
ghost use Rattle.liquid_engine.specs.inside.Partials.{jekyll_entry, partial_of, render_partial};
ghost use Rattle.liquid_meaning.specs.Meaning.{partial_name_text};

use crate::context::RunContext;
use crate::similar_partial::unknown;
use liquid_core::{Error, ErrorKind, Expression, Object, Result, State, Value, store};
use liquid_syntax::{Binding, Partials, Template};
use std::alloc::Global;
use std::collections::BTreeMap;

/// A partial that is entered: the partial, and what its nodes are given.
#[derive(Drop)]
pub(crate) struct Entered<'d, H> {
    pub(crate) partial: &'d Template,
    pub(crate) context: RunContext<'d, H>,
}

/// Enters the partial of an `include`, with the scope of the pairs over the caller's names; its
/// name comes with it. The name is evaluated before the pairs, and the partial is looked up after
/// them.
#[inline(never)]
pub(crate) fn enter_include<'d, H>(
    alloc: Global,
    context: &RunContext<'d, H>,
    name: &Expression,
    bindings: &[Binding],
    state: &mut State<'_>,
) -> Result<(String, Entered<'d, H>)>
    ensures entered { Enters (λ r. (string_bytes r.0, (tree_of r.1.partial.now, r.1.context.depth)))
        result
        (include_entry (partials_of context.now.partials.now) context.now.depth
        (expression_view name.now) (bindings_view bindings.now) (environment_of state.old))
        (layers_of state.old) (layers_of state.new) }
    ensures within { IfOk result (λ r. IsWithin context.now r.1.partial.now r.1.context) }
    ensures loops { IfOk result (λ r. without_innermost (loops_of state.new) ≡ loops_of state.old) }
    ensures unchanged { OnErr result (loops_of state.new ≡ loops_of state.old) }
{
    let called = partial_name(alloc, name, state)?;
    let scope = pairs_scope(alloc, bindings, state)?;
    let partial = partial_called(alloc, context.partials, called.as_str())?;
    let entered = enter(alloc, context, partial, scope, state)?;
    Ok((called, entered))
}

/// Enters the partial of a jekyll `include`, with the scope of the pairs over the caller's names.
/// The pairs are evaluated before the partial is looked up.
#[inline(never)]
pub(crate) fn enter_jekyll_include<'d, H>(
    alloc: Global,
    context: &RunContext<'d, H>,
    name: &str,
    bindings: &[Binding],
    state: &mut State<'_>,
) -> Result<Entered<'d, H>>
    ensures entered { Enters (λ r. (tree_of r.partial.now, r.context.depth)) result
        (jekyll_entry (partials_of context.now.partials.now) context.now.depth name.now
        (bindings_view bindings.now) (environment_of state.old)) (layers_of state.old)
        (layers_of state.new) }
    ensures within { IfOk result (λ r. IsWithin context.now r.partial.now r.context) }
    ensures loops { IfOk result (λ r. without_innermost (loops_of state.new) ≡ loops_of state.old) }
    ensures unchanged { OnErr result (loops_of state.new ≡ loops_of state.old) }
{
    let scope = include_scope(alloc, bindings, state)?;
    let partial = partial_called(alloc, context.partials, name)?;
    enter(alloc, context, partial, scope, state)
}

/// Enters a partial with a scope over the caller's names.
fn enter<'d, H>(
    alloc: Global,
    context: &RunContext<'d, H>,
    partial: &'d Template,
    scope: Object,
    state: &mut State<'_>,
) -> Result<Entered<'d, H>>
    requires { length (template_nodes partial.now) ≤ most_of context.now.partials.now }
    ensures entered { Enters (λ r. (tree_of r.partial.now, r.context.depth)) result
        (entry_at context.now.depth (held scope) (tree_of partial.now)) (layers_of state.old)
        (layers_of state.new) }
    ensures within { IfOk result (λ r. IsWithin context.now r.partial.now r.context) }
    ensures loops { IfOk result (λ r. without_innermost (loops_of state.new) ≡ loops_of state.old) }
    ensures unchanged { OnErr result (loops_of state.new ≡ loops_of state.old) }
{
    let context = context.deeper(alloc, partial)?;
    state.push_scope(scope)?;
    Ok(Entered { partial, context })
}

/// The name of a partial, which is a scalar's text.
#[inline(never)]
pub(crate) fn partial_name(alloc: Global, name: &Expression, state: &State<'_>) -> Result<String>
    ensures { Answers (λ t. string_bytes t) result (partial_name_text (expression_view name.now)
        (environment_of state.now)) }
{
    let value = name.evaluate(alloc, state)?;
    if value.as_value().is_scalar() {
        value.as_value().text(alloc)
    } else {
        let words = words_of_no_name(value.as_value());
        Err(Error::new(alloc, ErrorKind::PartialName, words))
    }
}

/// What the message says of a value that names no partial.
fn words_of_no_name(value: &Value) -> &'static str {
    match value {
        Value::Array(_) => "the name of a partial is a text, not a list",
        Value::Object(_) => "the name of a partial is a text, not a map",
        _ => "the name of a partial is a text, not nil",
    }
}

/// The pairs, which are evaluated in order, as an object. Of two with one name the later counts.
fn pairs_object(alloc: Global, bindings: &[Binding], state: &State<'_>) -> Result<Object>
    ensures { Answers (λ m. pairs_view m.entries) result (bound_object (bindings_view bindings.now)
        (environment_of state.now)) }
{
    let mut object: Object = BTreeMap::new(alloc);
    for binding in bindings {
        let value = binding.value.evaluate(alloc, state)?.into_owned(alloc)?;
        let name = String::from_str(alloc, binding.name.as_str())?;
        store(&mut object, name, value)?;
    }
    Ok(object)
}

/// The scope of the pairs of an `include` or a `render`.
#[inline(never)]
pub(crate) fn pairs_scope(alloc: Global, bindings: &[Binding], state: &State<'_>) -> Result<Object>
    ensures { Answers held result (bound_scope (bindings_view bindings.now)
        (environment_of state.now)) }
{
    pairs_object(alloc, bindings, state)
}

/// The scope of the pairs of a jekyll `include`: one object that is named `include`, or nothing
/// without pairs.
#[inline(never)]
fn include_scope(alloc: Global, bindings: &[Binding], state: &State<'_>) -> Result<Object>
    ensures { Answers held result (bound_include (bindings_view bindings.now)
        (environment_of state.now)) }
{
    let mut scope: Object = BTreeMap::new(alloc);
    if bindings.is_empty() {
        return Ok(scope);
    }
    let pairs = pairs_object(alloc, bindings, state)?;
    store(
        &mut scope,
        String::from_str(alloc, "include")?,
        Value::Object(pairs),
    )?;
    Ok(scope)
}

/// The partial of this name.
#[tactic(auto, using(crate::proofs::PartialRuns::small_list))]
#[inline(never)]
fn partial_called<'p>(alloc: Global, partials: &'p Partials, name: &str) -> Result<&'p Template>
    ensures found { Answers (λ t. tree_of t.now) result
        (partial_of (partials_of partials.now) name.now) }
    ensures small { IfOk result (λ t. length (template_nodes t.now) ≤ most_of partials.now) }
{
    match partials.get(name) {
        Some(partial) => Ok(partial),
        None => Err(unknown(alloc, partials, name)),
    }
}

/// The partial of this name, or of this name with `.liquid`.
#[tactic(auto, using(crate::proofs::PartialRuns::small_list))]
#[inline(never)]
pub(crate) fn partial_rendered<'p>(
    alloc: Global,
    partials: &'p Partials,
    name: &str,
) -> Result<&'p Template>
    ensures found { Answers (λ t. tree_of t.now) result
        (render_partial (partials_of partials.now) name.now) }
    ensures small { IfOk result (λ t. length (template_nodes t.now) ≤ most_of partials.now) }
{
    if let Some(partial) = partials.get(name) {
        return Ok(partial);
    }
    let mut longer = String::from_str(alloc, name)?;
    longer.push_str(".liquid")?;
    match partials.get(longer.as_str()) {
        Some(partial) => Ok(partial),
        None => Err(unknown(alloc, partials, refused_of(partials, name, longer.as_str()))),
    }
}

/// The one of two names that is refused, or else the first.
fn refused_of<'n>(partials: &Partials, name: &'n str, longer: &'n str) -> &'n str {
    match (partials.refusal(name), partials.refusal(longer)) {
        (None, Some(_)) => longer,
        _ => name,
    }
}
