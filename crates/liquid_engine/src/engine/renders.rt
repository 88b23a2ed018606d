//! Runs of `render`: a partial apart, once or for each item.
ghost use Rattle.std.specs.Prelude.{◌≡◌, ◌<◌, ◌≤◌, Some, None};
ghost use Rattle.liquid_core.specs.ExpressionView.{expression_view};
ghost use Rattle.liquid_syntax.specs.Flats.{bindings_view, each_view};
ghost use Rattle.liquid_evaluation.specs.Tree as tree;
ghost use Rattle.liquid_engine.specs.inside.Engine.{setting_of, node_in};
ghost use Rattle.liquid_engine.specs.inside.Partials.{item_scope};
ghost use Rattle.liquid_engine.specs.inside.Reserves.{limited_in, reserve_in};
ghost use Rattle.liquid_engine.specs.Performs.{Meets, Performs, configuration_of};
ghost use Rattle.liquid_meaning.specs.Meaning.{deeper_meaning, render_apart};

use super::run_range;
use crate::context::RunContext;
use crate::counted::CountedWrite;
use crate::fault_location::in_partial;
use crate::isolated_scope::{EachItem, enter_render, enter_render_item, left_by};
use crate::loop_setup::ends_items;
use crate::output::Output;
use crate::partial::partial_name;
use liquid_core::{Expression, Interrupt, NamedFilters, Result, State};
use liquid_syntax::{Binding, Each};
use std::alloc::Global;

/// Runs a partial once, apart: it sees the pairs alone. The caller's state is only read.
#[cycle(run)]
#[inline(never)]
pub(super) fn run_render<'d, W: CountedWrite, H: NamedFilters>(
    alloc: Global,
    context: &RunContext<'d, H>,
    name: &Expression,
    bindings: &'d [Binding],
    out: &mut Output<'_, W>,
    state: &State<'d>,
) -> Result<()>
    ensures performs { Performs result
        (node_in H.named context.now (tree.render (expression_view name.now) None
        (bindings_view bindings.now)))
        (configuration_of W.contents W.failure_count out.old state.now)
        (configuration_of W.contents W.failure_count out.new state.now) }
    ensures same_writer { out.new.writer.ghost_name ≡ out.old.writer.ghost_name }
    ensures bounded { reserve_in W.left out.new ≤ reserve_in W.left out.old }
    ensures limited { limited_in W.left out.new ≡ limited_in W.left out.old }
{
    let (called, apart) = enter_render(alloc, context, name, bindings, state)?;
    let inner = apart.inner;
    let mut own = apart.own;
    let nodes = inner.partial.nodes();
    let answer = run_range(alloc, &inner.context, nodes, 0, nodes.len(), out, &mut own);
    drop(own);
    in_partial(alloc, called.as_str(), answer)
}

/// Runs a partial once for each item, up to one that leaves a break. The caller's state is only
/// read.
#[cycle(run)]
#[inline(never)]
pub(super) fn run_render_each<'d, W: CountedWrite, H: NamedFilters>(
    alloc: Global,
    context: &RunContext<'d, H>,
    name: &Expression,
    each: &'d Each,
    bindings: &[Binding],
    out: &mut Output<'_, W>,
    state: &State<'d>,
) -> Result<()>
    ensures performs { Performs result
        (node_in H.named context.now (tree.render (expression_view name.now)
        (Some (each_view each.now)) (bindings_view bindings.now)))
        (configuration_of W.contents W.failure_count out.old state.now)
        (configuration_of W.contents W.failure_count out.new state.now) }
    ensures same_writer { out.new.writer.ghost_name ≡ out.old.writer.ghost_name }
    ensures bounded { reserve_in W.left out.new ≤ reserve_in W.left out.old }
    ensures limited { limited_in W.left out.new ≡ limited_in W.left out.old }
{
    let called = partial_name(alloc, name, state)?;
    let source = each.source.items(alloc, state)?;
    let item_context = RunContext {
        partials: &*context.partials,
        host: &*context.host,
        depth: context.depth,
        places: context.places,
    };
    let mut at = 0;
    while at < source.count {
        let item = EachItem {
            each: &*each,
            source: &source,
            at,
        };
        let left = run_item(
            alloc,
            &item_context,
            called.as_str(),
            bindings,
            &item,
            out,
            state,
        )?;
        if ends_items(left) {
            return Ok(());
        }
        at += 1;
    }
    Ok(())
}

/// Runs a partial for one item, apart: it sees the pairs, which take a turn each, and the loop over
/// them. The answer is the interrupt that it leaves.
#[cycle(run)]
#[inline(never)]
fn run_item<'d, W: CountedWrite, H: NamedFilters>(
    alloc: Global,
    context: &RunContext<'d, H>,
    name: &str,
    bindings: &[Binding],
    item: &EachItem<'d>,
    out: &mut Output<'_, W>,
    state: &State<'_>,
) -> Result<Option<Interrupt>>
    requires item { item.now.at < item.now.source.now.count }
    requires within { item.now.source.now.count ≤ 9223372036854775807 }
    ensures performs { Meets (λ i. i) result (render_apart (setting_of H.named context.now)
        (deeper_meaning (setting_of H.named context.now) context.now.depth) name.now
        (bindings_view bindings.now) (item_scope item.now))
        (configuration_of W.contents W.failure_count out.old state.now)
        (configuration_of W.contents W.failure_count out.new state.now) }
    ensures same_writer { out.new.writer.ghost_name ≡ out.old.writer.ghost_name }
    ensures bounded { reserve_in W.left out.new ≤ reserve_in W.left out.old }
    ensures limited { limited_in W.left out.new ≡ limited_in W.left out.old }
{
    out.turns(alloc, bindings.len() as u64)?;
    let apart = enter_render_item(alloc, context, name, bindings, item, state)?;
    let inner = apart.inner;
    let mut own = apart.own;
    let nodes = inner.partial.nodes();
    let answer = run_range(alloc, &inner.context, nodes, 0, nodes.len(), out, &mut own);
    let left = left_by(in_partial(alloc, name, answer), &own);
    drop(own);
    left
}
