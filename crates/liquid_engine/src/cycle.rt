//! Runs of `cycle`.
ghost use Rattle.std.specs.Prelude.{◌≡◌, ◌≤◌, ◌+◌, ◌%◌, ◌<◌, map, IfOk, OnErr};
ghost use Rattle.liquid_model.specs.Answer.{IsValueOrMemory};
ghost use Rattle.liquid_model.specs.ErrorKinds.{IsKindOrMemory};
ghost use Rattle.liquid_core.specs.ExpressionView.{expression_view};
ghost use Rattle.liquid_core.specs.States.{environment_of, layers_of, loops_of, with_cycle};
ghost use Rattle.liquid_evaluation.specs.Names.{node_names};
ghost use Rattle.liquid_evaluation.specs.Tree as tree;
ghost use Rattle.liquid_engine.specs.inside.Engine.{setting_of, node_in};
ghost use Rattle.liquid_engine.specs.inside.Reserves.{limited_in, reserve_in};
ghost use Rattle.liquid_engine.specs.StateKept.{Keeps};
ghost use Rattle.liquid_engine.specs.Performs.{Performs, configuration_of};
ghost use Rattle.liquid_meaning.specs.Effects.{cycle_index};

use crate::context::RunContext;
use crate::counted::CountedWrite;
use crate::output::Output;
use crate::push_value::push_value;
use liquid_core::{Error, ErrorKind, Expression, NamedFilters, Result, State};
use std::alloc::Global;

/// Writes the value at the group's index, which moves on before the value is evaluated. Where no
/// value stands there it is `CycleBounds`; without values the index stays.
#[inline(never)]
pub(crate) fn run_cycle<W: CountedWrite, H: NamedFilters>(
    alloc: Global,
    context: &RunContext<'_, H>,
    group: &str,
    values: &[Expression],
    out: &mut Output<'_, W>,
    state: &mut State<'_>,
) -> Result<()>
    ensures performs { Performs result
        (node_in H.named context.now
        (tree.cycle group.now (map expression_view values.now)))
        (configuration_of W.contents W.failure_count out.old state.old)
        (configuration_of W.contents W.failure_count out.new state.new) }
    ensures same_writer { out.new.writer.ghost_name ≡ out.old.writer.ghost_name }
    ensures bounded { reserve_in W.left out.new ≤ reserve_in W.left out.old }
    ensures limited { limited_in W.left out.new ≡ limited_in W.left out.old }
    ensures kept { Keeps (node_names (tree.cycle group.now (map expression_view values.now)))
        (setting_of H.named context.now) state.old state.new }
    ensures loops { loops_of state.new ≡ loops_of state.old }
{
    if values.is_empty() {
        return Err(out_of_bounds(alloc));
    }
    let index = move_on(alloc, group, values.len(), state)?;
    match values.get(index) {
        Some(value) => {
            let value = value.evaluate(alloc, state)?;
            push_value(alloc, value.as_value(), out)
        }
        None => Err(out_of_bounds(alloc)),
    }
}

/// Moves the group's index on by one, modulo `count`. The answer is the index that it had, 0 at
/// first. Only a new group takes memory.
fn move_on(alloc: Global, group: &str, count: usize, state: &mut State<'_>) -> Result<usize>
    requires { 0 < count }
    ensures index { IfOk result (λ i. i ≡ cycle_index group.now (environment_of state.old)) }
    ensures moved { IsValueOrMemory (λ _. layers_of state.new) result
        (with_cycle group.now ((cycle_index group.now (environment_of state.old) + 1) % count)
        (layers_of state.old)) }
    ensures unchanged { OnErr result (layers_of state.new ≡ layers_of state.old) }
    ensures loops { loops_of state.new ≡ loops_of state.old }
{
    match state.cycles.get_mut(group) {
        Some(index) => {
            let before = *index;
            *index = (before % count + 1) % count;
            Ok(before)
        }
        None => {
            let name = String::from_str(alloc, group)?;
            drop(state.cycles.insert(name, 1 % count)?);
            Ok(0)
        }
    }
}

fn out_of_bounds(alloc: Global) -> Error
    ensures { IsKindOrMemory ErrorKind.CycleBounds result.kind }
{
    Error::new(
        alloc,
        ErrorKind::CycleBounds,
        "the group is past this `cycle`'s last value; give each `cycle` of a group the same values",
    )
}
