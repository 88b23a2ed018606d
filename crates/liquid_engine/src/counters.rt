//! Runs of `increment` and `decrement`.
ghost use Rattle.std.specs.Prelude.{◌≡◌, ◌≤◌, pos, ◌+ℤ◌, ◌-ℤ◌, T};
ghost use Rattle.std.specs.Option.{ok_or};
ghost use Rattle.liquid_model.specs.Answer.{Answers};
ghost use Rattle.liquid_model.specs.declared.error.ErrorKind.TheVariants.{NumberRange};
ghost use Rattle.liquid_core.specs.Environment.{Names};
ghost use Rattle.liquid_core.specs.States.{environment_of, layers_of, loops_of};
ghost use Rattle.liquid_evaluation.specs.Names.{node_names};
ghost use Rattle.liquid_evaluation.specs.Tree as tree;
ghost use Rattle.liquid_engine.specs.inside.Counters.{in_i64, shown_and_stored};
ghost use Rattle.liquid_engine.specs.inside.Engine.{setting_of, node_in};
ghost use Rattle.liquid_engine.specs.inside.Reserves.{limited_in, reserve_in};
ghost use Rattle.liquid_engine.specs.StateKept.{Keeps, LayersKept};
ghost use Rattle.liquid_engine.specs.Performs.{Performs, configuration_of};
ghost use Rattle.liquid_meaning.specs.Effects.{counter_number};

use crate::context::RunContext;
use crate::counted::CountedWrite;
use crate::output::Output;
use crate::push_value::push_number;
use liquid_core::{Error, ErrorKind, NamedFilters, Result, State, Value};
use std::alloc::Global;

/// Writes the counter's number, and stores one more. Where that is beyond 64 bits, it is
/// `NumberRange` before anything is written.
#[inline(never)]
pub(crate) fn run_increment<W: CountedWrite, H: NamedFilters>(
    alloc: Global,
    context: &RunContext<'_, H>,
    name: &str,
    out: &mut Output<'_, W>,
    state: &mut State<'_>,
) -> Result<()>
    ensures performs { Performs result (node_in H.named context.now (tree.increment name.now))
        (configuration_of W.contents W.failure_count out.old state.old)
        (configuration_of W.contents W.failure_count out.new state.new) }
    ensures same_writer { out.new.writer.ghost_name ≡ out.old.writer.ghost_name }
    ensures bounded { reserve_in W.left out.new ≤ reserve_in W.left out.old }
    ensures limited { limited_in W.left out.new ≡ limited_in W.left out.old }
    ensures kept { Keeps (node_names (tree.increment name.now)) (setting_of H.named context.now)
        state.old
        state.new }
    ensures loops { loops_of state.new ≡ loops_of state.old }
{
    let number = number_of(name, state);
    let more = one_more(alloc, number)?;
    show_and_store(alloc, name, number, more, out, state)
}

/// Writes one less than the counter's number, and stores that. Where it is beyond 64 bits, it is
/// `NumberRange` before anything is written.
#[inline(never)]
pub(crate) fn run_decrement<W: CountedWrite, H: NamedFilters>(
    alloc: Global,
    context: &RunContext<'_, H>,
    name: &str,
    out: &mut Output<'_, W>,
    state: &mut State<'_>,
) -> Result<()>
    ensures performs { Performs result (node_in H.named context.now (tree.decrement name.now))
        (configuration_of W.contents W.failure_count out.old state.old)
        (configuration_of W.contents W.failure_count out.new state.new) }
    ensures same_writer { out.new.writer.ghost_name ≡ out.old.writer.ghost_name }
    ensures bounded { reserve_in W.left out.new ≤ reserve_in W.left out.old }
    ensures limited { limited_in W.left out.new ≡ limited_in W.left out.old }
    ensures kept { Keeps (node_names (tree.decrement name.now)) (setting_of H.named context.now)
        state.old
        state.new }
    ensures loops { loops_of state.new ≡ loops_of state.old }
{
    let less = one_less(alloc, number_of(name, state))?;
    show_and_store(alloc, name, less, less, out, state)
}

/// The whole number of the counter, or 0 where there is none. No other layer is looked at.
fn number_of(name: &str, state: &State<'_>) -> i64
    ensures { result ≡ counter_number name.now (environment_of state.now) }
{
    match state.get_index(name) {
        Some(value) => value.to_integer().unwrap_or(0),
        None => 0,
    }
}

/// One more, or `NumberRange`.
fn one_more(alloc: Global, number: i64) -> Result<i64>
    ensures { Answers (λ n. n) result (in_i64 (number +ℤ pos 1)) }
{
    within_i64(alloc, number.checked_add(1))
}

/// One less, or `NumberRange`.
fn one_less(alloc: Global, number: i64) -> Result<i64>
    ensures { Answers (λ n. n) result (in_i64 (number -ℤ pos 1)) }
{
    within_i64(alloc, number.checked_sub(1))
}

/// The number that was computed, or `NumberRange` where it is beyond 64 bits.
fn within_i64(alloc: Global, number: Option<i64>) -> Result<i64>
    ensures { Answers (λ n. n) result (ok_or number NumberRange) }
{
    match number {
        Some(n) => Ok(n),
        None => Err(Error::new(
            alloc,
            ErrorKind::NumberRange,
            "the counter would be beyond 64 bits",
        )),
    }
}

/// Writes a number, and then stores one as the counter.
fn show_and_store<W: CountedWrite>(
    alloc: Global,
    name: &str,
    shown: i64,
    stored: i64,
    out: &mut Output<'_, W>,
    state: &mut State<'_>,
) -> Result<()>
    ensures performs { Performs result (shown_and_stored name.now shown stored)
        (configuration_of W.contents W.failure_count out.old state.old)
        (configuration_of W.contents W.failure_count out.new state.new) }
    ensures same_writer { out.new.writer.ghost_name ≡ out.old.writer.ghost_name }
    ensures bounded { reserve_in W.left out.new ≤ reserve_in W.left out.old }
    ensures limited { limited_in W.left out.new ≡ limited_in W.left out.old }
    ensures kept { (N : Names) → T (N name.now) →
        LayersKept N (layers_of state.old) (layers_of state.new) }
    ensures loops { loops_of state.new ≡ loops_of state.old }
{
    push_number(alloc, shown, out)?;
    state.set_index(String::from_str(alloc, name)?, Value::Integer(stored))
}
