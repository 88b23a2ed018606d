//! Filters in order, for filters of any type.
ghost use Rattle.std.specs.Prelude.{◌≡◌, [], ◌∷◌, length, map, All, IsTrue, IsOk, Ok};
ghost use Rattle.std.specs.List.{list_all};
ghost use Rattle.liquid_model.specs.Cow.{cow_view};
ghost use Rattle.liquid_model.specs.FilterAnswers.{AnswersIf};
ghost use Rattle.liquid_core.specs.States.{environment_of};
ghost use Rattle.liquid_model.specs.View.{view};
ghost use Rattle.liquid_evaluation.specs.Calls.{applied, call_of};

use crate::arguments::{borrowed_arguments, evaluate_all};
use liquid_core::{Expression, Filter, Result, State, Value, ValueCow};
use std::alloc::Global;

/// One filter of a chain, with its arguments.
#[derive(Drop)]
pub struct FilterCall<'c, F> {
    pub filter: F,
    pub args: &'c [Expression],
    /// How many of the first arguments are required: a missing one of the others is nil.
    pub required: usize,
}

/// The value that the entry becomes through the filters, in order. The arguments of each are taken
/// from left to right.
///
/// A missing argument that is required is `UnknownVariable`, and a filter's fault ends the chain.
/// `Memory` where a growth was refused.
/// Each filter has to accept the number of its arguments. Without calls the answer is the entry,
/// which takes no memory.
pub fn apply_filters<F: Filter>(
    alloc: Global,
    entry: Value,
    calls: &[FilterCall<'_, F>],
    state: &State<'_>,
) -> Result<Value>
    requires { All (λ c. IsTrue (F.counts c.filter (length c.args.now))) calls.now }
    ensures value { AnswersIf (list_all (λ c. F.within c.filter) calls.now) view result
        (applied (map (λ c. call_of (F.answer c.filter) c.args.now c.required) calls.now)
        (view entry) (environment_of state.now)) }
    ensures no_memory { calls.now ≡ [] → IsOk result }
{
    apply_to(alloc, ValueCow::Owned(entry), calls, state)?.into_owned(alloc)
}

/// `apply_filters` over an entry that may be borrowed, which without calls is answered as it was.
pub fn apply_to<'v, F: Filter>(
    alloc: Global,
    entry: ValueCow<'v>,
    calls: &[FilterCall<'_, F>],
    state: &State<'_>,
) -> Result<ValueCow<'v>>
    requires { All (λ c. IsTrue (F.counts c.filter (length c.args.now))) calls.now }
    ensures value { AnswersIf (list_all (λ c. F.within c.filter) calls.now) cow_view result
        (applied (map (λ c. call_of (F.answer c.filter) c.args.now c.required) calls.now)
        (cow_view entry.entry) (environment_of state.now)) }
    ensures without_calls { calls.now ≡ [] → result ≡ Ok entry.entry }
{
    let mut value = entry;
    for call in calls {
        value = ValueCow::Owned(apply_one(alloc, value.as_value(), call, state)?);
    }
    Ok(value)
}

/// `apply_filters` of one call, over a borrowed value.
pub(crate) fn apply_one<F: Filter>(
    alloc: Global,
    input: &Value,
    call: &FilterCall<'_, F>,
    state: &State<'_>,
) -> Result<Value>
    requires { IsTrue (F.counts call.now.filter (length call.now.args.now)) }
    ensures { AnswersIf (F.within call.now.filter) view result
        (applied (call_of (F.answer call.now.filter) call.now.args.now call.now.required ∷ [])
        (view input.now) (environment_of state.now)) }
{
    if let Some(borrowed) = borrowed_arguments(call.args, state) {
        return call.filter.evaluate(alloc, input, borrowed);
    }
    let arguments = evaluate_all(alloc, call.args, call.required, state)?;
    let answer = call.filter.evaluate(alloc, input, arguments.as_slice());
    drop(arguments);
    answer
}
