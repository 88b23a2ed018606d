//! States: calls in their order, each with its answer.
use crate::faults::no_call;
use liquid_core::{ErrorKind, Items, LoopFrame, LoopKind, Object, Result, State, Value};
use liquid_test_refusals::{
    Reporter, StateChange, found, items, items_member, kind_of, nil, optional, owned, step_of,
    text_member,
};
use std::alloc::Global;

/// Makes the calls of the list, one after another, on a state of this data. Each is a list: its
/// name, a name or a path of the state, a value, and what it answers, which is the kind of its
/// fault as a text where it ends by one.
pub(crate) fn made_in_turn<R: Print>(
    reporter: &Reporter<'_, R>,
    steps: &Value,
    data: Object,
) -> Result<()> {
    let mut state = State::new(reporter.alloc, data);
    for step in items(steps) {
        step_made(reporter, &mut state, step);
    }
    Ok(())
}

/// Makes the call of the step. One that was refused memory is made again, so that those after it
/// find what it does.
fn step_made<'d, R: Print>(reporter: &Reporter<'_, R>, state: &mut State<'d>, step: &'d Value) {
    reporter.begin();
    let answer = called(reporter.alloc, state, step);
    reporter.end();
    reporter.step_ended(step, 3, &answer);
    if matches!(kind_of(&answer), Some(ErrorKind::Memory)) {
        drop(called(reporter.alloc, state, step));
    }
}

fn called<'d>(alloc: Global, state: &mut State<'d>, step: &'d Value) -> Result<Value> {
    match step_of(alloc, step)? {
        Some(change) => changed(state, change),
        None if text_member(step, 0) == "push_frame" => looped(state, step),
        None => looked_up(alloc, state, step),
    }
}

/// Begins a loop by the step's name over the first item of its list.
fn looped<'d>(state: &mut State<'d>, step: &'d Value) -> Result<Value> {
    nil(state.push_frame(LoopFrame {
        name: text_member(step, 1),
        items: Items::Borrowed(items_member(step, 2)),
        from: 0,
        count: 1,
        reversed: false,
        at: 0,
        kind: LoopKind::Render,
    }))
}

fn changed(state: &mut State<'_>, change: StateChange) -> Result<Value> {
    match change {
        StateChange::Index(name, value) => nil(state.set_index(name, value)),
        StateChange::Global(name, value) => nil(state.set_global(name, value)),
        StateChange::Push(scope) => nil(state.push_scope(scope)),
        StateChange::Pop => {
            state.pop_scope();
            Ok(Value::Nil)
        }
    }
}

fn looked_up(alloc: Global, state: &State<'_>, step: &Value) -> Result<Value> {
    let (name, path) = (text_member(step, 1), items_member(step, 1));
    match text_member(step, 0) {
        "look_up" => optional(alloc, state.look_up(name)),
        "get_index" => optional(alloc, state.get_index(name)),
        "get" => owned(alloc, state.get(alloc, path)),
        "try_get" => found(state.try_get(alloc, path)),
        _ => no_call(alloc),
    }
}
