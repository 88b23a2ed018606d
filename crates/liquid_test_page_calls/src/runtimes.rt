//! Runtimes: calls in their order, each with its answer.
use crate::given::depth;
use liquid_core::{ErrorKind, Object, Result, Value};
use liquid_lib::{Partials, Runtime, RuntimeBuilder};
use liquid_test_refusals::{
    Reporter, StateChange, WorkedRow, found, items, items_member, kind_of, nil, optional, owned,
    step_of, text_member,
};
use std::alloc::Global;

/// Makes the calls of the row, one after another, on the same runtime. Each is a list: its name, a
/// name or a path of the runtime, a value, and what it answers, which is the kind of its fault as a
/// text where it ends by one. A call that was refused memory is made again, so that those after it
/// find what it does.
pub(crate) fn runtime_made<R: Print>(
    reporter: &Reporter<'_, R>,
    row: &WorkedRow,
    data: Object,
) -> Result<()> {
    let partials = Partials::new(reporter.alloc);
    let mut runtime = RuntimeBuilder::new(reporter.alloc)
        .set_globals(data)
        .set_partials(&partials)
        .set_depth(depth(&row.on))
        .build(reporter.alloc);
    for step in items(&row.with) {
        reporter.begin();
        for is_first in [true, false] {
            // made here: of a runtime that is handed on rt ci takes it that filters of a host are
            // made for it
            let answer = match step_of(reporter.alloc, step) {
                Ok(Some(StateChange::Index(name, value))) => nil(runtime.set_index(name, value)),
                Ok(Some(StateChange::Global(name, value))) => nil(runtime.set_global(name, value)),
                Ok(Some(StateChange::Push(scope))) => nil(runtime.push_scope(scope)),
                Ok(Some(StateChange::Pop)) => {
                    runtime.pop_scope();
                    Ok(Value::Nil)
                }
                Ok(None) => looked_up(reporter.alloc, &runtime, step),
                Err(fault) => Err(fault),
            };
            if !is_refused(reporter, step, &answer, is_first) {
                break;
            }
        }
    }
    Ok(())
}

/// Tells how the step's call ended when it was made first. Whether it was refused memory.
fn is_refused<R: Print>(
    reporter: &Reporter<'_, R>,
    step: &Value,
    answer: &Result<Value>,
    is_first: bool,
) -> bool {
    if is_first {
        reporter.end();
        reporter.step_ended(step, 3, answer);
    }
    matches!(kind_of(answer), Some(ErrorKind::Memory))
}

fn looked_up(alloc: Global, runtime: &Runtime<'_>, step: &Value) -> Result<Value> {
    let (name, path) = (text_member(step, 1), items_member(step, 1));
    match text_member(step, 0) {
        "look_up" => optional(alloc, runtime.state().look_up(name)),
        "get_index" => optional(alloc, runtime.get_index(name)),
        "get" => owned(alloc, runtime.get(alloc, path)),
        _ => found(runtime.try_get(alloc, path)),
    }
}
