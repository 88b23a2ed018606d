//! How a call ends, and the report of it.
ghost use Rattle.std.specs.Prelude.{◌≡◌, option_map};
ghost use Rattle.liquid_model.specs.View.{view};
ghost use Rattle.liquid_test_refusals.specs.Endings.{ending_of};

use crate::row::{WorkedRow, member, text_member, text_of};
use liquid_model::{ErrorKind, Result, Value, ValueCow};
use std::alloc::Global;

/// Where answers are printed, and whether each call stands between marks.
#[derive(Drop)]
pub struct Reporter<'r, R> {
    pub rt: &'r R,
    pub alloc: Global,
    pub marked: bool,
}

impl<R: Print> Reporter<'_, R> {
    /// The first mark, after which requests for memory count.
    pub fn begin(&self) {
        if self.marked {
            let _ = println!(self.rt; "@refuse");
        }
    }

    /// The second mark.
    pub fn end(&self) {
        if self.marked {
            let _ = println!(self.rt; "@allow");
        }
    }

    /// How the row's call ended.
    pub fn answered(&self, line: &str, row: &WorkedRow, answer: &Result<Value>) {
        self.answered_by(row.call.as_str(), line, row, answer);
    }

    /// How another call ended that answers what the row's does.
    pub fn answered_by(&self, call: &str, line: &str, row: &WorkedRow, answer: &Result<Value>) {
        let wanted = match row.fault.as_str() {
            "" => None,
            fault => Some(fault),
        };
        self.ended(call, line, ending(answer, &row.answer, wanted));
    }

    /// How the call of a step ended. A step is a list of the call's name, what it names, and more,
    /// with its answer or the kind of its fault at the place.
    pub fn step_ended(&self, step: &Value, place: usize, answer: &Result<Value>) {
        let wanted = member(step, place).unwrap_or(&Value::Nil);
        let fault = match answer {
            Ok(_) => None,
            Err(_) => Some(text_of(wanted)),
        };
        self.ended(
            text_member(step, 0),
            text_member(step, 1),
            ending(answer, wanted, fault),
        );
    }

    /// How a call ended: after the second mark, or without marks only where it isn't as wanted.
    pub fn ended(&self, call: &str, at: &str, end: &str) {
        if self.marked {
            self.tell_end(call, at, end);
        } else if end != "done" {
            let _ = println!(self.rt; "{call} ends by {end}: {at}");
        }
    }

    /// How a call ended, for `tests/refusals/run`.
    fn tell_end(&self, call: &str, at: &str, end: &str) {
        let _ = println!(self.rt; "answer: {call} {at:?} {end}");
    }
}

/// `done` where the answer is the wanted value and no fault is wanted, or where it is a fault of
/// the wanted name, which isn't `Memory`. Of any other fault its kind.
pub fn ending(answer: &Result<Value>, wanted: &Value, fault: Option<&str>) -> &'static str
    ensures { result.now ≡ ending_of answer.now (view wanted.now)
        (option_map (λ x. x.now) fault.entry) }
{
    match (answer, fault) {
        (Ok(value), None) => if *value == *wanted {
            "done"
        } else {
            "another_answer"
        },
        (Ok(_), Some(_)) => "an_answer_in_place_of_a_fault",
        (Err(found), Some(name)) => if found.kind.name() == name
            && found.kind != ErrorKind::Memory
        {
            "done"
        } else {
            found.kind.name()
        },
        (Err(found), None) => found.kind.name(),
    }
}

/// The kind of the fault that the answer is, if it is one.
pub fn kind_of<T>(answer: &Result<T>) -> Option<ErrorKind> {
    match answer {
        Ok(_) => None,
        Err(fault) => Some(fault.kind),
    }
}

/// The name of the kind, or an empty text where there is none.
pub fn name_of(kind: Option<ErrorKind>) -> &'static str {
    match kind {
        Some(kind) => kind.name(),
        None => "",
    }
}

/// Nil, where the call is done.
pub fn nil(done: Result<()>) -> Result<Value> {
    done?;
    Ok(Value::Nil)
}

/// A truth as a value.
pub fn flag(truth: Result<bool>) -> Result<Value> {
    Ok(Value::Bool(truth?))
}

/// A text as a value.
pub fn text(text: Result<String>) -> Result<Value> {
    Ok(Value::Text(text?))
}

/// The found value as one of its own.
pub fn owned(alloc: Global, found: Result<ValueCow<'_>>) -> Result<Value> {
    found?.into_owned(alloc)
}

/// Whether there is a found value, as a value.
pub fn found(found: Result<Option<ValueCow<'_>>>) -> Result<Value> {
    Ok(Value::Bool(found?.is_some()))
}

/// A number as a value, or nil where there is none.
pub fn number(number: Option<i64>) -> Value {
    match number {
        Some(number) => Value::Integer(number),
        None => Value::Nil,
    }
}

/// A copy of the value, or nil where there is none.
pub fn optional(alloc: Global, value: Option<&Value>) -> Result<Value> {
    match value {
        Some(value) => value.copy(alloc),
        None => Ok(Value::Nil),
    }
}
