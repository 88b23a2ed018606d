//! Filters that answer by a table.
ghost use Rattle.std.specs.Prelude.{is_some};
ghost use Rattle.liquid_model.specs.Answer.{Answers as Tells};
ghost use Rattle.liquid_model.specs.View.{view};
ghost use Rattle.liquid_answers.specs.Tables.{answers_by, stand_in};

use crate::answers::{Answers, call_of, has_name};
use crate::missing_calls::{MissingCalls, note};
use crate::sets::answer_by_sets;
use liquid_core::{Error, NamedFilters, Result, Value};
use std::alloc::{AllocError, Global};
use std::cell::RefCell;

/// The filters of a table and of its sets. To a call that isn't there they answer
/// `Memory`; or nil, where lacking calls are to be kept.
#[derive(Clone, Copy, Drop)]
pub(crate) struct TableFilters<'t, 'c> {
    pub(crate) table: &'t Answers,
    /// Where the lacking calls are kept.
    pub(crate) asked: Option<&'c RefCell<MissingCalls>>,
}

impl NamedFilters for TableFilters<'_, '_> {
    ghost named = { λ filters. answers_by (is_some filters.asked) filters.table.now };

    fn call_named(
        &self,
        alloc: Global,
        name: &str,
        input: &Value,
        args: &[Value],
    ) -> Result<Value> {
        if !has_name(self.table.names.as_slice(), name) {
            return answer_by_sets(alloc, self.table, name, input, args);
        }
        let call = call_of(alloc, name, input, args)?;
        match self.table.find(&call) {
            Some(answer) => answer.say(alloc),
            None => answer_without(self.asked, call),
        }
    }
}

/// What is answered to a call that the table lacks.
fn answer_without(asked: Option<&RefCell<MissingCalls>>, call: Value) -> Result<Value>
    ensures { Tells view result (stand_in (is_some asked.entry)) }
{
    match asked {
        Some(asked) => {
            note(asked, call);
            Ok(Value::Nil)
        }
        None => {
            drop(call);
            Err(Error::from(AllocError))
        }
    }
}
