//! What a filter is.
ghost use Rattle.std.specs.Prelude.{◌≡◌, ℕ, List, Bool, true, IsTrue, length, map, Result};
ghost use Rattle.liquid_model.specs.Data.{Datum};
ghost use Rattle.liquid_model.specs.View.{view};
ghost use Rattle.liquid_model.specs.declared.error.ErrorKind.{ErrorKind};
ghost use Rattle.liquid_model.specs.FilterAnswers.{AnswersIf};

use crate::{Result, Value};
use std::alloc::Global;

/// A filter: one function of its input and its arguments.
pub trait Filter: Drop {
    // How many arguments it takes.
    ghost counts: { Self → ℕ → Bool };

    // Its one answer to an input and arguments: a value, or the kind of a fault.
    ghost answer: { Self → Datum → List Datum → Result Datum ErrorKind };

    // Whether that answer stays within the meaning, whose faults are never `Memory` or `Write`. A
    // filter of a host that has such a kind for an answer says `false` here.
    ghost within: { Self → Bool } = { λ _. true };

    /// Whether the filter takes this many arguments.
    fn accepts(&self, count: usize) -> bool
        ensures { result ≡ counts self.now count };

    /// The filter's answer to the input and the arguments, whose number the filter takes; or
    /// `Memory` where a growth was refused.
    fn evaluate(&self, alloc: Global, input: &Value, args: &[Value]) -> Result<Value>
        requires { IsTrue (counts self.now (length args.now)) }
        ensures { AnswersIf (within self.now) view result
            (answer self.now (view input.now) (map view args.now)) };
}
