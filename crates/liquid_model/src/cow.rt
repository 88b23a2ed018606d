//! A value that is owned or borrowed.
ghost use Rattle.std.specs.Prelude.{◌≡◌, IsTrue, IsOk};
ghost use Rattle.liquid_model.specs.Answer.{IsValueOrMemory};
ghost use Rattle.liquid_model.specs.Cow.{cow_view, is_owned};
ghost use Rattle.liquid_model.specs.View.{view};

use crate::error::Result;
use crate::value::Value;
use std::alloc::Global;

/// A value that is owned, or borrowed from what holds it.
#[derive(Drop)]
pub enum ValueCow<'a> {
    /// A value of its own, as a length that was counted.
    Owned(Value),
    /// A value that a state, a template or another value holds.
    Borrowed(&'a Value),
}

impl<'a> ValueCow<'a> {
    /// The value, borrowed.
    pub fn as_value(&self) -> &Value
        ensures { view result.now ≡ cow_view self.now }
    {
        match self {
            ValueCow::Owned(value) => value,
            ValueCow::Borrowed(value) => *value,
        }
    }

    /// The value itself, which takes no memory, or a copy of a borrowed one.
    pub fn into_owned(self, alloc: Global) -> Result<Value>
        ensures value { IsValueOrMemory view result (cow_view self.entry) }
        ensures no_memory { IsTrue (is_owned self.entry) → IsOk result }
    {
        match self {
            ValueCow::Owned(value) => Ok(value),
            ValueCow::Borrowed(value) => value.copy(alloc),
        }
    }
}
