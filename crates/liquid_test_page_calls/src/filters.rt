//! Filters of a host.
use liquid_core::{Error, ErrorKind, Filter, Result, Value};
use std::alloc::Global;

/// The input's text with this one after it.
#[derive(Drop)]
pub(crate) struct Suffix {
    pub(crate) text: &'static str,
}

impl Filter for Suffix {
    ghost use Rattle.std.specs.Prelude.{◌++◌, Ok, nat_eq};
    ghost use Rattle.liquid_model.specs.Data.{text, text_of};

    ghost counts = { λ _ n. nat_eq n 0 };

    ghost answer = { λ suffix input args. Ok (text (text_of input ++ suffix.text.now)) };

    fn accepts(&self, count: usize) -> bool {
        count == 0
    }

    fn evaluate(&self, alloc: Global, input: &Value, _args: &[Value]) -> Result<Value> {
        let mut whole = input.text(alloc)?;
        whole.push_str(self.text)?;
        Ok(Value::Text(whole))
    }
}

/// Its answer is the kind of a failed write, which no run of a filter has.
#[derive(Drop)]
pub(crate) struct Bad;

impl Filter for Bad {
    ghost use Rattle.std.specs.Prelude.{Err, false, nat_eq};
    ghost use Rattle.liquid_model.specs.declared.error.ErrorKind.TheVariants.{Write};

    ghost counts = { λ _ n. nat_eq n 0 };

    ghost answer = { λ _ _ _. Err Write };

    ghost within = { λ _. false };

    fn accepts(&self, count: usize) -> bool {
        count == 0
    }

    fn evaluate(&self, alloc: Global, _input: &Value, _args: &[Value]) -> Result<Value> {
        Err(Error::new(alloc, ErrorKind::Write, "no run has this kind"))
    }
}
