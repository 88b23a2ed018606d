//! Jekyll's filters that a converter answers, by a table of texts and what it made of each.
ghost use Rattle.std.specs.Prelude.{◌≡◌, [], nat_eq, option_map};
ghost use Rattle.liquid_model.specs.Answer.{Answers, IsValueOrMemory};
ghost use Rattle.liquid_model.specs.View.{pairs_view, view};
ghost use Rattle.liquid_filter_sets.specs.Conversions.{conversion_answer, conversions_in};
ghost use Rattle.liquid_filter_sets.specs.Conversions.{converter_name};
ghost use Rattle.liquid_filters.specs.Ends.{or_nil};

use crate::member::text_in;
use liquid_core::{Filter, Object, Result, Value};
use liquid_model::{invalid_input, look_up, text_of};
use std::alloc::Global;

/// The filters that a converter answers, which this library has none of.
#[derive(Clone, Copy)]
pub enum Converter {
    Markdownify,
    Smartify,
}

/// Each of them.
pub const CONVERTERS: [Converter; 2] = [Converter::Markdownify, Converter::Smartify];

impl Converter {
    /// Jekyll's name of the filter.
    pub fn name(self) -> &'static str
        ensures { result.now ≡ converter_name self }
    {
        match self {
            Converter::Markdownify => "markdownify",
            Converter::Smartify => "smartify",
        }
    }

    /// What the filter's input must be, for a message.
    fn wanted(self) -> &'static str {
        match self {
            Converter::Markdownify => "a text that `conversions.markdownify` of the data has",
            Converter::Smartify => "a text that `conversions.smartify` of the data has",
        }
    }
}

/// Such a filter: it answers with what the table has under the input's text, and takes no argument.
/// `InvalidInput` where the table has no text there; `Memory` where there is no room.
#[derive(Drop)]
pub struct Conversion {
    /// Which of them.
    pub converter: Converter,
    /// A map of texts and what the converter made of them. Any other value is an empty table.
    pub table: Value,
}

impl Conversion {
    /// The filter over the table that the data have at its name in the map `conversions`, which is
    /// copied. `Memory` alone where there is no room.
    pub fn of(alloc: Global, converter: Converter, data: &Object) -> Result<Conversion>
        ensures converter { IsValueOrMemory (λ c. c.converter) result converter }
        ensures table { IsValueOrMemory (λ c. view c.table) result
            (conversions_in (converter_name converter) (pairs_view «data».now.entries)) }
    {
        let table = match conversions_in(data, converter.name()) {
            Some(table) => table.copy(alloc)?,
            None => Value::Nil,
        };
        Ok(Conversion { converter, table })
    }
}

/// The table of the filter of this name.
fn conversions_in<'d>(data: &'d Object, name: &str) -> Option<&'d Value>
    ensures { or_nil (option_map (λ v. view v.now) result)
        ≡ conversions_in name.now (pairs_view «data».now.entries) }
{
    match look_up(data, "conversions") {
        Some(Value::Object(tables)) => look_up(tables, name),
        _ => None,
    }
}

impl Filter for Conversion {
    ghost counts = { λ _ n. nat_eq n 0 };

    ghost answer = { λ conversion. conversion_answer (view conversion.table) };

    fn accepts(&self, count: usize) -> bool {
        count == 0
    }

    fn evaluate(&self, alloc: Global, input: &Value, _args: &[Value]) -> Result<Value> {
        converted(alloc, self.converter, &self.table, input)
    }
}

/// What the table has under the input's text.
fn converted(alloc: Global, converter: Converter, table: &Value, input: &Value) -> Result<Value>
    ensures { Answers view result (conversion_answer (view table.now) (view input.now) []) }
{
    let text = text_of(alloc, input)?;
    match text_in(table, text.as_str()) {
        Some(made) => Ok(Value::Text(String::from_str(alloc, made)?)),
        None => Err(invalid_input(alloc, converter.wanted(), input)),
    }
}
