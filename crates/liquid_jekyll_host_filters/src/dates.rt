//! Filters that print a date.
ghost use Rattle.std.specs.Prelude.{◌≡◌, ◌∷◌, [], is_some, map, nat_eq, nat_le, string_bytes};
ghost use Rattle.liquid_model.specs.Answer.{Answers, IsValueOrMemory};
ghost use Rattle.liquid_model.specs.Data.{text};
ghost use Rattle.liquid_model.specs.ErrorKinds.{IsKindOrMemory};
ghost use Rattle.liquid_model.specs.View.{view};
ghost use Rattle.liquid_model.specs.declared.error.ErrorKind.TheVariants.{InvalidInput};
ghost use Rattle.liquid_filters.specs.Dates.{date_answer};
ghost use Rattle.liquid_filters.specs.DateSpelling.{read};
ghost use Rattle.liquid_jekyll_host_filters.specs.Dates.{date_to_long_string_answer};
ghost use Rattle.liquid_jekyll_host_filters.specs.Dates.{date_to_rfc822_answer};
ghost use Rattle.liquid_jekyll_host_filters.specs.Dates.{date_to_string_answer};
ghost use Rattle.liquid_jekyll_host_filters.specs.Dates.{date_to_xmlschema_answer, day_ending};
ghost use Rattle.liquid_jekyll_host_filters.specs.Dates.{form_given, form_of, form_pattern};
ghost use Rattle.liquid_jekyll_host_filters.specs.Dates.{has_date, in_form, ordinal, printed_by};
ghost use Rattle.liquid_jekyll_host_filters.specs.Dates.{says, spelled_date, text_has_date};

use liquid_filters::read_date;
use liquid_filters::stdlib::Date;
use liquid_model::{Error, Filter, Result, Value, invalid_input};
use std::alloc::Global;
use std::slice;

/// `date_to_string`: a date as `07 Nov 2008`, with `ordinal` as `7th Nov 2008`, and with `ordinal`
/// and `US` as `Nov 7th, 2008`. Nil and the empty text stay.
#[derive(Clone, Copy, Drop)]
pub struct DateToString;

impl Filter for DateToString {
    ghost counts = { λ _ n. nat_le n 2 };

    ghost answer = { λ _. date_to_string_answer };

    fn accepts(&self, count: usize) -> bool {
        count <= 2
    }

    /// `InvalidInput` of anything else that is no date.
    fn evaluate(&self, alloc: Global, input: &Value, args: &[Value]) -> Result<Value> {
        spelled_date(alloc, input, "%b", args)
    }
}

/// `date_to_long_string`: the same with the whole name of the month.
#[derive(Clone, Copy, Drop)]
pub struct DateToLongString;

impl Filter for DateToLongString {
    ghost counts = { λ _ n. nat_le n 2 };

    ghost answer = { λ _. date_to_long_string_answer };

    fn accepts(&self, count: usize) -> bool {
        count <= 2
    }

    /// `InvalidInput` of anything else that is no date.
    fn evaluate(&self, alloc: Global, input: &Value, args: &[Value]) -> Result<Value> {
        spelled_date(alloc, input, "%B", args)
    }
}

/// `date_to_xmlschema`: a date as `2008-11-07T13:07:54-08:00`. Nil and the empty text stay.
#[derive(Clone, Copy, Drop)]
pub struct DateToXmlschema;

impl Filter for DateToXmlschema {
    ghost counts = { λ _ n. nat_eq n 0 };

    ghost answer = { λ _. date_to_xmlschema_answer };

    fn accepts(&self, count: usize) -> bool {
        count == 0
    }

    /// `InvalidInput` of anything else that is no date.
    fn evaluate(&self, alloc: Global, input: &Value, _args: &[Value]) -> Result<Value> {
        printed_by(alloc, input, "%Y-%m-%dT%H:%M:%S%:z")
    }
}

/// `date_to_rfc822`: a date as `Fri, 07 Nov 2008 13:07:54 -0800`. Nil and the empty text stay.
#[derive(Clone, Copy, Drop)]
pub struct DateToRfc822;

impl Filter for DateToRfc822 {
    ghost counts = { λ _ n. nat_eq n 0 };

    ghost answer = { λ _. date_to_rfc822_answer };

    fn accepts(&self, count: usize) -> bool {
        count == 0
    }

    /// `InvalidInput` of anything else that is no date.
    fn evaluate(&self, alloc: Global, input: &Value, _args: &[Value]) -> Result<Value> {
        printed_by(alloc, input, "%a, %d %b %Y %H:%M:%S %z")
    }
}

/// How a day stands beside its month.
#[derive(Clone, Copy)]
enum Form {
    /// `07 Nov 2008`
    Plain,
    /// `7th Nov 2008`
    British,
    /// `Nov 7th, 2008`
    American,
}

/// The date as a day, a month by this directive and a year, in the form that the arguments ask for.
fn spelled_date(alloc: Global, input: &Value, month: &str, args: &[Value]) -> Result<Value>
    ensures { Answers view result (spelled_date month.now (view input.now) (map view args.now)) }
{
    if !has_date(alloc, input)? {
        return input.copy(alloc);
    }
    in_form(alloc, input, month, form_given(args))
}

fn form_given(args: &[Value]) -> Form
    ensures { result ≡ form_given (map view args.now) }
{
    match args {
        [] => Form::Plain,
        [kind] => form_of(kind, &Value::Nil),
        [kind, style, ..] => form_of(kind, style),
    }
}

/// The form that a kind and a style name.
fn form_of(kind: &Value, style: &Value) -> Form
    ensures { result ≡ form_of (view kind.now) (view style.now) }
{
    if !says(kind, "ordinal") {
        Form::Plain
    } else if says(style, "US") {
        Form::American
    } else {
        Form::British
    }
}

/// Whether the value is this text.
fn says(value: &Value, word: &str) -> bool
    ensures { result ≡ says (view value.now) word.now }
{
    match value {
        Value::Text(text) => text.as_str() == word,
        _ => false,
    }
}

/// The date in this form.
fn in_form(alloc: Global, input: &Value, month: &str, form: Form) -> Result<Value>
    ensures { Answers view result (in_form month.now form (view input.now)) }
{
    match form {
        Form::Plain => dated(alloc, input, form_pattern(alloc, form, month, "")?),
        _ => ordinal(alloc, input, month, form),
    }
}

/// The date in a form that has an ordinal: the day is printed first, to know its ending.
fn ordinal(alloc: Global, input: &Value, month: &str, form: Form) -> Result<Value>
    ensures { Answers view result (ordinal month.now form (view input.now)) }
{
    let day = dated(alloc, input, String::from_str(alloc, "%-d")?)?;
    let pattern = form_pattern(alloc, form, month, day_ending(&day))?;
    dated(alloc, input, pattern)
}

/// The pattern of a form, with the directive of the month and the ending of the day.
fn form_pattern(alloc: Global, form: Form, month: &str, ending: &str) -> Result<String>
    ensures { IsValueOrMemory (λ s. string_bytes s) result
        (form_pattern form month.now ending.now) }
{
    match form {
        Form::Plain => Ok(format!(in alloc; "%d {month} %Y")?),
        Form::British => Ok(format!(in alloc; "%-d{ending} {month} %Y")?),
        Form::American => Ok(format!(in alloc; "{month} %-d{ending}, %Y")?),
    }
}

/// What ends a day of a month as an ordinal: `st`, `nd`, `rd` or `th`.
fn day_ending(day: &Value) -> &'static str
    ensures { result.now ≡ day_ending (view day.now) }
{
    if says(day, "1") || says(day, "21") || says(day, "31") {
        "st"
    } else if says(day, "2") || says(day, "22") {
        "nd"
    } else if says(day, "3") || says(day, "23") {
        "rd"
    } else {
        "th"
    }
}

/// The date by a pattern: nil and the empty text stay.
fn printed_by(alloc: Global, input: &Value, pattern: &str) -> Result<Value>
    ensures { Answers view result (printed_by pattern.now (view input.now)) }
{
    if has_date(alloc, input)? {
        dated(alloc, input, String::from_str(alloc, pattern)?)
    } else {
        input.copy(alloc)
    }
}

/// What the filter `date` answers by the pattern.
fn dated(alloc: Global, input: &Value, pattern: String) -> Result<Value>
    ensures { Answers view result (date_answer (view input.now) (text (string_bytes pattern) ∷
        [])) }
{
    let pattern = Value::Text(pattern);
    Date.evaluate(alloc, input, slice::from_ref(&pattern))
}

/// Whether the input is a date: not where it is nil or empty, and `InvalidInput` where it is
/// anything else.
fn has_date(alloc: Global, input: &Value) -> Result<bool>
    ensures { Answers (λ b. b) result (has_date (view input.now)) }
{
    match input {
        Value::Nil => Ok(false),
        Value::Text(text) => text_has_date(alloc, input, text.as_str()),
        _ => Err(no_date(alloc, input)),
    }
}

fn text_has_date(alloc: Global, input: &Value, text: &str) -> Result<bool>
    ensures { Answers (λ b. b) result (text_has_date text.now) }
{
    if text.is_empty() {
        return Ok(false);
    }
    if is_date(text) {
        return Ok(true);
    }
    Err(no_date(alloc, input))
}

/// Whether the text is a date.
fn is_date(text: &str) -> bool
    ensures { result ≡ is_some (read text.now) }
{
    matches!(read_date(text), Ok(Some(_)))
}

fn no_date(alloc: Global, input: &Value) -> Error
    ensures { IsKindOrMemory InvalidInput result.kind }
{
    invalid_input(alloc, "a date as 2016-06-13 12:00:00 +0000", input)
}
