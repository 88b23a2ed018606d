//! Tables of answers.
ghost use Rattle.std.specs.Prelude.{◌≡◌, [], Err, None, Some, IfErr, OnErr, OnOk, false, map, true};
ghost use Rattle.std.specs.Prelude.{option_map, string_bytes};
ghost use Rattle.liquid_model.specs.Answer.{Answers as Tells, Faulted, IsValueOrMemory};
ghost use Rattle.liquid_model.specs.Data.{Datum};
ghost use Rattle.liquid_model.specs.View.{view};
ghost use Rattle.liquid_answers.specs.Tables.{IsAnswerStored, answer_at, as_fault, call_datum};
ghost use Rattle.liquid_answers.specs.Tables.{is_listed_filter};
ghost use Rattle.liquid_answers.specs.Tables.{filter_names, said_by, site_of, with_name};

use crate::site::Site;
use liquid_core::{Error, ErrorKind, Result, Value};
use liquid_shopify_host_filters::Shop;
use std::alloc::Global;
use std::collections::BTreeMap;

/// What a filter answers to a call.
#[derive(Drop)]
pub enum Answer {
    /// This value.
    Value(Value),
    /// A fault of this kind, with this message. `InvalidInput` stands in place of `Memory` and
    /// `Write`.
    Fault(ErrorKind, String),
}

impl Answer {
    /// The answer, as a filter gives it.
    pub(crate) fn say(&self, alloc: Global) -> Result<Value>
        ensures { Tells view result (said_by self.now) }
    {
        match self {
            Answer::Value(value) => value.copy(alloc),
            Answer::Fault(kind, message) => Err(fault_of(alloc, *kind, message.as_str())),
        }
    }
}

/// The fault by which a filter refuses.
#[tactic(auto, using(crate::proofs::Faults::faulted_as))]
fn fault_of(alloc: Global, kind: ErrorKind, message: &str) -> Error
    ensures { Faulted {Y = Datum} result.kind (Err (as_fault kind)) }
{
    match kind {
        ErrorKind::Memory | ErrorKind::Write => Error::new(alloc, ErrorKind::InvalidInput, message),
        _ => Error::new(alloc, kind, message),
    }
}

/// The names of filters, and answers to calls of them; and the sets by which the library itself
/// answers: the filters over decimals, Shopify's over a shop, and Jekyll's over a site.
///
/// A call is a list of its filter's name, its input and its arguments.
#[derive(Drop)]
pub struct Answers {
    pub(crate) names: Vec<String>,
    pub(crate) answers: BTreeMap<Value, Answer>,
    pub(crate) has_decimals: bool,
    pub(crate) shop: Option<Shop>,
    pub(crate) site: Option<Site>,
}

impl Answers {
    /// No names, no answers and no sets. It takes no memory.
    pub fn new(alloc: Global) -> Answers
        ensures names { filter_names result ≡ [] }
        ensures answers { (call : Datum) → answer_at result call ≡ None }
        ensures site { site_of result ≡ None }
        ensures shop { result.shop ≡ None }
        ensures decimals { result.has_decimals ≡ false }
    {
        Answers {
            names: Vec::new(alloc),
            answers: BTreeMap::new(alloc),
            has_decimals: false,
            shop: None,
            site: None,
        }
    }

    /// Puts a site of this address and this base path in place of the one before: Jekyll's filters
    /// whose names the table hasn't answer over it. `Memory` where there is no room; then nothing
    /// changed.
    pub fn set_site(&mut self, alloc: Global, address: &str, base: &str) -> Result<()>
        ensures site { IsValueOrMemory (λ _. site_of self.new) result
            (Some (address.now, base.now)) }
        ensures unchanged { OnErr result (self.new.site ≡ self.old.site) }
        ensures names { self.new.names ≡ self.old.names }
        ensures answers { self.new.answers ≡ self.old.answers }
        ensures shop { self.new.shop ≡ self.old.shop }
        ensures decimals { self.new.has_decimals ≡ self.old.has_decimals }
    {
        let site = Site::new(alloc, address, base)?;
        self.site = Some(site);
        Ok(())
    }

    /// Puts a shop in place of the one before: Shopify's filters whose names the table hasn't
    /// answer over it. It takes no memory.
    pub fn set_shop(&mut self, shop: Shop)
        ensures shop { self.new.shop ≡ Some shop }
        ensures names { self.new.names ≡ self.old.names }
        ensures answers { self.new.answers ≡ self.old.answers }
        ensures site { self.new.site ≡ self.old.site }
        ensures decimals { self.new.has_decimals ≡ self.old.has_decimals }
    {
        self.shop = Some(shop);
    }

    /// Adds the filters over decimals: those whose names the table hasn't answer. It takes no
    /// memory.
    pub fn set_decimals(&mut self)
        ensures decimals { self.new.has_decimals ≡ true }
        ensures names { self.new.names ≡ self.old.names }
        ensures answers { self.new.answers ≡ self.old.answers }
        ensures shop { self.new.shop ≡ self.old.shop }
        ensures site { self.new.site ≡ self.old.site }
    {
        self.has_decimals = true;
    }

    /// Adds the name of a filter, unless it is there. `Memory` where there is no room; then nothing
    /// changed.
    pub fn add_name(&mut self, name: String) -> Result<()>
        ensures names { IsValueOrMemory (λ _. filter_names self.new) result
            (with_name (string_bytes name) (filter_names self.old)) }
        ensures unchanged { OnErr result (filter_names self.new ≡ filter_names self.old) }
        ensures answers { self.new.answers ≡ self.old.answers }
        ensures site { self.new.site ≡ self.old.site }
        ensures shop { self.new.shop ≡ self.old.shop }
        ensures decimals { self.new.has_decimals ≡ self.old.has_decimals }
    {
        if has_name(self.names.as_slice(), name.as_str()) {
            drop(name);
            return Ok(());
        }
        Ok(self.names.push(name)?)
    }

    /// The answer to a call. It takes no memory.
    pub fn find(&self, call: &Value) -> Option<&Answer>
        ensures { option_map (λ a. a.now) result ≡ answer_at self.now (view call.now) }
    {
        self.answers.get(call)
    }

    /// Puts the answer to a call; the one before is dropped. `Memory` where there is no room; then
    /// nothing changed.
    pub fn put(&mut self, call: Value, answer: Answer) -> Result<()>
        ensures put { OnOk result (IsAnswerStored self.old (view call) answer self.new) }
        ensures memory { IfErr result (λ e. e.kind ≡ ErrorKind.Memory) }
        ensures unchanged { OnErr result ((call : Datum) →
            answer_at self.new call ≡ answer_at self.old call) }
        ensures names { self.new.names ≡ self.old.names }
        ensures site { self.new.site ≡ self.old.site }
        ensures shop { self.new.shop ≡ self.old.shop }
        ensures decimals { self.new.has_decimals ≡ self.old.has_decimals }
    {
        drop(self.answers.insert(call, answer)?);
        Ok(())
    }
}

/// Whether a name is among these.
pub(crate) fn has_name(names: &[String], name: &str) -> bool
    ensures { result ≡ is_listed_filter name.now (map string_bytes names.now) }
{
    for known in names {
        if known.as_str() == name {
            return true;
        }
    }
    false
}

/// A call as one value.
pub(crate) fn call_of(alloc: Global, name: &str, input: &Value, args: &[Value]) -> Result<Value>
    ensures { IsValueOrMemory view result (call_datum name.now (view input.now)
        (map view args.now)) }
{
    let mut call = Vec::new(alloc);
    call.push(Value::Text(String::from_str(alloc, name)?))?;
    call.push(input.copy(alloc)?)?;
    for argument in args {
        call.push(argument.copy(alloc)?)?;
    }
    Ok(Value::Array(call))
}
