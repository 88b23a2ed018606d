//! The calls that a table lacks, as a list.
ghost use Rattle.std.specs.Prelude.{◌≡◌, ◌==◌, ◌<◌, ◌++◌, ◌∷◌, [], IfErr, IfOk, IsTrue, None};
ghost use Rattle.std.specs.Prelude.{length, option_map, slice_get, string_bytes};
ghost use Rattle.liquid_model.specs.View.{view};
ghost use Rattle.liquid_json.specs.JsonTexts.{json_text};
ghost use Rattle.liquid_answers.specs.Lacking.{IsLacking, calls_in};
ghost use Rattle.liquid_answers.specs.Tables.{answer_at};
ghost use Rattle.liquid_answers.specs.declared.answers.Answers.{Answers};
ghost use Rattle.liquid_answers.specs.inside.Listed.{AreListed, IsAfter, IsNone, comma_after};

use crate::answers::Answers;
use crate::missing_calls::{MOST_BYTES, MOST_CALLS, MissingCalls};
use liquid_core::{ErrorKind, Result, Value};
use liquid_json::json_of;
use std::alloc::Global;

/// Calls that a table lacks: at least one, and each once.
#[derive(Drop)]
pub struct Lacking {
    pub(crate) calls: Vec<Value>,
    pub(crate) text: String,
}

impl Lacking {
    /// How many calls.
    pub fn len(&self) -> usize
        ensures { result ≡ length (calls_in self.now) }
    {
        self.calls.len()
    }

    /// The call of this number, from 0.
    pub fn get(&self, number: usize) -> Option<&Value>
        ensures { option_map (λ c. c.now) result ≡ slice_get (calls_in self.now) number }
    {
        self.calls.get(number)
    }

    /// The calls as a text of JSON: a list of lists.
    pub fn text(&self) -> &str
        ensures { result.now ≡ string_bytes self.now.text }
    {
        self.text.as_str()
    }
}

/// Calls that are listed, and their text so far.
#[derive(Drop)]
pub(crate) struct Listed {
    calls: Vec<Value>,
    /// A list in JSON that isn't closed yet.
    text: String,
}

impl Listed {
    /// None yet.
    fn new(alloc: Global) -> Result<Listed>
        ensures listed { IfOk result IsNone }
        ensures memory { IfErr result (λ e. e.kind ≡ ErrorKind.Memory) }
    {
        let mut text = String::new(alloc);
        text.push_str("[")?;
        let calls = Vec::new(alloc);
        Ok(Listed { calls, text })
    }

    /// Whether no call is listed.
    pub(crate) fn is_empty(&self) -> bool
        ensures { result ≡ (length self.now.calls.items == 0) }
    {
        self.calls.is_empty()
    }

    /// Whether a call may be listed next: there is room for it, it comes after the last one, and
    /// the table lacks it.
    fn may_add(&self, table: &Answers, call: &Value) -> bool
        ensures few { IsTrue result → length self.now.calls.items < 1000 }
        ensures bytes { IsTrue result → length (string_bytes self.now.text) < 1048576 }
        ensures after { IsTrue result → IsAfter self.now.calls.items call.now }
        ensures lacking { IsTrue result → answer_at table.now (view call.now) ≡ None }
    {
        self.calls.len() < MOST_CALLS
            && self.text.len() < MOST_BYTES
            && is_after(self.calls.as_slice(), call)
            && table.find(call).is_none()
    }

    /// Lists a call, with its text.
    fn add(&mut self, alloc: Global, call: Value) -> Result<()>
        ensures calls { IfOk result (λ _. self.new.calls.items ≡
            self.old.calls.items ++ call ∷ []) }
        ensures text { IfOk result (λ _. string_bytes self.new.text ≡
            string_bytes self.old.text ++
            (comma_after self.old.calls.items ++ json_text (view call))) }
        ensures memory { IfErr result (λ e. e.kind ≡ ErrorKind.Memory) }
    {
        let separator = separator(self.calls.as_slice());
        self.text.push_str(separator)?;
        self.text.push_str(json_of(alloc, &call)?.as_str())?;
        self.calls.push(call)?;
        Ok(())
    }
}

/// What stands in a list between these calls and the next one.
#[tactic(auto, using(crate::proofs::Listed::separator_none, crate::proofs::Listed::separator_some))]
fn separator(calls: &[Value]) -> &str
    ensures { result.now ≡ comma_after calls.now }
{
    if calls.is_empty() { "" } else { "," }
}

/// Those of the calls that a table lacks, as far as they may be listed.
pub(crate) fn list_lacking(alloc: Global, asked: MissingCalls, table: &Answers) -> Result<Listed>
    ensures listed { IfOk result (AreListed table.now) }
    ensures memory { IfErr result (λ e. e.kind ≡ ErrorKind.Memory) }
{
    let mut listed = Listed::new(alloc)?;
    for (call, _) in asked.into_calls() {
        list_call(alloc, &mut listed, table, call)?;
    }
    Ok(listed)
}

/// Lists a call, where it may be listed.
#[tactic(auto, using(crate::proofs::Listed::listed_more))]
fn list_call(alloc: Global, listed: &mut Listed, table: &Answers, call: Value) -> Result<()>
    ensures listed { AreListed table.now listed.old →
        IfOk result (λ _. AreListed table.now listed.new) }
    ensures memory { IfErr result (λ e. e.kind ≡ ErrorKind.Memory) }
{
    if listed.may_add(table, &call) {
        listed.add(alloc, call)?;
    }
    Ok(())
}

/// Whether a call comes after the last of these.
fn is_after(calls: &[Value], call: &Value) -> bool
    ensures { IsTrue result → IsAfter calls.now call.now }
{
    match calls.last() {
        Some(last) => *last < *call,
        None => true,
    }
}

/// The calls that are listed, of which there is one, with their text.
pub(crate) fn lacking_of(listed: Listed) -> Result<Lacking>
    ensures lacking { (table : Answers) → AreListed table listed →
        0 < length listed.calls.items → IfOk result (IsLacking table) }
    ensures memory { IfErr result (λ e. e.kind ≡ ErrorKind.Memory) }
{
    let Listed { calls, text } = listed;
    let mut text = text;
    text.push_str("]")?;
    Ok(Lacking { calls, text })
}
