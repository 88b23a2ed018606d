//! Where the data isn't as templates ask for it.
ghost use Rattle.std.specs.Prelude.{◌≡◌, All, IfErr, IfOk, IfSome, OnOk, string_bytes};
ghost use Rattle.liquid_model.specs.View.{view};
ghost use Rattle.liquid_warnings.specs.Messages.{always_true, false_words, in_data, no_date};
ghost use Rattle.liquid_warnings.specs.Messages.{no_text, number_text, past_end, text_words};
ghost use Rattle.liquid_warnings.specs.Messages.{truth_text};
ghost use Rattle.liquid_warnings.specs.Paths.{is_needed};
ghost use Rattle.liquid_warnings.specs.Remarks.{remark_view};
ghost use Rattle.liquid_warnings.specs.Sorts.{IsDoubt, IsNumberText, IsPastEnd, IsUndated};
ghost use Rattle.liquid_warnings.specs.Sorts.{IsAlwaysTrue, IsNoText, IsTruthText, IsUnlisted};
ghost use Rattle.liquid_warnings.specs.inside.Added.{AddsRemarks};

use crate::loops::{kind_word, no_list_of};
use crate::messages::{lack_message, most_similar_key, name_of};
use crate::names::add_name;
use crate::path_texts::{
    first_steps, key_before, lack_words, lacking_text, list_before, meant_text, path_text,
};
use crate::remark::{Remark, push_found};
use crate::shapes::{
    false_default_in, no_key_in, no_number_in, no_truth_in, number_date_in, tested_size_in,
    whole_map_in,
};
use crate::used_path::UsedPath;
use crate::warnings::is_full;
use crate::{DataPath, Doubt, Lack, Want, doubt_of};
use liquid_core::{ErrorKind, Object, Quoted, Result, Value};
use liquid_syntax::Position;
use std::alloc::{AllocError, Global};
use std::collections::BTreeSet;

type Said = std::result::Result<String, AllocError>;

type Found = std::result::Result<Option<Remark>, AllocError>;

/// Adds the warnings about what a template asks of the data by these paths, each once, where it is
/// asked first.
pub(crate) fn add_doubts(
    alloc: Global,
    paths: &[UsedPath],
    data: &Object,
    remarks: &mut Vec<Remark>,
) -> Result<()>
    ensures added { OnOk result
        (AddsRemarks (All IsDoubt) remarks.old.items remarks.new.items) }
    ensures memory { IfErr result (λ e. e.kind ≡ ErrorKind.Memory) }
{
    let mut seen = BTreeSet::new(alloc);
    for asked in paths {
        if is_full(remarks) {
            return Ok(());
        }
        let doubt = doubt_of(alloc, data, &asked.path, asked.want)?;
        let found = remark_of(alloc, asked, doubt)?;
        push_found(remarks, unless_seen(alloc, found, &mut seen)?)?;
    }
    Ok(())
}

/// A warning, unless one of this message is there.
pub(crate) fn unless_seen(
    alloc: Global,
    remark: Option<Remark>,
    seen: &mut BTreeSet<String>,
) -> Found
    ensures { IfOk result (λ r. IfSome r (λ s. Some s ≡ remark)) }
{
    let Some(remark) = remark else {
        return Ok(None);
    };
    if seen.contains(remark.message.as_str()) {
        return Ok(None);
    }
    add_name(alloc, seen, remark.message.as_str())?;
    Ok(Some(remark))
}

/// What is said of a doubt, where there is one. A name that isn't there is left to `UnknownName`.
/// Of a key that needn't be there, nothing is said unless a similar key is there.
fn remark_of(alloc: Global, asked: &UsedPath, doubt: Option<Doubt<'_>>) -> Found
    ensures { IfOk result (λ r. IfSome r (λ w. IsDoubt (remark_view w))) }
{
    let Some(doubt) = doubt else {
        return Ok(None);
    };
    if let Doubt::Lacks(lack) = doubt {
        return unknown_path(alloc, asked, lack);
    }
    let path = path_text(alloc, &asked.path, asked.path.steps.len())?;
    let path = path.as_str();
    let at = asked.position;
    match doubt {
        Doubt::Lacks(_) => Ok(None),
        Doubt::NoList(value) => no_list_in(alloc, at, value, path),
        Doubt::PastEnd(count) => past_end_in(alloc, at, path, count),
        Doubt::NoDate(text) => no_date_in(alloc, at, path, text),
        Doubt::NumberText(text) => number_text_in(alloc, at, path, text),
        Doubt::TruthText(text) => truth_text_in(alloc, at, path, text),
        Doubt::NoText(value) => no_text_in(alloc, at, path, value),
        Doubt::NoNumber(value) => no_number_in(alloc, at, path, value),
        Doubt::NoTruth(value) => no_truth_in(alloc, at, path, value),
        Doubt::WholeMap => whole_map_in(alloc, at, path),
        Doubt::NoKey => no_key_in(alloc, at, path),
        Doubt::TestedSize => tested_size_in(alloc, at, path),
        Doubt::FalseDefault => false_default_in(alloc, at, path),
        Doubt::NumberDate => number_date_in(alloc, at, path),
        Doubt::AlwaysTrue(value) => always_true_in(alloc, at, path, value),
    }
}

/// `NoList`: a loop goes over what is no list and no map in the data.
fn no_list_in(alloc: Global, at: Position, value: &Value, path: &str) -> Found
    ensures { IfOk result (λ r. IfSome r (λ w. IsUnlisted (remark_view w))) }
{
    let path = in_data(alloc, path)?;
    Ok(Some(no_list_of(alloc, at, value, path.as_str())?))
}

/// `PastEnd`: a `limit` goes past the items of a list.
fn past_end_in(alloc: Global, at: Position, path: &str, count: usize) -> Found
    ensures { IfOk result (λ r. IfSome r (λ w. IsPastEnd (remark_view w))) }
{
    let message = past_end(alloc, path, count)?;
    Ok(Some(Remark::warning(at, "PastEnd", message)))
}

/// `NoDate`: what is to be a date is a text that isn't read as one.
fn no_date_in(alloc: Global, at: Position, path: &str, text: &str) -> Found
    ensures { IfOk result (λ r. IfSome r (λ w. IsUndated (remark_view w))) }
{
    let message = no_date(alloc, path, text)?;
    Ok(Some(Remark::warning(at, "NoDate", message)))
}

/// `TextNumber`: what is compared with a number is a text.
fn number_text_in(alloc: Global, at: Position, path: &str, text: &str) -> Found
    ensures { IfOk result (λ r. IfSome r (λ w. IsNumberText (remark_view w))) }
{
    let message = number_text(alloc, path, text)?;
    Ok(Some(Remark::warning(at, "TextNumber", message)))
}

/// `TextTruth`: what is compared with a truth value is a text.
fn truth_text_in(alloc: Global, at: Position, path: &str, text: &str) -> Found
    ensures { IfOk result (λ r. IfSome r (λ w. IsTruthText (remark_view w))) }
{
    let message = truth_text(alloc, path, text)?;
    Ok(Some(Remark::warning(at, "TextTruth", message)))
}

/// `NoText`: what is compared with a text is a number or a truth value.
fn no_text_in(alloc: Global, at: Position, path: &str, value: &Value) -> Found
    ensures { IfOk result (λ r. IfSome r (λ w. IsNoText (remark_view w))) }
{
    let message = no_text(alloc, path, kind_word(value))?;
    Ok(Some(Remark::warning(at, "NoText", message)))
}

/// `AlwaysTrue`: what a condition tests looks false, and isn't.
fn always_true_in(alloc: Global, at: Position, path: &str, value: &Value) -> Found
    ensures { IfOk result (λ r. IfSome r (λ w. IsAlwaysTrue (remark_view w))) }
{
    let words = false_words(alloc, value)?;
    let message = always_true(alloc, path, words.as_str())?;
    Ok(Some(Remark::warning(at, "AlwaysTrue", message)))
}

/// A path in the data, at the begin of a message.
pub(crate) fn in_data(alloc: Global, path: &str) -> Said
    ensures { IfOk result (λ message. string_bytes message ≡ in_data path.now) }
{
    let path = Quoted { text: path };
    format!(in alloc; "`{path}` in the data")
}

fn past_end(alloc: Global, path: &str, count: usize) -> Said
    ensures { IfOk result (λ message. string_bytes message ≡ past_end path.now count) }
{
    let path = Quoted { text: path };
    format!(in alloc;
        "`{path}` has {count} items in the data; after `offset` the `limit` goes past them, and gives nil"
    )
}

fn no_date(alloc: Global, path: &str, text: &str) -> Said
    ensures { IfOk result (λ message. string_bytes message ≡ no_date path.now text.now) }
{
    let path = Quoted { text: path };
    let text = Quoted { text };
    format!(in alloc; "`{path}` is `{text}` in the data, which isn't read as a date")
}

fn number_text(alloc: Global, path: &str, text: &str) -> Said
    ensures { IfOk result (λ message. string_bytes message ≡ number_text path.now text.now) }
{
    let path = Quoted { text: path };
    let text = Quoted { text };
    format!(in alloc;
        "`{path}` is the text `{text}` in the data, and no number: such a comparison never holds"
    )
}

fn truth_text(alloc: Global, path: &str, text: &str) -> Said
    ensures { IfOk result (λ message. string_bytes message ≡ truth_text path.now text.now) }
{
    let path = Quoted { text: path };
    let text = Quoted { text };
    format!(in alloc;
        "`{path}` is the text `{text}` in the data, and no truth value: \
        such a comparison never holds"
    )
}

fn no_text(alloc: Global, path: &str, kind: &str) -> Said
    ensures { IfOk result (λ message. string_bytes message ≡ no_text path.now kind.now) }
{
    let path = Quoted { text: path };
    format!(in alloc; "`{path}` is {kind} in the data, and no text: such a comparison never holds")
}

/// What looks false.
fn false_words(alloc: Global, value: &Value) -> Said
    ensures { IfOk result (λ words. string_bytes words ≡ false_words (view value.now)) }
{
    match value {
        Value::Text(text) => text_words(alloc, text.as_str()),
        Value::Integer(_) => String::from_str(alloc, "0"),
        Value::Array(_) => String::from_str(alloc, "an empty list"),
        Value::Object(_) | Value::Nil | Value::Bool(_) => String::from_str(alloc, "an empty map"),
    }
}

fn text_words(alloc: Global, text: &str) -> Said
    ensures { IfOk result (λ words. string_bytes words ≡ text_words text.now) }
{
    if text.is_empty() {
        return String::from_str(alloc, "an empty text");
    }
    let text = Quoted { text };
    format!(in alloc; "the text `{text}`")
}

fn always_true(alloc: Global, path: &str, found: &str) -> Said
    ensures { IfOk result (λ message. string_bytes message ≡ always_true path.now found.now) }
{
    let path = Quoted { text: path };
    format!(in alloc;
        "`{path}` is {found} in the data, which counts as true: compare it, or its `size`"
    )
}

/// `UnknownPath`: a map on the way hasn't the key.
fn unknown_path(alloc: Global, asked: &UsedPath, lack: Lack<'_>) -> Found
    ensures { IfOk result (λ r. IfSome r (λ w. IsDoubt (remark_view w))) }
{
    let count = asked.path.steps.len().saturating_sub(lack.left);
    let Some(key) = key_before(&asked.path, count) else {
        return Ok(None);
    };
    let similar = name_of(most_similar_key(alloc, lack.among, key, None)?, key);
    if similar.is_none() && !is_needed(asked.want) {
        return Ok(None);
    }
    let message = path_message(alloc, &asked.path, count, similar)?;
    Ok(Some(Remark::warning(asked.position, "UnknownPath", message)))
}

/// Whether what is wanted has to be there.
fn is_needed(want: Want) -> bool
    ensures { result ≡ is_needed want }
{
    !matches!(
        want,
        Want::Perhaps | Want::Tested | Want::Date | Want::Defaulted | Want::Keyed | Want::Sized
    )
}

/// The message for a path whose step number `count` leads to nothing, with a key similar to that
/// step, where there is one.
fn path_message(alloc: Global, path: &DataPath, count: usize, similar: Option<&str>) -> Said {
    let list = list_before(first_steps(path, count));
    let words = lack_words(alloc, path, list)?;
    let lacking = lacking_text(alloc, path, list, count)?;
    match similar {
        Some(similar) => {
            let meant = meant_text(alloc, path, list, count, similar)?;
            lack_message(
                alloc,
                words.as_str(),
                lacking.as_str(),
                Some(meant.as_str()),
            )
        }
        None => lack_message(alloc, words.as_str(), lacking.as_str(), None),
    }
}
