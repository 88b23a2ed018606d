//! Paths in the data, as messages show them.
ghost use Rattle.std.specs.Prelude.{◌≡◌, ◌++◌, [], IfOk, OnOk, string_bytes, take};
ghost use Rattle.liquid_warnings.specs.Messages.{item_words};
ghost use Rattle.liquid_warnings.specs.Paths.{key_after, lack_words, lacking_text};
ghost use Rattle.liquid_warnings.specs.Paths.{list_before, meant_text, data_path_text, step_text};
ghost use Rattle.liquid_warnings.specs.Paths.{steps_past, steps_text, with_step_key};
ghost use Rattle.liquid_warnings.specs.Paths.{with_step_keys};

use crate::{DataPath, Step};
use liquid_core::Quoted;
use std::alloc::{AllocError, Global};

type Said = Result<String, AllocError>;

/// A path with its first `count` steps, as in `shop.products[].title`.
pub(crate) fn path_text(alloc: Global, path: &DataPath, count: usize) -> Said
    ensures { IfOk result (λ text. string_bytes text ≡ data_path_text path.now count) }
{
    let mut text = String::from_str(alloc, path.name.as_str())?;
    push_steps(&mut text, first_steps(path, count))?;
    Ok(text)
}

/// The first `count` steps of a path, or all of them where it has fewer.
pub(crate) fn first_steps(path: &DataPath, count: usize) -> &[Step]
    ensures { result.now ≡ take count path.now.steps.items }
{
    if count < path.steps.len() {
        &path.steps[..count]
    } else {
        path.steps.as_slice()
    }
}

fn push_steps(text: &mut String, steps: &[Step]) -> Result<(), AllocError>
    ensures { OnOk result (string_bytes text.new
        ≡ string_bytes text.old ++ steps_text steps.now) }
{
    for step in steps {
        push_step(text, step)?;
    }
    Ok(())
}

fn push_step(text: &mut String, step: &Step) -> Result<(), AllocError>
    ensures { OnOk result (string_bytes text.new ≡ string_bytes text.old ++ step_text step.now) }
{
    match step {
        Step::Key(key) => {
            text.push('.')?;
            text.push_str(key.as_str())
        }
        Step::Each => text.push_str("[]"),
    }
}

/// The last of the first `count` steps, where it is a key.
pub(crate) fn key_before(path: &DataPath, count: usize) -> Option<&str> {
    match first_steps(path, count).last() {
        Some(Step::Key(key)) => Some(key.as_str()),
        _ => None,
    }
}

/// How many steps lead to the innermost list whose items the steps go over; none where they go over
/// no list.
pub(crate) fn list_before(steps: &[Step]) -> Option<usize>
    ensures { result ≡ list_before steps.now }
{
    let mut found = None;
    for (place, step) in steps.iter().enumerate() {
        if matches!(step, Step::Each) {
            found = Some(place);
        }
    }
    found
}

/// What lacks a path: the data, or an item of the innermost list on the way.
pub(crate) fn lack_words(alloc: Global, path: &DataPath, list: Option<usize>) -> Said
    ensures { IfOk result (λ text. string_bytes text ≡ lack_words path.now list) }
{
    match list {
        Some(place) => item_words(alloc, path_text(alloc, path, place)?.as_str()),
        None => String::from_str(alloc, "the data has no"),
    }
}

fn item_words(alloc: Global, list: &str) -> Said
    ensures { IfOk result (λ message. string_bytes message ≡ item_words list.now) }
{
    let list = Quoted { text: list };
    format!(in alloc; "an item of `{list}` has no")
}

/// What it lacks: the path from there up to its step number `count`.
pub(crate) fn lacking_text(
    alloc: Global,
    path: &DataPath,
    list: Option<usize>,
    count: usize,
) -> Said
    ensures { IfOk result (λ text. string_bytes text ≡ lacking_text path.now list count) }
{
    match list {
        Some(place) => keys_text(alloc, steps_past(path, place, count)),
        None => path_text(alloc, path, count),
    }
}

/// Of the first `count` steps of a path, those after the one at `place`, which leads to each item
/// of a list.
fn steps_past(path: &DataPath, place: usize, count: usize) -> &[Step]
    ensures { result.now ≡ steps_past path.now place count }
{
    let steps = first_steps(path, count);
    if place < steps.len() {
        &steps[place + 1..]
    } else {
        &[]
    }
}

/// The keys of steps, as in `maker.name`.
fn keys_text(alloc: Global, steps: &[Step]) -> Said
    ensures { IfOk result (λ text. string_bytes text ≡ with_step_keys [] steps.now) }
{
    let mut text = String::new(alloc);
    for step in steps {
        push_key(&mut text, step)?;
    }
    Ok(text)
}

fn push_key(text: &mut String, step: &Step) -> Result<(), AllocError>
    ensures { OnOk result (string_bytes text.new ≡ with_step_key (string_bytes text.old) step.now) }
{
    match step {
        Step::Key(key) => push_after(text, key.as_str()),
        Step::Each => Ok(()),
    }
}

/// A key after what stands there, with a dot between.
fn push_after(text: &mut String, key: &str) -> Result<(), AllocError>
    ensures { OnOk result (string_bytes text.new ≡ key_after (string_bytes text.old) key.now) }
{
    if !text.is_empty() {
        text.push('.')?;
    }
    text.push_str(key)
}

/// What it lacks, with another key in place of the last.
pub(crate) fn meant_text(
    alloc: Global,
    path: &DataPath,
    list: Option<usize>,
    count: usize,
    key: &str,
) -> Said
    ensures { IfOk result (λ text. string_bytes text ≡ meant_text path.now list count key.now) }
{
    let mut text = lacking_text(alloc, path, list, count.saturating_sub(1))?;
    push_after(&mut text, key)?;
    Ok(text)
}
