//! Warnings about texts that conditions take for something else, and about names in quotes.
ghost use Rattle.std.specs.Prelude.{◌≡◌, All, IfOk, OnOk, codes, string_bytes};
ghost use Rattle.liquid_warnings.specs.Messages.{captured_true, quoted_message, text_as};
ghost use Rattle.liquid_warnings.specs.Remarks.{remark_view, warning};
ghost use Rattle.liquid_warnings.specs.Sorts.{IsQuotedName, IsTextTest};
ghost use Rattle.liquid_warnings.specs.inside.Added.{AddsRemarks};

use crate::literals::literal_text;
use crate::remark::Remark;
use crate::text_names::{TakenFor, TextTest, text_tests};
use crate::warnings::is_full;
use liquid_core::{Object, Quoted};
use liquid_evaluation::FilterChain;
use liquid_syntax::{Node, Position, Template};
use std::alloc::{AllocError, Global};

/// `TextNumber`, `TextTruth` or `AlwaysTrue`: a condition compares a text that tags set with a
/// number or a truth value, or tests one that a `capture` sets.
pub(crate) fn add_text_tests(
    alloc: Global,
    template: &Template,
    data: Option<&Object>,
    remarks: &mut Vec<Remark>,
) -> Result<(), AllocError>
    ensures { OnOk result
        (AddsRemarks (All IsTextTest) remarks.old.items remarks.new.items) }
{
    let tests = text_tests(alloc, template, data)?;
    for test in &tests {
        if is_full(remarks) {
            return Ok(());
        }
        remarks.push(text_test(alloc, *test)?)?;
    }
    Ok(())
}

fn text_test(alloc: Global, test: TextTest<'_>) -> Result<Remark, AllocError>
    ensures { IfOk result (λ r. IsTextTest (remark_view r)) }
{
    let (name, at) = (test.name, test.position);
    match test.taken_for {
        TakenFor::Number => text_number(alloc, name, at),
        TakenFor::Truth => text_truth(alloc, name, at),
        TakenFor::Test => always_true(alloc, name, at),
    }
}

fn text_number(alloc: Global, name: &str, at: Position) -> Result<Remark, AllocError>
    ensures { IfOk result (λ r. remark_view r
        ≡ warning at (codes "TextNumber") (text_as name.now (codes "number"))) }
{
    let message = text_as(alloc, name, "number")?;
    Ok(Remark::warning(at, "TextNumber", message))
}

fn text_truth(alloc: Global, name: &str, at: Position) -> Result<Remark, AllocError>
    ensures { IfOk result (λ r. remark_view r
        ≡ warning at (codes "TextTruth") (text_as name.now (codes "truth value"))) }
{
    let message = text_as(alloc, name, "truth value")?;
    Ok(Remark::warning(at, "TextTruth", message))
}

fn always_true(alloc: Global, name: &str, at: Position) -> Result<Remark, AllocError>
    ensures { IfOk result (λ r. remark_view r
        ≡ warning at (codes "AlwaysTrue") (captured_true name.now)) }
{
    let message = captured_true(alloc, name)?;
    Ok(Remark::warning(at, "AlwaysTrue", message))
}

fn text_as(alloc: Global, name: &str, other: &str) -> Result<String, AllocError>
    ensures { IfOk result (λ message. string_bytes message ≡ text_as name.now other.now) }
{
    let name = Quoted { text: name };
    format!(in alloc;
        "a tag sets `{name}` to a text, which is no {other}: such a comparison never holds"
    )
}

fn captured_true(alloc: Global, name: &str) -> Result<String, AllocError>
    ensures { IfOk result (λ message. string_bytes message ≡ captured_true name.now) }
{
    let name = Quoted { text: name };
    format!(in alloc; "the captured `{name}` counts as true, also empty; write `{name} != ''`")
}

/// A name of the data between quotes, and where it stands.
#[derive(Clone, Copy)]
struct QuotedName<'t> {
    name: &'t str,
    position: Position,
}

/// `QuotedName`: an output shows the name of a value of the data in place of the value.
pub(crate) fn add_quoted_names(
    alloc: Global,
    template: &Template,
    data: Option<&Object>,
    remarks: &mut Vec<Remark>,
) -> Result<(), AllocError>
    ensures { OnOk result
        (AddsRemarks (All IsQuotedName) remarks.old.items remarks.new.items) }
{
    let names = quoted_names(alloc, template, data)?;
    for name in &names {
        if is_full(remarks) {
            return Ok(());
        }
        remarks.push(quoted_name(alloc, *name)?)?;
    }
    Ok(())
}

fn quoted_name(alloc: Global, quoted: QuotedName<'_>) -> Result<Remark, AllocError>
    ensures { IfOk result (λ r. IsQuotedName (remark_view r)) }
{
    let message = quoted_message(alloc, quoted.name)?;
    Ok(Remark::warning(quoted.position, "QuotedName", message))
}

fn quoted_message(alloc: Global, name: &str) -> Result<String, AllocError>
    ensures { IfOk result (λ message. string_bytes message ≡ quoted_message name.now) }
{
    let name = Quoted { text: name };
    format!(in alloc;
        "`'{name}'` is a text, and the data has a value of that name; write it without quotes"
    )
}

fn quoted_names<'t>(
    alloc: Global,
    template: &'t Template,
    data: Option<&Object>,
) -> Result<Vec<QuotedName<'t>>, AllocError> {
    let mut names = Vec::new(alloc);
    let Some(data) = data else {
        return Ok(names);
    };
    for (node, position) in template.nodes().iter().zip(template.positions()) {
        if let Some(name) = shown_text(node) {
            if data.get(name).is_some() {
                let position = *position;
                names.push(QuotedName { name, position })?;
            }
        }
    }
    Ok(names)
}

/// The literal text that an output shows as it is, or in other letters.
fn shown_text(node: &Node) -> Option<&str> {
    match node {
        Node::Output(chain) if keeps_words(chain) => literal_text(&chain.entry),
        _ => None,
    }
}

fn keeps_words(chain: &FilterChain) -> bool {
    chain.filters.iter().all(|filter| {
        matches!(
            filter.filter.name(),
            "upcase" | "downcase" | "capitalize" | "escape" | "strip"
        )
    })
}
