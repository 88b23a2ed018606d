//! The filter that writes links to the pages of a list.
ghost use Rattle.std.specs.Prelude.{◌≡◌, ◌++◌, option_map, string_bytes};
ghost use Rattle.std.specs.Cow.{cow_str_bytes};
ghost use Rattle.liquid_model.specs.Answer.{Answers, IsValueOrMemory};
ghost use Rattle.liquid_model.specs.Lists.{list_of};
ghost use Rattle.liquid_model.specs.View.{items_view, view};
ghost use Rattle.liquid_filters.specs.Sequences.{property};
ghost use Rattle.liquid_shopify_host_filters.specs.Pagination.{page_link, page_links};
ghost use Rattle.liquid_shopify_host_filters.specs.Pagination.{pagination_answer, part_span};
ghost use Rattle.liquid_shopify_host_filters.specs.Pagination.{shown_member, spaced, title_class};
ghost use Rattle.liquid_shopify_host_filters.specs.Pagination.{with_neighbour, with_page_parts};
ghost use Rattle.liquid_shopify_host_filters.specs.Tags.{in_class_span};

use crate::html::link;
use liquid_filters::property;
use liquid_model::{Error, ErrorKind, Result, Value, text_of};
use std::alloc::Global;
use std::borrow::CowStr;

/// `default_pagination`: links to the pages of a list, by the object `paginate`: the page before
/// this one, each of its `parts`, and the page after this one, as far as they are there.
/// `InvalidInput` where it has no list `parts`.
pub(crate) fn pagination_answer(alloc: Global, input: &Value) -> Result<Value>
    ensures { Answers view result (pagination_answer (view input.now)) }
{
    match property(input, "parts") {
        Some(Value::Array(parts)) => Ok(Value::Text(page_links(alloc, input, parts)?)),
        _ => Err(Error::new(
            alloc,
            ErrorKind::InvalidInput,
            "the input must be the object `paginate` of the data, a map with the list `parts`",
        )),
    }
}

/// The links, separated by spaces.
fn page_links(alloc: Global, paginate: &Value, parts: &[Value]) -> Result<String>
    ensures { IsValueOrMemory (λ s. string_bytes s) result
        (page_links (view paginate.now) (list_of (items_view parts.now))) }
{
    let current = shown_member(alloc, paginate, "current_page")?;
    let mut out = String::new(alloc);
    push_neighbour(alloc, &mut out, "prev", property(paginate, "previous"))?;
    push_parts(alloc, &mut out, current.as_str(), parts)?;
    push_neighbour(alloc, &mut out, "next", property(paginate, "next"))?;
    Ok(out)
}

/// Appends each of the parts.
fn push_parts(alloc: Global, out: &mut String, current: &str, parts: &[Value]) -> Result<()>
    ensures { IsValueOrMemory (λ _. string_bytes out.new) result
        (with_page_parts current.now (string_bytes out.old) (list_of (items_view parts.now))) }
{
    for part in parts {
        let span = part_span(alloc, current, part)?;
        push_spaced(out, span.as_str())?;
    }
    Ok(())
}

/// Appends the link to the page before this one or after it, where it is there.
fn push_neighbour(alloc: Global, out: &mut String, class: &str, page: Option<&Value>) -> Result<()>
    ensures { IsValueOrMemory (λ _. string_bytes out.new) result
        (with_neighbour class.now (string_bytes out.old)
        (option_map (λ v. view v.now) page.entry)) }
{
    match page {
        Some(page) if page.is_truthy() => {
            let link = page_link(alloc, page)?;
            let span = class_span(alloc, class, link.as_str())?;
            push_spaced(out, span.as_str())
        }
        _ => Ok(()),
    }
}

/// Appends a text, after a space where a text stands before it.
#[tactic(auto, unfolding(crate::specs::Pagination::spaced))]
fn push_spaced(out: &mut String, span: &str) -> Result<()>
    ensures { IsValueOrMemory (λ _. string_bytes out.new) result
        (spaced (string_bytes out.old) span.now) }
{
    if !out.is_empty() {
        out.push_str(" ")?;
    }
    Ok(out.push_str(span)?)
}

/// A part: a link, or a title alone.
#[tactic(auto, unfolding(crate::specs::Pagination::part_span))]
fn part_span(alloc: Global, current: &str, part: &Value) -> Result<String>
    ensures { IsValueOrMemory (λ s. string_bytes s) result
        (part_span current.now (view part.now)) }
{
    if let Some(is_link) = property(part, "is_link")
        && is_link.is_truthy()
    {
        let link = page_link(alloc, part)?;
        return class_span(alloc, "page", link.as_str());
    }
    let title = shown_member(alloc, part, "title")?;
    let title = title.as_str();
    class_span(alloc, title_class(current, title), title)
}

/// The class of a title that is no link.
fn title_class(current: &str, title: &str) -> &'static str
    ensures { result.now ≡ title_class current.now title.now }
{
    if title == current {
        "page current"
    } else {
        "deco"
    }
}

fn page_link(alloc: Global, page: &Value) -> Result<String>
    ensures { IsValueOrMemory (λ s. string_bytes s) result (page_link (view page.now)) }
{
    let title = shown_member(alloc, page, "title")?;
    let url = shown_member(alloc, page, "url")?;
    link(alloc, title.as_str(), url.as_str(), "")
}

/// The text of a map's member, where there is one.
fn shown_member<'a>(alloc: Global, map: &'a Value, name: &str) -> Result<CowStr<'a>>
    ensures { IsValueOrMemory cow_str_bytes result
        (shown_member (property name.now (view map.now))) }
{
    match property(map, name) {
        Some(value) => text_of(alloc, value),
        None => Ok(CowStr::Borrowed("")),
    }
}

fn class_span(alloc: Global, class: &str, inner: &str) -> Result<String>
    ensures { IsValueOrMemory (λ s. string_bytes s) result (in_class_span class.now inner.now) }
{
    Ok(format!(in alloc; "<span class=\"{class}\">{inner}</span>")?)
}
