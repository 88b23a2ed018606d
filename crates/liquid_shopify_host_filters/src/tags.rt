//! The filters that write links to the products of tags, and addresses within a collection.
ghost use Rattle.std.specs.Prelude.{◌≡◌, true, map, string_bytes};
ghost use Rattle.liquid_model.specs.Answer.{Answers, IsValueOrMemory};
ghost use Rattle.liquid_model.specs.View.{view};
ghost use Rattle.liquid_shopify_host_filters.specs.Tags.{has_tag, highlight_answer, joint};
ghost use Rattle.liquid_shopify_host_filters.specs.Tags.{link_to_add_tag_answer};
ghost use Rattle.liquid_shopify_host_filters.specs.Tags.{link_to_remove_tag_answer};
ghost use Rattle.liquid_shopify_host_filters.specs.Tags.{link_to_tag_answer, other_tags, tag_link};
ghost use Rattle.liquid_shopify_host_filters.specs.Tags.{with_tag, within, within_answer};
ghost use Rattle.liquid_shopify_host_filters.specs.Tags.{within_handle};

use crate::shop::Shop;
use liquid_filters::{property, text_or};
use liquid_model::{Result, Value, text_of};
use std::alloc::Global;

/// `link_to_tag`: the input's text as a link to the products of the argument's tag.
pub(crate) fn link_to_tag_answer(
    alloc: Global,
    shop: &Shop,
    input: &Value,
    args: &[Value],
) -> Result<Value>
    ensures { Answers view result (link_to_tag_answer (string_bytes shop.now.collection)
        (view input.now) (map view args.now)) }
{
    let label = text_of(alloc, input)?;
    let tag = text_or(alloc, args, 0, "")?;
    let link = tag_link(alloc, shop, label.as_str(), tag.as_str(), tag.as_str())?;
    Ok(Value::Text(link))
}

/// `link_to_add_tag`: the input's text as a link to the products of the page's tags and the
/// argument's.
pub(crate) fn link_to_add_tag_answer(
    alloc: Global,
    shop: &Shop,
    input: &Value,
    args: &[Value],
) -> Result<Value>
    ensures { Answers view result (link_to_add_tag_answer (string_bytes shop.now.collection)
        (map string_bytes shop.now.tags.items) (view input.now) (map view args.now)) }
{
    let label = text_of(alloc, input)?;
    let tag = text_or(alloc, args, 0, "")?;
    let tags = with_tag(alloc, &shop.tags, tag.as_str())?;
    Ok(Value::Text(tag_link(alloc, shop, label.as_str(), tag.as_str(), tags.as_str())?))
}

/// `link_to_remove_tag`: the input's text as a link to the products of the page's tags but for the
/// argument's.
pub(crate) fn link_to_remove_tag_answer(
    alloc: Global,
    shop: &Shop,
    input: &Value,
    args: &[Value],
) -> Result<Value>
    ensures { Answers view result (link_to_remove_tag_answer (string_bytes shop.now.collection)
        (map string_bytes shop.now.tags.items) (view input.now) (map view args.now)) }
{
    let label = text_of(alloc, input)?;
    let tag = text_or(alloc, args, 0, "")?;
    let tags = other_tags(alloc, &shop.tags, tag.as_str())?;
    Ok(Value::Text(tag_link(alloc, shop, label.as_str(), tag.as_str(), tags.as_str())?))
}

/// `highlight_active_tag`: the input's text as one of the page's tags, marked with the argument's
/// class or `active`; any other input stays as it is.
pub(crate) fn highlight_answer(
    alloc: Global,
    shop: &Shop,
    input: &Value,
    args: &[Value],
) -> Result<Value>
    ensures { Answers view result (highlight_answer (map string_bytes shop.now.tags.items)
        (view input.now) (map view args.now)) }
{
    let class = text_or(alloc, args, 0, "active")?;
    match input {
        Value::Text(tag) if has_tag(&shop.tags, tag.as_str()) => {
            let class = class.as_str();
            let tag = tag.as_str();
            Ok(Value::Text(format!(in alloc; "<span class=\"{class}\">{tag}</span>")?))
        }
        _ => input.copy(alloc),
    }
}

/// `within`: the input's text as an address within the collection that the argument is, by its
/// `handle`; without one the input's text.
pub(crate) fn within_answer(alloc: Global, input: &Value, args: &[Value]) -> Result<Value>
    ensures { Answers view result (within_answer (view input.now) (map view args.now)) }
{
    let url = text_of(alloc, input)?;
    match args.first() {
        Some(collection) => Ok(Value::Text(within(alloc, url.as_str(), collection)?)),
        None => Ok(Value::Text(String::from_str(alloc, url.as_str())?)),
    }
}

/// An address within a collection, if that is a map with a `handle`.
fn within(alloc: Global, url: &str, collection: &Value) -> Result<String>
    ensures { IsValueOrMemory (λ s. string_bytes s) result (within url.now (view collection.now)) }
{
    match property(collection, "handle") {
        Some(handle) => within_handle(alloc, url, handle),
        None => Ok(String::from_str(alloc, url)?),
    }
}

fn within_handle(alloc: Global, url: &str, handle: &Value) -> Result<String>
    ensures { IsValueOrMemory (λ s. string_bytes s) result
        (within_handle url.now (view handle.now)) }
{
    let handle = text_of(alloc, handle)?;
    let handle = handle.as_str();
    Ok(format!(in alloc; "/collections/{handle}{url}")?)
}

/// A link to the products of tags, with a tag in its title.
fn tag_link(alloc: Global, shop: &Shop, label: &str, tag: &str, tags: &str) -> Result<String>
    ensures { IsValueOrMemory (λ s. string_bytes s) result
        (tag_link (string_bytes shop.now.collection) label.now tag.now tags.now) }
{
    let collection = shop.collection.as_str();
    Ok(format!(in alloc;
        "<a title=\"Show tag {tag}\" href=\"/collections/{collection}/{tags}\">{label}</a>"
    )?)
}

/// The other tags of the page, each with a `+` after it, and then this one.
fn with_tag(alloc: Global, tags: &Vec<String>, tag: &str) -> Result<String>
    ensures { IsValueOrMemory (λ s. string_bytes s) result
        (with_tag (map string_bytes tags.now.items) tag.now) }
{
    let mut out = String::new(alloc);
    for known in tags {
        if known.as_str() != tag {
            out.push_str(known.as_str())?;
            out.push_str("+")?;
        }
    }
    out.push_str(tag)?;
    Ok(out)
}

/// The other tags of the page, with a `+` between them.
fn other_tags(alloc: Global, tags: &Vec<String>, tag: &str) -> Result<String>
    ensures { IsValueOrMemory (λ s. string_bytes s) result
        (other_tags true (map string_bytes tags.now.items) tag.now) }
{
    let mut out = String::new(alloc);
    let mut is_first = true;
    for known in tags {
        if known.as_str() != tag {
            out.push_str(joint(is_first))?;
            out.push_str(known.as_str())?;
            is_first = false;
        }
    }
    Ok(out)
}

/// What stands before a tag.
fn joint(is_first: bool) -> &'static str
    ensures { result.now ≡ joint is_first }
{
    if is_first { "" } else { "+" }
}

fn has_tag(tags: &Vec<String>, tag: &str) -> bool
    ensures { result ≡ has_tag (map string_bytes tags.now.items) tag.now }
{
    for known in tags {
        if known.as_str() == tag {
            return true;
        }
    }
    false
}
