//! The filter of the tag `feed_meta`.
ghost use Rattle.std.specs.Prelude.{◌≡◌, ◌++◌, map, option_map, string_bytes};
ghost use Rattle.liquid_model.specs.Answer.{Answers, IsValueOrMemory};
ghost use Rattle.liquid_model.specs.View.{view};
ghost use Rattle.liquid_jekyll_host_filters.specs.FeedMeta.{feed_element, feed_link};
ghost use Rattle.liquid_jekyll_host_filters.specs.FeedMeta.{feed_meta_answer, or_other};
ghost use Rattle.liquid_jekyll_host_filters.specs.FeedMeta.{shown_feed, title_attribute};
ghost use Rattle.liquid_jekyll_host_filters.specs.Properties.{found_or_nil};

use crate::escapes::push_escaped;
use crate::properties::member;
use crate::urls::site_url;
use liquid_model::{Result, Value, invalid_argument, text_of};
use std::alloc::Global;

/// `feed_meta`: the element `<link>` that leads to the feed of the site, by the `path` of the
/// feed's settings, or else `feed.xml`, and the title or the name of the site.
///
/// `InvalidArgument` with fewer arguments.
pub(crate) fn feed_meta(
    alloc: Global,
    address: &str,
    base: &str,
    input: &Value,
    args: &[Value],
) -> Result<Value>
    ensures { Answers view result
        (feed_meta_answer address.now base.now (view input.now) (map view args.now)) }
{
    match args {
        [feed, title, name, ..] => {
            let usual = Value::Text(String::from_str(alloc, "feed.xml")?);
            let path = or_other(member(Some(feed), "path"), &usual);
            feed_link(alloc, address, base, path, or_other(Some(title), name))
        }
        _ => {
            let wanted = "the settings of a feed, a title and a name";
            Err(invalid_argument(alloc, wanted, input))
        }
    }
}

/// The first, unless it is nil or false, or none.
fn or_other<'v>(value: Option<&'v Value>, other: &'v Value) -> &'v Value
    ensures { view result.now ≡
        or_other (found_or_nil (option_map (λ v. view v.now) value.entry)) (view other.now) }
{
    match value {
        Some(value) if value.is_truthy() => value,
        _ => other,
    }
}

fn feed_link(alloc: Global, address: &str, base: &str, path: &Value, title: &Value) -> Result<Value>
    ensures { Answers view result
        (feed_link address.now base.now (view path.now) (view title.now)) }
{
    let url = site_url(alloc, address, base, path)?;
    shown_feed(alloc, title, &url)
}

fn shown_feed(alloc: Global, title: &Value, url: &Value) -> Result<Value>
    ensures { Answers view result (shown_feed (view title.now) (view url.now)) }
{
    let url = text_of(alloc, url)?;
    Ok(Value::Text(feed_element(alloc, url.as_str(), title)?))
}

fn feed_element(alloc: Global, url: &str, title: &Value) -> Result<String>
    ensures { IsValueOrMemory (λ s. string_bytes s) result (feed_element url.now (view title.now)) }
{
    let mut out = String::new(alloc);
    out.push_str("<link type=\"application/atom+xml\" rel=\"alternate\" href=\"")?;
    push_escaped(&mut out, url)?;
    out.push_str("\"")?;
    push_title(alloc, &mut out, title)?;
    out.push_str(" />")?;
    Ok(out)
}

/// Appends the attribute of the title, where there is one.
fn push_title(alloc: Global, out: &mut String, title: &Value) -> Result<()>
    ensures { IsValueOrMemory (λ _. string_bytes out.new) result
        (string_bytes out.old ++ title_attribute (view title.now)) }
{
    if !title.is_truthy() {
        return Ok(());
    }
    let title = text_of(alloc, title)?;
    out.push_str(" title=\"")?;
    push_escaped(out, title.as_str())?;
    out.push_str("\"")?;
    Ok(())
}
