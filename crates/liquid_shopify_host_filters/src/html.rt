//! The filters that write HTML.
ghost use Rattle.std.specs.Prelude.{◌≡◌, map, string_bytes};
ghost use Rattle.liquid_model.specs.Answer.{Answers, IsValueOrMemory};
ghost use Rattle.liquid_model.specs.View.{view};
ghost use Rattle.liquid_shopify_host_filters.specs.Html.{image, img_tag_answer, link};
ghost use Rattle.liquid_shopify_host_filters.specs.Html.{link_to_answer, link_to_collection_answer};
ghost use Rattle.liquid_shopify_host_filters.specs.Html.{script_tag_answer, stylesheet_tag_answer};

use crate::urls::collection_url;
use liquid_filters::text_or;
use liquid_model::{Result, Value, text_of};
use std::alloc::Global;

/// `img_tag`: an image at the input's text, with the argument as its `alt`.
pub(crate) fn img_tag_answer(alloc: Global, input: &Value, args: &[Value]) -> Result<Value>
    ensures { Answers view result (img_tag_answer (view input.now) (map view args.now)) }
{
    let url = text_of(alloc, input)?;
    let alt = text_or(alloc, args, 0, "")?;
    let url = url.as_str();
    let alt = alt.as_str();
    Ok(Value::Text(format!(in alloc; "<img src=\"{url}\" alt=\"{alt}\" />")?))
}

/// `script_tag`: a script at the input's text.
pub(crate) fn script_tag_answer(alloc: Global, input: &Value) -> Result<Value>
    ensures { Answers view result (script_tag_answer (view input.now)) }
{
    let url = text_of(alloc, input)?;
    let url = url.as_str();
    Ok(Value::Text(format!(in alloc; "<script src=\"{url}\" type=\"text/javascript\"></script>")?))
}

/// `stylesheet_tag`: a style sheet at the input's text, for the argument's media or all.
pub(crate) fn stylesheet_tag_answer(alloc: Global, input: &Value, args: &[Value]) -> Result<Value>
    ensures { Answers view result (stylesheet_tag_answer (view input.now) (map view args.now)) }
{
    let url = text_of(alloc, input)?;
    let media = text_or(alloc, args, 0, "all")?;
    let url = url.as_str();
    let media = media.as_str();
    Ok(Value::Text(format!(in alloc;
        "<link href=\"{url}\" rel=\"stylesheet\" type=\"text/css\"  media=\"{media}\"  />"
    )?))
}

/// `link_to`: the input's text as a link to the first argument, with the second as its title.
pub(crate) fn link_to_answer(alloc: Global, input: &Value, args: &[Value]) -> Result<Value>
    ensures { Answers view result (link_to_answer (view input.now) (map view args.now)) }
{
    let label = text_of(alloc, input)?;
    let url = text_or(alloc, args, 0, "")?;
    let title = text_or(alloc, args, 1, "")?;
    Ok(Value::Text(link(alloc, label.as_str(), url.as_str(), title.as_str())?))
}

/// `link_to_vendor` and `link_to_type`: the input's text as a link to the collection of its handle,
/// or a word where there is none.
pub(crate) fn link_to_collection_answer(alloc: Global, input: &Value) -> Result<Value>
    ensures { Answers view result (link_to_collection_answer (view input.now)) }
{
    if !input.is_truthy() {
        return Ok(Value::Text(String::from_str(alloc, "Unknown Vendor")?));
    }
    let title = text_of(alloc, input)?;
    let url = collection_url(alloc, title.as_str())?;
    Ok(Value::Text(link(alloc, title.as_str(), url.as_str(), title.as_str())?))
}

/// A link with a title.
pub(crate) fn link(alloc: Global, label: &str, url: &str, title: &str) -> Result<String>
    ensures { IsValueOrMemory (λ s. string_bytes s) result (link label.now url.now title.now) }
{
    Ok(format!(in alloc; "<a href=\"{url}\" title=\"{title}\">{label}</a>")?)
}
