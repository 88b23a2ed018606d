//! The filters that write addresses.
ghost use Rattle.std.specs.Prelude.{string_bytes};
ghost use Rattle.liquid_model.specs.Answer.{Answers, IsValueOrMemory};
ghost use Rattle.liquid_model.specs.View.{view};
ghost use Rattle.liquid_shopify_host_filters.specs.Urls.{collection_url, prefixed_answer};
ghost use Rattle.liquid_shopify_host_filters.specs.Urls.{url_for_answer};

use crate::words::{Wording, worded};
use liquid_model::{Result, Value, text_of};
use std::alloc::Global;

/// `asset_url`, `global_asset_url` and `shopify_asset_url`: the input's text with the prefix of its
/// folder before it.
pub(crate) fn prefixed_answer(alloc: Global, prefix: &String, input: &Value) -> Result<Value>
    ensures { Answers view result (prefixed_answer (string_bytes prefix.now) (view input.now)) }
{
    let name = text_of(alloc, input)?;
    let name = name.as_str();
    let prefix = prefix.as_str();
    Ok(Value::Text(format!(in alloc; "{prefix}{name}")?))
}

/// `url_for_vendor` and `url_for_type`: the address of the collection of the input's handle.
pub(crate) fn url_for_answer(alloc: Global, input: &Value) -> Result<Value>
    ensures { Answers view result (url_for_answer (view input.now)) }
{
    let text = text_of(alloc, input)?;
    Ok(Value::Text(collection_url(alloc, text.as_str())?))
}

/// The address of the collection whose handle a title gives.
pub(crate) fn collection_url(alloc: Global, title: &str) -> Result<String>
    ensures { IsValueOrMemory (λ s. string_bytes s) result (collection_url title.now) }
{
    let handle = worded(alloc, Wording::Handle, title)?;
    let handle = handle.as_str();
    Ok(format!(in alloc; "/collections/{handle}")?)
}
