//! What the filters of Shopify's templates know of a shop.
ghost use Rattle.std.specs.Prelude.{◌≡◌, ◌++◌, [], IfErr, IfOk, OnOk, codes, map, option_map};
ghost use Rattle.std.specs.Prelude.{string_bytes};
ghost use Rattle.liquid_model.specs.Answer.{IsValueOrMemory};
ghost use Rattle.liquid_model.specs.View.{items_view, pairs_view, view};
ghost use Rattle.liquid_filter_sets.specs.MoneyFormats.{WritesAmounts};
ghost use Rattle.liquid_filter_sets.specs.Settings.{assets_before, member_or_empty, member_text};
ghost use Rattle.liquid_filter_sets.specs.Settings.{tags_in};
ghost use Rattle.liquid_filter_sets.specs.Settings.{setting_text, texts_in, texts_of};
ghost use Rattle.liquid_filter_sets.specs.Settings.{with_text};
ghost use Rattle.liquid_filter_sets.specs.Views.{texts_view};

use crate::member::{member_text, or_empty, own_text};
use crate::money::money_format;
use liquid_model::{ErrorKind, Object, Result, Value, look_up};
use liquid_shopify_host_filters::Shop;
use std::alloc::{AllocError, Global};

/// The shop that the data tells: its formats of money, the handle of the page's collection and the
/// tags of the page's products. Addresses of files of the theme begin as it is given, or else with
/// `/assets/`.
///
/// The answer is `Memory` where a growth was refused, and no other kind.
pub fn shop_of(alloc: Global, data: &Object, assets: Option<&str>) -> Result<Shop>
    ensures collection { IfOk result (λ s. string_bytes s.collection
        ≡ member_or_empty (codes "collection") (codes "handle") (pairs_view «data».now.entries)) }
    ensures tags { IfOk result (λ s. texts_view s.tags ≡ tags_in (pairs_view «data».now.entries)) }
    ensures money { IfOk result (λ s. WritesAmounts
        (member_text (codes "shop") (codes "money_format") (pairs_view «data».now.entries))
        [] s.money) }
    ensures with_currency { IfOk result (λ s. WritesAmounts
        (member_text (codes "shop") (codes "money_with_currency_format")
        (pairs_view «data».now.entries)) (codes " USD") s.money_with_currency) }
    ensures assets { IfOk result (λ s. string_bytes s.assets
        ≡ assets_before (option_map (λ a. a.now) assets.entry)) }
    ensures global_assets { IfOk result (λ s. string_bytes s.global_assets ≡ codes "/global/") }
    ensures shopify_assets { IfOk result (λ s. string_bytes s.shopify_assets
        ≡ codes "/shopify/") }
    ensures images { IfOk result (λ s. string_bytes s.images ≡ codes "/") }
    ensures memory { IfErr result (λ e. e.kind ≡ ErrorKind.Memory) }
{
    let money = member_text(data, "shop", "money_format");
    let with_currency = member_text(data, "shop", "money_with_currency_format");
    Ok(Shop {
        money: money_format(alloc, money, "")?,
        money_with_currency: money_format(alloc, with_currency, " USD")?,
        assets: assets_of(alloc, assets)?,
        global_assets: String::from_str(alloc, "/global/")?,
        shopify_assets: String::from_str(alloc, "/shopify/")?,
        images: String::from_str(alloc, "/")?,
        collection: collection_of(alloc, data)?,
        tags: tags_of(alloc, data)?,
    })
}

/// What stands before the name of a file of the theme: the text that is given, or `/assets/`.
fn assets_of(alloc: Global, given: Option<&str>) -> Result<String>
    ensures { IsValueOrMemory string_bytes result
        (assets_before (option_map (λ a. a.now) given.entry)) }
{
    match given {
        Some(text) => Ok(String::from_str(alloc, text)?),
        None => Ok(String::from_str(alloc, "/assets/")?),
    }
}

/// The handle of the page's collection, or the empty text.
fn collection_of(alloc: Global, data: &Object) -> Result<String>
    ensures { IsValueOrMemory string_bytes result
        (member_or_empty (codes "collection") (codes "handle") (pairs_view «data».now.entries)) }
{
    let handle = or_empty(member_text(data, "collection", "handle"));
    Ok(String::from_str(alloc, handle)?)
}

/// The texts of `current_tags`.
fn tags_of(alloc: Global, data: &Object) -> Result<Vec<String>>
    ensures { IsValueOrMemory texts_view result (tags_in (pairs_view «data».now.entries)) }
{
    match look_up(data, "current_tags") {
        Some(value) => texts_in(alloc, value),
        None => Ok(Vec::new(alloc)),
    }
}

/// The items of a list that are texts.
fn texts_in(alloc: Global, value: &Value) -> Result<Vec<String>>
    ensures { IsValueOrMemory texts_view result (texts_in (view value.now)) }
{
    match value {
        Value::Array(items) => texts_of(alloc, items),
        _ => Ok(Vec::new(alloc)),
    }
}

fn texts_of(alloc: Global, items: &[Value]) -> Result<Vec<String>>
    ensures { IsValueOrMemory texts_view result (texts_of (items_view items.now)) }
{
    let mut texts = Vec::new(alloc);
    for item in items {
        add_text(alloc, item, &mut texts)?;
    }
    Ok(texts)
}

/// Adds the text that a value is, where it is one.
fn add_text(
    alloc: Global,
    value: &Value,
    texts: &mut Vec<String>,
) -> std::result::Result<(), AllocError>
    ensures { OnOk result (texts_view texts.new
        ≡ texts_view texts.old ++ with_text (setting_text (view value.now)) []) }
{
    if let Some(text) = own_text(value) {
        texts.push(String::from_str(alloc, text)?)?;
    }
    Ok(())
}
