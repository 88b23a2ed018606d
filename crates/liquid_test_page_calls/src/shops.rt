//! Shopify's filters, as a host hands them in: calls by their names, and the filters' own numbers
//! of arguments.
use crate::hosts::{called_in_turn, hosted_pages};
use liquid_core::{Filter, HostFilters, Result};
use liquid_shopify_host_filters::{MoneyFormat, MoneyStyle, SHOPIFY_FILTERS, Shop, ShopifyFilter};
use liquid_test_refusals::{Reporter, WorkedRow};
use std::alloc::Global;
use std::rc::Rc;

/// The calls of the row, or its page, with all filters of the set in the shop of the engine's own
/// themes.
pub(crate) fn shop_made<R: Print>(reporter: &Reporter<'_, R>, row: &WorkedRow) -> Result<()> {
    let alloc = reporter.alloc;
    let shop = Rc::new(alloc, shop(alloc)?)?;
    let mut filters = Vec::new(alloc);
    for kind in &SHOPIFY_FILTERS {
        let name = String::from_str(alloc, kind.name())?;
        let shop = shop.clone()?;
        let filter: Box<dyn Filter> = Box::new(alloc, ShopifyFilter { kind: *kind, shop })?;
        filters.push((name, filter))?;
    }
    let host = HostFilters::new(filters);
    match row.call.as_str() {
        "shopify filters" => called_in_turn(reporter, &host, &row.with),
        _ => hosted_pages(reporter, row, &host),
    }
}

/// The shop of the engine's own themes.
fn shop(alloc: Global) -> Result<Shop> {
    Ok(Shop {
        assets: String::from_str(alloc, "/files/1/[shop_id]/[shop_id]/assets/")?,
        global_assets: String::from_str(alloc, "/global/")?,
        shopify_assets: String::from_str(alloc, "/shopify/")?,
        images: String::from_str(alloc, "/files/shops/random_number/")?,
        collection: String::from_str(alloc, "teas")?,
        tags: tags(alloc)?,
        money: dollars(alloc, "")?,
        money_with_currency: dollars(alloc, " USD")?,
    })
}

/// An amount after a `$`, with this after it.
fn dollars(alloc: Global, after: &str) -> Result<MoneyFormat> {
    Ok(MoneyFormat {
        before: String::from_str(alloc, "$ ")?,
        style: MoneyStyle::Amount,
        after: String::from_str(alloc, after)?,
    })
}

/// The tags of the page.
fn tags(alloc: Global) -> Result<Vec<String>> {
    let mut tags = Vec::new(alloc);
    tags.push(String::from_str(alloc, "green")?)?;
    tags.push(String::from_str(alloc, "fine")?)?;
    Ok(tags)
}
