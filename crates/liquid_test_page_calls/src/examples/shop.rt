//! How a host registers Shopify's filters, all of one type. docs/use/rattle.md names this file.
use liquid_filter_sets::shopify_language;
use liquid_lib::{Filter, HostFilters, Renderable, Result, RuntimeBuilder, parse};
use liquid_shopify_host_filters::{MoneyFormat, MoneyStyle, SHOPIFY_FILTERS, Shop, ShopifyFilter};
use std::alloc::Global;
use std::rc::Rc;

/// A page whose template calls filters of the set.
pub(crate) fn shop_page(alloc: Global) -> Result<String> {
    // Each filter is made where it is passed: a `dyn` can't be made elsewhere.
    let shop = Rc::new(alloc, shop(alloc)?)?;
    let mut filters = Vec::new(alloc);
    for kind in &SHOPIFY_FILTERS {
        let name = String::from_str(alloc, kind.name())?;
        let shop = shop.clone()?;
        let filter: Box<dyn Filter> = Box::new(alloc, ShopifyFilter { kind: *kind, shop })?;
        filters.push((name, filter))?;
    }
    let host = HostFilters::new(filters);

    let source = "{{ 'Green tea' | link_to: '/tea' }}: {{ 1999 | money }}";
    let template = parse(alloc, source, &shopify_language(alloc)?)?;
    let mut runtime = RuntimeBuilder::new(alloc)
        .set_host_filters(&host)
        .build(alloc);
    template.render(alloc, &mut runtime)
}

/// What the filters know of the shop.
fn shop(alloc: Global) -> Result<Shop> {
    Ok(Shop {
        assets: String::from_str(alloc, "/assets/")?,
        global_assets: String::from_str(alloc, "/global/")?,
        shopify_assets: String::from_str(alloc, "/shopify/")?,
        images: String::from_str(alloc, "/images/")?,
        collection: String::new(alloc),
        tags: Vec::new(alloc),
        money: euros(alloc, " €")?,
        money_with_currency: euros(alloc, " EUR")?,
    })
}

/// An amount as `1.134,65`, with this after it.
fn euros(alloc: Global, after: &str) -> Result<MoneyFormat> {
    Ok(MoneyFormat {
        before: String::new(alloc),
        style: MoneyStyle::AmountWithCommaSeparator,
        after: String::from_str(alloc, after)?,
    })
}
