//! The sets of filters: their languages, and their pages.
ghost use Rattle.std.specs.Prelude.{◌≡◌, IfErr, IfOk, Some, None};
ghost use Rattle.liquid_filter_sets.specs.Languages.{HasDecimals, IsJekyll, IsShopify};
ghost use Rattle.liquid_filter_sets.specs.SettingUses.{SeesShop, SeesSite};
ghost use Rattle.liquid_language.specs.Standard.{IsStandard};
ghost use Rattle.liquid_model.specs.UseViews.{uses_view};

use crate::parts::PageParts;
use liquid_commands::FilterSet;
use liquid_core::{ErrorKind, Filter, HostFilters, Object, Result, Uses};
use liquid_decimals::DECIMAL_FILTERS;
use liquid_filter_sets::{
    CONVERTERS, Conversion, SiteSettings, WhereExp, decimals_language, jekyll_language, shop_of,
    shop_uses, shopify_language, site_uses,
};
use liquid_jekyll_host_filters::{JEKYLL_FILTERS, SiteFilter};
use liquid_lib::{
    Language, LimitedPage, Surroundings, language, render_hosted_page, render_page_within,
};
use liquid_shopify_host_filters::{SHOPIFY_FILTERS, ShopifyFilter};
use std::alloc::Global;
use std::collections::BTreeMap;
use std::rc::Rc;

/// The language of templates that call filters of a set, or the standard one. `Memory` where a
/// growth was refused, and no other kind.
pub fn language_with(alloc: Global, filters: Option<FilterSet>) -> Result<Language>
    ensures decimals { filters ≡ Some FilterSet.Decimals → IfOk result HasDecimals }
    ensures jekyll { filters ≡ Some FilterSet.Jekyll → IfOk result IsJekyll }
    ensures shopify { filters ≡ Some FilterSet.Shopify → IfOk result IsShopify }
    ensures standard { filters ≡ None → IfOk result IsStandard }
    ensures memory { IfErr result (λ e. e.kind ≡ ErrorKind.Memory) }
{
    match filters {
        Some(FilterSet::Decimals) => decimals_language(alloc),
        Some(FilterSet::Jekyll) => jekyll_language(alloc),
        Some(FilterSet::Shopify) => shopify_language(alloc),
        None => language(alloc),
    }
}

/// That language, in which outputs are escaped for HTML where that is asked for. `Memory` where a
/// growth was refused, and no other kind.
pub fn language_for(
    alloc: Global,
    filters: Option<FilterSet>,
    escapes_html: bool,
) -> Result<Language>
    ensures escapes { IfOk result (λ l. l.escapes_html ≡ escapes_html) }
    ensures memory { IfErr result (λ e. e.kind ≡ ErrorKind.Memory) }
{
    let mut language = language_with(alloc, filters)?;
    language.escapes_html = escapes_html;
    Ok(language)
}

/// What the filters of a set take of the data.
pub fn setting_uses(alloc: Global, filters: Option<FilterSet>) -> Result<Uses>
    ensures site { filters ≡ Some FilterSet.Jekyll → IfOk result (λ u. SeesSite (uses_view u)) }
    ensures shop { filters ≡ Some FilterSet.Shopify → IfOk result (λ u. SeesShop (uses_view u)) }
    ensures memory { IfErr result (λ e. e.kind ≡ ErrorKind.Memory) }
{
    match filters {
        Some(FilterSet::Jekyll) => site_uses(alloc),
        Some(FilterSet::Shopify) => shop_uses(alloc),
        Some(FilterSet::Decimals) | None => Ok(BTreeMap::new(alloc)),
    }
}

/// What is done with the filters of a set. A function that makes such filters may not return them,
/// since no contract could say what they are.
pub trait FilteredTask {
    type Answer;

    /// The data that has the settings of the filters.
    fn data(&self) -> &Object;

    /// Does it.
    fn run(self, host: HostFilters) -> Self::Answer;
}

/// Does a task with the filters of a set, Shopify's with the address of assets where one is given.
/// The answer is that of the task, or `Memory` where there is no room for the filters.
pub fn with_filters<T: FilteredTask + Drop>(
    alloc: Global,
    set: FilterSet,
    assets: Option<&str>,
    task: T,
) -> Result<T::Answer> {
    match set {
        FilterSet::Decimals => with_decimals(alloc, task),
        FilterSet::Jekyll => with_jekyll(alloc, task),
        FilterSet::Shopify => with_shopify(alloc, assets, task),
    }
}

fn with_decimals<T: FilteredTask + Drop>(alloc: Global, task: T) -> Result<T::Answer> {
    let mut filters = Vec::new(alloc);
    for filter in &DECIMAL_FILTERS {
        let name = String::from_str(alloc, filter.name())?;
        let boxed: Box<dyn Filter> = Box::new(alloc, *filter)?;
        filters.push((name, boxed))?;
    }
    Ok(task.run(HostFilters::new(filters)))
}

fn with_jekyll<T: FilteredTask + Drop>(alloc: Global, task: T) -> Result<T::Answer> {
    let site = SiteSettings::of(task.data());
    let name = String::from_str(alloc, "where_exp")?;
    let boxed: Box<dyn Filter> = Box::new(alloc, WhereExp)?;
    let mut filters = Vec::new(alloc);
    filters.push((name, boxed))?;
    for kind in &JEKYLL_FILTERS {
        let name = String::from_str(alloc, kind.name())?;
        let filter = SiteFilter::new(alloc, *kind, site.address, site.base)?;
        let boxed: Box<dyn Filter> = Box::new(alloc, filter)?;
        filters.push((name, boxed))?;
    }
    for converter in &CONVERTERS {
        let name = String::from_str(alloc, converter.name())?;
        let filter = Conversion::of(alloc, *converter, task.data())?;
        let boxed: Box<dyn Filter> = Box::new(alloc, filter)?;
        filters.push((name, boxed))?;
    }
    Ok(task.run(HostFilters::new(filters)))
}

fn with_shopify<T: FilteredTask + Drop>(
    alloc: Global,
    assets: Option<&str>,
    task: T,
) -> Result<T::Answer> {
    let shop = Rc::new(alloc, shop_of(alloc, task.data(), assets)?)?;
    let mut filters = Vec::new(alloc);
    for kind in &SHOPIFY_FILTERS {
        let name = String::from_str(alloc, kind.name())?;
        let shop = shop.clone()?;
        let boxed: Box<dyn Filter> = Box::new(alloc, ShopifyFilter { kind: *kind, shop })?;
        filters.push((name, boxed))?;
    }
    Ok(task.run(HostFilters::new(filters)))
}

/// The page of a template with what is around it, with the filters of a set where one is given, and
/// Shopify's with the address of assets where one is. Without a set the answer is `Memory` where a
/// growth was refused, and no other kind.
pub fn page_with(
    alloc: Global,
    filters: Option<FilterSet>,
    assets: Option<&str>,
    parts: &PageParts,
    around: Surroundings<'_>,
) -> Result<LimitedPage>
    ensures memory { filters ≡ None → IfErr result (λ e. e.kind ≡ ErrorKind.Memory) }
{
    match filters {
        Some(set) => with_filters(
            alloc,
            set,
            assets,
            PageTask {
                alloc,
                parts,
                around,
            },
        )?,
        None => render_page_within(alloc, &parts.template, around, &parts.data),
    }
}

/// The page of a template, to be rendered with the filters of a set.
#[derive(Clone, Copy, Drop)]
struct PageTask<'p> {
    alloc: Global,
    parts: &'p PageParts,
    around: Surroundings<'p>,
}

impl FilteredTask for PageTask<'_> {
    type Answer = Result<LimitedPage>;

    fn data(&self) -> &Object {
        &self.parts.data
    }

    fn run(self, host: HostFilters) -> Result<LimitedPage> {
        let PageTask {
            alloc,
            parts,
            around,
        } = self;
        render_hosted_page(alloc, &parts.template, &host, around, &parts.data)
    }
}
