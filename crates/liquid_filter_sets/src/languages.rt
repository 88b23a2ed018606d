//! The languages of the sets.
ghost use Rattle.std.specs.Prelude.{◌≡◌, IfErr, IfOk};
ghost use Rattle.liquid_model.specs.Answer.{IsValueOrMemory};
ghost use Rattle.liquid_model.specs.Maps.{insert, listed};
ghost use Rattle.liquid_language.specs.Languages.{kinds_of};
ghost use Rattle.liquid_language.specs.Registered.{registered_in};
ghost use Rattle.liquid_language.specs.declared.registered_filter.RegisteredFilter.TheVariants.{Host};
ghost use Rattle.liquid_filter_sets.specs.Languages.{HasDecimals, IsJekyll};
ghost use Rattle.liquid_filter_sets.specs.Languages.{IsShopify};
ghost use Rattle.liquid_filter_sets.specs.Languages.{with_converters, with_decimal_filters};
ghost use Rattle.liquid_filter_sets.specs.Languages.{with_each_decimal};
ghost use Rattle.liquid_filter_sets.specs.Languages.{with_includes, with_jekyll_filters};
ghost use Rattle.liquid_filter_sets.specs.Languages.{with_kinds};
ghost use Rattle.liquid_filter_sets.specs.Languages.{with_shopify_filters, with_sites};

use crate::conversion::{CONVERTERS, Converter};
use crate::jekyll_tags::register_jekyll_tags;
use crate::shopify_tags::{register_shopify_blocks, register_shopify_tags};
use liquid_core::{ErrorKind, Result};
use liquid_decimals::{DECIMAL_FILTERS, DecimalFilter};
use liquid_filters::FilterKind;
use liquid_jekyll_host_filters::{JEKYLL_FILTERS, JekyllFilter};
use liquid_language::{
    FilterRegistry, Language, Registry, TagKind, TagReflection, jekyll, language,
};
use liquid_shopify_host_filters::{SHOPIFY_FILTERS, ShopifyKind};
use std::alloc::Global;

/// The language of Jekyll's templates: the standard one with Jekyll's `include`, which takes a path
/// without quotes, and `sort` in place of the standard ones, `include_relative`, which is the same
/// as `include`, the tags `link`, `post_url`, `feed_meta` and `seo`, the block `highlight`, and the
/// names of Jekyll's filters of a host; it drops the white space of blocks that write nothing.
/// `Memory` where a growth was refused.
pub fn jekyll_language(alloc: Global) -> Result<Language>
    ensures jekyll { IfOk result IsJekyll }
    ensures memory { IfErr result (λ e. e.kind ≡ ErrorKind.Memory) }
{
    let mut language = language(alloc)?;
    register_includes(alloc, &mut language.tags)?;
    language.include_paths = true;
    language.drops_blanks = true;
    let name = String::from_str(alloc, "sort")?;
    language.filters.register(name, FilterKind::JekyllSort)?;
    register_jekyll_filters(alloc, &mut language.filters)?;
    register_jekyll_tags(alloc, &mut language)?;
    Ok(language)
}

fn register_includes(alloc: Global, tags: &mut Registry<TagKind>) -> Result<()>
    ensures { IsValueOrMemory (λ _. listed (kinds_of tags.new)) result
        (with_includes (listed (kinds_of tags.old))) }
{
    let include = jekyll::IncludeTag::new();
    let name = String::from_str(alloc, include.tag())?;
    tags.register(name, TagKind::from(include))?;
    tags.register(
        String::from_str(alloc, "include_relative")?,
        TagKind::JekyllInclude,
    )
}

/// The language of Shopify's templates: the standard one with Shopify's tags, blocks and filters of
/// a host; it drops the white space of blocks that write nothing. `Memory` where a growth was
/// refused.
pub fn shopify_language(alloc: Global) -> Result<Language>
    ensures shopify { IfOk result IsShopify }
    ensures memory { IfErr result (λ e. e.kind ≡ ErrorKind.Memory) }
{
    let mut language = language(alloc)?;
    language.drops_blanks = true;
    register_shopify_filters(alloc, &mut language.filters)?;
    register_shopify_tags(alloc, &mut language)?;
    register_shopify_blocks(alloc, &mut language)?;
    Ok(language)
}

/// The standard language with the names of the filters over decimals. `Memory` where a growth was
/// refused.
pub fn decimals_language(alloc: Global) -> Result<Language>
    ensures decimals { IfOk result HasDecimals }
    ensures memory { IfErr result (λ e. e.kind ≡ ErrorKind.Memory) }
{
    let mut language = language(alloc)?;
    register_decimal_filters(alloc, &mut language.filters)?;
    Ok(language)
}

/// Registers Jekyll's filters of a host: each of `JEKYLL_FILTERS` and of `CONVERTERS`, and
/// `where_exp`. What such a name stood for before is forgotten. `Memory` where a growth was
/// refused; then some of them may be registered.
pub fn register_jekyll_filters(alloc: Global, filters: &mut FilterRegistry) -> Result<()>
    ensures { IsValueOrMemory (λ _. listed (registered_in filters.new)) result
        (with_jekyll_filters (listed (registered_in filters.old))) }
{
    register_sites(alloc, filters, &JEKYLL_FILTERS)?;
    register_converters(alloc, filters, &CONVERTERS)?;
    register(alloc, filters, "where_exp", 2, 2)
}

/// Registers Shopify's filters of a host: each of `SHOPIFY_FILTERS`. What such a name stood for
/// before is forgotten. `Memory` where a growth was refused; then some of them may be registered.
pub fn register_shopify_filters(alloc: Global, filters: &mut FilterRegistry) -> Result<()>
    ensures { IsValueOrMemory (λ _. listed (registered_in filters.new)) result
        (with_shopify_filters (listed (registered_in filters.old))) }
{
    register_kinds(alloc, filters, &SHOPIFY_FILTERS)
}

/// Registers the filters over decimals: each of `DECIMAL_FILTERS`. What such a name stood for
/// before is forgotten. `Memory` where a growth was refused; then some of them may be registered.
pub fn register_decimal_filters(alloc: Global, filters: &mut FilterRegistry) -> Result<()>
    ensures { IsValueOrMemory (λ _. listed (registered_in filters.new)) result
        (with_decimal_filters (listed (registered_in filters.old))) }
{
    register_each(alloc, filters, &DECIMAL_FILTERS)
}

fn register_each(
    alloc: Global,
    filters: &mut FilterRegistry,
    decimals: &[DecimalFilter],
) -> Result<()>
    ensures { IsValueOrMemory (λ _. listed (registered_in filters.new)) result
        (with_each_decimal (listed (registered_in filters.old)) decimals.now) }
{
    for filter in decimals {
        register(alloc, filters, filter.name(), filter.least(), filter.most())?;
    }
    Ok(())
}

fn register_sites(alloc: Global, filters: &mut FilterRegistry, sites: &[JekyllFilter]) -> Result<()>
    ensures { IsValueOrMemory (λ _. listed (registered_in filters.new)) result
        (with_sites (listed (registered_in filters.old)) sites.now) }
{
    for site in sites {
        register(alloc, filters, site.name(), site.least(), site.most())?;
    }
    Ok(())
}

fn register_converters(
    alloc: Global,
    filters: &mut FilterRegistry,
    converters: &[Converter],
) -> Result<()>
    ensures { IsValueOrMemory (λ _. listed (registered_in filters.new)) result
        (with_converters (listed (registered_in filters.old)) converters.now) }
{
    for converter in converters {
        register(alloc, filters, converter.name(), 0, 0)?;
    }
    Ok(())
}

fn register_kinds(alloc: Global, filters: &mut FilterRegistry, kinds: &[ShopifyKind]) -> Result<()>
    ensures { IsValueOrMemory (λ _. listed (registered_in filters.new)) result
        (with_kinds (listed (registered_in filters.old)) kinds.now) }
{
    for kind in kinds {
        register(alloc, filters, kind.name(), kind.least(), kind.most())?;
    }
    Ok(())
}

/// Registers a filter of the host.
fn register(
    alloc: Global,
    filters: &mut FilterRegistry,
    name: &str,
    least: usize,
    most: usize,
) -> Result<()>
    ensures { IsValueOrMemory (λ _. listed (registered_in filters.new)) result
        (insert (listed (registered_in filters.old)) name.now (Host least most)) }
{
    filters.register_host(String::from_str(alloc, name)?, least, most)
}
