//! How a host takes in Jekyll's filters: a language that has their names, and a loop that makes
//! them.
use liquid_filter_sets::{WhereExp, jekyll_language};
use liquid_jekyll_host_filters::{JEKYLL_FILTERS, SiteFilter};
use liquid_lib::{Filter, HostFilters, Renderable, Result, RuntimeBuilder, parse};
use std::alloc::Global;

/// The page of a template that calls filters of Jekyll, over a site at https://example.org/blog.
pub(crate) fn jekyll_page(alloc: Global) -> Result<String> {
    // A run has each filter by its name. They are boxed here, where they are passed.
    let name = String::from_str(alloc, "where_exp")?;
    let where_exp: Box<dyn Filter> = Box::new(alloc, WhereExp)?;
    let mut filters = Vec::new(alloc);
    filters.push((name, where_exp))?;
    for filter in &JEKYLL_FILTERS {
        let name = String::from_str(alloc, filter.name())?;
        let site = SiteFilter::new(alloc, *filter, "https://example.org", "/blog")?;
        let boxed: Box<dyn Filter> = Box::new(alloc, site)?;
        filters.push((name, boxed))?;
    }
    let host = HostFilters::new(filters);

    // A template may call each with as many arguments as it takes.
    let source = "{{ 'a page' | relative_url }} {{ 'x' | absolute_url }}";
    let template = parse(alloc, source, &jekyll_language(alloc)?)?;
    let mut runtime = RuntimeBuilder::new(alloc)
        .set_host_filters(&host)
        .build(alloc);
    template.render(alloc, &mut runtime)
}
