//! Jekyll's filters over a site, which need no table.
ghost use Rattle.std.specs.Prelude.{map, option_map};
ghost use Rattle.liquid_model.specs.Answer.{Answers as Tells, IsValueOrMemory};
ghost use Rattle.liquid_model.specs.View.{view};
ghost use Rattle.liquid_answers.specs.Sites.{jekyll_answers, site_answers, place_view};
ghost use Rattle.liquid_answers.specs.Sites.{selecting_answers};

use crate::own::OwnFilters;
use liquid_core::{NamedFilters, Result, Value};
use liquid_filter_sets::WhereExp;
use liquid_jekyll_host_filters::{JekyllFilter, SiteFilter};
use liquid_model::Filter;
use std::alloc::Global;

/// Where a site of Jekyll's is.
#[derive(Drop)]
pub(crate) struct Site {
    pub(crate) address: String,
    pub(crate) base: String,
}

impl Site {
    /// The site of this address and this base path. `Memory` alone where there is no room.
    pub(crate) fn new(alloc: Global, address: &str, base: &str) -> Result<Site>
        ensures { IsValueOrMemory place_view result (address.now, base.now) }
    {
        Ok(Site {
            address: String::from_str(alloc, address)?,
            base: String::from_str(alloc, base)?,
        })
    }
}

/// What the library itself answers, which has Jekyll's filters where there is a site.
pub(crate) fn answer_over(
    alloc: Global,
    site: Option<&Site>,
    name: &str,
    input: &Value,
    args: &[Value],
) -> Result<Value>
    ensures { Tells view result (site_answers (option_map (λ s. place_view s.now) site.entry)
        name.now (view input.now) (map view args.now)) }
{
    match site {
        Some(site) => jekyll_answer(alloc, site, name, input, args),
        None => OwnFilters.call_named(alloc, name, input, args),
    }
}

/// What Jekyll's filter of this name answers over a site, where there is one that takes so many
/// arguments; else what is answered without a site.
fn jekyll_answer(
    alloc: Global,
    site: &Site,
    name: &str,
    input: &Value,
    args: &[Value],
) -> Result<Value>
    ensures { Tells view result (jekyll_answers (place_view site.now) name.now (view input.now)
        (map view args.now)) }
{
    let Some(filter) = JekyllFilter::named(name) else {
        return selecting_answer(alloc, name, input, args);
    };
    let filter = SiteFilter::new(alloc, filter, site.address.as_str(), site.base.as_str())?;
    if !filter.accepts(args.len()) {
        return OwnFilters.call_named(alloc, name, input, args);
    }
    filter.evaluate(alloc, input, args)
}

/// What `where_exp` answers, where it has the name and is given its two arguments; else what is
/// answered without a site.
fn selecting_answer(alloc: Global, name: &str, input: &Value, args: &[Value]) -> Result<Value>
    ensures { Tells view result (selecting_answers name.now (view input.now)
        (map view args.now)) }
{
    if name == "where_exp" && args.len() == 2 {
        return WhereExp.evaluate(alloc, input, args);
    }
    OwnFilters.call_named(alloc, name, input, args)
}
