//! What templates see of a site.
ghost use Rattle.std.specs.Prelude.{◌≡◌};
ghost use Rattle.liquid_model.specs.Answer.{IsValueOrMemory};
ghost use Rattle.liquid_model.specs.Data.{array};
ghost use Rattle.liquid_model.specs.View.{items_of, items_view, pairs_view, view};
ghost use Rattle.liquid_site_build.specs.Built as spec;
ghost use Rattle.liquid_site_build.specs.SourceViews.{site_text_view, site_texts_view};
ghost use Rattle.liquid_site_build.specs.SourceViews.{sources_view};

use crate::address::{address_of, document_file};
use crate::run::put;
use crate::sources::{SiteSources, SiteText, SiteTexts};
use liquid_core::{Object, Result, Value, copy_object};
use std::alloc::Global;

/// A document's members, and where it stands.
pub(crate) fn about(alloc: Global, path: &str, text: &SiteText) -> Result<Object>
    ensures { IsValueOrMemory (λ m. pairs_view m.entries) result
        (spec.about (path.now, site_text_view text.now)) }
{
    let mut members = copy_object(alloc, &text.front)?;
    let file = document_file(alloc, path, &text.front)?;
    let address = address_of(alloc, file.as_str())?;
    put(alloc, &mut members, "url", Value::Text(address))?;
    let own = String::from_str(alloc, path)?;
    put(alloc, &mut members, "path", Value::Text(own))?;
    Ok(members)
}

/// The documents of a list, each by its members.
fn listed(alloc: Global, texts: &SiteTexts) -> Result<Value>
    ensures { IsValueOrMemory view result
        (spec.listed_by spec.about (site_texts_view texts.now)) }
{
    let mut items = Vec::new(alloc);
    for (path, text) in texts.iter() {
        items.push(Value::Object(about(alloc, path.as_str(), text)?))?;
    }
    Ok(Value::Array(items))
}

/// The site as the documents of collections see it: without the texts of others.
pub(crate) fn plain_site(alloc: Global, sources: &SiteSources) -> Result<Object>
    ensures { IsValueOrMemory (λ m. pairs_view m.entries) result
        (spec.site_pairs spec.about (sources_view sources.now)) }
{
    let mut site = copy_object(alloc, &sources.config)?;
    for (name, texts) in sources.collections.iter() {
        put(alloc, &mut site, name.as_str(), listed(alloc, texts)?)?;
    }
    with_pages(alloc, site, sources)
}

/// The site with its pages, and what the data files give.
pub(crate) fn with_pages(alloc: Global, site: Object, sources: &SiteSources) -> Result<Object>
    ensures { IsValueOrMemory (λ m. pairs_view m.entries) result
        (spec.with_pages (sources_view sources.now) (pairs_view site.entries)) }
{
    let mut site = site;
    put(alloc, &mut site, "pages", listed(alloc, &sources.pages)?)?;
    let members = copy_object(alloc, &sources.data)?;
    put(alloc, &mut site, "data", Value::Object(members))?;
    Ok(site)
}
