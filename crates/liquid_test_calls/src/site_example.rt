//! The README's example of a site.
use liquid_lib::{Result, Value, language};
use liquid_site::{Change, Site};
use std::alloc::Global;

fn set_page(alloc: Global, site: &mut Site, name: &str, source: &str) -> Result<()> {
    let name = String::from_str(alloc, name)?;
    let source = String::from_str(alloc, source)?;
    site.apply(Change::SetPage(name, source))
}

/// Two pages, and the price that one of them shows.
fn fill(alloc: Global, site: &mut Site) -> Result<()> {
    set_page(alloc, site, "home", "Welcome")?;
    set_page(alloc, site, "tea", "Tea: {{ price }} euros")?;
    // This renders the page `tea` alone, since `home` doesn't mention the name.
    let name = String::from_str(alloc, "price")?;
    site.apply(Change::SetValue(name, Value::Integer(4)))
}

/// The page `tea` of a site of two pages, of which one shows a price, and how many pages were
/// rendered in all.
pub(crate) fn shop(alloc: Global) -> Result<String> {
    let mut site = Site::new(alloc, language(alloc)?, 32);
    fill(alloc, &mut site)?;
    let tea = site
        .pages()
        .get("tea")
        .map_or("", |page| page.text.as_str());
    Ok(format!(in alloc; "{tea}, {} renderings", site.rendered())?)
}
