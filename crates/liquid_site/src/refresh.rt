//! Rendering again what was touched.
ghost use Rattle.std.specs.Prelude.{◌≡◌, map, IfOk, OnOk, OnErr, IfErr, string_bytes};
ghost use Rattle.std.specs.List.Sorted.{IsStrictlySortedBy};
ghost use Rattle.std.specs.Map.{keys_of};
ghost use Rattle.std.specs.String.{string_cmp};
ghost use Rattle.liquid_core.specs.Held.{held};
ghost use Rattle.liquid_language.specs.Entries.{put_entry, placed};
ghost use Rattle.liquid_syntax.specs.Templates.{tree_of, partials_of};
ghost use Rattle.liquid_engine.specs.Pages.{page_by};
ghost use Rattle.liquid_site.specs.Contents.{all_pages};
ghost use Rattle.liquid_site.specs.inside.Fresh.{selects, selected, all_placed, listed_pages};
ghost use Rattle.liquid_site.specs.Parts.{by_name, trees_in};
ghost use Rattle.liquid_site.specs.ShownPages.{AreShown};

use crate::rendering::Rendering;
use crate::selection::Selection;
use liquid_core::{Error, ErrorKind, Object, Result};
use liquid_engine::RunSetting;
use liquid_syntax::{Partials, Template};
use std::alloc::{AllocError, Global};
use std::collections::BTreeMap;

/// How pages are rendered, and over what: the partials, how a run over them goes, and the data.
#[derive(Drop)]
pub(crate) struct RenderContext<'g, R> {
    pub rendering: &'g R,
    pub partials: &'g Partials,
    pub setting: RunSetting,
    pub data: &'g Object,
}

/// Renders the selected pages, and answers them in the order of their names. The answer is `Memory`
/// where a growth was refused, and no other kind.
pub(crate) fn rendered_pages<P: Drop, R: Rendering<P>>(
    alloc: Global,
    templates: &BTreeMap<String, Template>,
    context: &RenderContext<'_, R>,
    selection: Selection<'_>,
) -> Result<Vec<(String, P)>>
    ensures pages { IfOk result (λ v. AreShown (R.shows context.now.rendering.now)
        (all_pages (page_by context.now.setting (partials_of context.now.partials.now)
        (held context.now.«data».now))
        (selected (selects selection.entry) (trees_in templates.now)))
        (listed_pages v.items)) }
    ensures ascend { IsStrictlySortedBy string_cmp (keys_of templates.now.entries) }
    ensures memory { IfErr result (λ e. e.kind ≡ ErrorKind.Memory) }
{
    let mut pages = Vec::new(alloc);
    for (page, template) in templates.iter() {
        if selection.has(template) {
            let fresh = rendered_page(alloc, page.as_str(), template, context)?;
            pages.push(fresh)?;
        }
    }
    Ok(pages)
}

/// Renders a page, and answers it under its name.
fn rendered_page<P: Drop, R: Rendering<P>>(
    alloc: Global,
    name: &str,
    template: &Template,
    context: &RenderContext<'_, R>,
) -> Result<(String, P)>
    ensures name { IfOk result (λ p. string_bytes p.0 ≡ name.now) }
    ensures page { IfOk result (λ p. R.shows context.now.rendering.now (page_by context.now.setting
        (partials_of context.now.partials.now) (held context.now.«data».now)
        (tree_of template.now)) p.1) }
    ensures memory { IfErr result (λ e. e.kind ≡ ErrorKind.Memory) }
{
    let own = String::from_str(alloc, name)?;
    let page = context.rendering.page(
        alloc,
        template,
        context.partials,
        context.setting,
        context.data,
    )?;
    Ok((own, page))
}

/// Puts each of these pages in the place of the one of its name. It takes no memory.
pub(crate) fn replace_pages<P: Drop>(pages: &mut BTreeMap<String, P>, fresh: Vec<(String, P)>)
    ensures { by_name pages.new ≡ all_placed (listed_pages fresh.items) (by_name pages.old) }
{
    for (name, page) in fresh {
        replace_page(pages, name.as_str(), page);
    }
}

/// Puts a page in the place of the one of its name.
fn replace_page<P: Drop>(pages: &mut BTreeMap<String, P>, name: &str, page: P)
    ensures { by_name pages.new ≡ placed name.now page (by_name pages.old) }
{
    match pages.get_mut(name) {
        Some(shown) => *shown = page,
        None => drop(page),
    }
}

/// Puts a template and its page at a name. Where there is no memory nothing changes.
pub(crate) fn put_page<P: Drop>(
    alloc: Global,
    templates: &mut BTreeMap<String, Template>,
    pages: &mut BTreeMap<String, P>,
    name: String,
    rendered: (Template, P),
) -> Result<()>
    requires { map (λ p. p.0) (trees_in templates.old) ≡ map (λ p. p.0) (by_name pages.old) }
    ensures templates { OnOk result (trees_in templates.new ≡
        put_entry (string_bytes name) (tree_of rendered.0)
        (trees_in templates.old)) }
    ensures pages { OnOk result (by_name pages.new ≡ put_entry (string_bytes name) rendered.1
        (by_name pages.old)) }
    ensures templates_unchanged { OnErr result (trees_in templates.new ≡ trees_in templates.old) }
    ensures pages_unchanged { OnErr result (by_name pages.new ≡ by_name pages.old) }
    ensures memory { IfErr result (λ e. e.kind ≡ ErrorKind.Memory) }
{
    let (template, page) = rendered;
    let own = String::from_str(alloc, name.as_str())?;
    drop(templates.insert(name, template)?);
    match pages.insert(own, page) {
        Ok(before) => {
            drop(before);
            Ok(())
        }
        Err(refused) => {
            // Only a new name can be refused a place: its template is taken out again.
            let (own, page) = refused.value;
            drop(page);
            drop(templates.remove(own.as_str()));
            Err(Error::from(AllocError))
        }
    }
}
