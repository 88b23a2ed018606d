//! The parts of a site, and what a change does to them, in whatever form it keeps its pages.

use crate::change::Change;
use crate::data::changed;
use crate::differing::{Replaced, differing_names};
use crate::refresh::{RenderContext, put_page, rendered_pages, replace_pages};
use crate::rendering::Rendering;
use crate::selection::Selection;
use liquid_core::{Object, Result, Value};
use liquid_engine::RunSetting;
use liquid_language::Language;
use liquid_parser::parse_with_source;
use liquid_syntax::{Partials, Template};
use std::alloc::Global;
use std::collections::BTreeMap;

/// Page templates, partials and data, and the page of each template.
pub(crate) struct SiteParts<P> {
    pub alloc: Global,
    pub language: Language,
    pub setting: RunSetting,
    pub templates: BTreeMap<String, Template>,
    pub partials: Partials,
    pub data: Object,
    pub pages: BTreeMap<String, P>,
    pub rendered: u64,
}

/// Drops the fields. Written by hand, so that each early return drops the value by one call to
/// prove.
impl<P: Drop> Drop for SiteParts<P> {
    fn drop(self) {
        let SiteParts {
            alloc: _,
            language: _,
            setting: _,
            templates: _,
            partials: _,
            data: _,
            pages: _,
            rendered: _,
        } = self;
    }
}

impl<P: Drop> SiteParts<P> {
    ghost use Rattle.std.specs.Prelude.{◌≡◌, IsSome, OnOk, OnErr, IfErr, [], length, option_map};
    ghost use Rattle.std.specs.Prelude.{false};
    ghost use Rattle.std.specs.Prelude.{string_bytes};
    ghost use Rattle.liquid_model.specs.Answer.{IsValueOrMemory};
    ghost use Rattle.liquid_model.specs.Maps.{listed};
    ghost use Rattle.liquid_model.specs.View.{view};
    ghost use Rattle.liquid_core.specs.Held.{held};
    ghost use Rattle.liquid_language.specs.Entries.{put_entry, without};
    ghost use Rattle.liquid_syntax.specs.Slots.{exchanged};
    ghost use Rattle.liquid_syntax.specs.Templates.{tree_of, slots_of};
    ghost use Rattle.liquid_evaluation.specs.Tree.{Nodes};
    ghost use Rattle.liquid_engine.specs.Pages.{page_by};
    ghost use Rattle.liquid_site.specs.Applied.{AppliesTo};
    ghost use Rattle.liquid_site.specs.PartViews.{site_parts_view};
    ghost use Rattle.liquid_site.specs.Contents.{page_of};
    ghost use Rattle.liquid_site.specs.Parts.{by_name};
    ghost use Rattle.liquid_site.specs.Steps.{no_contents, remove_page, stepped, saturated_sum};
    ghost use Rattle.liquid_core.specs.DataChanges.{with_value};
    ghost use Rattle.liquid_site.specs.Steps.{differs, mentioning, mentioning_any};
    ghost use Rattle.liquid_site.specs.inside.Fresh.{selects, selected};
    ghost use Rattle.liquid_site.specs.inside.Keeping.{KeepsPages};

    /// The parts of a site over this data, without pages and partials. It takes no memory.
    pub(crate) fn with_data(
        alloc: Global,
        language: Language,
        setting: RunSetting,
        data: Object,
    ) -> Self
        ensures parts { site_parts_view result ≡ record {
          language = language;
          contents = record (no_contents setting) { «data» = held «data» };
          rendered = 0;
        } }
        ensures pages { result.pages.entries ≡ [] }
    {
        SiteParts {
            alloc,
            language,
            setting,
            templates: BTreeMap::new(alloc),
            partials: Partials::new(alloc),
            data,
            pages: BTreeMap::new(alloc),
            rendered: 0,
        }
    }

    /// Applies a change. A refused one changes nothing.
    pub(crate) fn apply<R: Rendering<P>>(&mut self, rendering: &R, change: Change) -> Result<()>
        requires { KeepsPages (R.shows rendering.now) self.old }
        ensures keeps { KeepsPages (R.shows rendering.now) self.new }
        ensures applied { AppliesTo change result (site_parts_view self.old)
            (site_parts_view self.new) }
        ensures language { (site_parts_view self.new).language ≡
            (site_parts_view self.old).language }
    {
        // No effect at run time. The proof reads the range of the count from this use.
        let _rendered = self.rendered;
        match change {
            Change::SetPage(name, source) => {
                let template = parse_with_source(self.alloc, source.as_str(), &self.language)?;
                self.set_page(rendering, name, template)
            }
            Change::RemovePage(name) => {
                self.remove_page(name.as_str());
                Ok(())
            }
            Change::SetPartial(name, source) => {
                let template = parse_with_source(self.alloc, source.as_str(), &self.language)?;
                self.partials
                    .reserve(String::from_str(self.alloc, name.as_str())?)?;
                self.exchange_partial(rendering, name.as_str(), Some(template))
            }
            Change::RemovePartial(name) => {
                if self.partials.get(name.as_str()).is_none() {
                    return Ok(());
                }
                self.exchange_partial(rendering, name.as_str(), None)
            }
            Change::SetValue(name, value) => {
                self.change_value(rendering, name.as_str(), Some(value))
            }
            Change::RemoveValue(name) => {
                if !self.data.contains_key(name.as_str()) {
                    return Ok(());
                }
                self.change_value(rendering, name.as_str(), None)
            }
            Change::SetData(data) => self.change_data(rendering, data),
        }
    }

    /// Renders a page and puts it, with its template, at its name.
    fn set_page<R: Rendering<P>>(
        &mut self,
        rendering: &R,
        name: String,
        template: Template,
    ) -> Result<()>
        requires { KeepsPages (R.shows rendering.now) self.old }
        ensures keeps { KeepsPages (R.shows rendering.now) self.new }
        ensures set { IsValueOrMemory (λ _. (site_parts_view self.new).contents) result
            (record (site_parts_view self.old).contents {
              pages = put_entry (string_bytes name) (tree_of template)
                  (site_parts_view self.old).contents.pages;
            }) }
        ensures counted { OnOk result ((site_parts_view self.new).rendered ≡
            saturated_sum (site_parts_view self.old).rendered 1) }
        ensures unchanged { OnErr result
            ((site_parts_view self.new).contents ≡ (site_parts_view self.old).contents) }
        ensures uncounted { OnErr result
            ((site_parts_view self.new).rendered ≡ (site_parts_view self.old).rendered) }
        ensures language { (site_parts_view self.new).language ≡
            (site_parts_view self.old).language }
    {
        let page = rendering.page(
            self.alloc,
            &template,
            &self.partials,
            self.setting,
            &self.data,
        )?;
        put_page(
            self.alloc,
            &mut self.templates,
            &mut self.pages,
            name,
            (template, page),
        )?;
        self.rendered = self.rendered.saturating_add(1);
        Ok(())
    }

    /// Takes a page and its template out. It takes no memory.
    fn remove_page(&mut self, name: &str)
        ensures pages { by_name self.new.pages ≡ without name.now (by_name self.old.pages) }
        ensures removed { (site_parts_view self.new).contents ≡ stepped (remove_page name.now)
            (site_parts_view self.old).contents }
        ensures uncounted { (site_parts_view self.new).rendered ≡
            (site_parts_view self.old).rendered }
        ensures language { (site_parts_view self.new).language ≡
            (site_parts_view self.old).language }
    {
        drop(self.templates.remove(name));
        drop(self.pages.remove(name));
    }

    /// Puts what is held into the place of a partial, and renders every page again. Where there is
    /// no memory the partial is as it was.
    fn exchange_partial<R: Rendering<P>>(
        &mut self,
        rendering: &R,
        name: &str,
        held: Option<Template>,
    ) -> Result<()>
        requires slot { IsSome (listed (slots_of self.old.partials) name.now) }
        requires shown { KeepsPages (R.shows rendering.now) self.old }
        ensures keeps { KeepsPages (R.shows rendering.now) self.new }
        ensures set { IsValueOrMemory (λ _. (site_parts_view self.new).contents) result
            (record (site_parts_view self.old).contents {
              partials = exchanged name.now
                  (option_map tree_of held) (site_parts_view self.old).contents.partials;
            }) }
        ensures counted { OnOk result ((site_parts_view self.new).rendered ≡ saturated_sum
            (site_parts_view self.old).rendered
            (length (site_parts_view self.old).contents.pages)) }
        ensures unchanged { OnErr result
            ((site_parts_view self.new).contents ≡ (site_parts_view self.old).contents) }
        ensures uncounted { OnErr result
            ((site_parts_view self.new).rendered ≡ (site_parts_view self.old).rendered) }
        ensures language { (site_parts_view self.new).language ≡
            (site_parts_view self.old).language }
    {
        let before = self.partials.exchange(name, held);
        let context = RenderContext {
            rendering,
            partials: &self.partials,
            setting: self.setting,
            data: &self.data,
        };
        let rendered = rendered_pages(self.alloc, &self.templates, &context, Selection::All);
        match rendered {
            Ok(fresh) => {
                self.rendered = self.rendered.saturating_add(fresh.len() as u64);
                replace_pages(&mut self.pages, fresh);
                Ok(())
            }
            Err(error) => {
                drop(self.partials.exchange(name, before));
                Err(error)
            }
        }
    }

    /// Sets a value of the data, or removes it, and renders again the pages that can see it.
    fn change_value<R: Rendering<P>>(
        &mut self,
        rendering: &R,
        name: &str,
        value: Option<Value>,
    ) -> Result<()>
        requires { KeepsPages (R.shows rendering.now) self.old }
        ensures keeps { KeepsPages (R.shows rendering.now) self.new }
        ensures set { IsValueOrMemory (λ _. (site_parts_view self.new).contents) result
            (record (site_parts_view self.old).contents {
              «data» = with_value (site_parts_view self.old).contents.«data»
                  name.now (option_map view value);
            }) }
        ensures counted { OnOk result ((site_parts_view self.new).rendered ≡ saturated_sum
            (site_parts_view self.old).rendered (mentioning (site_parts_view self.old).contents
            name.now)) }
        ensures unchanged { OnErr result
            ((site_parts_view self.new).contents ≡ (site_parts_view self.old).contents) }
        ensures uncounted { OnErr result
            ((site_parts_view self.new).rendered ≡ (site_parts_view self.old).rendered) }
        ensures language { (site_parts_view self.new).language ≡
            (site_parts_view self.old).language }
    {
        let data = changed(self.alloc, &self.data, name, value)?;
        let selection = Selection::by_name(&self.partials, name);
        self.exchange_data(rendering, data, selection)
    }

    /// Puts other data in the place of its own, and renders again the pages that can see a
    /// difference.
    fn change_data<R: Rendering<P>>(&mut self, rendering: &R, data: Object) -> Result<()>
        requires { KeepsPages (R.shows rendering.now) self.old }
        ensures keeps { KeepsPages (R.shows rendering.now) self.new }
        ensures set { IsValueOrMemory (λ _. (site_parts_view self.new).contents) result
            (record (site_parts_view self.old).contents { «data» = held «data» }) }
        ensures counted { OnOk result ((site_parts_view self.new).rendered ≡ saturated_sum
            (site_parts_view self.old).rendered (mentioning_any (site_parts_view self.old).contents
            (differs (site_parts_view self.old).contents.«data» (held «data»)))) }
        ensures unchanged { OnErr result
            ((site_parts_view self.new).contents ≡ (site_parts_view self.old).contents) }
        ensures uncounted { OnErr result
            ((site_parts_view self.new).rendered ≡ (site_parts_view self.old).rendered) }
        ensures language { (site_parts_view self.new).language ≡
            (site_parts_view self.old).language }
    {
        let both = Replaced {
            old: &self.data,
            new: &data,
        };
        let names = differing_names(self.alloc, both)?;
        let selection = Selection::by_names(&self.partials, &names);
        self.exchange_data(rendering, data, selection)
    }

    /// Puts data in the place of its own, and renders the selected pages again. No other page can
    /// see a difference.
    fn exchange_data<R: Rendering<P>>(
        &mut self,
        rendering: &R,
        data: Object,
        selection: Selection<'_>,
    ) -> Result<()>
        requires untouched { (nodes : Nodes) → selects selection nodes ≡ false →
            page_by (site_parts_view self.old).contents.setting
            (site_parts_view self.old).contents.partials
            (held «data») nodes ≡ page_of (site_parts_view self.old).contents nodes }
        requires shown { KeepsPages (R.shows rendering.now) self.old }
        ensures keeps { KeepsPages (R.shows rendering.now) self.new }
        ensures set { IsValueOrMemory (λ _. (site_parts_view self.new).contents) result
            (record (site_parts_view self.old).contents { «data» = held «data» }) }
        ensures counted { OnOk result ((site_parts_view self.new).rendered ≡ saturated_sum
            (site_parts_view self.old).rendered
            (length (selected (selects selection.entry)
            (site_parts_view self.old).contents.pages))) }
        ensures unchanged { OnErr result
            ((site_parts_view self.new).contents ≡ (site_parts_view self.old).contents) }
        ensures uncounted { OnErr result
            ((site_parts_view self.new).rendered ≡ (site_parts_view self.old).rendered) }
        ensures language { (site_parts_view self.new).language ≡
            (site_parts_view self.old).language }
    {
        let context = RenderContext {
            rendering,
            partials: &self.partials,
            setting: self.setting,
            data: &data,
        };
        let fresh = rendered_pages(self.alloc, &self.templates, &context, selection)?;
        self.rendered = self.rendered.saturating_add(fresh.len() as u64);
        replace_pages(&mut self.pages, fresh);
        self.data = data;
        Ok(())
    }
}
