//! What a text of a site comes to over data: its own text, and that in its layouts.
ghost use Rattle.std.specs.Prelude.{◌≡◌, Ok, OnOk, map, string_bytes};
ghost use Rattle.liquid_core.specs.Held.{held};
ghost use Rattle.liquid_engine.specs.Pages.{page_view};
ghost use Rattle.liquid_model.specs.Answer.{IsValueOrMemory};
ghost use Rattle.liquid_model.specs.Data.{put};
ghost use Rattle.liquid_model.specs.View.{pairs_view, view};
ghost use Rattle.liquid_site_build.specs.Built as spec;
ghost use Rattle.liquid_site_build.specs.Built.{in_document, in_layout};
ghost use Rattle.liquid_site_build.specs.OutcomeViews.{page_outcome_view};
ghost use Rattle.liquid_site_build.specs.SourceViews.{site_text_view, sources_view};
ghost use Rattle.liquid_site_build.specs.inside.Runs.{IsScope, rules_in};
ghost use Rattle.liquid_syntax.specs.Templates.{tree_of};

use crate::conversion::{Conversion, Conversions};
use crate::outcome::{PageFault, PageOutcome};
use crate::sources::{SiteSources, SiteText};
use liquid_core::{NamedFilters, Object, Result, Value, copy_object, store};
use liquid_engine::{Limits, Page, Surroundings, render_hosted_page};
use liquid_syntax::Template;
use std::alloc::Global;

/// What the texts of a site are rendered with.
#[derive(Drop)]
pub(crate) struct Builder<'s, H, C> {
    pub alloc: Global,
    /// The filters of the host.
    pub host: &'s H,
    pub conversions: &'s C,
    pub sources: &'s SiteSources,
}

impl<'s, H: NamedFilters, C: Conversions> Builder<'s, H, C> {
    /// The page of a template over this data.
    fn run(&self, template: &Template, data: &Object) -> Result<Page>
        ensures { IsValueOrMemory page_view result (spec.run_over
            (rules_in H.named C.conversion self.now) (sources_view self.now.sources.now)
            (pairs_view data.now.entries) (tree_of template.now)) }
    {
        let around = Surroundings {
            partials: &self.sources.partials,
            depth: self.sources.setting.depth,
            missing: self.sources.setting.missing,
            limits: Limits {
                bytes: None,
                turns: None,
            },
        };
        let limited = render_hosted_page(self.alloc, template, self.host, around, data)?;
        Ok(limited.page)
    }

    /// What a document's own text comes to over this data.
    pub(crate) fn own_text(&self, path: &str, text: &SiteText, data: &Object) -> Result<PageOutcome>
        ensures { IsValueOrMemory page_outcome_view result (spec.text_over
            (rules_in H.named C.conversion self.now) (sources_view self.now.sources.now)
            (pairs_view data.now.entries) (path.now, site_text_view text.now)) }
    {
        let Page { text: shown, fault } = self.run(&text.template, data)?;
        match fault {
            Some(error) => Ok(PageOutcome::Fault(PageFault::InDocument(error))),
            None => self.converted(path, shown),
        }
    }

    fn converted(&self, path: &str, text: String) -> Result<PageOutcome>
        ensures { IsValueOrMemory page_outcome_view result (spec.converted
            (rules_in H.named C.conversion self.now) path.now (Ok (string_bytes text))) }
    {
        match self.conversions.convert(self.alloc, path, text)? {
            Conversion::Known(converted) => Ok(PageOutcome::Page(converted)),
            Conversion::Unknown(left) => Ok(PageOutcome::Fault(PageFault::Unconverted(left))),
        }
    }

    /// The text in its layouts, one around another. The scope is as it was.
    pub(crate) fn laid_out(
        &self,
        scope: &mut Object,
        layouts: Vec<&SiteText>,
        content: PageOutcome,
    ) -> Result<PageOutcome>
        requires { IsScope (pairs_view scope.old.entries) }
        ensures laid { IsValueOrMemory page_outcome_view result (spec.laid_out
            (rules_in H.named C.conversion self.now) (sources_view self.now.sources.now)
            (pairs_view scope.old.entries) (map (λ l. site_text_view l.now) layouts.entry.items)
            (page_outcome_view content)) }
        ensures same { OnOk result (pairs_view scope.new.entries ≡ pairs_view scope.old.entries) }
    {
        let mut outcome = content;
        for layout in layouts {
            outcome = match outcome {
                PageOutcome::Page(inner) => self.in_layout(scope, layout, inner)?,
                PageOutcome::Fault(fault) => return Ok(PageOutcome::Fault(fault)),
            };
        }
        Ok(outcome)
    }

    /// A text in one layout. The scope is as it was.
    fn in_layout(&self, scope: &mut Object, layout: &SiteText, inner: String) -> Result<PageOutcome>
        requires { IsScope (pairs_view scope.old.entries) }
        ensures laid { IsValueOrMemory page_outcome_view result (spec.made in_layout (spec.run_over
            (rules_in H.named C.conversion self.now) (sources_view self.now.sources.now)
            (spec.layout_scope (pairs_view scope.old.entries) (string_bytes inner)
            (site_text_view layout.now)) (tree_of layout.now.template))) }
        ensures same { OnOk result (pairs_view scope.new.entries ≡ pairs_view scope.old.entries) }
    {
        put(self.alloc, scope, "content", Value::Text(inner))?;
        let members = copy_object(self.alloc, &layout.front)?;
        put(self.alloc, scope, "layout", Value::Object(members))?;
        let page = self.run(&layout.template, scope)?;
        drop(scope.remove("content"));
        drop(scope.remove("layout"));
        Ok(outcome_in_layout(page))
    }
}

fn outcome_in_layout(page: Page) -> PageOutcome
    ensures { page_outcome_view result ≡ spec.made in_layout (page_view page) }
{
    let Page { text, fault } = page;
    match fault {
        Some(error) => PageOutcome::Fault(PageFault::InLayout(error)),
        None => PageOutcome::Page(text),
    }
}

/// Puts a value at a name.
pub(crate) fn put(alloc: Global, object: &mut Object, name: &str, value: Value) -> Result<()>
    ensures { IsValueOrMemory (λ _. pairs_view object.new.entries) result
        (put name.now (view value) (pairs_view object.old.entries)) }
{
    store(object, String::from_str(alloc, name)?, value)
}
