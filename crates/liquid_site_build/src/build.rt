//! What all documents of a site come to.
ghost use Rattle.std.specs.Prelude.{◌≡◌, ◌++◌, OnOk, map};
ghost use Rattle.liquid_model.specs.Answer.{IsValueOrMemory};
ghost use Rattle.liquid_model.specs.Data.{Pairs, no_pairs};
ghost use Rattle.liquid_model.specs.View.{pairs_view, view};
ghost use Rattle.liquid_site_build.specs.Built as spec;
ghost use Rattle.liquid_site_build.specs.OutcomeViews.{document_outcome_view, page_outcome_view};
ghost use Rattle.liquid_site_build.specs.SourceViews.{site_text_view, site_texts_view};
ghost use Rattle.liquid_site_build.specs.SourceViews.{sources_view};
ghost use Rattle.liquid_site_build.specs.inside.Runs.{IsScope, IsScopeOver, rules_in};
ghost use Rattle.liquid_site_build.specs.inside.Parts.{content_part_view, outcome_of_part};
ghost use Rattle.liquid_site_build.specs.inside.Parts.{outcome_over};
ghost use Rattle.liquid_site_build.specs.inside.Parts.{with_contents};

use crate::address::document_file;
use crate::chain::{Chain, layout_chain};
use crate::conversion::Conversions;
use crate::outcome::{DocumentOutcome, PageFault, PageOutcome};
use crate::run::{Builder, put};
use crate::site_data::{about, plain_site, with_pages};
use crate::sources::{SiteSources, SiteText, SiteTexts};
use liquid_core::{NamedFilters, Object, Result, Value, copy_object};
use std::alloc::Global;

/// A document of a collection, and what its own text comes to.
#[derive(Drop)]
struct Part<'s> {
    path: &'s str,
    text: &'s SiteText,
    content: PageOutcome,
}

/// What each page and each document of a site comes to, in their order: its page, or why it has
/// none. It follows from the sources alone, and from what filters of the host and conversions
/// answer.
///
/// `Memory` where a growth was refused and where a filter of the host answers that kind, and no
/// other kind.
pub fn built_outcomes<H: NamedFilters, C: Conversions>(
    alloc: Global,
    host: &H,
    conversions: &C,
    sources: &SiteSources,
) -> Result<Vec<DocumentOutcome>>
    ensures { IsValueOrMemory (λ v. map document_outcome_view v.items) result (spec.outcomes
        (record { answers = H.named host.now; conversion = C.conversion conversions.now })
        (sources_view sources.now)) }
{
    let builder = Builder {
        alloc,
        host,
        conversions,
        sources,
    };
    let mut plain = scope_over(alloc, plain_site(alloc, sources)?)?;
    let mut parts = Vec::new(alloc);
    let site = builder.site_with_texts(&mut plain, &mut parts)?;
    drop(plain);
    let mut scope = scope_over(alloc, site)?;
    let mut outcomes = Vec::new(alloc);
    builder.add_pages(&mut scope, &mut outcomes)?;
    builder.add_documents(&mut scope, parts, &mut outcomes)?;
    Ok(outcomes)
}

/// A scope over a site, with a page that has no members.
fn scope_over(alloc: Global, site: Object) -> Result<Object>
    ensures { IsValueOrMemory (λ m. pairs_view m.entries) result
        (spec.scope_of no_pairs (pairs_view site.entries)) }
{
    let mut scope = Object::new(alloc);
    put(alloc, &mut scope, "site", Value::Object(site))?;
    put(alloc, &mut scope, "page", Value::Object(Object::new(alloc)))?;
    Ok(scope)
}

impl<'s, H: NamedFilters, C: Conversions> Builder<'s, H, C> {
    /// The site as pages and layouts see it, with the texts of the documents of collections, each
    /// of which is added to the parts.
    fn site_with_texts(&self, scope: &mut Object, parts: &mut Vec<Part<'s>>) -> Result<Object>
        requires { IsScopeOver (spec.site_pairs spec.about (sources_view self.now.sources.now))
            (pairs_view scope.old.entries) }
        ensures site { IsValueOrMemory (λ m. pairs_view m.entries) result (spec.site_pairs
            (spec.with_own_content (rules_in H.named C.conversion self.now)
            (sources_view self.now.sources.now)) (sources_view self.now.sources.now)) }
        ensures parts { OnOk result (map content_part_view parts.new.items
            ≡ map content_part_view parts.old.items
            ++ with_contents (rules_in H.named C.conversion self.now)
            (sources_view self.now.sources.now)
            (spec.documents_of (sources_view self.now.sources.now).collections)) }
    {
        let mut site = copy_object(self.alloc, &self.sources.config)?;
        for (name, texts) in self.sources.collections.iter() {
            let listed = self.listed_with_texts(scope, texts, parts)?;
            put(self.alloc, &mut site, name.as_str(), listed)?;
        }
        with_pages(self.alloc, site, self.sources)
    }

    /// The documents of a collection, each by its members and with its own text, where it has one.
    fn listed_with_texts(
        &self,
        scope: &mut Object,
        texts: &'s SiteTexts,
        parts: &mut Vec<Part<'s>>,
    ) -> Result<Value>
        requires { IsScopeOver (spec.site_pairs spec.about (sources_view self.now.sources.now))
            (pairs_view scope.old.entries) }
        ensures listed { IsValueOrMemory view result (spec.listed_by
            (spec.with_own_content (rules_in H.named C.conversion self.now)
            (sources_view self.now.sources.now)) (site_texts_view texts.now)) }
        ensures parts { OnOk result (map content_part_view parts.new.items
            ≡ map content_part_view parts.old.items
            ++ with_contents (rules_in H.named C.conversion self.now)
            (sources_view self.now.sources.now) (site_texts_view texts.now)) }
        ensures scope { OnOk result (IsScopeOver
            (spec.site_pairs spec.about (sources_view self.now.sources.now))
            (pairs_view scope.new.entries)) }
    {
        let mut items = Vec::new(self.alloc);
        for (path, text) in texts.iter() {
            let path = path.as_str();
            let content = self.text_of(scope, path, text)?;
            let members = about(self.alloc, path, text)?;
            let item = with_content(self.alloc, members, &content)?;
            items.push(Value::Object(item))?;
            parts.push(Part {
                path,
                text,
                content,
            })?;
        }
        Ok(Value::Array(items))
    }

    /// What the own text of a document comes to over this site, which the scope has.
    fn text_of(&self, scope: &mut Object, path: &str, text: &SiteText) -> Result<PageOutcome>
        ensures text { (site : Pairs) → IsScopeOver site (pairs_view scope.old.entries) →
            IsValueOrMemory page_outcome_view result (spec.text_over
            (rules_in H.named C.conversion self.now) (sources_view self.now.sources.now)
            (spec.scope_of (spec.about (path.now, site_text_view text.now)) site)
            (path.now, site_text_view text.now)) }
        ensures scope { (site : Pairs) → IsScopeOver site (pairs_view scope.old.entries) →
            OnOk result (pairs_view scope.new.entries
            ≡ spec.scope_of (spec.about (path.now, site_text_view text.now)) site) }
    {
        let members = about(self.alloc, path, text)?;
        put(self.alloc, scope, "page", Value::Object(members))?;
        self.own_text(path, text, scope)
    }

    /// Adds what each page comes to.
    fn add_pages(&self, scope: &mut Object, outcomes: &mut Vec<DocumentOutcome>) -> Result<()>
        requires { IsScopeOver (spec.site_pairs
            (spec.with_own_content (rules_in H.named C.conversion self.now)
            (sources_view self.now.sources.now)) (sources_view self.now.sources.now))
            (pairs_view scope.old.entries) }
        ensures added { IsValueOrMemory (λ _. map document_outcome_view outcomes.new.items) result
            (map document_outcome_view outcomes.old.items ++ map (spec.outcome_by
            (spec.site_page_outcome (rules_in H.named C.conversion self.now)
            (sources_view self.now.sources.now))) (sources_view self.now.sources.now).pages) }
        ensures scope { OnOk result (IsScopeOver (spec.site_pairs
            (spec.with_own_content (rules_in H.named C.conversion self.now)
            (sources_view self.now.sources.now)) (sources_view self.now.sources.now))
            (pairs_view scope.new.entries)) }
    {
        for (path, text) in self.sources.pages.iter() {
            let path = path.as_str();
            let content = self.text_of(scope, path, text)?;
            outcomes.push(self.outcome(scope, path, text, content)?)?;
        }
        Ok(())
    }

    /// Adds what each document of a collection comes to.
    fn add_documents(
        &self,
        scope: &mut Object,
        parts: Vec<Part<'s>>,
        outcomes: &mut Vec<DocumentOutcome>,
    ) -> Result<()>
        requires { IsScopeOver (spec.site_pairs
            (spec.with_own_content (rules_in H.named C.conversion self.now)
            (sources_view self.now.sources.now)) (sources_view self.now.sources.now))
            (pairs_view scope.old.entries) }
        ensures { IsValueOrMemory (λ _. map document_outcome_view outcomes.new.items) result
            (map document_outcome_view outcomes.old.items ++ map (outcome_of_part
            (rules_in H.named C.conversion self.now) (sources_view self.now.sources.now))
            (map content_part_view parts.entry.items)) }
    {
        for part in parts {
            let members = about(self.alloc, part.path, part.text)?;
            put(self.alloc, scope, "page", Value::Object(members))?;
            outcomes.push(self.outcome(scope, part.path, part.text, part.content)?)?;
        }
        Ok(())
    }

    /// What a document comes to in its layouts, and the path of its file.
    fn outcome(
        &self,
        scope: &mut Object,
        path: &str,
        text: &SiteText,
        content: PageOutcome,
    ) -> Result<DocumentOutcome>
        requires { IsScope (pairs_view scope.old.entries) }
        ensures outcome { IsValueOrMemory document_outcome_view result (outcome_over
            (rules_in H.named C.conversion self.now) (sources_view self.now.sources.now)
            (pairs_view scope.old.entries) (path.now, site_text_view text.now)
            (page_outcome_view content)) }
        ensures same { OnOk result (pairs_view scope.new.entries ≡ pairs_view scope.old.entries) }
    {
        let outcome = match layout_chain(self.alloc, &self.sources.layouts, &text.front)? {
            Chain::Layouts(layouts) => self.laid_out(scope, layouts, content)?,
            Chain::NoLayout(name) => PageOutcome::Fault(PageFault::NoLayout(name)),
            Chain::InsideItself(name) => PageOutcome::Fault(PageFault::LayoutInsideItself(name)),
        };
        Ok(DocumentOutcome {
            source: String::from_str(self.alloc, path)?,
            file: document_file(self.alloc, path, &text.front)?,
            outcome,
        })
    }
}

/// The members of a document with its own text, where it has one.
fn with_content(alloc: Global, members: Object, content: &PageOutcome) -> Result<Object>
    ensures { IsValueOrMemory (λ m. pairs_view m.entries) result (spec.with_content
        (page_outcome_view content.now) (pairs_view members.entries)) }
{
    let mut members = members;
    if let PageOutcome::Page(text) = content {
        let text = String::from_str(alloc, text.as_str())?;
        put(alloc, &mut members, "content", Value::Text(text))?;
    }
    Ok(members)
}
