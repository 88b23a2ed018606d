//! What the files of a site are read as.
ghost use Rattle.std.specs.Prelude.{◌≡◌, [], OnErr, string_bytes};
ghost use Rattle.liquid_model.specs.Answer.{IsValueOrMemory};
ghost use Rattle.liquid_language.specs.Entries.{put_entry};
ghost use Rattle.liquid_syntax.specs.Templates.{tree_of};
ghost use Rattle.liquid_site_build.specs.SourceViews.{site_text_view, site_texts_view};
ghost use Rattle.liquid_site_build.specs.SourceViews.{sources_view};
ghost use Rattle.liquid_site_build.specs.Sources.{no_sources, put_page, put_document, put_layout};
ghost use Rattle.liquid_site_build.specs.Sources.{put_partial, put_static};

use liquid_core::{Object, Result};
use liquid_engine::RunSetting;
use liquid_syntax::{Partials, Template};
use std::alloc::Global;
use std::collections::{BTreeMap, BTreeSet};

/// A text of a site: a page, a document or a layout.
#[derive(Drop)]
pub struct SiteText {
    /// The members of its front matter.
    pub front: Object,
    /// The template after it.
    pub template: Template,
}

/// Texts by their paths below the site's folder, and layouts by their names.
pub type SiteTexts = BTreeMap<String, SiteText>;

/// All that a site is built from.
pub struct SiteSources {
    /// How runs go.
    pub setting: RunSetting,
    /// The configuration.
    pub config: Object,
    /// What the data files give, by their names.
    pub data: Object,
    /// The pages.
    pub pages: SiteTexts,
    /// The documents of each collection, by its name.
    pub collections: BTreeMap<String, SiteTexts>,
    /// The layouts.
    pub layouts: SiteTexts,
    /// The partials.
    pub partials: Partials,
    /// The paths of the files that are written as they are.
    pub statics: BTreeSet<String>,
}

/// Drops the fields. Written by hand, so that each early return drops the value by one call to
/// prove.
impl Drop for SiteSources {
    fn drop(self) {
        let SiteSources {
            setting: _,
            config: _,
            data: _,
            pages: _,
            collections: _,
            layouts: _,
            partials: _,
            statics: _,
        } = self;
    }
}

impl SiteSources {
    /// No sources. It takes no memory.
    pub fn new(alloc: Global, setting: RunSetting) -> SiteSources
        ensures { sources_view result ≡ no_sources setting [] }
    {
        SiteSources {
            setting,
            config: Object::new(alloc),
            data: Object::new(alloc),
            pages: BTreeMap::new(alloc),
            collections: BTreeMap::new(alloc),
            layouts: BTreeMap::new(alloc),
            partials: Partials::new(alloc),
            statics: BTreeSet::new(alloc),
        }
    }

    /// Puts a page at its path, in place of one that is there. Where memory runs out nothing
    /// changes.
    pub fn put_page(&mut self, path: String, text: SiteText) -> Result<()>
        ensures put { IsValueOrMemory (λ _. sources_view self.new) result
            (put_page (string_bytes path) (site_text_view text) (sources_view self.old)) }
        ensures unchanged { OnErr result (sources_view self.new ≡ sources_view self.old) }
    {
        drop(self.pages.insert(path, text)?);
        Ok(())
    }

    /// Puts a document of the collection of this name at its path, in place of one that is there.
    /// Where there is no such collection it is a new one. Where memory runs out nothing changes.
    pub fn put_document(
        &mut self,
        alloc: Global,
        collection: String,
        path: String,
        text: SiteText,
    ) -> Result<()>
        ensures put { IsValueOrMemory (λ _. sources_view self.new) result
            (put_document (string_bytes collection) (string_bytes path) (site_text_view text)
            (sources_view self.old)) }
        ensures unchanged { OnErr result (sources_view self.new ≡ sources_view self.old) }
    {
        match self.collections.get_mut(collection.as_str()) {
            Some(documents) => {
                drop(documents.insert(path, text)?);
                Ok(())
            }
            None => {
                let documents = lone_text(alloc, path, text)?;
                drop(self.collections.insert(collection, documents)?);
                Ok(())
            }
        }
    }

    /// Puts a layout at its name, in place of one that is there. Where memory runs out nothing
    /// changes.
    pub fn put_layout(&mut self, name: String, layout: SiteText) -> Result<()>
        ensures put { IsValueOrMemory (λ _. sources_view self.new) result
            (put_layout (string_bytes name) (site_text_view layout) (sources_view self.old)) }
        ensures unchanged { OnErr result (sources_view self.new ≡ sources_view self.old) }
    {
        drop(self.layouts.insert(name, layout)?);
        Ok(())
    }

    /// Puts a partial at its name, in place of one that is there. Where memory runs out nothing
    /// changes.
    pub fn put_partial(&mut self, name: String, partial: Template) -> Result<()>
        ensures put { IsValueOrMemory (λ _. sources_view self.new) result
            (put_partial (string_bytes name) (tree_of partial) (sources_view self.old)) }
        ensures unchanged { OnErr result (sources_view self.new ≡ sources_view self.old) }
    {
        self.partials.insert(name, partial)
    }

    /// Adds the path of a file that is written as it is. Where memory runs out nothing changes.
    pub fn put_static(&mut self, path: String) -> Result<()>
        ensures put { IsValueOrMemory (λ _. sources_view self.new) result
            (put_static (string_bytes path) (sources_view self.old)) }
        ensures unchanged { OnErr result (sources_view self.new ≡ sources_view self.old) }
    {
        self.statics.insert(path)?;
        Ok(())
    }
}

/// One text alone, at its path.
fn lone_text(alloc: Global, path: String, text: SiteText) -> Result<SiteTexts>
    ensures { IsValueOrMemory site_texts_view result
        (put_entry (string_bytes path) (site_text_view text) []) }
{
    let mut texts = BTreeMap::new(alloc);
    drop(texts.insert(path, text)?);
    Ok(texts)
}
