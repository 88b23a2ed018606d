//! Sites.
ghost use Rattle.std.specs.Prelude.{◌≡◌};
ghost use Rattle.liquid_site.specs.Contents.{pages_from_scratch};
ghost use Rattle.liquid_site.specs.Faults.{Pages-prop};
ghost use Rattle.liquid_site.specs.PartViews.{site_parts_view};
ghost use Rattle.liquid_site.specs.Parts.{pages_in};

use crate::change::Change;
use crate::parts::SiteParts;
use crate::rendering::WholePages;
use liquid_core::{Object, Result};
use liquid_engine::{Page, RunSetting};
use liquid_language::Language;
use std::alloc::Global;
use std::collections::BTreeMap;

/// Pages, partials and data, and what each page shows.
///
/// After any changes each page shows what rendering its template in a new runtime gives. A change
/// renders again only the pages that it can touch.
pub struct Site {
    parts: SiteParts<Page>,
    ghost kept: { pages_in parts.pages ≡ pages_from_scratch
        (site_parts_view parts).contents } by { Pages-prop (pages_in parts.pages)
            (pages_from_scratch (site_parts_view parts).contents) },
}

/// Drops the parts. Written by hand, so that each early return drops the value by one call to
/// prove.
impl Drop for Site {
    fn drop(self) {
        let Site { parts: _ } = self;
    }
}

impl Site {
    ghost use Rattle.liquid_core.specs.Held.{held};
    ghost use Rattle.liquid_site.specs.Applied.{Applies};
    ghost use Rattle.liquid_site.specs.SiteViews.{contents_of, language_of, rendered_count};
    ghost use Rattle.liquid_engine.specs.Pages.{strict_setting};
    ghost use Rattle.liquid_site.specs.Steps.{no_contents};

    /// A site without pages, partials and data, with this limit on nested partials, in which a
    /// missing value is a fault. It takes no memory.
    pub fn new(alloc: Global, language: Language, depth: u32) -> Site
        ensures contents { contents_of result ≡ no_contents (strict_setting depth) }
        ensures language { language_of result ≡ language }
        ensures rendered { rendered_count result ≡ 0 }
    {
        let setting = RunSetting::strict(depth);
        Site::with_data(alloc, language, setting, Object::new(alloc))
    }

    /// A site over this data, without pages and partials, whose runs go as the setting says for as
    /// long as there is the site. It takes no memory.
    pub fn with_data(alloc: Global, language: Language, setting: RunSetting, data: Object) -> Site
        ensures contents { contents_of result ≡
            record (no_contents setting) { «data» = held «data» } }
        ensures language { language_of result ≡ language }
        ensures rendered { rendered_count result ≡ 0 }
    {
        Site {
            parts: SiteParts::with_data(alloc, language, setting, data),
        }
    }

    /// The data.
    pub fn data(&self) -> &Object
        ensures { held result.now ≡ (contents_of self.now).«data» }
    {
        &self.parts.data
    }

    /// The pages by name: what rendering all of them from nothing would show.
    pub fn pages(&self) -> &BTreeMap<String, Page>
        ensures { pages_in result.now ≡ pages_from_scratch (contents_of self.now) }
    {
        &self.parts.pages
    }

    /// How many renderings of pages the accepted changes took, up to the greatest value.
    pub fn rendered(&self) -> u64
        ensures { result ≡ rendered_count self.now }
    {
        self.parts.rendered
    }

    /// Applies a change. A refused one changes nothing: a kind of a source where its source is no
    /// template, or `Memory`.
    ///
    /// Rendered again are: by `SetPage` that page; by `SetPartial`, and by `RemovePartial` of one
    /// that is there, every page; by `SetValue`, and by `RemoveValue` of one that is there, the
    /// pages that mention the name, or all where a partial mentions it; by `SetData`, once, those
    /// that mention a name under which the data differ, or all where a partial mentions one; by
    /// `RemovePage` none. A fault of a page is that page's end, and no refusal.
    pub fn apply(&mut self, change: Change) -> Result<()>
        ensures applied { Applies change result self.old self.new }
        ensures language { language_of self.new ≡ language_of self.old }
    {
        self.parts.apply(&WholePages, change)
    }
}
