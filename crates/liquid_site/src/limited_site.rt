//! Sites whose pages are each rendered within limits.
ghost use Rattle.std.specs.Prelude.{◌≡◌};
ghost use Rattle.liquid_site.specs.Contents.{pages_from_scratch};
ghost use Rattle.liquid_site.specs.PartViews.{site_parts_view};
ghost use Rattle.liquid_site.specs.Parts.{by_name};
ghost use Rattle.liquid_site.specs.ShownPages.{AreWithin};
ghost use Rattle.liquid_site.specs.Within.{AreWithin-prop};

use crate::change::Change;
use crate::parts::SiteParts;
use liquid_core::{Object, Result};
use liquid_engine::{LimitedPage, Limits, RunSetting};
use liquid_language::Language;
use std::alloc::Global;
use std::collections::BTreeMap;

/// A site as [Site](crate::Site), of which each page is rendered within these limits.
///
/// A page that reached no limit is the one that a site without limits shows. One that did has a
/// beginning of its text, ends by `Write`, and says which limit ended it. The limits are those of
/// each rendering, and not of all of them together.
pub struct LimitedSite {
    limits: Limits,
    parts: SiteParts<LimitedPage>,
    ghost kept: { AreWithin limits (pages_from_scratch (site_parts_view parts).contents)
        (by_name parts.pages) } by { AreWithin-prop limits
            (pages_from_scratch (site_parts_view parts).contents) (by_name parts.pages) },
}

/// Drops the parts. Written by hand, so that each early return drops the value by one call to
/// prove.
impl Drop for LimitedSite {
    fn drop(self) {
        let LimitedSite {
            limits: _,
            parts: _,
        } = self;
    }
}

impl LimitedSite {
    ghost use Rattle.liquid_core.specs.Held.{held};
    ghost use Rattle.liquid_site.specs.Applied.{AppliesTo};
    ghost use Rattle.liquid_site.specs.LimitedViews.{limited_view, limits_of};
    ghost use Rattle.liquid_engine.specs.Pages.{strict_setting};
    ghost use Rattle.liquid_site.specs.Steps.{no_contents};

    /// A site without pages, partials and data, with this limit on nested partials, in which a
    /// missing value is a fault. It takes no memory.
    pub fn new(alloc: Global, language: Language, depth: u32, limits: Limits) -> LimitedSite
        ensures contents { (limited_view result).contents
            ≡ no_contents (strict_setting depth) }
        ensures language { (limited_view result).language ≡ language }
        ensures rendered { (limited_view result).rendered ≡ 0 }
        ensures limits { limits_of result ≡ limits }
    {
        let setting = RunSetting::strict(depth);
        LimitedSite::with_data(alloc, language, setting, Object::new(alloc), limits)
    }

    /// A site over this data, without pages and partials, whose runs go as the setting says for as
    /// long as there is the site. It takes no memory.
    pub fn with_data(
        alloc: Global,
        language: Language,
        setting: RunSetting,
        data: Object,
        limits: Limits,
    ) -> LimitedSite
        ensures contents { (limited_view result).contents ≡
            record (no_contents setting) { «data» = held «data» } }
        ensures language { (limited_view result).language ≡ language }
        ensures rendered { (limited_view result).rendered ≡ 0 }
        ensures limits { limits_of result ≡ limits }
    {
        LimitedSite {
            limits,
            parts: SiteParts::with_data(alloc, language, setting, data),
        }
    }

    /// The limits of each rendering.
    pub fn limits(&self) -> Limits
        ensures { result ≡ limits_of self.now }
    {
        self.limits
    }

    /// The data.
    pub fn data(&self) -> &Object
        ensures { held result.now ≡ (limited_view self.now).contents.«data» }
    {
        &self.parts.data
    }

    /// The pages by name: each is what rendering it from nothing would show, or a beginning of that
    /// which a limit of this site's ended, and none is longer than that limit.
    pub fn pages(&self) -> &BTreeMap<String, LimitedPage>
        ensures { AreWithin (limits_of self.now)
            (pages_from_scratch (limited_view self.now).contents) (by_name result.now) }
    {
        &self.parts.pages
    }

    /// How many renderings of pages the accepted changes took, up to the greatest value.
    pub fn rendered(&self) -> u64
        ensures { result ≡ (limited_view self.now).rendered }
    {
        self.parts.rendered
    }

    /// Applies a change as [apply](crate::Site::apply) of a site without limits does, and renders
    /// the same pages again. A page that a limit ends is no refusal.
    pub fn apply(&mut self, change: Change) -> Result<()>
        ensures applied { AppliesTo change result (limited_view self.old) (limited_view self.new) }
        ensures language { (limited_view self.new).language ≡ (limited_view self.old).language }
        ensures limits { limits_of self.new ≡ limits_of self.old }
    {
        let limits = self.limits;
        self.parts.apply(&limits, change)
    }
}
