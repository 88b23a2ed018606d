//! How a page of a site is rendered: whole, or within limits.
ghost use Rattle.std.specs.Prelude.{◌≡◌, IfOk, IfErr};
ghost use Rattle.liquid_core.specs.Held.{held};
ghost use Rattle.liquid_syntax.specs.Templates.{tree_of, partials_of};
ghost use Rattle.liquid_engine.specs.LimitedPages.{ShownWithin};
ghost use Rattle.liquid_engine.specs.Pages.{Shown, page_by};
ghost use Rattle.liquid_site.specs.ShownPages.{IsWhole};

use liquid_core::{ErrorKind, Object, Result};
use liquid_engine::{
    LimitedPage, Limits, Page, RunSetting, Surroundings, render_page_by, render_page_within,
};
use liquid_syntax::{Partials, Template};
use std::alloc::Global;

/// Renders the pages of a site.
pub(crate) trait Rendering<P> {
    // That a page, rendered so, is right for a template whose whole page this is.
    ghost shows: { Self → Shown → P → Type 0 };

    /// The page of a template in a new run over this data. The answer is `Memory` where a growth
    /// was refused, and no other kind.
    fn page(
        &self,
        alloc: Global,
        template: &Template,
        partials: &Partials,
        setting: RunSetting,
        data: &Object,
    ) -> Result<P>
        ensures page { IfOk result (λ page. shows self.now (page_by setting
            (partials_of partials.now) (held «data».now) (tree_of template.now)) page) }
        ensures memory { IfErr result (λ e. e.kind ≡ ErrorKind.Memory) };
}

/// Renders whole pages.
pub(crate) struct WholePages;

impl Rendering<Page> for WholePages {
    ghost shows = { λ rendering whole page. IsWhole whole page };

    fn page(
        &self,
        alloc: Global,
        template: &Template,
        partials: &Partials,
        setting: RunSetting,
        data: &Object,
    ) -> Result<Page> {
        render_page_by(alloc, template, partials, setting, data)
    }
}

impl Rendering<LimitedPage> for Limits {
    ghost shows = { λ limits whole page. ShownWithin limits whole page };

    fn page(
        &self,
        alloc: Global,
        template: &Template,
        partials: &Partials,
        setting: RunSetting,
        data: &Object,
    ) -> Result<LimitedPage> {
        let around = Surroundings {
            partials,
            depth: setting.depth,
            missing: setting.missing,
            limits: *self,
        };
        render_page_within(alloc, template, around, data)
    }
}
