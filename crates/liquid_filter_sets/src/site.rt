//! Where a site of Jekyll's is.
ghost use Rattle.std.specs.Prelude.{◌≡◌, codes};
ghost use Rattle.liquid_model.specs.View.{pairs_view};
ghost use Rattle.liquid_filter_sets.specs.Settings.{member_or_empty};

use crate::member::{member_text, or_empty};
use liquid_model::Object;

/// Where a site is.
#[derive(Clone, Copy)]
pub struct SiteSettings<'d> {
    /// `site.url`, or the empty text.
    pub address: &'d str,
    /// `site.baseurl`, or the empty text.
    pub base: &'d str,
}

impl<'d> SiteSettings<'d> {
    /// The site that the data tells. It takes no memory.
    pub fn of(data: &'d Object) -> SiteSettings<'d>
        ensures address { result.address.now ≡ member_or_empty (codes "site") (codes "url")
            (pairs_view «data».now.entries) }
        ensures base { result.base.now ≡ member_or_empty (codes "site") (codes "baseurl")
            (pairs_view «data».now.entries) }
    {
        SiteSettings {
            address: or_empty(member_text(data, "site", "url")),
            base: or_empty(member_text(data, "site", "baseurl")),
        }
    }
}
