//! A site without limits, or one within limits.
use liquid_core::{Object, Result, Value, look_up};
use liquid_site::{Change, LimitReached, LimitedSite, Page, Site};

/// What both kinds of sites do.
pub(crate) trait AnySite {
    /// Applies a change.
    fn applied(&mut self, change: Change) -> Result<()>;

    /// How many renderings of pages there were.
    fn rendered(&self) -> u64;

    /// How many pages it shows, where each is as it is wanted, and else `None`. A page is wanted as
    /// its text, a `:`, the kind of its fault, and after a `/` the limit that ended it, if one did.
    fn shown_of(&self, wanted: Option<&Object>) -> Option<usize>;
}

impl AnySite for Site {
    fn applied(&mut self, change: Change) -> Result<()> {
        self.apply(change)
    }

    fn rendered(&self) -> u64 {
        Site::rendered(self)
    }

    fn shown_of(&self, wanted: Option<&Object>) -> Option<usize> {
        for (name, page) in self.pages().iter() {
            if !is_shown(page, None, text_at(wanted, name.as_str())) {
                return None;
            }
        }
        Some(self.pages().len())
    }
}

impl AnySite for LimitedSite {
    fn applied(&mut self, change: Change) -> Result<()> {
        self.apply(change)
    }

    fn rendered(&self) -> u64 {
        LimitedSite::rendered(self)
    }

    fn shown_of(&self, wanted: Option<&Object>) -> Option<usize> {
        for (name, shown) in self.pages().iter() {
            if !is_shown(&shown.page, shown.limit, text_at(wanted, name.as_str())) {
                return None;
            }
        }
        Some(self.pages().len())
    }
}

/// The text that is wanted of the page, if one is.
fn text_at<'w>(wanted: Option<&'w Object>, name: &str) -> Option<&'w str> {
    match look_up(wanted?, name) {
        Some(Value::Text(text)) => Some(text.as_str()),
        _ => None,
    }
}

fn is_shown(page: &Page, limit: Option<LimitReached>, wanted: Option<&str>) -> bool {
    let kind = match &page.fault {
        Some(fault) => fault.kind.name(),
        None => "",
    };
    let Some((text, end)) = wanted.and_then(|wanted| wanted.rsplit_once(':')) else {
        return false;
    };
    let (wanted_kind, wanted_limit) = end.split_once('/').unwrap_or((end, ""));
    text == page.text.as_str() && wanted_kind == kind && wanted_limit == limit_name(limit)
}

fn limit_name(limit: Option<LimitReached>) -> &'static str {
    match limit {
        Some(LimitReached::Bytes) => "bytes",
        Some(LimitReached::Turns) => "turns",
        None => "",
    }
}
