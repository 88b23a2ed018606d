//! Each filter of the other sets as one of the kinds.
ghost use Rattle.std.specs.Prelude.{◌≡◌};
ghost use Rattle.liquid_filters.specs.declared.kind.FilterKind.{FilterKind};

use crate::{FilterKind, extra, jekyll, shopify};

impl From<jekyll::Sort> for FilterKind {
    ghost from_gives = { λ _ kind. kind ≡ FilterKind.JekyllSort };

    fn from(_filter: jekyll::Sort) -> FilterKind {
        FilterKind::JekyllSort
    }
}

impl From<jekyll::Push> for FilterKind {
    ghost from_gives = { λ _ kind. kind ≡ FilterKind.Push };

    fn from(_filter: jekyll::Push) -> FilterKind {
        FilterKind::Push
    }
}

impl From<jekyll::Unshift> for FilterKind {
    ghost from_gives = { λ _ kind. kind ≡ FilterKind.Unshift };

    fn from(_filter: jekyll::Unshift) -> FilterKind {
        FilterKind::Unshift
    }
}

impl From<jekyll::Pop> for FilterKind {
    ghost from_gives = { λ _ kind. kind ≡ FilterKind.Pop };

    fn from(_filter: jekyll::Pop) -> FilterKind {
        FilterKind::Pop
    }
}

impl From<jekyll::Shift> for FilterKind {
    ghost from_gives = { λ _ kind. kind ≡ FilterKind.Shift };

    fn from(_filter: jekyll::Shift) -> FilterKind {
        FilterKind::Shift
    }
}

impl From<jekyll::ArrayToSentenceString> for FilterKind {
    ghost from_gives = { λ _ kind. kind ≡ FilterKind.ArrayToSentenceString };

    fn from(_filter: jekyll::ArrayToSentenceString) -> FilterKind {
        FilterKind::ArrayToSentenceString
    }
}

impl From<jekyll::Slugify> for FilterKind {
    ghost from_gives = { λ _ kind. kind ≡ FilterKind.Slugify };

    fn from(_filter: jekyll::Slugify) -> FilterKind {
        FilterKind::Slugify
    }
}

impl From<shopify::Pluralize> for FilterKind {
    ghost from_gives = { λ _ kind. kind ≡ FilterKind.Pluralize };

    fn from(_filter: shopify::Pluralize) -> FilterKind {
        FilterKind::Pluralize
    }
}

impl From<extra::DateInTz> for FilterKind {
    ghost from_gives = { λ _ kind. kind ≡ FilterKind.DateInTz };

    fn from(_filter: extra::DateInTz) -> FilterKind {
        FilterKind::DateInTz
    }
}
