//! Each filter of the standard set as one of the kinds.
ghost use Rattle.std.specs.Prelude.{◌≡◌};
ghost use Rattle.liquid_filters.specs.declared.kind.FilterKind.{FilterKind};

use crate::{FilterKind, stdlib};

impl From<stdlib::Join> for FilterKind {
    ghost from_gives = { λ _ kind. kind ≡ FilterKind.Join };

    fn from(_filter: stdlib::Join) -> FilterKind {
        FilterKind::Join
    }
}

impl From<stdlib::Sort> for FilterKind {
    ghost from_gives = { λ _ kind. kind ≡ FilterKind.Sort };

    fn from(_filter: stdlib::Sort) -> FilterKind {
        FilterKind::Sort
    }
}

impl From<stdlib::SortNatural> for FilterKind {
    ghost from_gives = { λ _ kind. kind ≡ FilterKind.SortNatural };

    fn from(_filter: stdlib::SortNatural) -> FilterKind {
        FilterKind::SortNatural
    }
}

impl From<stdlib::Where> for FilterKind {
    ghost from_gives = { λ _ kind. kind ≡ FilterKind.Where };

    fn from(_filter: stdlib::Where) -> FilterKind {
        FilterKind::Where
    }
}

impl From<stdlib::Uniq> for FilterKind {
    ghost from_gives = { λ _ kind. kind ≡ FilterKind.Uniq };

    fn from(_filter: stdlib::Uniq) -> FilterKind {
        FilterKind::Uniq
    }
}

impl From<stdlib::Reverse> for FilterKind {
    ghost from_gives = { λ _ kind. kind ≡ FilterKind.Reverse };

    fn from(_filter: stdlib::Reverse) -> FilterKind {
        FilterKind::Reverse
    }
}

impl From<stdlib::Map> for FilterKind {
    ghost from_gives = { λ _ kind. kind ≡ FilterKind.Map };

    fn from(_filter: stdlib::Map) -> FilterKind {
        FilterKind::Map
    }
}

impl From<stdlib::Compact> for FilterKind {
    ghost from_gives = { λ _ kind. kind ≡ FilterKind.Compact };

    fn from(_filter: stdlib::Compact) -> FilterKind {
        FilterKind::Compact
    }
}

impl From<stdlib::Concat> for FilterKind {
    ghost from_gives = { λ _ kind. kind ≡ FilterKind.Concat };

    fn from(_filter: stdlib::Concat) -> FilterKind {
        FilterKind::Concat
    }
}

impl From<stdlib::First> for FilterKind {
    ghost from_gives = { λ _ kind. kind ≡ FilterKind.First };

    fn from(_filter: stdlib::First) -> FilterKind {
        FilterKind::First
    }
}

impl From<stdlib::Last> for FilterKind {
    ghost from_gives = { λ _ kind. kind ≡ FilterKind.Last };

    fn from(_filter: stdlib::Last) -> FilterKind {
        FilterKind::Last
    }
}

impl From<stdlib::Abs> for FilterKind {
    ghost from_gives = { λ _ kind. kind ≡ FilterKind.Abs };

    fn from(_filter: stdlib::Abs) -> FilterKind {
        FilterKind::Abs
    }
}

impl From<stdlib::AtLeast> for FilterKind {
    ghost from_gives = { λ _ kind. kind ≡ FilterKind.AtLeast };

    fn from(_filter: stdlib::AtLeast) -> FilterKind {
        FilterKind::AtLeast
    }
}

impl From<stdlib::AtMost> for FilterKind {
    ghost from_gives = { λ _ kind. kind ≡ FilterKind.AtMost };

    fn from(_filter: stdlib::AtMost) -> FilterKind {
        FilterKind::AtMost
    }
}

impl From<stdlib::Plus> for FilterKind {
    ghost from_gives = { λ _ kind. kind ≡ FilterKind.Plus };

    fn from(_filter: stdlib::Plus) -> FilterKind {
        FilterKind::Plus
    }
}

impl From<stdlib::Minus> for FilterKind {
    ghost from_gives = { λ _ kind. kind ≡ FilterKind.Minus };

    fn from(_filter: stdlib::Minus) -> FilterKind {
        FilterKind::Minus
    }
}

impl From<stdlib::Times> for FilterKind {
    ghost from_gives = { λ _ kind. kind ≡ FilterKind.Times };

    fn from(_filter: stdlib::Times) -> FilterKind {
        FilterKind::Times
    }
}

impl From<stdlib::DividedBy> for FilterKind {
    ghost from_gives = { λ _ kind. kind ≡ FilterKind.DividedBy };

    fn from(_filter: stdlib::DividedBy) -> FilterKind {
        FilterKind::DividedBy
    }
}

impl From<stdlib::Modulo> for FilterKind {
    ghost from_gives = { λ _ kind. kind ≡ FilterKind.Modulo };

    fn from(_filter: stdlib::Modulo) -> FilterKind {
        FilterKind::Modulo
    }
}

impl From<stdlib::Round> for FilterKind {
    ghost from_gives = { λ _ kind. kind ≡ FilterKind.Round };

    fn from(_filter: stdlib::Round) -> FilterKind {
        FilterKind::Round
    }
}

impl From<stdlib::Ceil> for FilterKind {
    ghost from_gives = { λ _ kind. kind ≡ FilterKind.Ceil };

    fn from(_filter: stdlib::Ceil) -> FilterKind {
        FilterKind::Ceil
    }
}

impl From<stdlib::Floor> for FilterKind {
    ghost from_gives = { λ _ kind. kind ≡ FilterKind.Floor };

    fn from(_filter: stdlib::Floor) -> FilterKind {
        FilterKind::Floor
    }
}

impl From<stdlib::Size> for FilterKind {
    ghost from_gives = { λ _ kind. kind ≡ FilterKind.Size };

    fn from(_filter: stdlib::Size) -> FilterKind {
        FilterKind::Size
    }
}

impl From<stdlib::Default> for FilterKind {
    ghost from_gives = { λ _ kind. kind ≡ FilterKind.Default };

    fn from(_filter: stdlib::Default) -> FilterKind {
        FilterKind::Default
    }
}

impl From<stdlib::Slice> for FilterKind {
    ghost from_gives = { λ _ kind. kind ≡ FilterKind.Slice };

    fn from(_filter: stdlib::Slice) -> FilterKind {
        FilterKind::Slice
    }
}

impl From<stdlib::Split> for FilterKind {
    ghost from_gives = { λ _ kind. kind ≡ FilterKind.Split };

    fn from(_filter: stdlib::Split) -> FilterKind {
        FilterKind::Split
    }
}

impl From<stdlib::Replace> for FilterKind {
    ghost from_gives = { λ _ kind. kind ≡ FilterKind.Replace };

    fn from(_filter: stdlib::Replace) -> FilterKind {
        FilterKind::Replace
    }
}

impl From<stdlib::ReplaceFirst> for FilterKind {
    ghost from_gives = { λ _ kind. kind ≡ FilterKind.ReplaceFirst };

    fn from(_filter: stdlib::ReplaceFirst) -> FilterKind {
        FilterKind::ReplaceFirst
    }
}

impl From<stdlib::Remove> for FilterKind {
    ghost from_gives = { λ _ kind. kind ≡ FilterKind.Remove };

    fn from(_filter: stdlib::Remove) -> FilterKind {
        FilterKind::Remove
    }
}

impl From<stdlib::RemoveFirst> for FilterKind {
    ghost from_gives = { λ _ kind. kind ≡ FilterKind.RemoveFirst };

    fn from(_filter: stdlib::RemoveFirst) -> FilterKind {
        FilterKind::RemoveFirst
    }
}

impl From<stdlib::Append> for FilterKind {
    ghost from_gives = { λ _ kind. kind ≡ FilterKind.Append };

    fn from(_filter: stdlib::Append) -> FilterKind {
        FilterKind::Append
    }
}

impl From<stdlib::Prepend> for FilterKind {
    ghost from_gives = { λ _ kind. kind ≡ FilterKind.Prepend };

    fn from(_filter: stdlib::Prepend) -> FilterKind {
        FilterKind::Prepend
    }
}

impl From<stdlib::Strip> for FilterKind {
    ghost from_gives = { λ _ kind. kind ≡ FilterKind.Strip };

    fn from(_filter: stdlib::Strip) -> FilterKind {
        FilterKind::Strip
    }
}

impl From<stdlib::Lstrip> for FilterKind {
    ghost from_gives = { λ _ kind. kind ≡ FilterKind.Lstrip };

    fn from(_filter: stdlib::Lstrip) -> FilterKind {
        FilterKind::Lstrip
    }
}

impl From<stdlib::Rstrip> for FilterKind {
    ghost from_gives = { λ _ kind. kind ≡ FilterKind.Rstrip };

    fn from(_filter: stdlib::Rstrip) -> FilterKind {
        FilterKind::Rstrip
    }
}

impl From<stdlib::StripNewlines> for FilterKind {
    ghost from_gives = { λ _ kind. kind ≡ FilterKind.StripNewlines };

    fn from(_filter: stdlib::StripNewlines) -> FilterKind {
        FilterKind::StripNewlines
    }
}

impl From<stdlib::Downcase> for FilterKind {
    ghost from_gives = { λ _ kind. kind ≡ FilterKind.Downcase };

    fn from(_filter: stdlib::Downcase) -> FilterKind {
        FilterKind::Downcase
    }
}

impl From<stdlib::Upcase> for FilterKind {
    ghost from_gives = { λ _ kind. kind ≡ FilterKind.Upcase };

    fn from(_filter: stdlib::Upcase) -> FilterKind {
        FilterKind::Upcase
    }
}

impl From<stdlib::Capitalize> for FilterKind {
    ghost from_gives = { λ _ kind. kind ≡ FilterKind.Capitalize };

    fn from(_filter: stdlib::Capitalize) -> FilterKind {
        FilterKind::Capitalize
    }
}

impl From<stdlib::Truncate> for FilterKind {
    ghost from_gives = { λ _ kind. kind ≡ FilterKind.Truncate };

    fn from(_filter: stdlib::Truncate) -> FilterKind {
        FilterKind::Truncate
    }
}

impl From<stdlib::TruncateWords> for FilterKind {
    ghost from_gives = { λ _ kind. kind ≡ FilterKind.TruncateWords };

    fn from(_filter: stdlib::TruncateWords) -> FilterKind {
        FilterKind::TruncateWords
    }
}

impl From<stdlib::Escape> for FilterKind {
    ghost from_gives = { λ _ kind. kind ≡ FilterKind.Escape };

    fn from(_filter: stdlib::Escape) -> FilterKind {
        FilterKind::Escape
    }
}

impl From<stdlib::EscapeOnce> for FilterKind {
    ghost from_gives = { λ _ kind. kind ≡ FilterKind.EscapeOnce };

    fn from(_filter: stdlib::EscapeOnce) -> FilterKind {
        FilterKind::EscapeOnce
    }
}

impl From<stdlib::StripHtml> for FilterKind {
    ghost from_gives = { λ _ kind. kind ≡ FilterKind.StripHtml };

    fn from(_filter: stdlib::StripHtml) -> FilterKind {
        FilterKind::StripHtml
    }
}

impl From<stdlib::NewlineToBr> for FilterKind {
    ghost from_gives = { λ _ kind. kind ≡ FilterKind.NewlineToBr };

    fn from(_filter: stdlib::NewlineToBr) -> FilterKind {
        FilterKind::NewlineToBr
    }
}

impl From<stdlib::UrlEncode> for FilterKind {
    ghost from_gives = { λ _ kind. kind ≡ FilterKind.UrlEncode };

    fn from(_filter: stdlib::UrlEncode) -> FilterKind {
        FilterKind::UrlEncode
    }
}

impl From<stdlib::UrlDecode> for FilterKind {
    ghost from_gives = { λ _ kind. kind ≡ FilterKind.UrlDecode };

    fn from(_filter: stdlib::UrlDecode) -> FilterKind {
        FilterKind::UrlDecode
    }
}

impl From<stdlib::Date> for FilterKind {
    ghost from_gives = { λ _ kind. kind ≡ FilterKind.Date };

    fn from(_filter: stdlib::Date) -> FilterKind {
        FilterKind::Date
    }
}
