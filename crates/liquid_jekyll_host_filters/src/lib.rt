//! The filters that Jekyll has beside Liquid's, as filters of a host.
#![tactic(auto)]

mod dates;
mod escapes;
mod feed_meta;
mod groups;
mod highlight;
mod highlight_markup;
mod json;
pub mod laws;
mod links;
mod named;
mod numbers;
mod percent;
mod properties;
mod searches;
mod sentence;
mod seo;
mod site_filter;
mod texts;
mod urls;
mod words;

pub use dates::{DateToLongString, DateToRfc822, DateToString, DateToXmlschema};
pub use groups::GroupBy;
pub use highlight::Highlight;
pub use json::Jsonify;
pub use numbers::ToInteger;
pub use searches::{Find, Where};
pub use sentence::ArrayToSentenceString;
pub use site_filter::{JEKYLL_FILTERS, JekyllFilter, SiteFilter};
pub use texts::{CgiEscape, UriEscape, XmlEscape};
pub use urls::{AbsoluteUrl, RelativeUrl};
pub use words::{NormalizeWhitespace, NumberOfWords};
