//! All filters of the crate as one type, so that a caller makes them in a loop.
ghost use Rattle.std.specs.Prelude.{◌≡◌, IsTrue, length, map, string_bytes};
ghost use Rattle.liquid_model.specs.Answer.{Answers, IsValueOrMemory};
ghost use Rattle.liquid_model.specs.View.{view};
ghost use Rattle.liquid_jekyll_host_filters.specs.SiteFilters.{filter_answer, filter_counts};
ghost use Rattle.liquid_jekyll_host_filters.specs.SiteFilters.{filter_least, filter_most};
ghost use Rattle.liquid_jekyll_host_filters.specs.SiteFilters.{filter_name};

use crate::dates::{DateToLongString, DateToRfc822, DateToString, DateToXmlschema};
use crate::feed_meta::feed_meta;
use crate::groups::GroupBy;
use crate::highlight::Highlight;
use crate::json::Jsonify;
use crate::links::{link, post_url};
use crate::numbers::ToInteger;
use crate::searches::{Find, Where};
use crate::sentence::ArrayToSentenceString;
use crate::seo::seo;
use crate::texts::{CgiEscape, UriEscape, XmlEscape};
use crate::urls::site_url;
use crate::words::{NormalizeWhitespace, NumberOfWords};
use liquid_model::{Filter, Result, Value};
use std::alloc::Global;

/// The filters that Jekyll has beside Liquid's.
#[derive(Clone, Copy)]
pub enum JekyllFilter {
    RelativeUrl,
    AbsoluteUrl,
    DateToString,
    DateToLongString,
    DateToXmlschema,
    DateToRfc822,
    XmlEscape,
    CgiEscape,
    UriEscape,
    Jsonify,
    NormalizeWhitespace,
    NumberOfWords,
    ToInteger,
    ArrayToSentenceString,
    GroupBy,
    Where,
    Find,
    Highlight,
    Link,
    PostUrl,
    FeedMeta,
    Seo,
}

/// Each of them.
pub const JEKYLL_FILTERS: [JekyllFilter; 22] = [
    JekyllFilter::RelativeUrl,
    JekyllFilter::AbsoluteUrl,
    JekyllFilter::DateToString,
    JekyllFilter::DateToLongString,
    JekyllFilter::DateToXmlschema,
    JekyllFilter::DateToRfc822,
    JekyllFilter::XmlEscape,
    JekyllFilter::CgiEscape,
    JekyllFilter::UriEscape,
    JekyllFilter::Jsonify,
    JekyllFilter::NormalizeWhitespace,
    JekyllFilter::NumberOfWords,
    JekyllFilter::ToInteger,
    JekyllFilter::ArrayToSentenceString,
    JekyllFilter::GroupBy,
    JekyllFilter::Where,
    JekyllFilter::Find,
    JekyllFilter::Highlight,
    JekyllFilter::Link,
    JekyllFilter::PostUrl,
    JekyllFilter::FeedMeta,
    JekyllFilter::Seo,
];

impl JekyllFilter {
    /// Jekyll's name of the filter.
    pub fn name(self) -> &'static str
        ensures { result.now ≡ filter_name self }
    {
        match self {
            JekyllFilter::RelativeUrl => "relative_url",
            JekyllFilter::AbsoluteUrl => "absolute_url",
            JekyllFilter::DateToString => "date_to_string",
            JekyllFilter::DateToLongString => "date_to_long_string",
            JekyllFilter::DateToXmlschema => "date_to_xmlschema",
            JekyllFilter::DateToRfc822 => "date_to_rfc822",
            JekyllFilter::XmlEscape => "xml_escape",
            JekyllFilter::CgiEscape => "cgi_escape",
            JekyllFilter::UriEscape => "uri_escape",
            JekyllFilter::Jsonify => "jsonify",
            JekyllFilter::NormalizeWhitespace => "normalize_whitespace",
            JekyllFilter::NumberOfWords => "number_of_words",
            JekyllFilter::ToInteger => "to_integer",
            JekyllFilter::ArrayToSentenceString => "array_to_sentence_string",
            JekyllFilter::GroupBy => "group_by",
            JekyllFilter::Where => "where",
            JekyllFilter::Find => "find",
            JekyllFilter::Highlight => "highlight",
            JekyllFilter::Link => "link",
            JekyllFilter::PostUrl => "post_url",
            JekyllFilter::FeedMeta => "feed_meta",
            JekyllFilter::Seo => "seo",
        }
    }

    /// How many arguments it takes at least.
    pub fn least(self) -> usize
        ensures { result ≡ filter_least self }
    {
        match self {
            JekyllFilter::Link => 4,
            JekyllFilter::FeedMeta => 3,
            JekyllFilter::Where | JekyllFilter::Find | JekyllFilter::PostUrl => 2,
            JekyllFilter::GroupBy | JekyllFilter::Highlight | JekyllFilter::Seo => 1,
            _ => 0,
        }
    }

    /// How many arguments it takes at most.
    pub fn most(self) -> usize
        ensures { result ≡ filter_most self }
    {
        match self {
            JekyllFilter::Link => 4,
            JekyllFilter::FeedMeta => 3,
            JekyllFilter::Where | JekyllFilter::Find | JekyllFilter::PostUrl => 2,
            JekyllFilter::DateToString | JekyllFilter::DateToLongString => 2,
            JekyllFilter::Seo => 2,
            JekyllFilter::GroupBy | JekyllFilter::Highlight => 1,
            JekyllFilter::ArrayToSentenceString => 1,
            _ => 0,
        }
    }
}

/// One of Jekyll's filters over a site.
#[derive(Drop)]
pub struct SiteFilter {
    /// Which of them.
    pub filter: JekyllFilter,
    /// Jekyll's `url`, as `https://example.org`, or the empty text. It is used as it is written.
    pub address: String,
    /// Jekyll's `baseurl`, as `/blog`, or the empty text. A slash at its end doesn't count.
    pub base: String,
}

impl SiteFilter {
    /// The filter over a site of this address and this base path. `Memory` alone where there is no
    /// room.
    pub fn new(alloc: Global, filter: JekyllFilter, address: &str, base: &str) -> Result<SiteFilter>
        ensures filter { IsValueOrMemory (λ s. s.filter) result filter }
        ensures address { IsValueOrMemory (λ s. string_bytes s.address) result address.now }
        ensures base { IsValueOrMemory (λ s. string_bytes s.base) result base.now }
    {
        Ok(SiteFilter {
            filter,
            address: String::from_str(alloc, address)?,
            base: String::from_str(alloc, base)?,
        })
    }
}

/// As the filter that it is.
impl Filter for SiteFilter {
    ghost counts = { λ site. filter_counts site.filter };

    ghost answer = { λ site.
        filter_answer site.filter (string_bytes site.address) (string_bytes site.base) };

    fn accepts(&self, count: usize) -> bool {
        match self.filter {
            JekyllFilter::DateToString | JekyllFilter::DateToLongString => count <= 2,
            JekyllFilter::ArrayToSentenceString => count <= 1,
            JekyllFilter::GroupBy | JekyllFilter::Highlight => count == 1,
            JekyllFilter::Link => count == 4,
            JekyllFilter::FeedMeta => count == 3,
            JekyllFilter::Seo => count == 1 || count == 2,
            JekyllFilter::Where | JekyllFilter::Find | JekyllFilter::PostUrl => count == 2,
            _ => count == 0,
        }
    }

    fn evaluate(&self, alloc: Global, input: &Value, args: &[Value]) -> Result<Value> {
        match self.filter {
            JekyllFilter::RelativeUrl => site_url(alloc, "", self.base.as_str(), input),
            JekyllFilter::AbsoluteUrl => site_url(
                alloc,
                self.address.as_str(),
                self.base.as_str(),
                input,
            ),
            JekyllFilter::DateToString => DateToString.evaluate(alloc, input, args),
            JekyllFilter::DateToLongString => DateToLongString.evaluate(alloc, input, args),
            JekyllFilter::DateToXmlschema => DateToXmlschema.evaluate(alloc, input, args),
            JekyllFilter::DateToRfc822 => DateToRfc822.evaluate(alloc, input, args),
            JekyllFilter::XmlEscape => XmlEscape.evaluate(alloc, input, args),
            JekyllFilter::CgiEscape => CgiEscape.evaluate(alloc, input, args),
            JekyllFilter::UriEscape => UriEscape.evaluate(alloc, input, args),
            JekyllFilter::Jsonify => Jsonify.evaluate(alloc, input, args),
            JekyllFilter::NormalizeWhitespace => NormalizeWhitespace.evaluate(alloc, input, args),
            JekyllFilter::NumberOfWords => NumberOfWords.evaluate(alloc, input, args),
            JekyllFilter::ToInteger => ToInteger.evaluate(alloc, input, args),
            JekyllFilter::ArrayToSentenceString => {
                ArrayToSentenceString.evaluate(alloc, input, args)
            }
            JekyllFilter::GroupBy => GroupBy.evaluate(alloc, input, args),
            JekyllFilter::Where => Where.evaluate(alloc, input, args),
            JekyllFilter::Find => Find.evaluate(alloc, input, args),
            JekyllFilter::Highlight => Highlight.evaluate(alloc, input, args),
            JekyllFilter::Link => link(alloc, self.base.as_str(), input, args),
            JekyllFilter::PostUrl => post_url(alloc, self.base.as_str(), input, args),
            JekyllFilter::FeedMeta => feed_meta(
                alloc,
                self.address.as_str(),
                self.base.as_str(),
                input,
                args,
            ),
            JekyllFilter::Seo => seo(alloc, input, args),
        }
    }
}
