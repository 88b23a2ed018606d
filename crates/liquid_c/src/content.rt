//! What calls make.
ghost use Rattle.std.specs.Prelude.{◌≡◌, option_map};
ghost use Rattle.liquid_c.specs.Numbers.{content_fault, text_of_handle};
ghost use Rattle.liquid_c.specs.Numbers.{number_of_fault, number_of_content, number_of_limit};

use crate::levels::TemplateLevels;
use liquid_answers::{Answers, Lacking};
use liquid_core::{Error, Object, Uses};
use liquid_engine::{LimitReached, Page};
use liquid_language::Language;
use liquid_syntax::{Partials, Template};
use std::sync::Arc;

/// What a call makes.
#[derive(Drop)]
pub enum Content {
    Language(Language),
    /// With the levels that it reaches by itself.
    Template(Template, TemplateLevels),
    /// With the most that the templates reach which were ever put among them.
    Partials(Partials, TemplateLevels),
    Data(Object),
    /// Data that were read as far as paths ask, with what these ask.
    DataPart(Object, Arc<Uses>),
    Page(Page),
    /// A page that a limit of the caller's ended.
    Ended(Page, LimitReached),
    /// Answers to calls of the caller's filters.
    Answers(Answers),
    /// Calls that such a table lacks, in place of a page.
    Lacking(Lacking),
    /// Names, as a list of texts in JSON.
    Names(String),
    /// What a template asks of its data, with the paths as a list of texts in JSON.
    Paths(Arc<Uses>, String),
    /// A key of what a page can see, which is a text of JSON.
    Key(String),
    /// Why there is none of these.
    Fault(Error),
}

impl Content {
    /// 0, or the number of the limit that ended a page, of lacking answers, or of the fault's kind.
    pub(crate) fn number(&self) -> u32
        ensures { result ≡ number_of_content self.now }
    {
        match self {
            Content::Ended(_, limit) => limit_number(*limit),
            Content::Lacking(_) => 106,
            _ => fault_number(self.fault()),
        }
    }

    /// The text of a page, or of calls, names, paths or a key in JSON.
    pub(crate) fn text(&self) -> &str
        ensures { result.now ≡ text_of_handle self.now }
    {
        match self {
            Content::Page(page) => page.text.as_str(),
            Content::Ended(page, _) => page.text.as_str(),
            Content::Lacking(calls) => calls.text(),
            Content::Names(text) => text.as_str(),
            Content::Paths(_, text) => text.as_str(),
            Content::Key(text) => text.as_str(),
            _ => "",
        }
    }

    /// The fault, also that of a page.
    pub(crate) fn fault(&self) -> Option<&Error>
        ensures { option_map (λ e. e.now) result ≡ content_fault self.now }
    {
        match self {
            Content::Page(page) => page.fault.as_ref(),
            Content::Ended(page, _) => page.fault.as_ref(),
            Content::Fault(fault) => Some(fault),
            _ => None,
        }
    }
}

fn fault_number(fault: Option<&Error>) -> u32
    ensures { result ≡ number_of_fault (option_map (λ e. e.now) fault.entry) }
{
    match fault {
        Some(fault) => u32::from(fault.kind.number()),
        None => 0,
    }
}

fn limit_number(limit: LimitReached) -> u32
    ensures { result ≡ number_of_limit limit }
{
    match limit {
        LimitReached::Bytes => 104,
        LimitReached::Turns => 105,
    }
}
