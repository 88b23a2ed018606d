//! The first place at which a text stops being JSON, and what is wrong there.
use crate::flaw::Flaw;
use crate::levels::Levels;
use crate::misplaced::misplaced;
use crate::quoted::text_length;
use crate::scalars::{is_in_word, scalar_length};

/// What is wanted at a place of the data.
#[derive(Clone, Copy, PartialEq, Eq)]
pub enum Wants {
    /// The value that the data is.
    Data,
    Value,
    ValueOrEnd,
    Key,
    KeyOrEnd,
    Colon,
    CommaOrEnd,
    /// Nothing more: the data is read.
    Nothing,
}

impl Wants {
    pub fn takes_value(self) -> bool {
        matches!(self, Wants::Data | Wants::Value | Wants::ValueOrEnd)
    }

    pub fn takes_key(self) -> bool {
        matches!(self, Wants::Key | Wants::KeyOrEnd)
    }

    /// Its words, in a list or in an object.
    pub fn words(self, in_list: bool) -> &'static str {
        match self {
            Wants::Data => "an object",
            Wants::Value => "a value",
            Wants::ValueOrEnd => "a value or `]`",
            Wants::Key => "a key",
            Wants::KeyOrEnd => "a key or `}`",
            Wants::Colon => "`:`",
            Wants::CommaOrEnd => if in_list { "`,` or `]`" } else { "`,` or `}`" },
            Wants::Nothing => "the end",
        }
    }
}

/// A place of the data, up to which it is JSON.
#[derive(Drop)]
struct Reading {
    wants: Wants,
    levels: Levels,
}

/// What is wrong with a text, which is to be data or a value, at the first place where it stops
/// being JSON, or none where it is JSON. It takes no memory.
pub fn first_flaw(text: &str, wants: Wants) -> Option<Flaw<'_>> {
    let mut reading = Reading {
        wants,
        levels: Levels::new(),
    };
    let mut end: usize = 0;
    for (at, sign) in text.char_indices() {
        if at < end || is_space(sign) {
            continue;
        }
        match reading.step(text.get(at..).unwrap_or(""), sign) {
            Ok(length) => end = at.saturating_add(length),
            Err(_) if end == at && goes_on_after_text(text, at, sign) => {
                return Some(Flaw::plain(
                    text.get(at..).unwrap_or(""),
                    "the text ends before this: a quote within a text is written `\\\"`",
                ));
            }
            Err(flaw) => return Some(flaw),
        }
    }
    reading.at_end(text)
}

/// Whether a word goes on where a text ended, so that the quote before it was to be in the text.
fn goes_on_after_text(text: &str, at: usize, sign: char) -> bool {
    sign.is_alphanumeric() && text.get(..at).unwrap_or("").ends_with('"')
}

/// White space of JSON.
fn is_space(sign: char) -> bool {
    matches!(sign, ' ' | '\t' | '\n' | '\r')
}

impl Reading {
    /// Past the token at the front, which begins with the sign: how many bytes it takes.
    fn step<'t>(&mut self, from: &'t str, sign: char) -> Result<usize, Flaw<'t>> {
        match sign {
            '{' | '[' if self.wants.takes_value() => self.open(from, sign == '['),
            '}' | ']' if self.may_close(sign == ']') => {
                self.levels.close();
                self.after_value(1)
            }
            ',' if self.wants == Wants::CommaOrEnd => self.comma(from),
            ':' if self.wants == Wants::Colon => {
                self.wants = Wants::Value;
                Ok(1)
            }
            '"' if self.wants.takes_key() => {
                self.wants = Wants::Colon;
                text_length(from)
            }
            '"' if self.wants.takes_value() => self.after_value(text_length(from)?),
            _ if self.wants.takes_value() && is_in_word(sign) => self.scalar(from),
            _ => Err(misplaced(from, sign, self.wants, self.levels.in_list())),
        }
    }

    /// Past the opener of a list or of an object.
    fn open<'t>(&mut self, from: &'t str, is_list: bool) -> Result<usize, Flaw<'t>> {
        if self.levels.is_full() {
            return Err(Flaw::plain(
                from,
                "nested too deep: at most 127 lists and objects stand in one another",
            ));
        }
        self.levels.open(is_list);
        self.wants = if is_list {
            Wants::ValueOrEnd
        } else {
            Wants::KeyOrEnd
        };
        Ok(1)
    }

    /// Whether the closer of a list, or that of an object, may stand here.
    fn may_close(&self, is_list: bool) -> bool {
        match self.wants {
            Wants::ValueOrEnd => is_list,
            Wants::KeyOrEnd => !is_list,
            Wants::CommaOrEnd => self.levels.in_list() == is_list,
            _ => false,
        }
    }

    /// Past a comma, after which no closer stands.
    fn comma<'t>(&mut self, from: &'t str) -> Result<usize, Flaw<'t>> {
        let is_list = self.levels.in_list();
        let closer = if is_list { "]" } else { "}" };
        let after = from.get(1..).unwrap_or("").trim_start_matches(is_space);
        if after.starts_with(closer) {
            return Err(Flaw::quoting(
                from,
                "found `,` before `…`, where JSON has none; leave it out",
                closer,
            ));
        }
        self.wants = if is_list { Wants::Value } else { Wants::Key };
        Ok(1)
    }

    /// Past a number or a word.
    fn scalar<'t>(&mut self, from: &'t str) -> Result<usize, Flaw<'t>> {
        match scalar_length(from) {
            Ok(length) => self.after_value(length),
            Err(_) if self.wants == Wants::Data => { Err(misplaced(from, ' ', self.wants, false)) }
            Err(flaw) => Err(flaw),
        }
    }

    /// Goes on after a value of `length` bytes, and answers that length.
    fn after_value<'t>(&mut self, length: usize) -> Result<usize, Flaw<'t>> {
        self.wants = if self.levels.is_empty() {
            Wants::Nothing
        } else {
            Wants::CommaOrEnd
        };
        Ok(length)
    }

    /// What is missing at the end of the data.
    fn at_end<'t>(&self, text: &'t str) -> Option<Flaw<'t>> {
        match self.wants {
            Wants::Nothing => None,
            Wants::Data => {
                Some(Flaw::plain(text, "the data is empty; without values it is written `{}`"))
            }
            wants => Some(Flaw {
                wanted: wants.words(self.levels.in_list()),
                ..Flaw::plain(
                    text.get(text.trim_end().len()..).unwrap_or(""),
                    "the data ends where ¤ is wanted",
                )
            }),
        }
    }
}
