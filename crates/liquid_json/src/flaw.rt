//! What is wrong at a place of the data, and the message that says it.
use liquid_model::excerpt;
use std::alloc::{AllocError, Global};

/// What is wrong at a place of the data. In the words `…` stands for a text that is quoted as an
/// `excerpt`, the first and then the second, and `¤` for what is wanted.
#[derive(Clone, Copy)]
pub struct Flaw<'t> {
    /// The data from the place on.
    pub from: &'t str,
    pub words: &'static str,
    pub first: &'t str,
    pub second: &'t str,
    pub wanted: &'static str,
}

impl<'t> Flaw<'t> {
    /// Words in which nothing stands.
    pub fn plain(from: &'t str, words: &'static str) -> Flaw<'t> {
        Flaw::quoting(from, words, "")
    }

    /// Words in which a text stands, once or twice.
    pub fn quoting(from: &'t str, words: &'static str, text: &'t str) -> Flaw<'t> {
        Flaw {
            from,
            words,
            first: text,
            second: text,
            wanted: "",
        }
    }
}

/// The message that says what is wrong.
pub fn message_of(alloc: Global, flaw: &Flaw<'_>) -> Result<String, AllocError> {
    let mut message = String::new(alloc);
    let mut is_first = true;
    for sign in flaw.words.chars() {
        match sign {
            '…' => {
                let text = if is_first { flaw.first } else { flaw.second };
                let quoted = excerpt(alloc, text)?;
                message.push_str(quoted.as_str())?;
                is_first = false;
            }
            '¤' => message.push_str(flaw.wanted)?,
            _ => message.push(sign)?,
        }
    }
    Ok(message)
}
