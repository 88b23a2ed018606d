//! What was expected where a source has a fault, in words.
use liquid_lexer::Expectation;

/// What was expected, in words.
#[derive(Clone, Copy)]
pub struct WantedWords {
    /// All of it, or what stands before the closer of the piece.
    pub words: &'static str,
    /// Whether the closer of the piece comes last.
    pub ends_in_closer: bool,
}

/// What was expected, in words.
pub(crate) fn words_of(wanted: Expectation) -> WantedWords {
    match front_of(wanted) {
        Some(words) => WantedWords {
            words,
            ends_in_closer: true,
        },
        None => WantedWords {
            words: all_of(wanted),
            ends_in_closer: false,
        },
    }
}

/// The words before the closer, where the closer is wanted or may stand.
fn front_of(wanted: Expectation) -> Option<&'static str> {
    match wanted {
        Expectation::Closer => Some(""),
        Expectation::ItemOrCloser => Some("an item or "),
        Expectation::FilterOrCloser => Some("`|` or "),
        Expectation::ConnectiveOrCloser => Some("`and`, `or` or "),
        Expectation::ForPartOrCloser => Some("`limit: 1`, `offset: 1`, `reversed` or "),
        Expectation::TableRowPartOrCloser => Some("`cols: 1`, `limit: 1`, `offset: 1` or "),
        _ => None,
    }
}

/// The words where no closer may stand.
fn all_of(wanted: Expectation) -> &'static str {
    match wanted {
        Expectation::Opener => "`{{` or `{%`",
        Expectation::TagName => "the name of a tag",
        Expectation::RegisteredTag => "a registered tag",
        Expectation::LiteralWithoutStep => "a literal without a step",
        Expectation::KnownValue => "a value that this library knows",
        Expectation::FewerBrackets => "at most 200 nested brackets",
        Expectation::ClosingBracket => "`]`",
        Expectation::Dots => "`..`",
        Expectation::ClosingParenthesis => "`)`",
        Expectation::End(name) => name,
        Expectation::BlockStart => "the start of a block",
        Expectation::FewerBlocks => "at most 200 nested blocks",
        Expectation::FilterName => "the name of a filter",
        Expectation::RegisteredFilter => "a registered filter",
        Expectation::VariableName => "the name of a variable",
        Expectation::EqualsSign => "`=`",
        Expectation::GroupName => "a name without steps, a text or a number before `:`",
        Expectation::PartialName => "the name of a partial",
        Expectation::In => "`in`",
        Expectation::ListOrRange => "a list or a range",
        _ => words_of_value(wanted),
    }
}

/// The words for a value, or for what has one in it.
fn words_of_value(wanted: Expectation) -> &'static str {
    match wanted {
        Expectation::WholeNumber => "a whole number",
        Expectation::NumberInRange => "a number within 64 bits",
        Expectation::ClosingQuote => "a text with its closing quote",
        Expectation::Argument => "an argument of the filter",
        Expectation::ArgumentCount => "a number of arguments that the filter takes",
        Expectation::ComparedValue => "a value to compare with",
        Expectation::FurtherValue => "`,` and a value",
        Expectation::FurtherAlternative => "`,` or `or` and a value",
        Expectation::Pair => "`name: value`",
        Expectation::FurtherPair => "`, name: value`",
        Expectation::JekyllPair => "`name=value`",
        Expectation::ValueAsName => "`value as name`",
        Expectation::ListAsName => "`list as name`",
        _ => "a value",
    }
}
