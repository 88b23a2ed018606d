//! The template of a call, and what stands beside it.
ghost use Rattle.std.specs.Prelude.{◌≡◌, option_map};
ghost use Rattle.liquid_commands.specs.Templates.{file_of, place_words, template_place};
ghost use Rattle.liquid_commands.specs.Templates.{words_beside};

use crate::inputs::WordFault;
use clap::ArgMatches;

/// Where the template of a call is.
#[derive(Clone, Copy, Debug, PartialEq, Eq, Drop)]
pub enum TemplateWord<'w> {
    /// In the file at this path.
    Path(&'w str),
    /// On the command line: this is its text.
    Text(&'w str),
}

/// What the words of a call are that no option takes.
#[derive(Clone, Copy, Debug, PartialEq, Eq, Drop)]
pub struct PlacedWords<'w> {
    pub template: Option<TemplateWord<'w>>,
    /// The file of the data or the records.
    pub other: Option<&'w str>,
}

/// What the first and the second word are where the text of the template is given or isn't: the
/// first is the template's file, unless its text is given. Then it is that of the data or the
/// records, and the answer is none where there is a second. It takes no memory.
pub fn place_words<'w>(
    text: Option<&'w str>,
    first: Option<&'w str>,
    second: Option<&'w str>,
) -> Option<PlacedWords<'w>>
    ensures { option_map words_beside result ≡ place_words (option_map (λ t. t.now) text.entry)
        (option_map (λ w. w.now) first.entry) (option_map (λ w. w.now) second.entry) }
{
    let Some(text) = text else {
        return Some(PlacedWords {
            template: file_of(first),
            other: second,
        });
    };
    match second {
        Some(_) => None,
        None => Some(PlacedWords {
            template: Some(TemplateWord::Text(text)),
            other: first,
        }),
    }
}

/// The file of a template, where one is named.
fn file_of(path: Option<&str>) -> Option<TemplateWord<'_>>
    ensures { option_map template_place result ≡ file_of (option_map (λ p. p.now) path.entry) }
{
    match path {
        Some(path) => Some(TemplateWord::Path(path)),
        None => None,
    }
}

/// What the words of a call are, of which the second has this name.
pub(crate) fn placed_in<'w>(
    given: &ArgMatches<'w>,
    second: &'static str,
) -> Result<PlacedWords<'w>, WordFault> {
    let (text, first) = (given.get_str("text"), given.get_str("TEMPLATE"));
    match place_words(text, first, given.get_str(second)) {
        Some(placed) => Ok(placed),
        None => Err(WordFault::Wrong("-t gives the template, so no word names its file")),
    }
}
