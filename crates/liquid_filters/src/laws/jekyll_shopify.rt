//! What is proved of these filters beyond their answers: each clause is a law, and the functions do
//! nothing.
//!
//! The clause `NAME_is_one` says what the filter's answer is without the filter's own steps, and
//! that nothing else is.
ghost use Rattle.liquid_filters.specs.JekyllLaws.{PushIsOne, UnshiftIsOne, PopIsOne};
ghost use Rattle.liquid_filters.specs.JekyllLaws.{ShiftIsOne, PopUndoesPush};
ghost use Rattle.liquid_filters.specs.JekyllLaws.{ShiftUndoesUnshift, SentenceIsOne};
ghost use Rattle.liquid_filters.specs.JekyllLaws.{PathIsRead, PluralizeIsOne};
ghost use Rattle.liquid_filters.specs.JekyllLaws.{JekyllSortIsOne};
ghost use Rattle.liquid_filters.specs.JekyllLaws.{JekyllSortTwiceIsOnce, SlugifyIsOne};
ghost use Rattle.liquid_filters.specs.JekyllLaws.{AsciiSlugs};

/// The filters over lists.
///
/// - `push`: the list, and then the argument.
/// - `unshift`: the argument, and then the list.
/// - `pop`: all items but the last.
/// - `shift`: all items but the first.
/// - A `pop` after a `push` gives the list back.
/// - A `shift` after an `unshift` gives the list back.
/// - `sort`: what is found along the path never falls along the answer, and items alike keep their
///   order.
/// - A `sort` twice is the `sort` once, where it isn't refused.
pub fn list_laws()
    ensures push_is_one { PushIsOne }
    ensures unshift_is_one { UnshiftIsOne }
    ensures pop_is_one { PopIsOne }
    ensures shift_is_one { ShiftIsOne }
    ensures pop_undoes_push { PopUndoesPush }
    ensures shift_undoes_unshift { ShiftUndoesUnshift }
    ensures sort_is_one { JekyllSortIsOne }
    ensures sort_twice_is_once { JekyllSortTwiceIsOnce }
{}

/// The filters over texts, and the paths of `sort`.
///
/// - `array_to_sentence_string`: the first text, `, ` before each other, and the connector before
///   the last of them.
/// - A text is read as a path exactly where it is written as one: a word, followed by any of
///   `.word` and `[literal]`.
/// - `pluralize`: the first argument where the input's whole number is 1, the second where it is
///   another.
/// - `slugify`: a hyphen for each longest run of characters that the mode doesn't keep, and none at
///   both ends.
/// - What the mode `ascii` makes has `a` to `z`, `0` to `9` and single inner hyphens alone, and
///   stays as it is.
pub fn word_laws()
    ensures sentence_is_one { SentenceIsOne }
    ensures path_is_read { PathIsRead }
    ensures pluralize_is_one { PluralizeIsOne }
    ensures slugify_is_one { SlugifyIsOne }
    ensures ascii_slugs { AsciiSlugs }
{}
