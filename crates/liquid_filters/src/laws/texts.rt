//! What is proved of the text filters beyond their answers: each clause is a law, and the functions
//! do nothing.
//!
//! The clause `NAME_is_one` says what the filter's answer is without the filter's own steps, and
//! that nothing else is. `size`, `default`, `append` and `prepend` have no law, since their
//! definitions say it in such words already: a length, one of two values, two texts joined.
ghost use Rattle.liquid_filters.specs.TextLaws.{CapitalizeIsOne, DowncaseIsOne, LstripIsOne};
ghost use Rattle.liquid_filters.specs.TextLaws.{RemoveFirstIsOne, RemoveIsOne, ReplaceFirstIsOne};
ghost use Rattle.liquid_filters.specs.TextLaws.{ReplaceIsOne, RstripIsOne, SliceIsOne, SplitIsOne};
ghost use Rattle.liquid_filters.specs.TextLaws.{StripIsOne, StripNewlinesIsOne, TruncateIsOne};
ghost use Rattle.liquid_filters.specs.TextLaws.{TruncateWordsIsOne, UpcaseIsOne};

/// What each filter answers, and that nothing else is its answer.
///
/// - `split`: the pieces between the occurrences, from left to right and without overlap.
/// - `replace`: the pieces between the occurrences, with the other text between them.
/// - `remove`: the pieces between the occurrences, joined.
/// - `replace_first`: the other text in place of the first occurrence.
/// - `remove_first`: what stands before the first occurrence and what follows it.
/// - `slice`: items or characters by place.
/// - `truncate`: the first grapheme clusters, where the text has more bytes than are wanted.
/// - `truncatewords`: the first pieces parted by single spaces, where there are more than are
///   wanted.
/// - `downcase`: each character of the text, `A` to `Z` as `a` to `z`.
/// - `upcase`: each character of the text, `a` to `z` as `A` to `Z`.
/// - `capitalize`: the first character in upper case, and what follows it.
/// - `strip`: white space, what is kept, and white space, where what is kept neither begins nor
///   ends with it.
/// - `lstrip`: white space and what is kept, which doesn't begin with it.
/// - `rstrip`: what is kept, which doesn't end with white space, and white space.
/// - `strip_newlines`: the characters that are neither LF nor CR, in their order.
pub fn text_laws()
    ensures split_is_one { SplitIsOne }
    ensures replace_is_one { ReplaceIsOne }
    ensures remove_is_one { RemoveIsOne }
    ensures replace_first_is_one { ReplaceFirstIsOne }
    ensures remove_first_is_one { RemoveFirstIsOne }
    ensures slice_is_one { SliceIsOne }
    ensures truncate_is_one { TruncateIsOne }
    ensures truncatewords_is_one { TruncateWordsIsOne }
    ensures downcase_is_one { DowncaseIsOne }
    ensures upcase_is_one { UpcaseIsOne }
    ensures capitalize_is_one { CapitalizeIsOne }
    ensures strip_is_one { StripIsOne }
    ensures lstrip_is_one { LstripIsOne }
    ensures rstrip_is_one { RstripIsOne }
    ensures strip_newlines_is_one { StripNewlinesIsOne }
{}
