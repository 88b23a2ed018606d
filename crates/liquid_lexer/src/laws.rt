//! Laws of the definitions that contracts speak of.
ghost use Rattle.liquid_lexer.specs.ReadingLaws.{ReadValueStands, StandingValueIsRead};
ghost use Rattle.liquid_lexer.specs.ReadingLaws.{ReadItemsStand, StandingItemsAreRead};
ghost use Rattle.liquid_lexer.specs.ReadingLaws.{ReadRawStands, StandingRawIsRead};
ghost use Rattle.liquid_lexer.specs.ReadingLaws.{ReadCommentStands, StandingCommentIsRead};
ghost use Rattle.liquid_lexer.specs.ReadingLaws.{ReadSourceStands, StandingSourceIsRead};
ghost use Rattle.liquid_lexer.specs.ReadingLaws.{ItemsAreOnlyItems};

/// What is read as a value stands in the written grammar, and what stands in the grammar is read: a
/// text begins with at most one value.
pub fn value_laws()
    ensures read { ReadValueStands }
    ensures standing { StandingValueIsRead }
{}

/// The same of the items up to a closer.
pub fn item_laws()
    ensures read { ReadItemsStand }
    ensures standing { StandingItemsAreRead }
{}

/// The same of the bodies that aren't read.
pub fn verbatim_laws()
    ensures read_raw { ReadRawStands }
    ensures standing_raw { StandingRawIsRead }
    ensures read_comment { ReadCommentStands }
    ensures standing_comment { StandingCommentIsRead }
{}

/// The same of a source as a list of pieces, for every machine that takes them one after another.
pub fn source_laws()
    ensures read { ReadSourceStands }
    ensures standing { StandingSourceIsRead }
    ensures items { ItemsAreOnlyItems }
{}
