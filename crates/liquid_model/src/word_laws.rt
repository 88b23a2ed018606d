//! Laws of the definitions that contracts speak of.
ghost use Rattle.liquid_model.specs.FrontLaws.{ReadWordStands, StandingWordIsRead};
ghost use Rattle.liquid_model.specs.FrontLaws.{ReadQuotedStands, StandingQuotedIsRead};
ghost use Rattle.liquid_model.specs.FrontLaws.{ReadNumberStands, StandingNumberIsRead};
ghost use Rattle.liquid_model.specs.FrontLaws.{PassedBlankStands, StandingBlankIsPassed};

/// What is read as a word, a quoted text, a whole number or whitespace stands in the written
/// grammar, and what stands in the grammar is read.
pub fn front_laws()
    ensures read_word { ReadWordStands }
    ensures standing_word { StandingWordIsRead }
    ensures read_quoted { ReadQuotedStands }
    ensures standing_quoted { StandingQuotedIsRead }
    ensures read_number { ReadNumberStands }
    ensures standing_number { StandingNumberIsRead }
    ensures passed_blank { PassedBlankStands }
    ensures standing_blank { StandingBlankIsPassed }
{}
