//! Laws of front matter: each clause is a law, and the body does nothing.
ghost use Rattle.liquid_yaml.specs.Grammar.{ReadStands, StandingIsRead, RefusedHasNone};

/// What is read as front matter stands in the written grammar, what stands in it is read, and what
/// is refused doesn't stand in it.
pub fn front_matter_laws()
    ensures read { ReadStands }
    ensures standing { StandingIsRead }
    ensures refused { RefusedHasNone }
{}
