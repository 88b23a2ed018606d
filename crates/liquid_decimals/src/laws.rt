//! Laws of decimals: each is a clause of a function without a body.
ghost use Rattle.liquid_decimals.specs.Laws.{QuotientIsNearest, TextIsReadBack};

/// The text of a decimal is read as the decimal again, and a quotient is brought to the nearest of
/// its last place, from a half on away from zero.
pub fn decimal_laws()
    ensures read_back { TextIsReadBack }
    ensures nearest { QuotientIsNearest }
{}
