//! Laws of the filters over numbers: each clause is a law, and the functions do nothing.
ghost use Rattle.liquid_filters.specs.NumberLaws.{DivisionIsOne, PlusIsOne, MinusIsOne};
ghost use Rattle.liquid_filters.specs.NumberLaws.{TimesIsOne, DividedByIsOne, ModuloIsOne};
ghost use Rattle.liquid_filters.specs.NumberLaws.{AtLeastIsOne, AtMostIsOne, AbsIsOne};
ghost use Rattle.liquid_filters.specs.NumberLaws.{QuotientAndRemainder};
ghost use Rattle.liquid_filters.specs.RoundingLaws.{RoundIsOne, RoundedIsOne};

/// What each filter answers, and that nothing else is its answer.
///
/// - `plus`: the sum, by the steps of two operands.
/// - `minus`: what with the operand gives the input.
/// - `times`: the product.
/// - `divided_by`: the quotient that leaves a remainder nearer to 0 than the divisor, and 0 or of
///   the input's sign.
/// - `modulo`: that remainder.
/// - `at_least`: one of both, and neither is above it.
/// - `at_most`: one of both, and neither is below it.
/// - `abs`: the number or its opposite, whichever isn't below 0.
/// - Where neither is refused, quotient times divisor plus remainder is the number.
/// - A number has one quotient and one remainder.
pub fn number_laws()
    ensures plus_is_one { PlusIsOne }
    ensures minus_is_one { MinusIsOne }
    ensures times_is_one { TimesIsOne }
    ensures divided_by_is_one { DividedByIsOne }
    ensures modulo_is_one { ModuloIsOne }
    ensures at_least_is_one { AtLeastIsOne }
    ensures at_most_is_one { AtMostIsOne }
    ensures abs_is_one { AbsIsOne }
    ensures quotient_and_remainder { QuotientAndRemainder }
    ensures division_is_one { DivisionIsOne }
{}

/// The filters that round.
///
/// - `round` without places, `ceil` and `floor`: the whole number whose product with a power of ten
///   is the one that the digits are brought to.
/// - `round`, with and without places after the point.
pub fn rounding_laws()
    ensures rounded_is_one { RoundedIsOne }
    ensures round_is_one { RoundIsOne }
{}
