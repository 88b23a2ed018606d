//! Laws of data with any numbers, and of lists: each clause is a law, and the bodies do nothing.
ghost use Rattle.liquid_data.specs.ListLaws.{ListsAreRead, MapsAreObjects};
ghost use Rattle.liquid_data.specs.Laws.{FloatsAreRead, RefusedAlike, WholeNumbersStay};

/// Data with any numbers beside data whose numbers are whole: where every number is whole, both are
/// the same; a text that is refused here is refused there, by the same kind of fault; and a text
/// that is refused there by `Float` is read here.
pub fn decimal_laws()
    ensures whole { WholeNumbersStay }
    ensures refused { RefusedAlike }
    ensures floats { FloatsAreRead }
{}

/// Lists of objects, and the JSON of maps: a list of such objects, with any white space between its
/// signs, is read as these objects, one after another, and ends; and the JSON of a map is one such
/// object.
pub fn list_laws()
    ensures lists { ListsAreRead }
    ensures maps { MapsAreObjects }
{}
