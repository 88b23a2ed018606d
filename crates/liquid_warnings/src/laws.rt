//! Laws of paths in data: each clause is a law.
ghost use Rattle.liquid_warnings.specs.Laws.{FirstLackIsLack, NothingElseLacks};

/// What `lacking` tells is a map that the steps before a key lead to, and that hasn't the key.
/// Where it tells nothing, each map that the beginning of the path leads to has the key of the next
/// step, unless that is `size`.
pub fn data_path_laws()
    ensures lack { FirstLackIsLack }
    ensures nothing_else { NothingElseLacks }
{}
