//! Laws of paths: each clause is a law.
ghost use Rattle.liquid_uses.specs.PathReading.{PathsAskAll};

/// The paths of uses ask for all that the uses ask for: data that are alike in what each path asks,
/// when it is read back by itself, are alike in the uses. So whoever fetches what the lines name
/// needs nothing else.
pub fn path_laws()
    ensures ask_all { PathsAskAll }
{}
