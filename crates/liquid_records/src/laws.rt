//! Laws of merges: each clause is a law, and the body does nothing.
ghost use Rattle.liquid_records.specs.Runs.{NeverTwice, OthersStay, PagesStand};

/// After any records, taken one after another: no file was written twice, each page that was
/// written is in its file, and every other file is as it was.
pub fn merge_laws()
    ensures twice { NeverTwice }
    ensures pages { PagesStand }
    ensures others { OthersStay }
{}
