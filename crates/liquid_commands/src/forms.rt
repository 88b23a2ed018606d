//! How data is read.
use clap::ArgMatches;

/// How data is read.
#[derive(Clone, Copy, Drop)]
pub struct Forms<'w> {
    /// A number that isn't whole is the text of its spelling, in place of a fault.
    pub decimals_as_texts: bool,
    /// Texts of ISO 8601 get the spelling of dates that the language reads.
    pub dates: bool,
    /// The instant that has the name `now`.
    pub now: Option<&'w str>,
}

impl<'w> Forms<'w> {
    /// What the words of the command line ask for.
    pub fn given(given: &ArgMatches<'w>) -> Forms<'w> {
        Forms {
            decimals_as_texts: given.get_str("decimals") == Some("text"),
            dates: given.get_flag("dates"),
            now: given.get_str("now"),
        }
    }
}
