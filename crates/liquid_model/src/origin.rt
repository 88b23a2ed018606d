//! Where a fault stands.
ghost use Rattle.std.specs.Prelude.{◌≡◌, Some, IfOk};
ghost use Rattle.liquid_model.specs.Errors.{location_text, origin_text, partial_location_text};

use crate::quotation::Quoted;
use std::alloc::{AllocError, Global};
use std::fmt;

/// Which text a location is in.
#[derive(Debug, PartialEq, Eq, Drop)]
pub enum Origin {
    /// The template itself.
    Template,
    /// The partial of this name.
    Partial(String),
    /// The data.
    Data,
}

/// Where a fault stands: in which text, and in which line and column there, counted in characters
/// and each from 1.
#[derive(Debug, PartialEq, Eq, Drop)]
pub struct Location {
    pub origin: Origin,
    pub line: usize,
    pub column: usize,
}

impl Location {
    /// The same location, seen from outside the partial of this name: its own text is that of the
    /// partial.
    pub(crate) fn in_partial(self, alloc: Global, name: &str) -> Result<Location, AllocError>
        ensures { IfOk result (λ named. location_text named ≡ partial_location_text name.now self) }
    {
        let Location {
            origin,
            line,
            column,
        } = self;
        let origin = match origin {
            Origin::Template => Origin::Partial(String::from_str(alloc, name)?),
            Origin::Partial(inner) => Origin::Partial(inner),
            Origin::Data => Origin::Data,
        };
        Ok(Location {
            origin,
            line,
            column,
        })
    }
}

/// What stands before a line and a column: nothing for the template itself. The name of a partial
/// is shown as a quotation.
impl fmt::Display for Origin {
    ghost output = { λ origin. Some (origin_text origin) };

    fn fmt<W: fmt::Write>(&self, f: &mut fmt::Formatter<W>) -> fmt::Result {
        match self {
            Origin::Template => Ok(()),
            Origin::Partial(name) => {
                let text = name.as_str();
                write!(f, "in the partial `{}`: ", Quoted { text })
            }
            Origin::Data => f.write_str("in the data: "),
        }
    }
}

/// `line 3, column 5`, with the partial or the data named before it.
impl fmt::Display for Location {
    ghost output = { λ location. Some (location_text location) };

    fn fmt<W: fmt::Write>(&self, f: &mut fmt::Formatter<W>) -> fmt::Result {
        let Location {
            origin,
            line,
            column,
        } = self;
        write!(f, "{origin}line {line}, column {column}")
    }
}
