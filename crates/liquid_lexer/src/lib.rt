//! Sources, cut into pieces and items: what is read before any tag, block or filter is known by
//! name.
#![tactic(auto)]

mod cut;
mod expectation;
mod fault;
mod item;
mod laws;
mod mark;
mod piece;
mod placed;
mod scan;
mod style;
mod symbol;
mod tokens;
mod value;

pub use cut::{stripped, text_before};
pub use expectation::Expectation;
pub use fault::{Fault, FaultKind, ParseError};
pub use item::{Delimiter, Item, closer, read_items};
pub use laws::{item_laws, source_laws, value_laws, verbatim_laws};
pub use mark::Mark;
pub use piece::{Body, Markup, Piece, bare_name, name_after, read_body, read_markup};
pub use placed::{PlacedItem, PlacedPiece, front_before, placed_piece};
pub use style::Style;
pub use symbol::Symbol;
pub use tokens::{is_over, is_word, next_value, next_word, skip, skip_word};
