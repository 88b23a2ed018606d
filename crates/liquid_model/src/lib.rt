//! Values and faults: what values are, how they are ordered, what is found in them, and what a
//! fault says. Beside them what a filter is, with readers of its arguments, and words, quoted texts
//! and whole numbers at the front of a text.
#![tactic(auto)]

mod append;
mod argument;
mod compare;
mod cow;
mod cut;
mod digest;
mod error;
mod fault;
mod filter;
mod find;
mod first;
pub mod laws;
mod line;
mod line_column;
mod number;
mod object;
mod order;
mod origin;
mod quotation;
mod scan;
mod size;
mod text;
mod uses;
mod value;
mod whole;
mod word_laws;

pub use append::append_str;
pub use argument::{lower_case, text_argument, text_of, whole_argument};
pub use cow::ValueCow;
pub use cut::{past_byte, past_white, quoted, word};
pub use error::{Error, ErrorKind, Result};
pub use fault::{FoundValue, invalid_argument, invalid_input};
pub use filter::Filter;
pub use find::Found;
pub use first::push_first;
pub use line::line_of;
pub use line_column::location;
pub use number::number as whole_number;
pub use object::{look_up, store};
pub use origin::{Location, Origin};
pub use quotation::{Quoted, excerpt};
pub use scan::{in_word, is_white, number_len};
pub use size::value_size;
pub use text::write_text;
pub use uses::{ItemUse, Use, Uses, includes_all, member_of};
pub use value::{Object, Value, copy_items, copy_object};
pub use whole::whole_of;
pub use word_laws::front_laws;
