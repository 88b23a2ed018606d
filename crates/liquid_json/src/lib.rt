//! Data from JSON: a text read as an object of Liquid's values, and where a text that isn't one has
//! its fault; values as JSON; and what a template asks of its data, as a JSON Schema.
#![tactic(auto)]

mod copies;
mod data;
mod data_reader;
mod flaw;
mod grammar;
mod json_text;
mod levels;
mod misplaced;
mod named;
mod place;
mod planned;
mod quoted;
mod scalars;
mod schema;
mod script_text;
mod skip;
mod tokens;
mod whole;

pub use data::{data_for, data_from_json, value_from_json};
pub use data_reader::DataReader;
pub use json_text::json_of;
pub use named::map_for;
pub use schema::schema_of;
pub use script_text::json_for_scripts;
pub use tokens::value_of_any_numbers;
pub use whole::integer_of;
