//! Data as people have it: TOML, numbers with a fraction, dates, lines of JSON and tables.
#![tactic(auto)]

mod braces;
mod cells;
mod csv_rows;
mod dates;
mod decimals;
mod fault;
mod floats;
mod form;
mod forms;
mod guess;
mod head;
mod instant;
mod laws;
mod lines;
mod list_objects;
mod names;
mod quotes;
mod record;
mod records;
mod toml_data;
mod value;

pub use csv_rows::{HeadStop, Rows};
pub use dates::dated;
pub use decimals::data_with_decimals;
pub use form::{CellForm, NameForm, TableForm};
pub use forms::{DataForm, data_in_form, in_form, with_members, with_named, with_now, with_value};
pub use guess::guessed_delimiter;
pub use head::{HeadFault, column_names};
pub use instant::date_spelling;
pub use laws::decimal_laws;
pub use lines::Lines;
pub use list_objects::{ListFault, ListObjects};
pub use names::{column_name, is_writable};
pub use record::{RowFault, record_in_form, record_of};
pub use records::{RecordData, RecordFault, RecordReading, Records};
pub use toml_data::data_from_toml;
pub use value::{text_in_form, value_in_form};
