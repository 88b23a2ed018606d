//! Every filter, and the closed choice of them.
#![tactic(auto)]

mod argument;
mod convert;
mod convert_sets;
pub mod extra;
pub mod jekyll;
mod kind;
pub mod laws;
mod print;
mod read;
pub mod shopify;
mod spelling;
pub mod stdlib;
mod text_parts;

pub use argument::text_or;
pub use kind::FilterKind;
pub use laws::{answer_law, join_gives_back};
pub use read::read_date;
pub use stdlib::filters::array::selection::is_wanted;
pub use stdlib::filters::array::sequence::{all_maps, property, sequence};
pub use stdlib::filters::html::escape::escaped;
pub use stdlib::filters::math::decimal::Decimal as DecimalText;
pub use stdlib::filters::string::operate::replaced;
