//! Rows of calls: how a row is read, and the report whether its call ended as the row says. A call
//! stands between marks, for `tests/refusals/run`, which refuses its requests for memory. The
//! programs of rows share it.
#![tactic(auto)]

mod reporter;
mod row;
mod steps;

pub use reporter::{
    Reporter, ending, flag, found, kind_of, name_of, nil, number, optional, owned, text,
};
pub use row::{WorkedRow, items, items_member, member, read_row, text_member, text_of};
pub use steps::{StateChange, step_of};
