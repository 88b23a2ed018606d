//! Expressions and the state of templates, over the values of `liquid_model`: what all other layers
//! stand on.
#![tactic(auto)]

mod append_written;
mod expression;
mod foreign_name;
mod frame;
mod frame_names;
mod host_filters;
mod interrupt;
pub mod laws;
mod loop_object;
mod missing;
mod missing_value;
mod resolved;
mod similar_name;
mod spelled;
mod state;
mod step_kind;
mod written;

pub use expression::{Expression, Variable};
pub use frame::{Columns, Items, LoopFrame, LoopKind, Scope};
pub use host_filters::{HostFilters, NamedFilters};
pub use interrupt::Interrupt;
pub use liquid_model::{
    Error, ErrorKind, Filter, Found, ItemUse, Location, Object, Origin, Quoted, Result, Use, Uses,
    Value, ValueCow, copy_items, copy_object, excerpt, line_of, look_up, member_of, store,
    value_size, whole_of,
};
pub use missing_value::Missing;
pub use resolved::{DirectValue, Resolved, Scopes};
pub use similar_name::{SimilarName, more_likely, more_similar};
pub use spelled::Spelled;
pub use state::{Data, Parts, State};
