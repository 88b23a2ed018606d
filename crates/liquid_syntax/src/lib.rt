//! Templates: a list of nodes each, and the partials that they name.
#![tactic(auto)]

mod blanks;
mod called;
mod calls;
mod item_place;
mod loop_nodes;
mod names;
mod node;
mod partials;
mod positions;
mod reach;
mod targets;
mod template;
mod visit_nodes;
mod wanted;
mod when_place;

pub use called::called_names;
pub use calls::{PartialCall, partial_call};
pub use item_place::{PieceItem, item_position};
pub use liquid_evaluation::{
    AnyFilter, Atom, ChainFilter, ComparisonOperator, Condition, FilterCall, FilterChain, Range,
    RangeExpression, StoredFilter, Window, apply_filters, evaluate_amount,
};
pub use loop_nodes::{Each, For, TableRow, WindowExpression};
pub use names::add_name;
pub use node::{Arm, Binding, BodyEnds, Node};
pub use partials::Partials;
pub use positions::Position;
pub use reach::Reach;
pub use targets::{binds_include, binds_name};
pub use template::Template;
pub use visit_nodes::{visit_arms, visit_layout, visit_values, visit_window};
