//! A template as a tree, and the values of its chains and conditions.
#![tactic(auto)]

mod any_filter;
mod arguments;
mod chain;
mod comparison;
mod condition;
mod filter_call;
pub mod laws;
mod loop_items;
mod name_visitor;
mod range;
mod range_expression;
mod stored_filter;
mod visit;
mod window;

pub use any_filter::AnyFilter;
pub use chain::{ChainFilter, FilterChain};
pub use comparison::ComparisonOperator;
pub use condition::{Atom, Condition};
pub use filter_call::{FilterCall, apply_filters};
pub use loop_items::LoopItems;
pub use name_visitor::NameVisitor;
pub use range::Range;
pub use range_expression::RangeExpression;
pub use stored_filter::StoredFilter;
pub use visit::{
    visit_chain, visit_condition, visit_expression, visit_expressions, visit_filters,
    visit_optional, visit_source,
};
pub use window::{Window, evaluate_amount};
