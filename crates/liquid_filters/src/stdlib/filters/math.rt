//! Filters over numbers.
pub mod arithmetic;
pub mod bounds;
pub mod decimal;
mod operands;
pub mod rounding;
