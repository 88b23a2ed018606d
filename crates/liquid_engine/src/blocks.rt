//! The blocks of Liquid's standard library.

mod for_block;
mod tablerow_block;

pub use for_block::ForloopObject;
pub(crate) use tablerow_block::Row;
