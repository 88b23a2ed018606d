//! The tags and blocks of Liquid's standard library.

mod blocks;
mod tags;

pub use blocks::{
    CaptureBlock, CaseBlock, CommentBlock, ForBlock, IfBlock, IfChangedBlock, RawBlock,
    TableRowBlock, UnlessBlock,
};
pub use tags::{
    AssignTag, BreakTag, ContinueTag, CycleTag, DecrementTag, IncludeTag, IncrementTag, RenderTag,
};
