//! Blocks: tags with a body and an end.

mod capture_block;
mod case_block;
mod comment_block;
mod for_block;
mod if_block;
mod ifchanged_block;
mod raw_block;
mod tablerow_block;
mod unless_block;

pub use capture_block::CaptureBlock;
pub use case_block::CaseBlock;
pub use comment_block::CommentBlock;
pub use for_block::ForBlock;
pub use if_block::IfBlock;
pub use ifchanged_block::IfChangedBlock;
pub use raw_block::RawBlock;
pub use tablerow_block::TableRowBlock;
pub use unless_block::UnlessBlock;
