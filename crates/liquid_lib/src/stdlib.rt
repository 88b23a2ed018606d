//! The tags, blocks and filters of Liquid's standard library.

pub use liquid_engine::ForloopObject;
pub use liquid_evaluation::{Range, RangeExpression};
pub use liquid_filters::stdlib::{
    Abs, Append, AtLeast, AtMost, Capitalize, Ceil, Compact, Concat, Date, Default, DividedBy,
    Downcase, Escape, EscapeOnce, First, Floor, Join, Last, Lstrip, Map, Minus, Modulo,
    NewlineToBr, Plus, Prepend, Remove, RemoveFirst, Replace, ReplaceFirst, Reverse, Round, Rstrip,
    Size, Slice, Sort, SortNatural, Split, Strip, StripHtml, StripNewlines, Times, Truncate,
    TruncateWords, Uniq, Upcase, UrlDecode, UrlEncode, Where,
};
pub use liquid_language::stdlib::{
    AssignTag, BreakTag, CaptureBlock, CaseBlock, CommentBlock, ContinueTag, CycleTag,
    DecrementTag, ForBlock, IfBlock, IfChangedBlock, IncludeTag, IncrementTag, RawBlock, RenderTag,
    TableRowBlock, UnlessBlock,
};
