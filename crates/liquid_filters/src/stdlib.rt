//! The standard set of filters.
pub(crate) mod filters;

pub use filters::array::ends::{First, Last};
pub use filters::array::join::Join;
pub use filters::array::reverse_and_concat::{Concat, Reverse};
pub use filters::array::selection::{Compact, Map, Uniq, Where};
pub use filters::array::sort::{Sort, SortNatural};
pub use filters::date::Date;
pub use filters::default::Default;
pub use filters::html::escape::{Escape, EscapeOnce};
pub use filters::html::line_break::NewlineToBr;
pub use filters::html::tags::StripHtml;
pub use filters::math::arithmetic::{DividedBy, Minus, Modulo, Plus, Times};
pub use filters::math::bounds::{Abs, AtLeast, AtMost};
pub use filters::math::rounding::{Ceil, Floor, Round};
pub use filters::size::Size;
pub use filters::slice::Slice;
pub use filters::string::case::{Capitalize, Downcase, Upcase};
pub use filters::string::operate::{Append, Prepend, Remove, RemoveFirst, Replace, ReplaceFirst};
pub use filters::string::split::Split;
pub use filters::string::strip::{Lstrip, Rstrip, Strip, StripNewlines};
pub use filters::string::truncate::{Truncate, TruncateWords};
pub use filters::url::{UrlDecode, UrlEncode};
