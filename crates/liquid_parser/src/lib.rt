//! From source to template.
#![tactic(auto)]

mod body_ends;
mod build;
mod chain_items;
mod classify;
mod condition_items;
mod cycle_items;
mod faults;
mod group;
mod laws;
mod loop_items;
mod pair_items;
mod parser;
mod partial_items;
mod positions;
mod value_items;

pub use condition_items::read_condition;
pub use laws::{
    chain_laws, condition_law, host_block_laws, host_tag_laws, item_list_laws, nesting_laws,
    output_laws, statement_law, template_laws,
};
pub use liquid_language::{
    Block, BlockContext, BlockKind, Control, FilterRegistry, Language, RegisteredFilter, Registry,
    TagKind,
};
pub use liquid_lexer::{
    Body, Delimiter, Fault, FaultKind, Item, Mark, Markup, ParseError, Piece, Symbol, item_laws,
    source_laws, value_laws, verbatim_laws,
};
pub use loop_items::{Loop, LoopPart, LoopTag, read_loop};
pub use pair_items::PairStyle;
pub use parser::{parse, parse_with_source};
pub use value_items::{Separators, read_values};
