//! Runs of templates.
#![tactic(auto)]

mod blocks;
mod borrowed_data;
mod chain_within;
mod choice;
mod context;
mod counted;
mod counters;
mod cycle;
mod engine;
mod fault_item;
mod fault_location;
mod fault_tag;
mod filtered;
mod hosted_page;
mod ifchanged;
mod isolated_scope;
mod laws;
mod limits;
mod loop_setup;
mod node_ends;
mod node_grants;
mod node_turns;
mod output;
mod output_and_assign;
mod partial;
mod push_value;
mod render;
mod rendered_page;
mod room_ahead;
mod run_setting;
mod runtime;
mod runtime_calls;
mod similar_partial;
mod surroundings;
mod write_all;

pub use blocks::ForloopObject;
pub use counted::{Counted, CountedWrite};
pub use hosted_page::render_hosted_page;
pub use laws::page_laws;
pub use limits::{LimitReached, Limited, Limits};
pub use render::Renderable;
pub use rendered_page::{LimitedPage, Page, render_page, render_page_by, render_page_within};
pub use run_setting::RunSetting;
pub use runtime::{DEFAULT_DEPTH, Runtime, RuntimeBuilder};
pub use surroundings::Surroundings;
