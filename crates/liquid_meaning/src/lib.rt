//! What templates mean, apart from any engine, and the laws of it.
#![tactic(auto)]

mod laws;
mod worked;

pub use laws::{
    free_laws, isolation_laws, loop_laws, missing_laws, partial_laws, reading_laws, run_laws,
};
pub use worked::{worked_names, worked_runs, worked_uses};
