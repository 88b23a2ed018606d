//! The engine for C: every public function here is exported, and `include/bikleinu.h` tells a
//! caller in C what it needs.
//!
//! What a call makes is held by a handle, which the caller keeps and frees. A call that gets a
//! handle of another kind than it needs, or bytes that are no UTF-8, says so by its number and
//! changes nothing else.
#![tactic(auto)]

mod answering;
mod asked;
mod content;
mod create_and_free;
mod data_for;
mod escaping;
mod given;
mod handle;
mod handle_content;
mod hosted;
mod insert;
mod jekyll;
mod levels;
mod named;
mod parse;
mod partial_names;
mod raw_box;
mod read;
mod refusal;
mod register;
mod render;
mod seen_key;
mod served;
mod sets;
mod share;
mod tables;
mod tags;
