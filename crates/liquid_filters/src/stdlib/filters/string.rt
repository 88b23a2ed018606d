//! Filters over texts.
pub mod case;
pub mod operate;
pub mod split;
pub mod strip;
pub mod truncate;
