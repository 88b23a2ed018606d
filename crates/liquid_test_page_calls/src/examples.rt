//! The examples of docs/use/rattle.md, each called by its name.
mod host;
mod jekyll;
mod pages;
mod shop;

use crate::examples::host::hosted_page;
use crate::examples::jekyll::jekyll_page;
use crate::examples::pages::{language_of_ones_own, page, page_in_bytes, page_with_fault};
use crate::examples::shop::shop_page;
use liquid_core::Result;
use std::alloc::Global;

/// What the example of the name writes.
pub(crate) fn example(alloc: Global, name: &str) -> Result<String> {
    match name {
        "page" => page(alloc),
        "page_in_bytes" => {
            let bytes = page_in_bytes(alloc)?;
            Ok(String::from_utf8(bytes).unwrap_or(String::new(alloc)))
        }
        "page_with_fault" => page_with_fault(alloc),
        "language_of_ones_own" => language_of_ones_own(alloc),
        "shop_page" => shop_page(alloc),
        "jekyll_page" => jekyll_page(alloc),
        _ => hosted_page(alloc),
    }
}
