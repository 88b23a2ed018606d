//! The filters that Shopify's templates call beside those of the language, for a host to add.
#![tactic(auto)]

mod amount;
mod codec;
mod filter;
mod forms;
mod html;
mod images;
mod kind;
pub mod laws;
mod lists;
mod money;
mod named;
mod pagination;
mod sections;
mod shop;
mod sums;
mod tags;
mod texts;
mod urls;
mod weight;
mod wording;
mod words;

pub use filter::{ShopFilter, ShopifyFilter};
pub use kind::{SHOPIFY_FILTERS, ShopifyKind};
pub use money::{MoneyFormat, MoneyStyle};
pub use shop::Shop;
