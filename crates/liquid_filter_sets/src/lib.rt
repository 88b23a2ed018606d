//! The sets of filters as a whole: the languages that have their names, the
//! filter of Jekyll that reads a condition, what the filters know of a site or a shop beside their
//! input and arguments, as the data says it; and whether the JSON that they write is read back.
#![tactic(auto)]

mod condition_text;
mod conversion;
mod jekyll_tags;
mod json_texts;
mod languages;
pub mod laws;
mod member;
mod money;
mod setting_uses;
mod shop;
mod shopify_tags;
mod site;
mod truth;
mod where_exp;

pub use conversion::{CONVERTERS, Conversion, Converter};
pub use json_texts::is_read_back;
pub use languages::{
    decimals_language, jekyll_language, register_decimal_filters, register_jekyll_filters,
    register_shopify_filters, shopify_language,
};
pub use money::money_format;
pub use setting_uses::{shop_uses, site_uses};
pub use shop::shop_of;
pub use site::SiteSettings;
pub use where_exp::WhereExp;
