//! What filters know of a shop and of a page beside their input and arguments.
use crate::money::MoneyFormat;

/// What filters know of a shop and of a page beside their input and arguments.
#[derive(Drop)]
pub struct Shop {
    /// How `money` writes an amount.
    pub money: MoneyFormat,
    /// How `money_with_currency` writes an amount.
    pub money_with_currency: MoneyFormat,
    /// What stands before the name of a file of the theme in its address, as `/assets/`.
    pub assets: String,
    /// What stands before the name of a file that all shops share.
    pub global_assets: String,
    /// What stands before the name of a file of Shopify's.
    pub shopify_assets: String,
    /// What stands before the path of a product's image.
    pub images: String,
    /// The handle of the page's collection.
    pub collection: String,
    /// The tags that the page's products have, each once.
    pub tags: Vec<String>,
}
