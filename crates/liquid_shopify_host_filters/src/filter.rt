//! The filters as one type.
ghost use Rattle.std.specs.Prelude.{◌≡◌, IsTrue, length, map};
ghost use Rattle.liquid_model.specs.Answer.{Answers};
ghost use Rattle.liquid_model.specs.View.{view};
ghost use Rattle.liquid_shopify_host_filters.specs.Answers.{shopify_answer};
ghost use Rattle.liquid_shopify_host_filters.specs.Kinds.{takes_arguments};

use crate::kind::ShopifyKind;
use crate::shop::Shop;
use crate::{
    codec, forms, html, images, lists, money, pagination, sections, sums, tags, texts, urls,
    weight, wording,
};
use liquid_model::{Filter, Result, Value};
use std::alloc::Global;
use std::rc::Rc;

/// A filter of this set, over what it has to know of a shop. All filters of a page share the shop.
///
/// What each answers stands beside its kind in the guide. `InvalidInput` where the input isn't of
/// the kind that is needed, and `NumberRange` where a sum is beyond 64 bits.
#[derive(Drop)]
pub struct ShopifyFilter {
    /// Which filter it is.
    pub kind: ShopifyKind,
    /// What it knows of the shop.
    pub shop: Rc<Shop>,
}

impl Filter for ShopifyFilter {
    ghost counts = { λ f n. takes_arguments f.kind n };

    ghost answer = { λ f. shopify_answer f.kind f.shop.value };

    fn accepts(&self, count: usize) -> bool {
        takes(self.kind, count)
    }

    fn evaluate(&self, alloc: Global, input: &Value, args: &[Value]) -> Result<Value> {
        answered(alloc, self.kind, &self.shop, input, args)
    }
}

/// The same filter over a shop that it borrows.
#[derive(Clone, Copy, Drop)]
pub struct ShopFilter<'s> {
    /// Which filter it is.
    pub kind: ShopifyKind,
    /// What it knows of the shop.
    pub shop: &'s Shop,
}

impl Filter for ShopFilter<'_> {
    ghost counts = { λ f n. takes_arguments f.kind n };

    ghost answer = { λ f. shopify_answer f.kind f.shop.now };

    fn accepts(&self, count: usize) -> bool {
        takes(self.kind, count)
    }

    fn evaluate(&self, alloc: Global, input: &Value, args: &[Value]) -> Result<Value> {
        answered(alloc, self.kind, self.shop, input, args)
    }
}

/// Whether a filter takes so many arguments.
fn takes(kind: ShopifyKind, count: usize) -> bool
    ensures { result ≡ takes_arguments kind count }
{
    kind.least() <= count && count <= kind.most()
}

/// What the filter answers.
fn answered(
    alloc: Global,
    kind: ShopifyKind,
    shop: &Shop,
    input: &Value,
    args: &[Value],
) -> Result<Value>
    requires { IsTrue (takes_arguments kind (length args.now)) }
    ensures { Answers view result (shopify_answer kind shop.now (view input.now)
        (map view args.now)) }
{
    match kind {
        ShopifyKind::AssetUrl => urls::prefixed_answer(alloc, &shop.assets, input),
        ShopifyKind::Base64Decode => codec::decode_answer(alloc, input),
        ShopifyKind::Base64Encode => codec::encode_answer(alloc, input),
        ShopifyKind::Camelize => wording::camelize_answer(alloc, input),
        ShopifyKind::DefaultPagination => pagination::pagination_answer(alloc, input),
        ShopifyKind::Find => lists::find_answer(alloc, input, args),
        ShopifyKind::FindIndex => lists::find_index_answer(alloc, input, args),
        ShopifyKind::Form => forms::form_answer(alloc, input, args),
        ShopifyKind::GlobalAssetUrl => urls::prefixed_answer(alloc, &shop.global_assets, input),
        ShopifyKind::Handle => wording::handle_answer(alloc, input),
        ShopifyKind::Handleize => wording::handle_answer(alloc, input),
        ShopifyKind::Has => lists::has_answer(alloc, input, args),
        ShopifyKind::HighlightActiveTag => tags::highlight_answer(alloc, shop, input, args),
        ShopifyKind::HmacSha256 => codec::hmac_sha256_answer(alloc, input, args),
        ShopifyKind::ImgTag => html::img_tag_answer(alloc, input, args),
        ShopifyKind::Json => codec::json_answer(alloc, input),
        ShopifyKind::Layout | ShopifyKind::NoText => sections::no_text(alloc),
        ShopifyKind::LinkTo => html::link_to_answer(alloc, input, args),
        ShopifyKind::LinkToAddTag => tags::link_to_add_tag_answer(alloc, shop, input, args),
        ShopifyKind::LinkToRemoveTag => tags::link_to_remove_tag_answer(alloc, shop, input, args),
        ShopifyKind::LinkToTag => tags::link_to_tag_answer(alloc, shop, input, args),
        ShopifyKind::LinkToType => html::link_to_collection_answer(alloc, input),
        ShopifyKind::LinkToVendor => html::link_to_collection_answer(alloc, input),
        ShopifyKind::Md5 => codec::md5_answer(alloc, input),
        ShopifyKind::Money => money::money_answer(alloc, &shop.money, input),
        ShopifyKind::MoneyWithCurrency => {
            money::money_answer(alloc, &shop.money_with_currency, input)
        }
        ShopifyKind::MoneyWithoutCurrency => money::amount_answer(alloc, &shop.money, input),
        ShopifyKind::MoneyWithoutTrailingZeros => money::trimmed_answer(alloc, &shop.money, input),
        ShopifyKind::Paginate => input.copy(alloc),
        ShopifyKind::ProductImgUrl => {
            images::product_img_url_answer(alloc, &shop.images, input, args)
        }
        ShopifyKind::Reject => lists::reject_answer(alloc, input, args),
        ShopifyKind::RemoveLast => texts::remove_last_answer(alloc, input, args),
        ShopifyKind::ReplaceLast => texts::replace_last_answer(alloc, input, args),
        ShopifyKind::ScriptTag => html::script_tag_answer(alloc, input),
        ShopifyKind::Section => sections::section_answer(alloc, input, args),
        ShopifyKind::Sha1 => codec::sha1_answer(alloc, input),
        ShopifyKind::Sha256 => codec::sha256_answer(alloc, input),
        ShopifyKind::ShopifyAssetUrl => urls::prefixed_answer(alloc, &shop.shopify_assets, input),
        ShopifyKind::Squish => wording::squish_answer(alloc, input),
        ShopifyKind::Style => sections::style_answer(alloc, input),
        ShopifyKind::StylesheetTag => html::stylesheet_tag_answer(alloc, input, args),
        ShopifyKind::Sum => sums::sum_answer(alloc, input, args),
        ShopifyKind::UrlForType => urls::url_for_answer(alloc, input),
        ShopifyKind::UrlForVendor => urls::url_for_answer(alloc, input),
        ShopifyKind::WeightWithUnit => weight::weight_answer(alloc, input),
        ShopifyKind::Within => tags::within_answer(alloc, input, args),
    }
}
