//! Which filters there are: their names, and how many arguments each takes.
ghost use Rattle.std.specs.Prelude.{◌≡◌};
ghost use Rattle.liquid_shopify_host_filters.specs.Kinds.{least_of, most_arguments};
ghost use Rattle.liquid_shopify_host_filters.specs.Kinds.{shopify_filter_name};

/// One of the filters of this set.
#[derive(Clone, Copy, Drop)]
pub enum ShopifyKind {
    /// `asset_url`: the address of a file of the theme.
    AssetUrl,
    /// `base64_decode`: the text that is encoded in base64.
    Base64Decode,
    /// `base64_encode`: the text in base64.
    Base64Encode,
    /// `camelize`: the words with a capital each, joined.
    Camelize,
    /// `default_pagination`: links to the pages of a list.
    DefaultPagination,
    /// `find`: the first map of a list with a property.
    Find,
    /// `find_index`: the place of the first map of a list with a property.
    FindIndex,
    /// `form`: the block: a form, with what Shopify writes around it.
    Form,
    /// `global_asset_url`: the address of a file that all shops share.
    GlobalAssetUrl,
    /// `handle`: the words in lower case, with hyphens between them.
    Handle,
    /// `handleize`: the same as `handle`.
    Handleize,
    /// `has`: whether a list has a map with a property.
    Has,
    /// `highlight_active_tag`: a tag of the page, marked.
    HighlightActiveTag,
    /// `hmac_sha256`: a code under a key.
    HmacSha256,
    /// `img_tag`: an image.
    ImgTag,
    /// `json`: the value as JSON.
    Json,
    /// `layout`: the tag: nothing, since a page is rendered without its layout.
    Layout,
    /// `link_to`: a link.
    LinkTo,
    /// `link_to_add_tag`: a link to the products of a tag more.
    LinkToAddTag,
    /// `link_to_remove_tag`: a link to the products of a tag less.
    LinkToRemoveTag,
    /// `link_to_tag`: a link to the products of a tag.
    LinkToTag,
    /// `link_to_type`: a link to the products of a type.
    LinkToType,
    /// `link_to_vendor`: a link to the products of a vendor.
    LinkToVendor,
    /// `md5`: a digest.
    Md5,
    /// `money`: an amount in the shop's format.
    Money,
    /// `money_with_currency`: an amount with its currency.
    MoneyWithCurrency,
    /// `money_without_currency`: the amount alone.
    MoneyWithoutCurrency,
    /// `money_without_trailing_zeros`: an amount, without `.00` at its end.
    MoneyWithoutTrailingZeros,
    /// `no_text`: the blocks `schema`, `javascript` and `stylesheet`: nothing.
    NoText,
    /// `paginate`: the block: its body.
    Paginate,
    /// `product_img_url`: the address of a product's image in a size.
    ProductImgUrl,
    /// `reject`: the maps of a list without a property.
    Reject,
    /// `remove_last`: a text without the last occurrence of another.
    RemoveLast,
    /// `replace_last`: a text with the last occurrence of another replaced.
    ReplaceLast,
    /// `script_tag`: a script.
    ScriptTag,
    /// `section`: the tags `section` and `sections`: a section's text.
    Section,
    /// `sha1`: a digest.
    Sha1,
    /// `sha256`: a digest.
    Sha256,
    /// `shopify_asset_url`: the address of a file of Shopify's.
    ShopifyAssetUrl,
    /// `squish`: the words with a space between them.
    Squish,
    /// `style`: the block: an element of rules of style.
    Style,
    /// `stylesheet_tag`: a style sheet.
    StylesheetTag,
    /// `sum`: the sum of a list.
    Sum,
    /// `url_for_type`: the address of the products of a type.
    UrlForType,
    /// `url_for_vendor`: the address of the products of a vendor.
    UrlForVendor,
    /// `weight_with_unit`: a weight in kilograms.
    WeightWithUnit,
    /// `within`: an address within a collection.
    Within,
}

/// All filters of this set, in the order of their names.
pub const SHOPIFY_FILTERS: [ShopifyKind; 47] = [
    ShopifyKind::AssetUrl,
    ShopifyKind::Base64Decode,
    ShopifyKind::Base64Encode,
    ShopifyKind::Camelize,
    ShopifyKind::DefaultPagination,
    ShopifyKind::Find,
    ShopifyKind::FindIndex,
    ShopifyKind::Form,
    ShopifyKind::GlobalAssetUrl,
    ShopifyKind::Handle,
    ShopifyKind::Handleize,
    ShopifyKind::Has,
    ShopifyKind::HighlightActiveTag,
    ShopifyKind::HmacSha256,
    ShopifyKind::ImgTag,
    ShopifyKind::Json,
    ShopifyKind::Layout,
    ShopifyKind::LinkTo,
    ShopifyKind::LinkToAddTag,
    ShopifyKind::LinkToRemoveTag,
    ShopifyKind::LinkToTag,
    ShopifyKind::LinkToType,
    ShopifyKind::LinkToVendor,
    ShopifyKind::Md5,
    ShopifyKind::Money,
    ShopifyKind::MoneyWithCurrency,
    ShopifyKind::MoneyWithoutCurrency,
    ShopifyKind::MoneyWithoutTrailingZeros,
    ShopifyKind::NoText,
    ShopifyKind::Paginate,
    ShopifyKind::ProductImgUrl,
    ShopifyKind::Reject,
    ShopifyKind::RemoveLast,
    ShopifyKind::ReplaceLast,
    ShopifyKind::ScriptTag,
    ShopifyKind::Section,
    ShopifyKind::Sha1,
    ShopifyKind::Sha256,
    ShopifyKind::ShopifyAssetUrl,
    ShopifyKind::Squish,
    ShopifyKind::Style,
    ShopifyKind::StylesheetTag,
    ShopifyKind::Sum,
    ShopifyKind::UrlForType,
    ShopifyKind::UrlForVendor,
    ShopifyKind::WeightWithUnit,
    ShopifyKind::Within,
];

impl ShopifyKind {
    /// The name by which templates call the filter.
    pub fn name(self) -> &'static str
        ensures { result.now ≡ shopify_filter_name self }
    {
        match self {
            ShopifyKind::AssetUrl => "asset_url",
            ShopifyKind::Base64Decode => "base64_decode",
            ShopifyKind::Base64Encode => "base64_encode",
            ShopifyKind::Camelize => "camelize",
            ShopifyKind::DefaultPagination => "default_pagination",
            ShopifyKind::Find => "find",
            ShopifyKind::FindIndex => "find_index",
            ShopifyKind::Form => "form",
            ShopifyKind::GlobalAssetUrl => "global_asset_url",
            ShopifyKind::Handle => "handle",
            ShopifyKind::Handleize => "handleize",
            ShopifyKind::Has => "has",
            ShopifyKind::HighlightActiveTag => "highlight_active_tag",
            ShopifyKind::HmacSha256 => "hmac_sha256",
            ShopifyKind::ImgTag => "img_tag",
            ShopifyKind::Json => "json",
            ShopifyKind::Layout => "layout",
            ShopifyKind::LinkTo => "link_to",
            ShopifyKind::LinkToAddTag => "link_to_add_tag",
            ShopifyKind::LinkToRemoveTag => "link_to_remove_tag",
            ShopifyKind::LinkToTag => "link_to_tag",
            ShopifyKind::LinkToType => "link_to_type",
            ShopifyKind::LinkToVendor => "link_to_vendor",
            ShopifyKind::Md5 => "md5",
            ShopifyKind::Money => "money",
            ShopifyKind::MoneyWithCurrency => "money_with_currency",
            ShopifyKind::MoneyWithoutCurrency => "money_without_currency",
            ShopifyKind::MoneyWithoutTrailingZeros => "money_without_trailing_zeros",
            ShopifyKind::NoText => "no_text",
            ShopifyKind::Paginate => "paginate",
            ShopifyKind::ProductImgUrl => "product_img_url",
            ShopifyKind::Reject => "reject",
            ShopifyKind::RemoveLast => "remove_last",
            ShopifyKind::ReplaceLast => "replace_last",
            ShopifyKind::ScriptTag => "script_tag",
            ShopifyKind::Section => "section",
            ShopifyKind::Sha1 => "sha1",
            ShopifyKind::Sha256 => "sha256",
            ShopifyKind::ShopifyAssetUrl => "shopify_asset_url",
            ShopifyKind::Squish => "squish",
            ShopifyKind::Style => "style",
            ShopifyKind::StylesheetTag => "stylesheet_tag",
            ShopifyKind::Sum => "sum",
            ShopifyKind::UrlForType => "url_for_type",
            ShopifyKind::UrlForVendor => "url_for_vendor",
            ShopifyKind::WeightWithUnit => "weight_with_unit",
            ShopifyKind::Within => "within",
        }
    }

    /// How many arguments it takes at least.
    pub fn least(self) -> usize
        ensures { result ≡ least_of self }
    {
        match self {
            ShopifyKind::Find
            | ShopifyKind::FindIndex
            | ShopifyKind::Form
            | ShopifyKind::Has
            | ShopifyKind::HmacSha256
            | ShopifyKind::Layout
            | ShopifyKind::LinkTo
            | ShopifyKind::LinkToAddTag
            | ShopifyKind::LinkToRemoveTag
            | ShopifyKind::LinkToTag
            | ShopifyKind::Paginate
            | ShopifyKind::Reject
            | ShopifyKind::RemoveLast
            | ShopifyKind::Section
            | ShopifyKind::Within => 1,
            ShopifyKind::ReplaceLast => 2,
            _ => 0,
        }
    }

    /// How many arguments it takes at most.
    pub fn most(self) -> usize
        ensures { result ≡ most_arguments self }
    {
        match self {
            ShopifyKind::HighlightActiveTag
            | ShopifyKind::HmacSha256
            | ShopifyKind::ImgTag
            | ShopifyKind::Layout
            | ShopifyKind::LinkToAddTag
            | ShopifyKind::LinkToRemoveTag
            | ShopifyKind::LinkToTag
            | ShopifyKind::Paginate
            | ShopifyKind::ProductImgUrl
            | ShopifyKind::RemoveLast
            | ShopifyKind::Section
            | ShopifyKind::StylesheetTag
            | ShopifyKind::Sum
            | ShopifyKind::Within => 1,
            ShopifyKind::Find
            | ShopifyKind::FindIndex
            | ShopifyKind::Form
            | ShopifyKind::Has
            | ShopifyKind::LinkTo
            | ShopifyKind::Reject
            | ShopifyKind::ReplaceLast => 2,
            _ => 0,
        }
    }
}
