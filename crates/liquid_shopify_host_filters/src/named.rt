//! Shopify's filters by their names.
ghost use Rattle.std.specs.Prelude.{◌≡◌};
ghost use Rattle.liquid_shopify_host_filters.specs.Named.{shopify_kind_among, shopify_kind_named};

use crate::kind::{SHOPIFY_FILTERS, ShopifyKind};

impl ShopifyKind {
    /// The filter of this name, where there is one. It takes no memory.
    pub fn named(name: &str) -> Option<ShopifyKind>
        ensures { result ≡ shopify_kind_named name.now }
    {
        kind_among(name, &SHOPIFY_FILTERS)
    }
}

/// The first of these filters that has the name.
fn kind_among(name: &str, kinds: &[ShopifyKind]) -> Option<ShopifyKind>
    ensures { result ≡ shopify_kind_among name.now kinds.now }
{
    for kind in kinds {
        if kind.name() == name {
            return Some(*kind);
        }
    }
    None
}
