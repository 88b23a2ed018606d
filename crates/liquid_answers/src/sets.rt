//! The sets of filters that a table has beside its own, which need no answers of the caller's.
ghost use Rattle.std.specs.Prelude.{◌≡◌, map, option_map};
ghost use Rattle.liquid_model.specs.Answer.{Answers as Tells};
ghost use Rattle.liquid_model.specs.View.{view};
ghost use Rattle.liquid_answers.specs.Sets.{decimals_in, set_answers, shop_answers};
ghost use Rattle.liquid_answers.specs.Sites.{place_view, site_answers};

use crate::answers::Answers;
use crate::site::answer_over;
use liquid_core::{Result, Value};
use liquid_decimals::DecimalFilter;
use liquid_model::Filter;
use liquid_shopify_host_filters::{ShopFilter, ShopifyKind};
use std::alloc::Global;

/// What the sets of a table answer to a call: that over decimals first, then Shopify's, then
/// Jekyll's, each where the table has it and it has a filter of this name that takes so many
/// arguments.
pub(crate) fn answer_by_sets(
    alloc: Global,
    table: &Answers,
    name: &str,
    input: &Value,
    args: &[Value],
) -> Result<Value>
    ensures { Tells view result (set_answers table.now name.now (view input.now)
        (map view args.now)) }
{
    let Some(filter) = decimals_in(table.has_decimals, name) else {
        return answer_by_shop(alloc, table, name, input, args);
    };
    if !filter.accepts(args.len()) {
        return answer_by_shop(alloc, table, name, input, args);
    }
    filter.evaluate(alloc, input, args)
}

fn decimals_in(has_decimals: bool, name: &str) -> Option<DecimalFilter>
    ensures { result ≡ decimals_in has_decimals name.now }
{
    if has_decimals {
        DecimalFilter::named(name)
    } else {
        None
    }
}

fn answer_by_shop(
    alloc: Global,
    table: &Answers,
    name: &str,
    input: &Value,
    args: &[Value],
) -> Result<Value>
    ensures { Tells view result (shop_answers table.now.shop name.now
        (site_answers (option_map place_view table.now.site) name.now) (view input.now)
        (map view args.now)) }
{
    let Some(shop) = &table.shop else {
        return answer_over(alloc, table.site.as_ref(), name, input, args);
    };
    let Some(kind) = ShopifyKind::named(name) else {
        return answer_over(alloc, table.site.as_ref(), name, input, args);
    };
    let filter = ShopFilter { kind, shop };
    if !filter.accepts(args.len()) {
        return answer_over(alloc, table.site.as_ref(), name, input, args);
    }
    filter.evaluate(alloc, input, args)
}
