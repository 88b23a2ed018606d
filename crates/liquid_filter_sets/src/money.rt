//! How a shop writes amounts of money.
ghost use Rattle.std.specs.Prelude.{◌≡◌, IfErr, IfOk, MatchOption, codes, option_map};
ghost use Rattle.liquid_filter_sets.specs.MoneyFormats.{ClosesNone, ClosesPlaceholder};
ghost use Rattle.liquid_filter_sets.specs.MoneyFormats.{IsMadeOf, IsMoneyFormat};
ghost use Rattle.liquid_filter_sets.specs.MoneyFormats.{IsNoMoneyFormat, WritesAmounts};

use liquid_model::{ErrorKind, Result};
use liquid_shopify_host_filters::{MoneyFormat, MoneyStyle};
use std::alloc::{AllocError, Global};

/// The format that a text is, as `${{amount}} USD`. Where it is none, an amount stands after `$ `
/// and before the other text.
///
/// The answer is `Memory` where a growth was refused, and no other kind.
pub fn money_format(alloc: Global, text: Option<&str>, after: &str) -> Result<MoneyFormat>
    ensures format { IfOk result
        (WritesAmounts (option_map (λ t. t.now) text.entry) after.now) }
    ensures memory { IfErr result (λ e. e.kind ≡ ErrorKind.Memory) }
{
    match text {
        Some(text) => Ok(format_of(alloc, text, after)?),
        None => Ok(made_of(alloc, "$ ", MoneyStyle::Amount, after)?),
    }
}

fn format_of(alloc: Global, text: &str, after: &str) -> std::result::Result<MoneyFormat, AllocError>
    ensures { IfOk result (WritesAmounts (Some text.now) after.now) }
{
    match format_parts(text) {
        Some(parts) => Ok(made_of(alloc, parts.0, parts.1, parts.2)?),
        None => Ok(made_of(alloc, "$ ", MoneyStyle::Amount, after)?),
    }
}

fn made_of(
    alloc: Global,
    before: &str,
    style: MoneyStyle,
    after: &str,
) -> std::result::Result<MoneyFormat, AllocError>
    ensures { IfOk result (IsMadeOf before.now style after.now) }
{
    Ok(MoneyFormat {
        before: String::from_str(alloc, before)?,
        style,
        after: String::from_str(alloc, after)?,
    })
}

/// What stands before the placeholder of a format, how the amount is written, and what stands after
/// it.
fn format_parts<'t>(text: &'t str) -> Option<(&'t str, MoneyStyle, &'t str)>
    ensures { MatchOption result (IsNoMoneyFormat text.now)
        (λ x. IsMoneyFormat text.now x.0.now x.1 x.2.now) }
{
    match text.split_once("{{") {
        Some(cut) => match placeholder(cut.1) {
            Some(found) => Some((cut.0, found.0, found.1)),
            None => None,
        },
        None => None,
    }
}

/// How the placeholder says that an amount is written of which the rest begins after `{{`, and what
/// stands after it.
fn placeholder<'t>(rest: &'t str) -> Option<(MoneyStyle, &'t str)>
    ensures { MatchOption result (ClosesNone rest.now)
        (λ x. ClosesPlaceholder rest.now x.0 x.1.now) }
{
    match rest.split_once("}}") {
        Some(cut) => match MoneyStyle::named(cut.0.trim()) {
            Some(style) => Some((style, cut.1)),
            None => None,
        },
        None => None,
    }
}
