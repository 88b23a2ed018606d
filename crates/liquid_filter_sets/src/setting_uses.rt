//! What the filters of a set look at in the data.
ghost use Rattle.std.specs.Prelude.{◌≡◌, IfErr, IfOk, OnOk, cond};
ghost use Rattle.liquid_model.specs.Texts.{Text, same_text};
ghost use Rattle.liquid_model.specs.Uses.{every, everything, no_fields, parts, there, use_at};
ghost use Rattle.liquid_model.specs.UseViews.{use_view, uses_view};
ghost use Rattle.liquid_filter_sets.specs.SettingUses.{SeesShop, SeesSite};

use liquid_model::{ErrorKind, ItemUse, Result, Use, Uses};
use std::alloc::Global;
use std::collections::BTreeMap;

/// What a site is made of, as of `SiteSettings::of` and `Conversion::of`. `Memory` where there is
/// no room for it.
pub fn site_uses(alloc: Global) -> Result<Uses>
    ensures site { IfOk result (λ uses. SeesSite (uses_view uses)) }
    ensures memory { IfErr result (λ e. e.kind ≡ ErrorKind.Memory) }
{
    let site = two_texts(alloc, "url", "baseurl")?;
    let mut uses = BTreeMap::new(alloc);
    add(alloc, &mut uses, "conversions", whole())?;
    add(alloc, &mut uses, "site", site)?;
    Ok(uses)
}

/// What a shop is made of, as of `shop_of`. `Memory` where there is no room for it.
pub fn shop_uses(alloc: Global) -> Result<Uses>
    ensures shop { IfOk result (λ uses. SeesShop (uses_view uses)) }
    ensures memory { IfErr result (λ e. e.kind ≡ ErrorKind.Memory) }
{
    let shop = two_texts(alloc, "money_format", "money_with_currency_format")?;
    let collection = two_texts(alloc, "handle", "handle")?;
    let tags = a_list_of_texts(alloc)?;
    let mut uses = BTreeMap::new(alloc);
    add(alloc, &mut uses, "shop", shop)?;
    add(alloc, &mut uses, "collection", collection)?;
    add(alloc, &mut uses, "current_tags", tags)?;
    Ok(uses)
}

/// The texts at two names of a map.
fn two_texts(alloc: Global, one: &str, other: &str) -> Result<Use>
    ensures one { IfOk result (λ u. use_at one.now (use_view u) ≡ there) }
    ensures other { IfOk result (λ u. use_at other.now (use_view u) ≡ there) }
    ensures memory { IfErr result (λ e. e.kind ≡ ErrorKind.Memory) }
{
    let mut members = BTreeMap::new(alloc);
    add(alloc, &mut members, one, a_text(alloc))?;
    add(alloc, &mut members, other, a_text(alloc))?;
    Ok(Use::Parts {
        members,
        items: None,
    })
}

/// The items of a list, each as far as it is a text.
fn a_list_of_texts(alloc: Global) -> Result<Use>
    ensures items { IfOk result (λ u. use_view u ≡ parts no_fields (every there)) }
    ensures memory { IfErr result (λ e. e.kind ≡ ErrorKind.Memory) }
{
    let each = Box::new(alloc, a_text(alloc))?;
    Ok(Use::Parts {
        members: BTreeMap::new(alloc),
        items: Some(ItemUse { limit: None, each }),
    })
}

/// A value as far as it is a text.
fn a_text(alloc: Global) -> Use
    ensures { use_view result ≡ there }
{
    Use::Parts {
        members: BTreeMap::new(alloc),
        items: None,
    }
}

/// A whole value.
fn whole() -> Use
    ensures { use_view result ≡ everything }
{
    Use::Everything
}

/// Asks this of a name, and no more of it what was asked before.
fn add(alloc: Global, uses: &mut Uses, name: &str, asked: Use) -> Result<()>
    ensures added { (q : Text) → OnOk result (uses_view uses.new q
        ≡ cond (same_text name.now q) (use_view asked) (uses_view uses.old q)) }
    ensures memory { IfErr result (λ e. e.kind ≡ ErrorKind.Memory) }
{
    drop(uses.insert(String::from_str(alloc, name)?, asked)?);
    Ok(())
}
