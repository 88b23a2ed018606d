//! Sets of filters that the library has itself.
ghost use Rattle.std.specs.Prelude.{◌≡◌, IfErr, IfOk, Some, codes, option_map};
ghost use Rattle.liquid_model.specs.View.{pairs_view};
ghost use Rattle.liquid_c.specs.FilterSets.{HasShop, IsSetPlacing, IsShopOf, MakesSetLanguage};
ghost use Rattle.liquid_c.specs.FilterSets.{PlacesSet, set_numbered, settings_of_handle};
ghost use Rattle.liquid_c.specs.FilterSets.{site_member};
ghost use Rattle.liquid_c.specs.Jekylls.{HasSite};
ghost use Rattle.liquid_c.specs.ResultStored.{ResultStored};
ghost use Rattle.liquid_c.specs.Shared.{Regaining, shared_content};
ghost use Rattle.liquid_c.specs.Tables.{ChangesTable};
ghost use Rattle.liquid_c.specs.declared.content.Content.TheVariants as content;
ghost use Rattle.liquid_c.specs.declared.handle_content.HandleContent.TheVariants.{Own};

use crate::content::Content;
use crate::handle::Handle;
use crate::handle_content::{HandleContent, held_content};
use crate::refusal::{Refusal, store_result};
use liquid_answers::Answers;
use liquid_core::{ErrorKind, Object, Result as Answer};
use liquid_filter_sets::{
    SiteSettings, decimals_language, jekyll_language, shop_of, shopify_language,
};
use liquid_shopify_host_filters::Shop;
use std::alloc::Global;

/// A set of filters.
#[derive(Clone, Copy, Drop)]
pub(crate) enum FilterSet {
    Decimals,
    Jekyll,
    Shopify,
}

fn set_numbered(asked: u32) -> Option<FilterSet>
    ensures { result ≡ set_numbered asked }
{
    if asked == 1 {
        return Some(FilterSet::Decimals);
    }
    if asked == 2 {
        return Some(FilterSet::Jekyll);
    }
    if asked == 3 {
        Some(FilterSet::Shopify)
    } else {
        None
    }
}

/// Makes the language of the set of this number: 1 decimals, 2 Jekyll's, 3 Shopify's. 0, or
/// `Memory`, or 115 where there is no such set.
#[unsafe(no_mangle)]
pub extern "C" fn bikleinu_set_language(alloc: Global, set: u32, made: &mut Handle) -> u32
    ensures { ResultStored (MakesSetLanguage (set_numbered set)) result made.new.held }
{
    store_result(alloc, language_in(alloc, set_numbered(set)), made)
}

fn language_in(alloc: Global, set: Option<FilterSet>) -> Result<Content, Refusal>
    ensures { MakesSetLanguage set result }
{
    let Some(set) = set else {
        return Err(Refusal::NoSuchSet);
    };
    let made = match set {
        FilterSet::Decimals => decimals_language(alloc),
        FilterSet::Jekyll => jekyll_language(alloc),
        FilterSet::Shopify => shopify_language(alloc),
    };
    match made {
        Ok(language) => Ok(Content::Language(language)),
        Err(fault) => Ok(Content::Fault(fault)),
    }
}

/// Lets the library answer the calls of a set's filters itself, but for those that the table has by
/// their names: of filters over decimals, of Jekyll's over the site that data say, or of Shopify's
/// over the shop that data say, in place of the one before. 0, or `Memory`, or 115 where there is
/// no such set; after anything but 0 nothing changed.
#[unsafe(no_mangle)]
pub extern "C" fn bikleinu_answers_set(
    alloc: Global,
    answers: &mut Handle,
    set: u32,
    data: &mut Handle,
) -> u32
    ensures placed { Regaining (λ was. IsSetPlacing was (set_numbered set)
        (settings_of_handle (shared_content «data».old.held)) result answers.new.held)
        answers.old.held }
    ensures data { «data».new.held ≡ «data».old.held }
{
    let held_data = data.take(alloc);
    let mut held = answers.take_to_change(alloc);
    let settings = settings_held(held_content(&held_data));
    let number = put_in_handle(alloc, &mut held, set_numbered(set), settings);
    answers.put(alloc, held);
    data.put(alloc, held_data);
    number
}

fn settings_held(held: Option<&Content>) -> Option<&Object>
    ensures { option_map (λ d. pairs_view d.now.entries) result ≡
        settings_of_handle (option_map (λ h. h.now) held.entry) }
{
    match held {
        Some(Content::Data(data)) => Some(data),
        _ => None,
    }
}

fn put_in_handle(
    alloc: Global,
    held: &mut Option<Box<HandleContent>>,
    set: Option<FilterSet>,
    settings: Option<&Object>,
) -> u32
    ensures { IsSetPlacing (option_map (λ b. b.value) held.old) set
        (option_map (λ d. pairs_view d.now.entries) settings.entry) result
        (option_map (λ b. b.value) held.new) }
{
    let Some(set) = set else {
        return Refusal::NoSuchSet.number();
    };
    let Some(settings) = settings else {
        return Refusal::OtherHandle.number();
    };
    match held {
        Some(held) => match &mut **held {
            HandleContent::Own(Content::Answers(table)) => put_set(alloc, table, set, settings),
            HandleContent::Shared(_) => Refusal::SharedHandle.number(),
            _ => Refusal::OtherHandle.number(),
        },
        None => Refusal::OtherHandle.number(),
    }
}

fn put_set(alloc: Global, table: &mut Answers, set: FilterSet, settings: &Object) -> u32
    ensures { PlacesSet set (pairs_view settings.now.entries) table.old result
        (Some (Own (content.Answers table.new))) }
{
    match set {
        FilterSet::Decimals => {
            table.set_decimals();
            0
        }
        FilterSet::Jekyll => put_site(alloc, table, settings),
        FilterSet::Shopify => put_shop(alloc, table, settings),
    }
}

fn put_site(alloc: Global, table: &mut Answers, settings: &Object) -> u32
    ensures { ChangesTable (HasSite (site_member (codes "url") (pairs_view settings.now.entries))
        (site_member (codes "baseurl") (pairs_view settings.now.entries))) table.old result
        (Some (Own (content.Answers table.new))) }
{
    let site = SiteSettings::of(settings);
    match table.set_site(alloc, site.address, site.base) {
        Ok(()) => 0,
        Err(fault) => u32::from(fault.kind.number()),
    }
}

fn put_shop(alloc: Global, table: &mut Answers, settings: &Object) -> u32
    ensures { ChangesTable (HasShop (pairs_view settings.now.entries)) table.old result
        (Some (Own (content.Answers table.new))) }
{
    match shop_in(alloc, settings) {
        Ok(shop) => {
            table.set_shop(shop);
            0
        }
        Err(fault) => u32::from(fault.kind.number()),
    }
}

fn shop_in(alloc: Global, settings: &Object) -> Answer<Shop>
    ensures shop { IfOk result (IsShopOf (pairs_view settings.now.entries)) }
    ensures memory { IfErr result (λ e. e.kind ≡ ErrorKind.Memory) }
{
    shop_of(alloc, settings, None)
}
