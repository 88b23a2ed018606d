//! Renderings.
ghost use Rattle.std.specs.Prelude.{◌≡◌, [], Ok, Some, false, option_map};
ghost use Rattle.liquid_model.specs.Maps.{empty};
ghost use Rattle.liquid_core.specs.Held.{held as map_held};
ghost use Rattle.liquid_syntax.specs.Templates.{partials_of, tree_of};
ghost use Rattle.liquid_c.specs.Calls.{IsRendering, OfBoth, ShowsNodes, ShowsUnless, ShowsWithin};
ghost use Rattle.liquid_c.specs.Calls.{WhereAllowed, allowed_by_limits, bound_of, data_of_handle};
ghost use Rattle.liquid_c.specs.Calls.{has_limit, levels_of_handle, missing_numbered};
ghost use Rattle.liquid_c.specs.inside.AskedLimits.{asked_limit};
ghost use Rattle.liquid_c.specs.Calls.{partials_of_handle, usually_allowed};
ghost use Rattle.liquid_c.specs.ResultStored.{ResultStored};
ghost use Rattle.liquid_c.specs.Shared.{shared_content};

use crate::content::Content;
use crate::handle::Handle;
use crate::handle_content::held_content;
use crate::levels::TemplateLevels;
use crate::refusal::{Refusal, store_result};
use crate::served::unserved;
use liquid_answers::OwnFilters;
use liquid_core::{Missing, Object};
use liquid_engine::{LimitedPage, RunSetting, Surroundings, render_hosted_page};
use liquid_syntax::{Partials, Template};
use std::alloc::Global;
use std::collections::BTreeMap;

/// How many levels a run may reach where its caller says nothing. They stay within a stack of 1
/// MiB, with partials of up to a depth of 200.
const USUAL_LEVELS: u32 = 400;

/// What stands for no limit on bytes, or on turns.
const ANY_NUMBER: u64 = u64::MAX;

/// What a caller allows a run.
#[repr(C)]
#[derive(Clone, Copy, Drop)]
pub struct RenderLimits {
    /// How many levels it may reach; 0 for `USUAL_LEVELS`.
    levels: u32,
    /// What becomes of a missing value: 0 a fault, and 1 nil.
    missing: u32,
    /// How many bytes it may write; `ANY_NUMBER` for any number.
    bytes: u64,
    /// How many turns it may take; `ANY_NUMBER` for any number.
    turns: u64,
}

/// What a run may do.
#[derive(Clone, Copy, Drop)]
pub(crate) struct Allowed {
    /// How it goes.
    pub(crate) setting: RunSetting,
    /// How many levels it may reach.
    pub(crate) levels: u32,
    /// How many bytes it may write; `ANY_NUMBER` for any number.
    bytes: u64,
    /// How many turns it may take; `ANY_NUMBER` for any number.
    turns: u64,
}

/// Renders a template in a run of its own, over data and with partials, of which `depth` may be
/// nested. A handle that holds nothing stands for empty data, or for no partials.
///
/// `made` then holds the page. 0, or the number of the fault that the page ended by: its text goes
/// up to the fault. After `Memory` there is no page. A run that could reach more levels than is
/// usual isn't begun: then the call answers 103, and there is no page either. Nor is one over data
/// that were read for paths, where it asks for more: 116.
#[unsafe(no_mangle)]
pub extern "C" fn bikleinu_render(
    alloc: Global,
    template: &mut Handle,
    data: &mut Handle,
    partials: &mut Handle,
    depth: u32,
    made: &mut Handle,
) -> u32
    ensures rendered { ResultStored
        (IsRendering (shared_content template.old.held) (shared_content «data».old.held)
        (shared_content partials.old.held) (usually_allowed depth))
        result made.new.held }
    ensures template { template.new.held ≡ template.old.held }
    ensures data { «data».new.held ≡ «data».old.held }
    ensures partials { partials.new.held ≡ partials.old.held }
{
    let allowed = Allowed {
        setting: RunSetting::strict(depth),
        levels: USUAL_LEVELS,
        bytes: ANY_NUMBER,
        turns: ANY_NUMBER,
    };
    let answer = render_handles(alloc, template, data, partials, Some(allowed));
    store_result(alloc, answer, made)
}

/// The same, within limits of the caller's, and with what they say of missing values: where their
/// number says nothing of them the call answers 109. A page that the limit on bytes ended answers
/// 104, and one that the limit on turns ended 105: its text goes up to there.
#[unsafe(no_mangle)]
pub extern "C" fn bikleinu_render_within(
    alloc: Global,
    template: &mut Handle,
    data: &mut Handle,
    partials: &mut Handle,
    depth: u32,
    limits: &RenderLimits,
    made: &mut Handle,
) -> u32
    ensures rendered { ResultStored
        (WhereAllowed (allowed_by_limits depth limits.now)
        (IsRendering (shared_content template.old.held) (shared_content «data».old.held)
        (shared_content partials.old.held)))
        result made.new.held }
    ensures template { template.new.held ≡ template.old.held }
    ensures data { «data».new.held ≡ «data».old.held }
    ensures partials { partials.new.held ≡ partials.old.held }
{
    let allowed = allowed_by(depth, limits);
    let answer = render_handles(alloc, template, data, partials, allowed);
    store_result(alloc, answer, made)
}

/// What these limits allow, where their number says something of missing values.
pub(crate) fn allowed_by(depth: u32, limits: &RenderLimits) -> Option<Allowed>
    ensures { result ≡ allowed_by_limits depth limits.now }
{
    let missing = missing_numbered(limits.missing)?;
    Some(Allowed {
        setting: RunSetting { depth, missing },
        levels: bound_of(limits.levels),
        bytes: limits.bytes,
        turns: limits.turns,
    })
}

fn missing_numbered(asked: u32) -> Option<Missing>
    ensures { result ≡ missing_numbered asked }
{
    if asked == 0 {
        return Some(Missing::IsFault);
    }
    if asked == 1 {
        Some(Missing::IsNil)
    } else {
        None
    }
}

fn bound_of(asked: u32) -> u32
    ensures { result ≡ bound_of asked }
{
    if asked == 0 { USUAL_LEVELS } else { asked }
}

/// The result of rendering what the handles hold; afterwards they hold it again.
fn render_handles(
    alloc: Global,
    template: &mut Handle,
    data: &mut Handle,
    partials: &mut Handle,
    allowed: Option<Allowed>,
) -> Result<Content, Refusal>
    ensures rendered { WhereAllowed allowed
        (IsRendering (shared_content template.old.held) (shared_content «data».old.held)
        (shared_content partials.old.held)) result }
    ensures template { template.new.held ≡ template.old.held }
    ensures data { «data».new.held ≡ «data».old.held }
    ensures partials { partials.new.held ≡ partials.old.held }
{
    let held_template = template.take(alloc);
    let held_data = data.take(alloc);
    let held_partials = partials.take(alloc);
    let answer = page(
        alloc,
        held_content(&held_template),
        held_content(&held_data),
        held_content(&held_partials),
        allowed,
    );
    template.put(alloc, held_template);
    data.put(alloc, held_data);
    partials.put(alloc, held_partials);
    answer
}

fn page(
    alloc: Global,
    template: Option<&Content>,
    data: Option<&Content>,
    partials: Option<&Content>,
    allowed: Option<Allowed>,
) -> Result<Content, Refusal>
    ensures { WhereAllowed allowed (IsRendering
        (option_map (λ h. h.now) template.entry)
        (option_map (λ h. h.now) «data».entry)
        (option_map (λ h. h.now) partials.entry)) result }
{
    let Some(allowed) = allowed else {
        return Err(Refusal::NoSuchMissing);
    };
    let Some(Content::Template(template, levels)) = template else {
        return Err(Refusal::OtherHandle);
    };
    let no_data = empty_data(alloc);
    let no_partials = Partials::new(alloc);
    let others = partials_held(partials, &no_partials);
    if let Some(answer) = unserved(alloc, data, template, others) {
        return answer;
    }
    let is_deep = levels.pass(levels_held(partials), allowed.setting.depth, allowed.levels);
    page_within_levels(
        alloc,
        template,
        is_deep,
        data_held(data, &no_data),
        others,
        allowed,
    )
}

/// The page of a template over data and with partials, where both are there and it isn't too deep.
fn page_within_levels(
    alloc: Global,
    template: &Template,
    is_deep: bool,
    data: Option<&Object>,
    partials: Option<&Partials>,
    allowed: Allowed,
) -> Result<Content, Refusal>
    ensures { OfBoth
        (option_map (λ d. map_held d.now) «data».entry)
        (option_map (λ p. partials_of p.now) partials.entry)
        (ShowsUnless is_deep (has_limit allowed.bytes allowed.turns)
        (tree_of template.now) allowed.setting)
        result }
{
    let Some(data) = data else {
        return Err(Refusal::OtherHandle);
    };
    let Some(partials) = partials else {
        return Err(Refusal::OtherHandle);
    };
    if is_deep {
        return Err(Refusal::TooManyLevels);
    }
    if allowed.bytes == ANY_NUMBER && allowed.turns == ANY_NUMBER {
        return Ok(unlimited_page(alloc, template, partials, allowed.setting, data));
    }
    Ok(limited(alloc, template, partials, allowed, data))
}

/// The whole page.
fn unlimited_page(
    alloc: Global,
    template: &Template,
    partials: &Partials,
    setting: RunSetting,
    data: &Object,
) -> Content
    ensures { ShowsNodes (tree_of template.now) setting
        (map_held «data».now) (partials_of partials.now) (Ok result) }
{
    let around = Surroundings {
        partials,
        depth: setting.depth,
        missing: setting.missing,
        limits: liquid_engine::Limits {
            bytes: None,
            turns: None,
        },
    };
    match render_hosted_page(alloc, template, &OwnFilters, around, data) {
        Ok(LimitedPage { page, limit: _ }) => Content::Page(page),
        Err(fault) => Content::Fault(fault),
    }
}

/// The page within limits on its bytes and turns.
fn limited(
    alloc: Global,
    template: &Template,
    partials: &Partials,
    allowed: Allowed,
    data: &Object,
) -> Content
    ensures { ShowsWithin (tree_of template.now) allowed.setting
        (map_held «data».now) (partials_of partials.now) (Ok result) }
{
    let around = around(partials, allowed);
    match render_hosted_page(alloc, template, &OwnFilters, around, data) {
        Ok(LimitedPage { page, limit }) => match limit {
            None => Content::Page(page),
            Some(limit) => Content::Ended(page, limit),
        },
        Err(fault) => Content::Fault(fault),
    }
}

/// What a template is rendered with beside its data.
pub(crate) fn around(partials: &Partials, allowed: Allowed) -> Surroundings<'_>
    ensures partials { result.partials.now ≡ partials.now }
    ensures depth { result.depth ≡ allowed.setting.depth }
    ensures missing { result.missing ≡ allowed.setting.missing }
    ensures bytes { result.limits.bytes ≡ asked_limit allowed.bytes }
    ensures turns { result.limits.turns ≡ asked_limit allowed.turns }
{
    Surroundings {
        partials,
        depth: allowed.setting.depth,
        missing: allowed.setting.missing,
        limits: limits_of(allowed),
    }
}

/// The limits on bytes and turns.
fn limits_of(allowed: Allowed) -> liquid_engine::Limits
    ensures bytes { result.bytes ≡ asked_limit allowed.bytes }
    ensures turns { result.turns ≡ asked_limit allowed.turns }
{
    liquid_engine::Limits {
        bytes: limit_of(allowed.bytes),
        turns: limit_of(allowed.turns),
    }
}

fn limit_of(asked: u64) -> Option<u64>
    ensures { result ≡ asked_limit asked }
{
    if asked == ANY_NUMBER {
        None
    } else {
        Some(asked)
    }
}

pub(crate) fn empty_data(alloc: Global) -> Object
    ensures { map_held result ≡ empty }
{
    BTreeMap::new(alloc)
}

/// The data that a handle holds, or none where it holds something else.
pub(crate) fn data_held<'a>(held: Option<&'a Content>, none: &'a Object) -> Option<&'a Object>
    requires { map_held none.now ≡ empty }
    ensures { option_map (λ d. map_held d.now) result ≡
        data_of_handle (option_map (λ h. h.now) held.entry) }
{
    match held {
        None => Some(none),
        Some(Content::Data(data)) => Some(data),
        Some(Content::DataPart(data, _)) => Some(data),
        Some(_) => None,
    }
}

/// The partials that a handle holds, or none where it holds something else.
pub(crate) fn partials_held<'a>(
    held: Option<&'a Content>,
    none: &'a Partials,
) -> Option<&'a Partials>
    requires { partials_of none.now ≡ [] }
    ensures { option_map (λ p. partials_of p.now) result ≡
        partials_of_handle (option_map (λ h. h.now) held.entry) }
{
    match held {
        None => Some(none),
        Some(Content::Partials(partials, _)) => Some(partials),
        Some(_) => None,
    }
}

/// The most levels that one of the partials that a handle holds reaches by itself.
pub(crate) fn levels_held(held: Option<&Content>) -> TemplateLevels
    ensures { result ≡ levels_of_handle (option_map (λ h. h.now) held.entry) }
{
    match held {
        Some(Content::Partials(_, levels)) => *levels,
        _ => TemplateLevels::none(),
    }
}
