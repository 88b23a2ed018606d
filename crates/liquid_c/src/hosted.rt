//! Renderings over a table of answers.
ghost use Rattle.std.specs.Prelude.{◌≡◌, Ok, Some, option_map};
ghost use Rattle.liquid_core.specs.Held.{held as map_held};
ghost use Rattle.liquid_syntax.specs.Templates.{partials_of, tree_of};
ghost use Rattle.liquid_c.specs.Calls.{OfBoth, WhereAllowed, allowed_by_limits};
ghost use Rattle.liquid_c.specs.Hosted.{IsHosted, ShowsAnswered, ShowsUnlessDeep};
ghost use Rattle.liquid_c.specs.ResultStored.{ResultStored};
ghost use Rattle.liquid_c.specs.Shared.{shared_content};

use crate::content::Content;
use crate::handle::Handle;
use crate::handle_content::held_content;
use crate::refusal::{Refusal, store_result};
use crate::render::{
    Allowed, RenderLimits, allowed_by, around, data_held, empty_data, levels_held, partials_held,
};
use crate::served::unserved;
use liquid_answers::{Answered, Answers, render_page_answered};
use liquid_core::Object;
use liquid_engine::LimitedPage;
use liquid_syntax::{Partials, Template};
use std::alloc::Global;

/// The same as `bikleinu_render_within`, with filters of the caller's whose answers stand in a
/// table. Where the run meets a call that the table lacks the call answers 106, and `made` holds
/// such calls in place of a page.
#[unsafe(no_mangle)]
pub extern "C" fn bikleinu_render_with(
    alloc: Global,
    template: &mut Handle,
    data: &mut Handle,
    partials: &mut Handle,
    depth: u32,
    limits: &RenderLimits,
    answers: &mut Handle,
    made: &mut Handle,
) -> u32
    ensures rendered { ResultStored (WhereAllowed (allowed_by_limits depth limits.now)
        (IsHosted (shared_content template.old.held)
        (shared_content «data».old.held) (shared_content partials.old.held)
        (shared_content answers.old.held)))
        result made.new.held }
    ensures template { template.new.held ≡ template.old.held }
    ensures data { «data».new.held ≡ «data».old.held }
    ensures partials { partials.new.held ≡ partials.old.held }
    ensures answers { answers.new.held ≡ answers.old.held }
{
    let allowed = allowed_by(depth, limits);
    let held_template = template.take(alloc);
    let held_data = data.take(alloc);
    let held_partials = partials.take(alloc);
    let held_answers = answers.take(alloc);
    let answer = page(
        alloc,
        CallContents {
            template: held_content(&held_template),
            data: held_content(&held_data),
            partials: held_content(&held_partials),
            answers: held_content(&held_answers),
        },
        allowed,
    );
    template.put(alloc, held_template);
    data.put(alloc, held_data);
    partials.put(alloc, held_partials);
    answers.put(alloc, held_answers);
    store_result(alloc, answer, made)
}

/// What the handles of a call hold.
#[derive(Clone, Copy, Drop)]
struct CallContents<'h> {
    template: Option<&'h Content>,
    data: Option<&'h Content>,
    partials: Option<&'h Content>,
    answers: Option<&'h Content>,
}

fn page(
    alloc: Global,
    contents: CallContents<'_>,
    allowed: Option<Allowed>,
) -> Result<Content, Refusal>
    ensures { WhereAllowed allowed (IsHosted
        (option_map (λ h. h.now) contents.entry.template)
        (option_map (λ h. h.now) contents.entry.«data»)
        (option_map (λ h. h.now) contents.entry.partials)
        (option_map (λ h. h.now) contents.entry.answers)) result }
{
    let Some(allowed) = allowed else {
        return Err(Refusal::NoSuchMissing);
    };
    let Some(Content::Template(template, levels)) = contents.template else {
        return Err(Refusal::OtherHandle);
    };
    let Some(Content::Answers(table)) = contents.answers else {
        return Err(Refusal::OtherHandle);
    };
    let no_data = empty_data(alloc);
    let no_partials = Partials::new(alloc);
    let others = partials_held(contents.partials, &no_partials);
    if let Some(answer) = unserved(alloc, contents.data, template, others) {
        return answer;
    }
    let is_deep = levels.pass(
        levels_held(contents.partials),
        allowed.setting.depth,
        allowed.levels,
    );
    shown(
        alloc,
        Hosted { template, table },
        is_deep,
        data_held(contents.data, &no_data),
        others,
        allowed,
    )
}

/// A template, and the answers of the filters that it calls.
#[derive(Clone, Copy, Drop)]
struct Hosted<'h> {
    template: &'h Template,
    table: &'h Answers,
}

/// The page over data and with partials, where both are there and it isn't too deep.
fn shown(
    alloc: Global,
    hosted: Hosted<'_>,
    is_deep: bool,
    data: Option<&Object>,
    partials: Option<&Partials>,
    allowed: Allowed,
) -> Result<Content, Refusal>
    ensures { OfBoth
        (option_map (λ d. map_held d.now) «data».entry)
        (option_map (λ p. partials_of p.now) partials.entry)
        (ShowsUnlessDeep is_deep hosted.entry.table.now
        (tree_of hosted.entry.template.now) allowed.setting) result }
{
    let Some(data) = data else {
        return Err(Refusal::OtherHandle);
    };
    let Some(partials) = partials else {
        return Err(Refusal::OtherHandle);
    };
    if is_deep {
        return Err(Refusal::TooManyLevels);
    }
    Ok(answered(alloc, hosted, data, partials, allowed))
}

/// The page, or the calls that the table lacks.
fn answered(
    alloc: Global,
    hosted: Hosted<'_>,
    data: &Object,
    partials: &Partials,
    allowed: Allowed,
) -> Content
    ensures { ShowsAnswered hosted.entry.table.now (tree_of hosted.entry.template.now)
        allowed.setting (map_held «data».now) (partials_of partials.now) (Ok result) }
{
    let around = around(partials, allowed);
    match render_page_answered(alloc, hosted.template, hosted.table, around, data) {
        Ok(Answered::Page(LimitedPage { page, limit })) => match limit {
            None => Content::Page(page),
            Some(limit) => Content::Ended(page, limit),
        },
        Ok(Answered::Lacking(calls)) => Content::Lacking(calls),
        Err(fault) => Content::Fault(fault),
    }
}
