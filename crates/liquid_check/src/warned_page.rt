//! Pages, and what they show silently.
ghost use Rattle.std.specs.Prelude.{◌≡◌, ◌≤◌, IfErr, IfOk, List, None, [], length, take};
ghost use Rattle.liquid_check.specs.Findings.{SaysAll};
ghost use Rattle.liquid_check.specs.Silence.{SaysSilent, silent_among};
ghost use Rattle.liquid_core.specs.Held.{held};
ghost use Rattle.liquid_engine.specs.LimitedPages.{PageWithin};
ghost use Rattle.liquid_engine.specs.Limits.{unlimited};
ghost use Rattle.liquid_engine.specs.Pages.{page_in};
ghost use Rattle.liquid_syntax.specs.Templates.{partials_of, tree_of};

use crate::remarks::remarks_of;
use liquid_core::{ErrorKind, Missing, Object, Result};
use liquid_engine::{LimitedPage, Surroundings, render_page_within};
use liquid_language::Language;
use liquid_syntax::Template;
use liquid_warnings::{CheckedFile, Given, Remark, WrittenFor, is_silent, warnings_of};
use std::alloc::{AllocError, Global};

/// The most warnings of a page.
pub const MOST_SILENT: usize = 100;

/// A template with its source, and the language that it was parsed in.
#[derive(Clone, Copy, Drop)]
pub struct ReadTemplate<'t> {
    pub source: &'t str,
    pub template: &'t Template,
    pub language: &'t Language,
}

/// A page, and what it shows silently.
#[derive(Drop)]
pub struct WarnedPage {
    /// The page, which is the same as without the warnings.
    pub page: LimitedPage,
    /// A hundred at most, in the order of their places.
    pub warnings: Vec<Remark>,
}

/// The page of a template within limits, as `render_page_within` renders it, and the warnings about
/// what it shows silently: those of its own source, not of partials.
///
/// The answer is `Memory` where a growth was refused, and no other kind.
pub fn render_warned_page<'t>(
    alloc: Global,
    read: ReadTemplate<'t>,
    around: Surroundings<'_>,
    data: &'t Object,
) -> Result<WarnedPage>
    ensures page { IfOk result (λ w. PageWithin (page_in around.entry.missing around.entry.depth
        (partials_of around.entry.partials.now) (held «data».now)
        (tree_of read.entry.template.now)) w.page) }
    ensures free { around.entry.limits ≡ unlimited → IfOk result (λ w. w.page.limit ≡ None) }
    // the first hundred of what it shows silently
    ensures warned { IfOk result (λ w. (all : List Remark) ×
        SaysSilent WrittenFor.Bikleinu around.entry.missing read.entry.template.now all
        × (w.warnings.items ≡ take 100 all)) }
    ensures bounded { IfOk result (λ w. length w.warnings.items ≤ 100) }
    ensures memory { IfErr result (λ e. e.kind ≡ ErrorKind.Memory) }
{
    let warnings = silent_warnings(alloc, read, around.missing, data)?;
    let page = render_page_within(alloc, read.template, around, data)?;
    Ok(WarnedPage { page, warnings })
}

/// What the page shows silently, the first hundred.
fn silent_warnings<'t>(
    alloc: Global,
    read: ReadTemplate<'t>,
    missing: Missing,
    data: &'t Object,
) -> Result<Vec<Remark>>
    ensures warned { IfOk result (λ ws. (all : List Remark) ×
        SaysSilent WrittenFor.Bikleinu missing read.entry.template.now all
        × (ws.items ≡ take 100 all)) }
    ensures bounded { IfOk result (λ ws. length ws.items ≤ 100) }
    ensures memory { IfErr result (λ e. e.kind ≡ ErrorKind.Memory) }
{
    let given = Given {
        data: Some(data),
        language: read.language,
        written_for: WrittenFor::Bikleinu,
        partials: None,
        attributes: false,
    };
    let file = CheckedFile {
        text: Some(read.source),
        template: Some(read.template),
        is_page: true,
    };
    let mut lists = warnings_of(alloc, &[file], given)?;
    // there is a list for the one file
    let Some(remarks) = lists.pop() else {
        unreachable!();
    };
    let mut warnings = silent_of(alloc, remarks, read.template, missing)?;
    warnings.truncate(MOST_SILENT);
    Ok(warnings)
}

/// Those of a template's warnings that are about what a page shows silently, in the order of their
/// places. `AllocError` where there is no room for them, and nowhere else.
pub fn silent_of(
    alloc: Global,
    remarks: Vec<Remark>,
    template: &Template,
    missing: Missing,
) -> std::result::Result<Vec<Remark>, AllocError>
    ensures { IfOk result (λ rs.
        SaysAll [] (silent_among missing template.now remarks.items) rs.items) }
{
    let mut silent = remarks;
    keep_silent(&mut silent, template, missing);
    remarks_of(alloc, &[], silent)
}

/// Leaves out the warnings that are about something else.
fn keep_silent(warnings: &mut Vec<Remark>, template: &Template, missing: Missing)
    ensures { warnings.new.items ≡ silent_among missing template.now warnings.old.items }
{
    warnings.retain(|remark| is_silent(remark, template, missing));
}
