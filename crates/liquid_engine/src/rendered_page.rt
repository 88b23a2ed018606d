//! Pages: what a template shows in a run of its own, with how that run ended.
ghost use Rattle.std.specs.Prelude.{◌≡◌, [], false, IfErr, IfOk, None, option_map, string_bytes};
ghost use Rattle.liquid_model.specs.Answer.{IsValueOrMemory};
ghost use Rattle.liquid_model.specs.ErrorKinds.{is_memory};
ghost use Rattle.liquid_core.specs.Held.{held};
ghost use Rattle.liquid_core.specs.States.{layers_of, loops_of, new_layers, with_missing};
ghost use Rattle.liquid_syntax.specs.Templates.{partials_of, tree_of};
ghost use Rattle.liquid_engine.specs.HostedPages.{EndsOtherwise};
ghost use Rattle.liquid_engine.specs.LimitedPages.{KeepsLimits, PageWithin};
ghost use Rattle.liquid_engine.specs.Limits.{unlimited};
ghost use Rattle.liquid_engine.specs.Pages.{ended_page, page_by, page_in, page_over, page_view};

use crate::counted::NoWriter;
use crate::limits::{LimitReached, Limited, are_none};
use crate::render::{text_beside, text_of_run};
use crate::run_setting::RunSetting;
use crate::runtime::Runtime;
use crate::surroundings::Surroundings;
use liquid_core::{Data, Error, ErrorKind, Missing, Object, Result, State};
use liquid_syntax::{Partials, Template};
use std::alloc::Global;
use std::collections::BTreeMap;

/// What a template shows.
#[derive(Drop)]
pub struct Page {
    /// The text, up to the fault.
    pub text: String,
    /// The fault that the run ended by, where there is one.
    pub fault: Option<Error>,
}

impl Page {
    /// The kind of the fault that the run ended by, where there is one. It takes no memory.
    pub fn kind(&self) -> Option<ErrorKind>
        ensures kind { result ≡ option_map (λ fault. fault.kind) self.now.fault }
    {
        match &self.fault {
            Some(fault) => Some(fault.kind),
            None => None,
        }
    }
}

/// The page of a template in a new run over this data, without filters of a host. The data is
/// borrowed, so that nothing of it is copied. A missing value is a fault.
///
/// A fault is the page's end, and the page has the text up to there. The answer is `Memory` where a
/// growth was refused, and no other kind.
pub fn render_page(
    alloc: Global,
    template: &Template,
    partials: &Partials,
    depth: u32,
    data: &Object,
) -> Result<Page>
    ensures { IsValueOrMemory page_view result (page_over depth (partials_of partials.now)
        (held «data».now) (tree_of template.now)) }
{
    render_page_by(alloc, template, partials, RunSetting::strict(depth), data)
}

/// The page of a template as of [render_page], in a run that goes by this setting.
pub fn render_page_by(
    alloc: Global,
    template: &Template,
    partials: &Partials,
    setting: RunSetting,
    data: &Object,
) -> Result<Page>
    ensures { IsValueOrMemory page_view result (page_by setting (partials_of partials.now)
        (held «data».now) (tree_of template.now)) }
{
    let mut runtime = Runtime {
        state: state_over(alloc, setting.missing, data),
        partials: Some(partials),
        host: None,
        depth: setting.depth,
    };
    let (text, answer) = text_of_run(alloc, template, &mut runtime);
    page_of_end(text, answer)
}

/// What a template shows within limits.
#[derive(Drop)]
pub struct LimitedPage {
    /// The page. Where a limit ended it, it has the text up to there, and its fault is of the kind
    /// `Write`.
    pub page: Page,
    /// The limit that ended it, where one did.
    pub limit: Option<LimitReached>,
}

/// The page of a template as of [render_page], within limits, where a missing value is what is
/// said of it.
///
/// It has no more bytes than the limit on them. Where no limit is reached it is the whole page.
/// Else it has a beginning of its text, and says which of the limits ended it. The answer is
/// `Memory` where a growth was refused, and no other kind.
pub fn render_page_within(
    alloc: Global,
    template: &Template,
    around: Surroundings<'_>,
    data: &Object,
) -> Result<LimitedPage>
    ensures page { IfOk result (λ p. PageWithin (page_in around.entry.missing around.entry.depth
        (partials_of around.entry.partials.now) (held «data».now) (tree_of template.now)) p) }
    ensures limits { IfOk result (KeepsLimits around.entry.limits) }
    // without limits none ends it
    ensures free { around.entry.limits ≡ unlimited → IfOk result (λ p. p.limit ≡ None) }
    ensures memory { IfErr result (λ e. e.kind ≡ ErrorKind.Memory) }
{
    if are_none(around.limits) {
        return page_without_limits(alloc, template, around, data);
    }
    let mut runtime = Runtime {
        state: state_over(alloc, around.missing, data),
        partials: Some(around.partials),
        host: None,
        depth: around.depth,
    };
    let mut writer = Limited::new(NoWriter, around.limits);
    let (text, answer) = text_beside(alloc, template, &mut writer, &mut runtime);
    let limit = writer.ended_by();
    let page = page_of_end(text, answer)?;
    Ok(LimitedPage { page, limit })
}

/// The page of [render_page_within], where there are no limits.
fn page_without_limits(
    alloc: Global,
    template: &Template,
    around: Surroundings<'_>,
    data: &Object,
) -> Result<LimitedPage>
    requires { around.limits ≡ unlimited }
    ensures page { IfOk result (λ p. PageWithin (page_in around.entry.missing around.entry.depth
        (partials_of around.entry.partials.now) (held «data».now) (tree_of template.now)) p) }
    ensures limits { IfOk result (KeepsLimits around.entry.limits) }
    ensures free { IfOk result (λ p. p.limit ≡ None) }
    ensures memory { IfErr result (λ e. e.kind ≡ ErrorKind.Memory) }
{
    let setting = RunSetting {
        depth: around.depth,
        missing: around.missing,
    };
    let page = render_page_by(alloc, template, around.partials, setting, data)?;
    Ok(LimitedPage { page, limit: None })
}

/// A new state over borrowed data, in which a missing value is this. It takes no memory.
pub(crate) fn state_over<'d>(alloc: Global, missing: Missing, data: &'d Object) -> State<'d>
    ensures layers { layers_of result ≡ with_missing missing (new_layers (held «data».now)) }
    ensures loops { loops_of result ≡ [] }
{
    let mut empty = State::new(alloc, BTreeMap::new(alloc));
    empty.set_missing(missing);
    let (parts, none) = empty.into_parts();
    drop(none);
    State::from_parts(alloc, parts, Data::Borrowed(data))
}

/// The page of a run that wrote this text and ended by this answer.
pub(crate) fn page_of_end(text: String, answer: Result<()>) -> Result<Page>
    ensures page { IfOk result (λ page. page_view page ≡ ended_page (string_bytes text) answer) }
    ensures ran { IfOk result (λ _. IfErr answer (λ e. is_memory e.kind ≡ false)) }
    ensures ended { IfOk result EndsOtherwise }
    ensures memory { IfErr result (λ e. e.kind ≡ ErrorKind.Memory) }
{
    match answer {
        Ok(()) => Ok(Page { text, fault: None }),
        Err(error) => match error.kind {
            ErrorKind::Memory => Err(error),
            _ => Ok(Page {
                text,
                fault: Some(error),
            }),
        },
    }
}
