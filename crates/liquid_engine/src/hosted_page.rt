//! Pages of runs with filters of a host.
ghost use Rattle.std.specs.Prelude.{◌≡◌, ◌≤◌, [], IfErr, IfOk, Some, None, length, string_bytes};
ghost use Rattle.liquid_core.specs.Held.{held};
ghost use Rattle.liquid_core.specs.States.{environment_of, loops_of};
ghost use Rattle.liquid_syntax.specs.Templates.{partials_of, tree_of};
ghost use Rattle.liquid_engine.specs.HostedPages.{EndsOtherwise, hosted_page};
ghost use Rattle.liquid_engine.specs.LimitedPages.{KeepsLimits, PageWithin};
ghost use Rattle.liquid_engine.specs.Limits.{unlimited};
ghost use Rattle.liquid_engine.specs.Pages.{shown};
ghost use Rattle.liquid_engine.specs.Performs.{Performs};
ghost use Rattle.liquid_engine.specs.inside.Engine.{with_writer, nodes_in};
ghost use Rattle.liquid_engine.specs.inside.Reserves.{are_limited, reserve_of};

use crate::borrowed_data::run_with_borrowed_data;
use crate::context::{Places, RunContext};
use crate::counted::{CountedWrite, NoWriter};
use crate::limits::{Limited, are_none};
use crate::output::Output;
use crate::rendered_page::{LimitedPage, page_of_end, state_over};
use crate::surroundings::Surroundings;
use liquid_core::{ErrorKind, NamedFilters, Object, Result, State};
use liquid_syntax::Template;
use std::alloc::Global;

/// The page of a template in a new run over this data, with filters of a host and within limits.
/// The data is borrowed, so that nothing of it is copied.
///
/// It has no more bytes than the limit on them. Where no limit is reached it is the whole page.
/// Else it has a beginning of its text, and says which of the limits ended it. The answer is
/// `Memory` where a growth was refused and where a filter of the host answers that kind, and no
/// other kind. So no page ends by `Memory`.
pub fn render_hosted_page<H: NamedFilters>(
    alloc: Global,
    template: &Template,
    host: &H,
    around: Surroundings<'_>,
    data: &Object,
) -> Result<LimitedPage>
    ensures page { IfOk result (λ p. PageWithin (hosted_page around.entry.missing
        (H.named host.now) around.entry.depth (partials_of around.entry.partials.now)
        (held «data».now) (tree_of template.now)) p) }
    ensures limits { IfOk result (KeepsLimits around.entry.limits) }
    // without limits none ends it
    ensures free { around.entry.limits ≡ unlimited → IfOk result (λ p. p.limit ≡ None) }
    ensures ended { IfOk result (λ p. EndsOtherwise p.page) }
    ensures memory { IfErr result (λ e. e.kind ≡ ErrorKind.Memory) }
{
    let mut state = state_over(alloc, around.missing, data);
    let context = RunContext {
        partials: around.partials,
        host,
        depth: around.depth,
        places: Places::of(template),
    };
    if are_none(around.limits) {
        return hosted_without_limits(alloc, template, &context, &mut state);
    }
    let mut writer = Limited::new(NoWriter, around.limits);
    let (text, answer) = text_with(alloc, template, &context, &mut writer, &mut state);
    let limit = writer.ended_by();
    let page = page_of_end(text, answer)?;
    Ok(LimitedPage { page, limit })
}

/// The page of a template in a run that no limit ends.
fn hosted_without_limits<H: NamedFilters>(
    alloc: Global,
    template: &Template,
    context: &RunContext<'_, H>,
    state: &mut State<'_>,
) -> Result<LimitedPage>
    requires plain { length (loops_of state.old) ≡ 0 }
    ensures page { IfOk result (λ p. PageWithin
        (shown (nodes_in H.named context.now (tree_of template.now) (environment_of state.old)))
        p) }
    ensures free { IfOk result (λ p. p.limit ≡ None) }
    ensures limits { IfOk result (KeepsLimits unlimited) }
    ensures ended { IfOk result (λ p. EndsOtherwise p.page) }
    ensures memory { IfErr result (λ e. e.kind ≡ ErrorKind.Memory) }
{
    let (text, answer) = text_with(alloc, template, context, &mut NoWriter, state);
    let page = page_of_end(text, answer)?;
    Ok(LimitedPage { page, limit: None })
}

/// Runs the nodes of a template into a buffer, while the writer grants it. The text, up to the
/// first fault or refusal, and how the run ended.
fn text_with<W: CountedWrite, H: NamedFilters>(
    alloc: Global,
    template: &Template,
    context: &RunContext<'_, H>,
    writer: &mut W,
    state: &mut State<'_>,
) -> (String, Result<()>)
    requires plain { length (loops_of state.old) ≡ 0 }
    ensures performs { Performs result.1 (nodes_in H.named context.now (tree_of template.now))
        (with_writer W.contents W.failure_count writer.old [] (environment_of state.old))
        (with_writer W.contents W.failure_count writer.new (string_bytes result.0)
        (environment_of state.new)) }
    // the text took its bytes
    ensures bounded { reserve_of (Some (string_bytes result.0)) (W.left writer.new).bytes ≤
        reserve_of (Some []) (W.left writer.old).bytes }
    ensures limited { are_limited (W.left writer.new) ≡ are_limited (W.left writer.old) }
{
    let mut out = Output {
        writer,
        buffer: Some(String::new(alloc)),
    };
    let answer = run_with_borrowed_data(alloc, template, context, &mut out, state);
    let text = out.close(None);
    let Output {
        writer: left,
        buffer,
    } = out;
    drop(buffer);
    // No effect at run time. The proof reads what the writer is from this use.
    let _ = &*left;
    (text, answer)
}
