//! Pages whose filters of a host answer by a table.
ghost use Rattle.std.specs.Prelude.{◌≡◌, IfErr, IfOk, IfSome};
ghost use Rattle.liquid_core.specs.Held.{held};
ghost use Rattle.liquid_syntax.specs.Templates.{partials_of, tree_of};
ghost use Rattle.liquid_answers.specs.Answering.{IsAnswered, IsShort};
ghost use Rattle.liquid_answers.specs.Lacking.{IsLacking};

use crate::answers::Answers;
use crate::filter::TableFilters;
use crate::lacking::{Lacking, lacking_of, list_lacking};
use crate::missing_calls::MissingCalls;
use liquid_core::{ErrorKind, Object, Result};
use liquid_engine::{LimitedPage, Surroundings, render_hosted_page};
use liquid_syntax::Template;
use std::alloc::Global;
use std::cell::RefCell;

/// What a rendering over a table of answers comes to.
#[derive(Drop)]
pub enum Answered {
    /// The page. The table lacked no call that its run met.
    Page(LimitedPage),
    /// Calls that the table lacks.
    Lacking(Lacking),
}

/// The page of a template in a new run, whose filters of a host answer by a table.
///
/// Where the run meets a call that the table lacks, the template runs once more to find further
/// such calls, with nil in their places. So a call is among them also where only that nil led to
/// it. They are at most 1,000, and the text of all but the last has at most 1 MiB. `Memory` where a
/// growth was refused, and no other kind.
#[tactic(auto, using(crate::proofs::Listed::short_lacking))]
pub fn render_page_answered(
    alloc: Global,
    template: &Template,
    table: &Answers,
    around: Surroundings<'_>,
    data: &Object,
) -> Result<Answered>
    ensures answered { IfOk result (IsAnswered table.now around.entry.missing
        around.entry.depth (partials_of around.entry.partials.now) (held «data».now)
        (tree_of template.now)) }
    ensures bytes { IfOk result IsShort }
    ensures memory { IfErr result (λ e. e.kind ≡ ErrorKind.Memory) }
{
    let filters = TableFilters { table, asked: None };
    match render_hosted_page(alloc, template, &filters, around, data) {
        Ok(page) => Ok(Answered::Page(page)),
        Err(refused) => match lacking_in(alloc, template, table, around, data)? {
            Some(lacking) => Ok(Answered::Lacking(lacking)),
            None => Err(refused),
        },
    }
}

/// The calls that a run meets and the table lacks, or none where none was met.
fn lacking_in(
    alloc: Global,
    template: &Template,
    table: &Answers,
    around: Surroundings<'_>,
    data: &Object,
) -> Result<Option<Lacking>>
    ensures lacking { IfOk result (λ it. IfSome it (IsLacking table.now)) }
    ensures memory { IfErr result (λ e. e.kind ≡ ErrorKind.Memory) }
{
    let asked = RefCell::new(MissingCalls::new(alloc));
    let borrowed = Some(&asked);
    let filters = TableFilters {
        table,
        asked: borrowed,
    };
    drop(render_hosted_page(alloc, template, &filters, around, data));
    let listed = list_lacking(alloc, asked.into_inner(), table)?;
    if listed.is_empty() {
        return Ok(None);
    }
    Ok(Some(lacking_of(listed)?))
}
