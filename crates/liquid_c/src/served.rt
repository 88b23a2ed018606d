//! Runs over data that were read for paths.
ghost use Rattle.std.specs.Prelude.{◌≡◌, IfErr, IfOk, MatchOption, option_map};
ghost use Rattle.liquid_syntax.specs.Templates.{partials_of, tree_of};
ghost use Rattle.liquid_c.specs.Served.{Covers, IsServed, IsUnserved, Unserves};

use crate::content::Content;
use crate::refusal::Refusal;
use liquid_core::{ErrorKind, Result as Answer, Uses};
use liquid_model::includes_all;
use liquid_syntax::{Partials, Template};
use liquid_uses::data_uses;
use std::alloc::Global;

/// What a call answers whose run isn't begun, since its data were read for paths and it asks for
/// more; nothing where the data serve it.
pub(crate) fn unserved(
    alloc: Global,
    data: Option<&Content>,
    template: &Template,
    partials: Option<&Partials>,
) -> Option<Result<Content, Refusal>>
    ensures { MatchOption result
        (IsServed (option_map (λ h. h.now) «data».entry)
        (option_map (λ p. partials_of p.now) partials.entry) (tree_of template.now))
        (IsUnserved (option_map (λ h. h.now) «data».entry)
        (option_map (λ p. partials_of p.now) partials.entry) (tree_of template.now)) }
{
    let Some(Content::DataPart(_, uses)) = data else {
        return None;
    };
    match partials {
        Some(partials) => unserved_by(alloc, uses, template, partials),
        None => None,
    }
}

/// The same of data that were read for these uses.
#[tactic(auto, using(crate::proofs::ServedRuns::serves))]
fn unserved_by(
    alloc: Global,
    uses: &Uses,
    template: &Template,
    partials: &Partials,
) -> Option<Result<Content, Refusal>>
    ensures { MatchOption result
        (Covers (partials_of partials.now) (tree_of template.now) uses.now)
        (Unserves uses.now (partials_of partials.now) (tree_of template.now)) }
{
    match asked_uses(alloc, template, partials) {
        Ok(asked) => {
            if includes_all(uses, &asked) {
                None
            } else {
                Some(Err(Refusal::OtherPaths))
            }
        }
        Err(fault) => Some(Ok(Content::Fault(fault))),
    }
}

/// What a run asks of its data.
pub(crate) fn asked_uses(alloc: Global, template: &Template, partials: &Partials) -> Answer<Uses>
    ensures covers { IfOk result (Covers (partials_of partials.now) (tree_of template.now)) }
    ensures memory { IfErr result (λ e. e.kind ≡ ErrorKind.Memory) }
{
    data_uses(alloc, template, partials)
}
