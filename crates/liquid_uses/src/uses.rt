//! What a template asks of its data, name by name.
ghost use Rattle.std.specs.Prelude.{◌≡◌, true, IfOk, IfErr};
ghost use Rattle.liquid_model.specs.UseViews.{uses_view};
ghost use Rattle.liquid_evaluation.specs.Evaluation.{FilterAnswers};
ghost use Rattle.liquid_meaning.specs.FilterNeeds.{known_needs};
ghost use Rattle.liquid_meaning.specs.Reading.{covers};
ghost use Rattle.liquid_syntax.specs.Templates.{tree_of};
ghost use Rattle.liquid_uses.specs.Covered.{covered_setting, SeesAlone};

use crate::covering::covers;
use crate::rounds::fixpoint_uses;
use crate::whole_names::whole_names;
use liquid_core::{ErrorKind, Result, Uses};
use liquid_syntax::{Partials, Template};
use std::alloc::Global;

/// The parts of its data that a run of the template over these partials can see, name by name.
///
/// Over data that are alike in them a run writes the same text and ends alike, whatever the filters
/// of a host answer. They are no less than a run can see, and may be more: most filters are taken
/// to see all of their input, and a step that isn't a literal text all of the value that it is
/// taken from.
/// Names that the template sets or binds stand among them, since data of these names is seen
/// wherever they aren't set. Where rounds over the template don't find the parts, each name that
/// the template or a partial mentions is answered whole.
///
/// `Memory` where there is no room for them.
pub fn uses_of(alloc: Global, template: &Template, partials: &Partials) -> Result<Uses>
    ensures covers { (answers : FilterAnswers) → IfOk result (λ uses.
        covers known_needs (uses_view uses) (covered_setting answers partials.now)
        (tree_of template.now)
        ≡ true) }
    ensures alone { IfOk result (λ uses.
        SeesAlone (uses_view uses) partials.now (tree_of template.now)) }
    ensures memory { IfErr result (λ e. e.kind ≡ ErrorKind.Memory) }
{
    let names = template.names(alloc, partials)?;
    let whole = whole_names(alloc, names)?;
    let fixpoint = fixpoint_uses(alloc, &whole, template, partials)?;
    if covers(&fixpoint, template, partials) {
        Ok(fixpoint)
    } else {
        Ok(whole)
    }
}
