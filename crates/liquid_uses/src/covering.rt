//! Whether uses of names cover a run.
ghost use Rattle.std.specs.Prelude.{◌≡◌, true};
ghost use Rattle.liquid_model.specs.UseViews.{uses_view};
ghost use Rattle.liquid_evaluation.specs.Evaluation.{FilterAnswers};
ghost use Rattle.liquid_meaning.specs.FilterNeeds.{known_needs};
ghost use Rattle.liquid_meaning.specs.Reading.{covers};
ghost use Rattle.liquid_syntax.specs.Templates.{tree_of};
ghost use Rattle.liquid_uses.specs.Covered.{covered_setting};
ghost use Rattle.liquid_uses.specs.inside.OwnGrants.{held_grants, slots_grant, slot_values};

use crate::node_grants::nodes_granted;
use liquid_core::Uses;
use liquid_syntax::{Partials, Template};

/// Whether the uses ask for all that a run of the template over these partials can see, whatever
/// the filters of a host answer. It takes no memory.
///
/// Where the answer is false they may ask for it all the same: most filters are taken to see all of
/// their input, and a step that isn't a literal text all of the value that it is taken from.
pub fn covers(uses: &Uses, template: &Template, partials: &Partials) -> bool
    ensures { (answers : FilterAnswers) → result ≡ true
        → covers known_needs (uses_view uses.now) (covered_setting answers partials.now) (tree_of
        template.now) ≡ true }
{
    nodes_granted(uses, template.nodes()) && partials_granted(uses, partials)
}

fn partials_granted(uses: &Uses, partials: &Partials) -> bool
    ensures { result ≡ true → slots_grant (uses_view uses.now) (slot_values partials.now) ≡ true }
{
    for slot in partials.slots().values() {
        if !slot_granted(uses, slot) {
            return false;
        }
    }
    true
}

/// The template that a slot holds, if it holds one.
fn slot_granted(uses: &Uses, slot: &Option<Template>) -> bool
    ensures { result ≡ true → held_grants (uses_view uses.now) slot.now ≡ true }
{
    match slot {
        Some(template) => nodes_granted(uses, template.nodes()),
        None => true,
    }
}
