//! What a template asks of its data: of the names that it doesn't bind itself.
ghost use Rattle.std.specs.Prelude.{◌≡◌, IfOk, IfErr};
ghost use Rattle.liquid_model.specs.UseViews.{uses_view};
ghost use Rattle.liquid_syntax.specs.Templates.{tree_of};
ghost use Rattle.liquid_uses.specs.Covered.{SeesDataAlone};

use crate::free_names::{body_ends, free_names};
use crate::kept::{keep_all, kept_uses};
use crate::partial_reads::are_known;
use crate::readings::{Reading, find_readings};
use crate::scoped::are_scoped;
use crate::scopes::Scopes;
use crate::uses::uses_of;
use liquid_core::{ErrorKind, Result, Uses};
use liquid_syntax::{Partials, Template};
use std::alloc::Global;

/// The parts of its data that a run of the template over these partials can see, name by name.
///
/// Two runs over data that are alike in them write the same text and end alike, whatever the
/// filters of a host answer. They are those of [uses_of], but for the names that the template binds
/// wherever it reads them: the variable of a loop in its body, and after it a name that is assigned
/// or captured, or a counter, up to the end of the body that it stands in; in a partial also the
/// pairs that it is included with. What only partials read that are rendered isn't among them
/// either. Where the name of a partial that is included isn't a text that stands there, all are.
///
/// `Memory` where there is no room for them.
pub fn data_uses(alloc: Global, template: &Template, partials: &Partials) -> Result<Uses>
    ensures alone { IfOk result (λ uses.
        SeesDataAlone (uses_view uses) partials.now (tree_of template.now)) }
    ensures memory { IfErr result (λ e. e.kind ≡ ErrorKind.Memory) }
{
    let nodes = template.nodes();
    let uses = uses_of(alloc, template, partials)?;
    let readings = find_readings(alloc, partials)?;
    let ends = body_ends(alloc, nodes)?;
    match free_names(alloc, nodes, &ends, &readings)? {
        Reading::Any => Ok(uses),
        Reading::Only(names) => {
            let scopes = Scopes {
                nodes,
                ends: &ends,
                readings: &readings,
                kept: &names,
            };
            let is_scoped = are_scoped(alloc, scopes)?;
            let are_known = are_known(alloc, &readings, partials)?;
            let kept = kept_uses(alloc, &uses, &names)?;
            let are_kept = keep_all(&kept, &uses, &names);
            if is_scoped && are_known && are_kept {
                Ok(kept)
            } else {
                Ok(uses)
            }
        }
    }
}
