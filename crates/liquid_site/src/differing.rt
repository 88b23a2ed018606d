//! The names under which two data differ.
ghost use Rattle.std.specs.Prelude.{◌≡◌};
ghost use Rattle.std.specs.Map.{keys_of};
ghost use Rattle.liquid_model.specs.Answer.{IsValueOrMemory};
ghost use Rattle.liquid_core.specs.Held.{held};
ghost use Rattle.liquid_syntax.specs.NameSets.{added, mentioned_in_set as held_names};
ghost use Rattle.liquid_site.specs.Steps.{differs};
ghost use Rattle.liquid_site.specs.inside.Differing.{differing};

use liquid_core::{Object, Result, look_up};
use liquid_syntax::add_name;
use std::alloc::Global;
use std::collections::BTreeSet;

/// Two data, one in place of the other.
#[derive(Clone, Copy, Drop)]
pub(crate) struct Replaced<'d> {
    pub old: &'d Object,
    pub new: &'d Object,
}

/// The names under which the two data differ.
pub(crate) fn differing_names(alloc: Global, data: Replaced<'_>) -> Result<BTreeSet<String>>
    ensures { IsValueOrMemory held_names result (differs (held «data».entry.old.now)
        (held «data».entry.new.now)) }
{
    let mut names = BTreeSet::new(alloc);
    add_differing(alloc, &mut names, data.old, data)?;
    add_differing(alloc, &mut names, data.new, data)?;
    Ok(names)
}

/// Adds the names of an object under which the two data differ.
fn add_differing(
    alloc: Global,
    names: &mut BTreeSet<String>,
    object: &Object,
    data: Replaced<'_>,
) -> Result<()>
    ensures { IsValueOrMemory (λ _. held_names names.new) result
        (added (differing (held «data».entry.old.now) (held «data».entry.new.now)
        (keys_of object.now.entries)) (held_names names.old)) }
{
    for (name, _) in object.iter() {
        if data.differ(name.as_str()) {
            add_name(alloc, names, name.as_str())?;
        }
    }
    Ok(())
}

impl Replaced<'_> {
    /// Whether the two differ under the name.
    fn differ(&self, name: &str) -> bool
        ensures { result ≡ differs (held self.now.old.now) (held self.now.new.now) name.now }
    {
        match (look_up(self.old, name), look_up(self.new, name)) {
            (Some(before), Some(after)) => *before != *after,
            (None, None) => false,
            (Some(_), None) | (None, Some(_)) => true,
        }
    }
}
