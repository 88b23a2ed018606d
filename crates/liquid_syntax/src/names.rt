//! The visitors that are given the names that templates mention: one looks for a name, one for
//! any of a set, and one gathers all.
ghost use Rattle.std.specs.Prelude.{◌≡◌, [], ◌∷◌, OnOk};
ghost use Rattle.liquid_model.specs.Texts.{same_text};
ghost use Rattle.liquid_syntax.specs.inside.NameVisitors.{gathers, looks};
ghost use Rattle.liquid_syntax.specs.NameSets.{Gathers, Looks, added, mentioned_in_set};

use liquid_evaluation::NameVisitor;
use std::alloc::{AllocError, Global};
use std::collections::BTreeSet;

/// Looks for a name, and ends the visit where it is given that name.
#[derive(Clone, Copy, Drop)]
pub(crate) struct Search<'n> {
    pub wanted: &'n str,
}

impl NameVisitor for Search<'_> {
    ghost tells = { Looks (λ search. same_text search.wanted.now) };

    fn visit(&mut self, name: &str) -> bool {
        name == self.wanted
    }

    ghost laws = { looks (λ search. same_text search.wanted.now) };
}

/// Looks for the names of a set, and ends the visit where it is given one of them.
#[derive(Clone, Copy, Drop)]
pub(crate) struct SearchAny<'n> {
    pub wanted: &'n BTreeSet<String>,
}

impl NameVisitor for SearchAny<'_> {
    ghost tells = { Looks (λ search. mentioned_in_set search.wanted.now) };

    fn visit(&mut self, name: &str) -> bool {
        self.wanted.contains(name)
    }

    ghost laws = { looks (λ search. mentioned_in_set search.wanted.now) };
}

/// Gathers the names that it is given, and ends the visit where there is no room for one.
#[derive(Drop)]
pub(crate) struct Gather {
    pub alloc: Global,
    pub names: BTreeSet<String>,
}

impl NameVisitor for Gather {
    ghost tells = { Gathers (λ gather. mentioned_in_set gather.names) };

    fn visit(&mut self, name: &str) -> bool {
        add_name(self.alloc, &mut self.names, name).is_err()
    }

    ghost laws = { gathers (λ gather. mentioned_in_set gather.names) };
}

/// Puts a name into the set. It is copied only where the set doesn't have it.
pub fn add_name(alloc: Global, names: &mut BTreeSet<String>, name: &str) -> Result<(), AllocError>
    ensures { OnOk result (mentioned_in_set names.new ≡
        added (name.now ∷ []) (mentioned_in_set names.old)) }
{
    if !names.contains(name) {
        names.insert(String::from_str(alloc, name)?)?;
    }
    Ok(())
}
