//! Which pages are rendered again.
ghost use Rattle.std.specs.Prelude.{◌≡◌};
ghost use Rattle.liquid_syntax.specs.NameSets.{mentioned_in_set};
ghost use Rattle.liquid_syntax.specs.Templates.{partials_of, tree_of};
ghost use Rattle.liquid_site.specs.Contents.{mentions, mentions_any};
ghost use Rattle.liquid_site.specs.inside.Fresh.{selects};

use liquid_syntax::{Partials, Template};
use std::collections::BTreeSet;

/// Which pages are rendered again.
#[derive(Clone, Copy, Drop)]
pub(crate) enum Selection<'n> {
    /// All of them.
    All,
    /// Those whose template mentions the name.
    Naming(&'n str),
    /// Those whose template mentions one of the names.
    NamingAny(&'n BTreeSet<String>),
}

impl<'n> Selection<'n> {
    /// The pages that mention the name, or all of them where a partial does. It takes no memory.
    pub(crate) fn by_name(partials: &Partials, name: &'n str) -> Selection<'n>
        ensures { selects result ≡ mentions (partials_of partials.now) name.now }
    {
        if partials.mention(name) {
            return Selection::All;
        }
        Selection::Naming(name)
    }

    /// The pages that mention one of the names, or all of them where a partial does. It takes no
    /// memory.
    pub(crate) fn by_names(partials: &Partials, names: &'n BTreeSet<String>) -> Selection<'n>
        ensures { selects result ≡ mentions_any (partials_of partials.now)
            (mentioned_in_set names.now) }
    {
        if partials.mention_any(names) {
            return Selection::All;
        }
        Selection::NamingAny(names)
    }

    /// Whether the page of the template is among them.
    pub(crate) fn has(&self, template: &Template) -> bool
        ensures { result ≡ selects self.now (tree_of template.now) }
    {
        match self {
            Selection::All => true,
            Selection::Naming(name) => template.mentions(name),
            Selection::NamingAny(names) => template.mentions_any(names),
        }
    }
}
