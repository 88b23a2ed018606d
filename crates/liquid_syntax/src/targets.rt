//! Whether the pairs of an include bind a name.
ghost use Rattle.std.specs.Prelude.{◌≡◌};
ghost use Rattle.liquid_evaluation.specs.Names.{include_name, mentioned, target_names};
ghost use Rattle.liquid_syntax.specs.Flats.{bindings_view};

use crate::names::Search;
use crate::node::Binding;
use crate::visit_nodes::{visit_include_name, visit_targets};

/// Whether one of the pairs of an `include` or a `render` has this name. It takes no memory.
pub fn binds_name(pairs: &[Binding], name: &str) -> bool
    ensures { result ≡ mentioned (target_names (bindings_view pairs.now)) name.now }
{
    let mut search = Search { wanted: name };
    visit_targets(pairs, &mut search)
}

/// Whether a jekyll `include` with these pairs binds this name: it is `include`, and there are
/// pairs. It takes no memory.
pub fn binds_include(pairs: &[Binding], name: &str) -> bool
    ensures { result ≡ mentioned (include_name (bindings_view pairs.now)) name.now }
{
    let mut search = Search { wanted: name };
    visit_include_name(pairs, &mut search)
}
