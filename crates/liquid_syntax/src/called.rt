//! The names of partials that stand in a template.
ghost use Rattle.std.specs.Prelude.{◌≡◌, [], ◌∷◌, IfErr, IfOk, OnOk};
ghost use Rattle.liquid_syntax.specs.CallView.{partial_call_view};
ghost use Rattle.liquid_syntax.specs.Called.{AreCalled, Gathered};
ghost use Rattle.liquid_syntax.specs.Templates.{tree_of};
ghost use Rattle.liquid_syntax.specs.inside.Calls.{own_calls};
ghost use Rattle.liquid_evaluation.specs.PartialCalls.{nodes_calls};

use crate::calls::{PartialCall, partial_call};
use crate::names::add_name;
use crate::node::Node;
use crate::template::Template;
use crate::wanted::with_liquid;
use liquid_core::{ErrorKind, Result as Answer};
use std::alloc::{AllocError, Global};
use std::collections::BTreeSet;

/// The names under which a template itself can look up partials, ascending and each once; a
/// `render` gives its name and that with `.liquid`. None where a place looks up a name that only
/// its run knows.
///
/// `Memory` where there is no room for them.
pub fn called_names(alloc: Global, template: &Template) -> Answer<Option<BTreeSet<String>>>
    ensures exact { IfOk result (AreCalled (nodes_calls (tree_of template.now))) }
    ensures memory { IfErr result (λ e. e.kind ≡ ErrorKind.Memory) }
{
    let mut called = Called {
        any: false,
        names: BTreeSet::new(alloc),
    };
    called.add_calls(alloc, template)?;
    let Called { any, names } = called;
    if any { Ok(None) } else { Ok(Some(names)) }
}

/// Names that are gathered, and whether there is one that only a run knows.
#[derive(Drop)]
pub(crate) struct Called {
    any: bool,
    names: BTreeSet<String>,
}

impl Called {
    fn add_calls(&mut self, alloc: Global, template: &Template) -> Result<(), AllocError>
        ensures { OnOk result (Gathered self.old (nodes_calls (tree_of template.now)) self.new) }
    {
        let nodes = template.nodes();
        for node in nodes {
            self.add_node(alloc, node)?;
        }
        Ok(())
    }

    fn add_node(&mut self, alloc: Global, node: &Node) -> Result<(), AllocError>
        ensures { OnOk result (Gathered self.old (own_calls node.now) self.new) }
    {
        match partial_call(node) {
            Some(call) => self.add(alloc, call),
            None => Ok(()),
        }
    }

    fn add(&mut self, alloc: Global, call: PartialCall<'_>) -> Result<(), AllocError>
        ensures { OnOk result (Gathered self.old (partial_call_view call.entry ∷ []) self.new) }
    {
        match call {
            PartialCall::AnyName => {
                self.any = true;
                Ok(())
            }
            PartialCall::Name(name) => add_name(alloc, &mut self.names, name),
            PartialCall::NameOrLiquid(name) => {
                add_name(alloc, &mut self.names, name)?;
                let liquid = with_liquid(alloc, name)?;
                add_name(alloc, &mut self.names, liquid.as_str())
            }
        }
    }
}
