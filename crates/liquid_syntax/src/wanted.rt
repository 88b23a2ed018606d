//! The names of partials that are asked for.
ghost use Rattle.std.specs.Prelude.{◌≡◌, ◌++◌, [], false, IfOk, OnErr, OnOk, true, codes};
ghost use Rattle.std.specs.Prelude.{string_bytes, map, ◌∷◌};
ghost use Rattle.liquid_core.specs.Environment.{Names};
ghost use Rattle.liquid_evaluation.specs.PartialCalls.{nodes_calls};
ghost use Rattle.liquid_syntax.specs.CallView.{partial_call_view};
ghost use Rattle.liquid_syntax.specs.NameSets.{mentioned_in_set};
ghost use Rattle.liquid_syntax.specs.Reached.{AllFoundOrAsked, StaysAsked, Spreads, Widens};
ghost use Rattle.liquid_syntax.specs.Reached.{are_settled, found_or_asked, had, is_settled};
ghost use Rattle.liquid_syntax.specs.Templates.{partials_of, tree_of};
ghost use Rattle.liquid_syntax.specs.inside.Calls.{own_calls};

use crate::calls::{PartialCall, partial_call};
use crate::node::Node;
use crate::partials::Partials;
use crate::template::Template;
use std::alloc::{AllocError, Global};
use std::collections::BTreeSet;

/// Names that are asked for.
#[derive(Drop)]
pub(crate) struct Asked {
    /// All names that were ever asked for.
    pub(crate) known: BTreeSet<String>,
    /// Those of them that weren't returned yet.
    pub(crate) waiting: Vec<String>,
}

impl Asked {
    /// Asks for a name, unless it was asked for before.
    pub(crate) fn add(&mut self, alloc: Global, name: &str) -> Result<(), AllocError>
        ensures keeps { StaysAsked self.old self.new }
        ensures known { OnOk result (mentioned_in_set self.new.known name.now ≡ true) }
        ensures waits { OnOk result (mentioned_in_set self.old.known name.now ≡ false →
            map string_bytes self.new.waiting.items ≡
            map string_bytes self.old.waiting.items ++ (name.now ∷ [])) }
    {
        if self.known.contains(name) {
            return Ok(());
        }
        self.waiting.push(String::from_str(alloc, name)?)?;
        self.known.insert(String::from_str(alloc, name)?)?;
        Ok(())
    }

    /// Asks for a name with `.liquid`, where no partial has it without.
    fn add_liquid(
        &mut self,
        alloc: Global,
        partials: &Partials,
        name: &str,
    ) -> Result<(), AllocError>
        ensures keeps { StaysAsked self.old self.new }
        ensures known { OnOk result
            (found_or_asked self.new (had (partials_of partials.now)) name.now ≡ true) }
    {
        if partials.get(name).is_some() {
            return Ok(());
        }
        let liquid = with_liquid(alloc, name)?;
        self.add(alloc, liquid.as_str())
    }

    /// Asks for each of these names with `.liquid`, where no partial has it without.
    fn add_all_liquid(
        &mut self,
        alloc: Global,
        partials: &Partials,
        names: &[String],
    ) -> Result<(), AllocError>
        ensures keeps { StaysAsked self.old self.new }
        ensures known { OnOk result
            (AllFoundOrAsked self.new (had (partials_of partials.now)) names.now) }
    {
        for name in names {
            self.add_liquid(alloc, partials, name.as_str())?;
        }
        Ok(())
    }
}

/// The names of partials that are asked for.
#[derive(Drop)]
pub(crate) struct Wanted {
    /// Whether a place looks up a name that only its run knows.
    pub(crate) any: bool,
    pub(crate) asked: Asked,
    /// Names of which each is asked for with `.liquid` too, where no partial has it without.
    pub(crate) fallbacks: Vec<String>,
}

impl Wanted {
    /// No names. It takes no memory.
    pub(crate) fn new(alloc: Global) -> Wanted {
        Wanted {
            any: false,
            asked: Asked {
                known: BTreeSet::new(alloc),
                waiting: Vec::new(alloc),
            },
            fallbacks: Vec::new(alloc),
        }
    }

    /// Asks for what a place can look up.
    fn add_call(&mut self, alloc: Global, call: PartialCall<'_>) -> Result<(), AllocError>
        ensures widens { Widens self.old self.new }
        ensures settled { OnOk result ((found : Names) →
            is_settled self.new found (partial_call_view call.entry) ≡ true) }
    {
        match call {
            PartialCall::AnyName => {
                self.any = true;
                Ok(())
            }
            PartialCall::Name(name) => self.asked.add(alloc, name),
            PartialCall::NameOrLiquid(name) => {
                self.asked.add(alloc, name)?;
                self.fallbacks.push(String::from_str(alloc, name)?)?;
                Ok(())
            }
        }
    }

    /// Asks for what a node itself can look up.
    fn add_node(&mut self, alloc: Global, node: &Node) -> Result<(), AllocError>
        ensures widens { Widens self.old self.new }
        ensures settled { OnOk result ((found : Names) →
            are_settled self.new found (own_calls node.now) ≡ true) }
    {
        match partial_call(node) {
            Some(call) => self.add_call(alloc, call),
            None => Ok(()),
        }
    }

    /// Asks for what a template itself can look up.
    pub(crate) fn add_calls(&mut self, alloc: Global, template: &Template) -> Result<(), AllocError>
        ensures widens { Widens self.old self.new }
        ensures settled { OnOk result ((found : Names) →
            are_settled self.new found (nodes_calls (tree_of template.now)) ≡ true) }
    {
        let nodes = template.nodes();
        for node in nodes {
            self.add_node(alloc, node)?;
        }
        Ok(())
    }

    /// Asks for the names that wait with `.liquid`, where no partial has them without. None waits
    /// then.
    pub(crate) fn settle(&mut self, alloc: Global, partials: &Partials) -> Result<(), AllocError>
        ensures spreads { Spreads self.old (had (partials_of partials.now)) self.new
            (had (partials_of partials.now)) }
        ensures none { OnOk result (self.new.fallbacks.items ≡ []) }
    {
        self.asked
            .add_all_liquid(alloc, partials, self.fallbacks.as_slice())?;
        self.fallbacks.clear();
        Ok(())
    }
}

/// A name with `.liquid` after it.
pub(crate) fn with_liquid(alloc: Global, name: &str) -> Result<String, AllocError>
    ensures { IfOk result (λ text. string_bytes text ≡ name.now ++ codes ".liquid") }
{
    let mut text = String::from_str(alloc, name)?;
    text.push_str(".liquid")?;
    Ok(text)
}
