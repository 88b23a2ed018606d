//! Templates by name.
ghost use Rattle.std.specs.Prelude.{◌≡◌, [], option_map, ◌≤◌, Some, IfErr, IfSome, IsSome, OnErr};
ghost use Rattle.std.specs.Prelude.{OnOk, string_bytes};
ghost use Rattle.std.specs.List.{list_any};
ghost use Rattle.std.specs.Map.{values_of};
ghost use Rattle.liquid_model.specs.Answer.{IsValueOrMemory};
ghost use Rattle.liquid_model.specs.Maps.{listed, insert};
ghost use Rattle.liquid_language.specs.Entries.{put_entry, placed};
ghost use Rattle.liquid_syntax.specs.NameSets.{mentioned_in_set};
ghost use Rattle.liquid_syntax.specs.Slots.{reserved, exchanged};
ghost use Rattle.liquid_syntax.specs.inside.Mentions.{held_names, partials_list_names};
ghost use Rattle.liquid_syntax.specs.Templates.{most_of, node_count_of, tree_of, partials_of};
ghost use Rattle.liquid_syntax.specs.Templates.{refused_kind, slots_of};
ghost use Rattle.liquid_evaluation.specs.Names.{mentioned, partials_names};

use crate::names::{Search, SearchAny};
use crate::template::Template;
use crate::visit_nodes::visit_nodes;
use liquid_core::{Error, ErrorKind, Result};
use liquid_evaluation::NameVisitor;
use std::alloc::Global;
use std::collections::{BTreeMap, BTreeSet};
use std::mem;

/// Templates by name. A name may also have a slot that holds no template: it is kept for one, and
/// nothing else sees it. Of a name whose source is no template the fault may be kept, for a
/// message: such a name has no template.
#[derive(Drop)]
pub struct Partials {
    templates: BTreeMap<String, Option<Template>>,
    /// The faults of sources that are no templates. The meaning of a template doesn't depend on
    /// them.
    refused: BTreeMap<String, Error>,
}

impl Partials {
    /// No templates.
    pub fn new(alloc: Global) -> Partials
        ensures { partials_of result ≡ [] }
    {
        Partials {
            templates: BTreeMap::new(alloc),
            refused: BTreeMap::new(alloc),
        }
    }

    /// Puts a template at a name; the one of that name before is dropped. Where there is no memory
    /// nothing changes.
    pub fn insert(&mut self, name: String, template: Template) -> Result<()>
        ensures inserted { IsValueOrMemory (λ _. partials_of self.new) result
            (put_entry (string_bytes name) (tree_of template) (partials_of self.old)) }
        ensures looked_up { IsValueOrMemory (λ _. listed (partials_of self.new)) result
            (insert (listed (partials_of self.old)) (string_bytes name) (tree_of template)) }
        ensures unchanged { OnErr result (partials_of self.new ≡ partials_of self.old) }
        ensures slots { OnErr result (slots_of self.new ≡ slots_of self.old) }
    {
        drop(self.templates.insert(name, Some(template))?);
        Ok(())
    }

    /// The template of this name, without memory.
    pub fn get(&self, name: &str) -> Option<&Template>
        ensures found { option_map (λ t. tree_of t.now) result ≡
            listed (partials_of self.now) name.now }
        ensures small { IfSome result (λ t. node_count_of t.now ≤ most_of self.now) }
    {
        // No effect at run time. The proof reads from this use that the names ascend.
        let _ = self.templates.len();
        match self.templates.get(name) {
            Some(slot) => slot.as_ref(),
            None => None,
        }
    }

    /// Makes a slot that holds no template, where the name has no slot. Where there is no memory
    /// nothing changes.
    ///
    /// `exchange` then puts a template there without memory.
    pub fn reserve(&mut self, name: String) -> Result<()>
        ensures slot { OnOk result (IsSome (listed (slots_of self.new) (string_bytes name))) }
        ensures others { OnOk result (slots_of self.new ≡
            reserved (string_bytes name) (slots_of self.old)) }
        ensures memory { IfErr result (λ e. e.kind ≡ ErrorKind.Memory) }
        ensures same { partials_of self.new ≡ partials_of self.old }
        ensures unchanged { OnErr result (slots_of self.new ≡ slots_of self.old) }
    {
        if self.templates.contains_key(name.as_str()) {
            return Ok(());
        }
        drop(self.templates.insert(name, None)?);
        Ok(())
    }

    /// Puts a template or none into the slot of a name, and returns what stood there. It takes no
    /// memory.
    ///
    /// There has to be a slot: `reserve` makes one, and so does `insert`.
    pub fn exchange(&mut self, name: &str, held: Option<Template>) -> Option<Template>
        requires { IsSome (listed (slots_of self.old) name.now) }
        ensures out { listed (slots_of self.old) name.now ≡ Some (option_map tree_of result) }
        ensures slot { slots_of self.new ≡ placed name.now (option_map tree_of held)
            (slots_of self.old) }
        ensures held { partials_of self.new ≡ exchanged name.now
            (option_map tree_of held)
            (partials_of self.old) }
    {
        match self.templates.get_mut(name) {
            Some(slot) => mem::replace(slot, held),
            None => None,
        }
    }

    /// Keeps the fault of a source that is no template, by the name that it has. The one of that
    /// name before is dropped. Where there is no memory nothing changes.
    pub fn refuse(&mut self, name: String, fault: Error) -> Result<()>
        ensures same { partials_of self.new ≡ partials_of self.old }
        ensures slots { slots_of self.new ≡ slots_of self.old }
        ensures memory { IfErr result (λ e. e.kind ≡ ErrorKind.Memory) }
        ensures kept { OnOk result (refused_kind self.new ≡
            insert (refused_kind self.old) (string_bytes name) fault.kind) }
        ensures unchanged { OnErr result (refused_kind self.new ≡ refused_kind self.old) }
    {
        drop(self.refused.insert(name, fault)?);
        Ok(())
    }

    /// The fault that is kept of a name, if one is. It takes no memory.
    pub fn refusal(&self, name: &str) -> Option<&Error>
        ensures { option_map (λ e. e.now.kind) result ≡ refused_kind self.now name.now }
    {
        self.refused.get(name)
    }

    /// The faults that are kept, by the names of their sources.
    pub fn refusals(&self) -> &BTreeMap<String, Error>
        ensures { result.now ≡ self.now.refused }
    {
        &self.refused
    }

    /// The slots by name, each with its template or none.
    pub fn slots(&self) -> &BTreeMap<String, Option<Template>>
        ensures { result.now ≡ self.now.templates }
    {
        &self.templates
    }

    /// Gives a visitor the names that the templates mention. The answer is whether the visitor
    /// ended the visit.
    pub(crate) fn visit_names<V: NameVisitor>(&self, visitor: &mut V) -> bool
        ensures { V.tells visitor.old (partials_list_names (values_of self.now.templates.entries))
            result
            visitor.new }
    {
        for slot in self.templates.values() {
            if visit_slot(slot, visitor) {
                return true;
            }
        }
        false
    }

    /// Whether one of the templates mentions the name. It takes no memory.
    pub fn mention(&self, name: &str) -> bool
        ensures { result ≡ mentioned (partials_names (partials_of self.now)) name.now }
    {
        let mut search = Search { wanted: name };
        self.visit_names(&mut search)
    }

    /// Whether one of the templates mentions one of the names. It takes no memory.
    pub fn mention_any(&self, names: &BTreeSet<String>) -> bool
        ensures { result ≡ list_any (mentioned_in_set names.now)
            (partials_names (partials_of self.now)) }
    {
        let mut search_any = SearchAny { wanted: names };
        self.visit_names(&mut search_any)
    }
}

/// The names of the template that a slot holds, if it holds one.
fn visit_slot<V: NameVisitor>(slot: &Option<Template>, visitor: &mut V) -> bool
    ensures { V.tells visitor.old (held_names slot.now) result visitor.new }
{
    match slot {
        Some(template) => visit_nodes(template.nodes(), visitor),
        None => false,
    }
}
