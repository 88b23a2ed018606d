//! The partials that a template leads to, and no others.
ghost use Rattle.std.specs.Prelude.{◌≡◌, ◌++◌, [], ◌∷◌, OnErr, OnOk, IfOk, None, true, false, map};
ghost use Rattle.std.specs.Prelude.{string_bytes};
ghost use Rattle.liquid_model.specs.Maps.{insert};
ghost use Rattle.liquid_evaluation.specs.PartialCalls.{IsClosed, nodes_calls};
ghost use Rattle.liquid_language.specs.Entries.{put_entry};
ghost use Rattle.liquid_syntax.specs.NameSets.{mentioned_in_set};
ghost use Rattle.liquid_syntax.specs.Reached.{are_settled, asked_for, had, partials_settled};
ghost use Rattle.liquid_syntax.specs.Templates.{partials_of, refused_kind, tree_of};

use crate::partials::Partials;
use crate::template::Template;
use crate::wanted::Wanted;
use liquid_core::{Error, Result};
use std::alloc::Global;

/// The partials that a template leads to, while they are read: those that it can look up, those
/// that these can, and so on. It returns names, each once, and takes what they lead to.
///
/// When [Reach::next] returns no more, the page of the template over the partials that were given
/// is its page over any partials that have the same under the names that were asked for.
#[derive(Drop)]
pub struct Reach<'t> {
    template: &'t Template,
    partials: Partials,
    wanted: Wanted,
    ghost own: { are_settled wanted (had (partials_of partials))
        (nodes_calls (tree_of template.now)) ≡ true },
    ghost others: { partials_settled wanted (had (partials_of partials)) (partials_of partials) ≡
        true },
}

impl<'t> Reach<'t> {
    /// Nothing but the names that a template itself can look up. `Memory` where there is no room
    /// for them.
    pub fn of(alloc: Global, template: &'t Template) -> Result<Reach<'t>>
        ensures template { IfOk result (λ r. r.template ≡ template.entry) }
        ensures none { IfOk result (λ r. partials_of r.partials ≡ []) }
    {
        let mut wanted = Wanted::new(alloc);
        wanted.add_calls(alloc, template)?;
        Ok(Reach {
            template,
            partials: Partials::new(alloc),
            wanted,
        })
    }

    /// Whether a place looks up a name that only its run knows: then every name is asked for, and
    /// the caller names those that it has ([Reach::want]). It takes no memory.
    pub fn wants_all(&self) -> bool
        ensures { result ≡ self.now.wanted.any }
    {
        self.wanted.any
    }

    /// Asks for a name, unless it was asked for before. If there is no memory, it may be returned
    /// all the same.
    pub fn want(&mut self, alloc: Global, name: &str) -> Result<()>
        ensures known { OnOk result (mentioned_in_set self.new.wanted.asked.known name.now ≡ true) }
        ensures waits { OnOk result (mentioned_in_set self.old.wanted.asked.known name.now ≡ false →
            map string_bytes self.new.wanted.asked.waiting.items ≡
            map string_bytes self.old.wanted.asked.waiting.items ++ (name.now ∷ [])) }
        ensures same { self.new.partials ≡ self.old.partials }
        ensures template { self.new.template ≡ self.old.template }
    {
        self.wanted.asked.add(alloc, name)?;
        Ok(())
    }

    /// The next name that is asked for, which is returned once: none if all were. What it leads to
    /// is given by [Reach::put] or [Reach::refuse], or it has no partial. `Memory` if there is no
    /// room for names; then each still waits.
    pub fn next(&mut self, alloc: Global) -> Result<Option<String>>
        ensures done { IfOk result (λ name. name ≡ None → self.new.wanted.fallbacks.items ≡ []) }
        ensures all { IfOk result (λ name. name ≡ None → self.new.wanted.asked.waiting.items ≡ []) }
        ensures same { self.new.partials ≡ self.old.partials }
        ensures template { self.new.template ≡ self.old.template }
    {
        self.settle(alloc)?;
        Ok(self.wanted.asked.waiting.pop())
    }

    /// If no name is left to return, asks for those that wait with `.liquid`.
    fn settle(&mut self, alloc: Global) -> Result<()>
        ensures done { OnOk result (self.new.wanted.asked.waiting.items ≡ [] →
            self.new.wanted.fallbacks.items ≡ []) }
        ensures same { self.new.partials ≡ self.old.partials }
        ensures template { self.new.template ≡ self.old.template }
    {
        if !self.wanted.asked.waiting.is_empty() {
            return Ok(());
        }
        self.wanted.settle(alloc, &self.partials)?;
        Ok(())
    }

    /// The partial of a name. What it can look up is asked for. Where there is no memory the name
    /// has no partial, or the one that it had.
    pub fn put(&mut self, alloc: Global, name: String, partial: Template) -> Result<()>
        ensures put { OnOk result (partials_of self.new.partials ≡
            put_entry (string_bytes name) (tree_of partial) (partials_of self.old.partials)) }
        ensures unchanged { OnErr result (partials_of self.new.partials ≡
            partials_of self.old.partials) }
        ensures template { self.new.template ≡ self.old.template }
    {
        self.wanted.add_calls(alloc, &partial)?;
        self.partials.insert(name, partial)?;
        Ok(())
    }

    /// Keeps the fault of a name whose source is no template ([Partials::refuse]). The name has no
    /// partial.
    pub fn refuse(&mut self, name: String, fault: Error) -> Result<()>
        ensures same { partials_of self.new.partials ≡ partials_of self.old.partials }
        ensures kept { OnOk result (refused_kind self.new.partials ≡
            insert (refused_kind self.old.partials) (string_bytes name) fault.kind) }
        ensures template { self.new.template ≡ self.old.template }
    {
        self.partials.refuse(name, fault)
    }

    /// The partials that were given. Once the last name was returned, the names that were asked
    /// for are closed: the template means over these partials what it means over any others that
    /// have the same under them. It takes no memory.
    pub fn finish(self) -> Partials
        ensures partials { result ≡ self.entry.partials }
        ensures closed { self.entry.wanted.fallbacks.items ≡ [] →
            IsClosed (asked_for self.entry.wanted) (partials_of result)
            (tree_of self.entry.template.now) }
    {
        let Reach {
            template: _,
            partials,
            wanted: _,
        } = self;
        partials
    }
}
