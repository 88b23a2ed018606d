//! What names and paths lead to.
ghost use Rattle.std.specs.Prelude.{◌≡◌, ◌<◌, ◌≤◌, ◌+◌, ◌++◌, ◌∷◌, List, length, drop, take, []};
ghost use Rattle.std.specs.Prelude.{IfSome, IsOk, option_map, map, reverse, Some, None};
ghost use Rattle.liquid_model.specs.Answer.{IsValueOrMemory};
ghost use Rattle.liquid_model.specs.Cow.{cow_view};
ghost use Rattle.liquid_model.specs.Find.{step};
ghost use Rattle.liquid_model.specs.View.{view, pairs_view};
ghost use Rattle.liquid_model.specs.Data.{Datum, object};
ghost use Rattle.liquid_core.specs.Environment.{local_of};
ghost use Rattle.liquid_core.specs.Held.{Outer, held};
ghost use Rattle.liquid_core.specs.Resolved.{scopes_view, resolved_view, IsAmong, IsHeld, depth};
ghost use Rattle.liquid_core.specs.DirectValues.{DirectlyIs};
ghost use Rattle.liquid_model.specs.Maps.{Map};
ghost use Rattle.liquid_core.specs.declared.frame.Scope.{Scope};
ghost use Rattle.liquid_core.specs.declared.frame.Scope.TheVariants as scope;
ghost use Rattle.liquid_core.specs.declared.frame.LoopFrame.{LoopFrame};
ghost use Rattle.liquid_core.specs.LoopFrames.{IsNext};
ghost use Rattle.liquid_core.specs.LoopFrames.{frame_object, scope_map};
ghost use Rattle.liquid_core.specs.LoopFrames.{scope_maps};

use crate::frame::{LoopFrame, LoopKind, Scope};
use crate::loop_object::{forloop_object, tablerow_object};
use liquid_model::{Found, Object, Result, Value, ValueCow, look_up};
use std::alloc::Global;

/// The scopes of a state, borrowed.
#[derive(Clone, Copy, Drop)]
pub struct Scopes<'a, 'd> {
    /// The scopes outside every loop.
    pub outer: &'a [Object],
    /// The loops, and the scopes that stand over one.
    pub frames: &'a [Scope<'d>],
}

/// What a name or a path has led to.
#[derive(Drop)]
pub enum Resolved<'a, 'd> {
    /// A value that is borrowed from the caller's data, for the whole run.
    Borrowed(Found<'d>),
    /// A value that the state or the template holds, or a number, a truth value or nil that none
    /// holds.
    Local(Found<'a>),
    /// A loop's object, which no value holds.
    Loop(&'a LoopFrame<'d>, Scopes<'a, 'd>),
}

/// What a name or an expression is, where that is a value that is held, a number of a range, or a
/// loop's object or a part of it. It is read directly: without memory, and without a fault.
#[derive(Clone, Copy, Drop)]
pub enum DirectValue<'a> {
    /// This value.
    Held(&'a Value),
    /// This number.
    Number(i64),
    /// This truth value.
    Truth(bool),
    /// The object of this loop, as a name leads to it.
    Loop(&'a LoopFrame<'a>),
    /// Nothing.
    Nothing,
    /// Not known directly: what steps of other kinds lead to.
    Unknown,
}

impl<'d> LoopFrame<'d> {
    /// The loop's object.
    #[cycle(object)]
    fn object<'a>(&'a self, alloc: Global, enclosing: Scopes<'a, 'd>) -> Result<Object>
        ensures { IsValueOrMemory (λ o. object (pairs_view o.entries)) result
            (frame_object self.now (local_of (scopes_view enclosing.entry))) }
    {
        match &self.kind {
            LoopKind::For(elsewhere) => {
                let parent = match enclosing.find("forloop") {
                    Some(resolved) => resolved.into_value(alloc)?.into_owned(alloc)?,
                    None => elsewhere.copy(alloc)?,
                };
                forloop_object(alloc, self.at, self.count, parent)
            }
            LoopKind::Render => forloop_object(alloc, self.at, self.count, Value::Nil),
            LoopKind::TableRow(columns) => tablerow_object(
                alloc,
                self.at,
                self.count,
                columns.count,
            ),
        }
    }
}

impl<'d> Scope<'d> {
    /// Goes on to the next item of a loop.
    pub(crate) fn go_on(&mut self)
        requires { (t : LoopFrame) → self.old ≡ scope.LoopFrame t → t.at + 1 < t.count }
        ensures { (t : LoopFrame) → self.old ≡ scope.LoopFrame t → (u : LoopFrame) ×
            ((self.new ≡ scope.LoopFrame u) × IsNext t u) }
    {
        if let Scope::LoopFrame(frame) = self {
            frame.at += 1;
        }
    }

    /// As `find`, for what a value holds, and for numbers.
    #[tactic(auto, using(crate::proofs::States::held_at))]
    fn direct_value<'a>(&'a self, name: &str) -> DirectValue<'a>
        ensures { (local : Map Datum) → DirectlyIs result (scope_map self.now local name.now) None }
    {
        match self {
            Scope::Names(object) => match look_up(object, name) {
                Some(value) => DirectValue::Held(value),
                None => DirectValue::Nothing,
            },
            Scope::Borrowed(bound_name, value) => {
                if name == *bound_name {
                    DirectValue::Held(*value)
                } else {
                    DirectValue::Nothing
                }
            }
            Scope::LoopFrame(frame) => frame.direct_value(name),
        }
    }

    /// What the scope binds to the name.
    #[tactic(auto, using(crate::proofs::States::held_at))]
    fn find<'a>(&'a self, name: &str, enclosing: Scopes<'a, 'd>) -> Option<Resolved<'a, 'd>>
        ensures value { option_map resolved_view result ≡
            scope_map self.now (local_of (scopes_view enclosing.entry)) name.now }
        ensures among { IfSome result
            (IsAmong (enclosing.entry.frames.now ++ self.now ∷ []) enclosing.entry.outer.now) }
        ensures nested { IfSome result (λ s. depth s ≤ length enclosing.entry.frames.now + 1) }
    {
        match self {
            Scope::Names(object) => match look_up(object, name) {
                Some(value) => Some(Resolved::Local(Found::Held(value))),
                None => None,
            },
            Scope::Borrowed(bound_name, value) => {
                if name == *bound_name {
                    Some(Resolved::Borrowed(Found::Held(*value)))
                } else {
                    None
                }
            }
            Scope::LoopFrame(frame) => frame.find(name, enclosing),
        }
    }
}

impl<'a, 'd> Resolved<'a, 'd> {
    /// One step on.
    pub(crate) fn stepped(self, part: &Value) -> Option<Resolved<'a, 'd>>
        ensures value { option_map resolved_view result ≡ step (resolved_view self.entry)
            (view part.now) }
        ensures among { (scopes : List Scope) (outer : List Outer) →
            IsAmong scopes outer self.entry →
            IfSome result (IsAmong scopes outer) }
    {
        match self {
            Resolved::Borrowed(found) => match found.stepped(part) {
                Some(found) => Some(Resolved::Borrowed(found)),
                None => None,
            },
            Resolved::Local(found) => match found.stepped(part) {
                Some(found) => Some(Resolved::Local(found)),
                None => None,
            },
            Resolved::Loop(frame, enclosing) => frame.stepped(part, enclosing),
        }
    }

    /// One step on, by what was found.
    pub(crate) fn stepped_by(self, part: Resolved<'a, 'd>) -> Option<Resolved<'a, 'd>>
        ensures value { option_map resolved_view result ≡ step (resolved_view self.entry)
            (resolved_view part.entry) }
        ensures among { (scopes : List Scope) (outer : List Outer) →
            IsAmong scopes outer self.entry →
            IfSome result (IsAmong scopes outer) }
    {
        match part {
            Resolved::Borrowed(found) => {
                let value = found.into_value();
                self.stepped(value.as_value())
            }
            Resolved::Local(found) => {
                let value = found.into_value();
                self.stepped(value.as_value())
            }
            Resolved::Loop(_, _) => None,
        }
    }

    /// The value, borrowed where it is held. Only a loop's object takes memory.
    #[cycle(object)]
    pub fn into_value(self, alloc: Global) -> Result<ValueCow<'a>>
        ensures value { IsValueOrMemory cow_view result (resolved_view self.entry) }
        ensures no_memory { IsHeld self.entry → IsOk result }
    {
        match self {
            Resolved::Borrowed(found) => Ok(found.into_value()),
            Resolved::Local(found) => Ok(found.into_value()),
            Resolved::Loop(frame, enclosing) => Ok(ValueCow::Owned(Value::Object(frame.object(
                alloc, enclosing,
            )?))),
        }
    }
}

impl<'a, 'd> Scopes<'a, 'd> {
    /// As `find`, for what a value holds, and for numbers. Where no frame binds the name, the
    /// scopes outside every loop are looked at.
    #[inline(never)]
    pub(crate) fn direct_value(self, name: &str) -> DirectValue<'a>
        ensures { DirectlyIs result (local_of (scopes_view self.entry) name.now)
            (local_of (reverse (map held self.entry.outer.now)) name.now) }
    {
        let frames = self.frames;
        let mut left = frames.len();
        while left > 0 {
            let last = left - 1;
            match frames[last].direct_value(name) {
                DirectValue::Nothing => left = last,
                said => return said,
            }
        }
        DirectValue::Nothing
    }

    /// What the scope at a place binds to the name.
    fn find_at(self, last: usize, name: &str) -> Option<Resolved<'a, 'd>>
        requires { last < length self.frames.now }
        ensures nested { IfSome result (λ s. depth s ≤ last + 1) }
        ensures among { IfSome result (IsAmong self.entry.frames.now self.entry.outer.now) }
        ensures value { (scope : Scope) → drop last self.entry.frames.now ≡
            scope ∷ drop (last + 1) self.entry.frames.now →
            option_map resolved_view result ≡
            scope_map scope
            (local_of (scope_maps (take last self.entry.frames.now)
            (reverse (map held self.entry.outer.now)))) name.now }
    {
        let frames = self.frames;
        let enclosing = Scopes {
            outer: self.outer,
            frames: &frames[..last],
        };
        let scope: &'a Scope<'d> = &frames[last];
        scope.find(name, enclosing)
    }

    /// What a name is in the innermost scope that holds it.
    pub fn find(self, name: &str) -> Option<Resolved<'a, 'd>>
        ensures value { option_map resolved_view result ≡
            local_of (scopes_view self.entry) name.now }
        ensures among { IfSome result (IsAmong self.entry.frames.now self.entry.outer.now) }
        ensures nested { IfSome result (λ s. depth s ≤ length self.entry.frames.now) }
    {
        let mut left = self.frames.len();
        while left > 0 {
            let last = left - 1;
            if let Some(resolved) = self.find_at(last, name) {
                return Some(resolved);
            }
            left = last;
        }
        outer_find(self.outer, name)
    }
}

/// What a name is in the last of the objects that holds it.
fn outer_find<'a, 'd>(scopes: &'a [Object], name: &str) -> Option<Resolved<'a, 'd>>
    ensures value { option_map resolved_view result ≡
        local_of (reverse (map held scopes.now)) name.now }
    ensures held { IfSome result IsHeld }
    ensures nested { IfSome result (λ s. depth s ≡ 0) }
{
    match last_held(scopes, name) {
        Some(value) => Some(Resolved::Local(Found::Held(value))),
        None => None,
    }
}

/// The value of a name in the last of the objects that holds it.
pub(crate) fn last_held<'a>(scopes: &'a [Object], name: &str) -> Option<&'a Value>
    ensures { option_map (λ v. view v.now) result ≡
        local_of (reverse (map held scopes.now)) name.now }
{
    for scope in scopes.iter().rev() {
        if let Some(value) = look_up(scope, name) {
            return Some(value);
        }
    }
    None
}
