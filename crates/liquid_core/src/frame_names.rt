//! What a loop binds: its variable, and the parts of its object.
ghost use Rattle.std.specs.Prelude.{◌≡◌, ◌<◌, ◌≤◌, ◌+◌, ◌++◌, ◌∷◌, List, length, []};
ghost use Rattle.std.specs.Prelude.{IfSome, option_map, Some, None};
ghost use Rattle.liquid_model.specs.Find.{step};
ghost use Rattle.liquid_model.specs.Found.{found_view};
ghost use Rattle.liquid_model.specs.View.{view};
ghost use Rattle.liquid_model.specs.Data.{Datum};
ghost use Rattle.liquid_core.specs.Environment.{local_of};
ghost use Rattle.liquid_core.specs.Held.{Outer};
ghost use Rattle.liquid_core.specs.Places.{number_at};
ghost use Rattle.liquid_core.specs.Resolved.{scopes_view, resolved_view, IsAmong, depth};
ghost use Rattle.liquid_core.specs.DirectValues.{DirectlyIs};
ghost use Rattle.liquid_model.specs.Maps.{Map};
ghost use Rattle.liquid_core.specs.declared.frame.Scope.{Scope};
ghost use Rattle.liquid_core.specs.declared.frame.Scope.TheVariants as scope;
ghost use Rattle.liquid_core.specs.declared.frame.LoopFrame.{LoopFrame};
ghost use Rattle.liquid_core.specs.LoopFrames.{parent_of, frame_item, frame_map};
ghost use Rattle.liquid_core.specs.LoopFrames.{frame_object, object_part, loop_name};

use crate::frame::{Items, LoopFrame, LoopKind, Scope};
use crate::resolved::{DirectValue, Resolved, Scopes};
use itoa::Buffer;
use liquid_model::{Found, Value};

impl<'d> LoopFrame<'d> {
    /// The item, where a value holds it, or it is a number.
    fn direct_item<'a>(&'a self) -> DirectValue<'a>
        ensures { DirectlyIs result (Some (frame_item self.now)) None }
    {
        let forwards = self.at;
        let place = if self.reversed {
            self.count - forwards - 1
        } else {
            forwards
        };
        let place = self.from + place;
        let items: &'a [Value] = match &self.items {
            Items::Borrowed(items) => *items,
            Items::Owned(items) => items.as_slice(),
            Items::Numbers(first, last) => {
                return match number_at(*first, *last, place) {
                    Found::Integer(n) => DirectValue::Number(n),
                    _ => DirectValue::Unknown,
                };
            }
        };
        if place < items.len() {
            DirectValue::Held(&items[place])
        } else {
            DirectValue::Unknown
        }
    }

    /// As `find`, for what a value holds, for numbers, and for the loop's object.
    pub(crate) fn direct_value<'a>(&'a self, name: &str) -> DirectValue<'a>
        ensures { (local : Map Datum) → DirectlyIs result (frame_map self.now local name.now) None }
    {
        if name == self.name {
            self.direct_item()
        } else if name == self.kind.name() {
            DirectValue::Loop(self)
        } else {
            DirectValue::Nothing
        }
    }

    /// As `stepped`, for what each loop's object has: a number or a truth value, by its name.
    pub(crate) fn direct_stepped<'a>(&self, part: &Value) -> DirectValue<'a>
        ensures { (local : Map Datum) →
            DirectlyIs result (step (frame_object self.now local) (view part.now)) None }
    {
        match part {
            Value::Text(name) => self.direct_part(name.as_str()),
            _ => DirectValue::Unknown,
        }
    }

    /// As `part`, for what each loop's object has.
    fn direct_part<'a>(&self, name: &str) -> DirectValue<'a>
        ensures { (local : Map Datum) →
            DirectlyIs result (object_part (frame_object self.now local) name.now) None }
    {
        let k = self.at;
        let m = self.count;
        match name {
            "index" => DirectValue::Number((k + 1) as i64),
            "last" => DirectValue::Truth(k + 1 == m),
            "first" => DirectValue::Truth(k == 0),
            "index0" => DirectValue::Number(k as i64),
            "length" => DirectValue::Number(m as i64),
            "rindex" => DirectValue::Number((m - k) as i64),
            "rindex0" => DirectValue::Number((m - k - 1) as i64),
            _ => DirectValue::Unknown,
        }
    }

    /// The item.
    fn item<'a>(&'a self) -> Resolved<'a, 'd>
        ensures value { resolved_view result ≡ frame_item self.now }
        ensures held { depth result ≡ 0 }
    {
        let forwards = self.at;
        let place = if self.reversed {
            self.count - forwards - 1
        } else {
            forwards
        };
        let place = self.from + place;
        match &self.items {
            Items::Borrowed(items) => {
                let items: &'d [Value] = *items;
                if place < items.len() {
                    Resolved::Borrowed(Found::Held(&items[place]))
                } else {
                    Resolved::Local(Found::Nil)
                }
            }
            Items::Owned(items) => {
                if place < items.len() {
                    Resolved::Local(Found::Held(&items[place]))
                } else {
                    Resolved::Local(Found::Nil)
                }
            }
            Items::Numbers(first, last) => Resolved::Local(number_at(*first, *last, place)),
        }
    }

    /// What the frame binds to the name.
    pub(crate) fn find<'a>(
        &'a self,
        name: &str,
        enclosing: Scopes<'a, 'd>,
    ) -> Option<Resolved<'a, 'd>>
        ensures value { option_map resolved_view result ≡
            frame_map self.now (local_of (scopes_view enclosing.entry)) name.now }
        ensures among { IfSome result
            (IsAmong (enclosing.entry.frames.now ++ scope.LoopFrame self.now ∷
            []) enclosing.entry.outer.now) }
        ensures nested { IfSome result (λ s. depth s ≤ length enclosing.entry.frames.now + 1) }
    {
        if name == self.name {
            Some(self.item())
        } else if name == self.kind.name() {
            Some(Resolved::Loop(self, enclosing))
        } else {
            None
        }
    }

    /// A step from the loop's object.
    pub(crate) fn stepped<'a>(
        &'a self,
        part: &Value,
        enclosing: Scopes<'a, 'd>,
    ) -> Option<Resolved<'a, 'd>>
        ensures value { option_map resolved_view result ≡
            step (frame_object self.now (local_of (scopes_view enclosing.entry))) (view part.now) }
        ensures among { IfSome result
            (IsAmong enclosing.entry.frames.now enclosing.entry.outer.now) }
    {
        match part {
            Value::Integer(n) => self.part(Buffer::new().format(*n), enclosing),
            Value::Bool(true) => self.part("true", enclosing),
            Value::Bool(false) => self.part("false", enclosing),
            Value::Text(name) => self.part(name.as_str(), enclosing),
            _ => None,
        }
    }

    /// A part of the loop's object, or how many it has.
    fn part<'a>(&'a self, name: &str, enclosing: Scopes<'a, 'd>) -> Option<Resolved<'a, 'd>>
        ensures value { option_map resolved_view result ≡
            object_part (frame_object self.now (local_of (scopes_view enclosing.entry))) name.now }
        ensures among { IfSome result
            (IsAmong enclosing.entry.frames.now enclosing.entry.outer.now) }
    {
        let k = self.at;
        let m = self.count;
        match name {
            "length" => Some(Resolved::Local(Found::Integer(m as i64))),
            "index0" => Some(Resolved::Local(Found::Integer(k as i64))),
            "index" => Some(Resolved::Local(Found::Integer((k + 1) as i64))),
            "rindex0" => Some(Resolved::Local(Found::Integer((m - k - 1) as i64))),
            "rindex" => Some(Resolved::Local(Found::Integer((m - k) as i64))),
            "first" => Some(Resolved::Local(Found::Bool(k == 0))),
            "last" => Some(Resolved::Local(Found::Bool(k + 1 == m))),
            _ => match &self.kind {
                LoopKind::For(elsewhere) => match name {
                    "parentloop" => Some(parent(enclosing.find("forloop"), elsewhere)),
                    "size" => Some(Resolved::Local(Found::Integer(8))),
                    _ => None,
                },
                LoopKind::Render => match name {
                    "parentloop" => Some(Resolved::Local(Found::Nil)),
                    "size" => Some(Resolved::Local(Found::Integer(8))),
                    _ => None,
                },
                LoopKind::TableRow(columns) => {
                    let columns = columns.count;
                    let column = k % columns;
                    match name {
                        "col0" => Some(Resolved::Local(Found::Integer(column as i64))),
                        "col" => Some(Resolved::Local(Found::Integer((column + 1) as i64))),
                        "col_first" => Some(Resolved::Local(Found::Bool(column == 0))),
                        "col_last" => Some(Resolved::Local(Found::Bool(
                            column + 1 == columns || k + 1 == m,
                        ))),
                        "size" => Some(Resolved::Local(Found::Integer(11))),
                        _ => None,
                    }
                }
            },
        }
    }
}

/// What `forloop` was before a loop.
fn parent<'a, 'd>(found: Option<Resolved<'a, 'd>>, elsewhere: &'a Value) -> Resolved<'a, 'd>
    ensures value { resolved_view result ≡ parent_of (option_map resolved_view found.entry)
        (view elsewhere.now) }
    ensures among { (scopes : List Scope) (outer : List Outer) →
        IfSome found.entry (IsAmong scopes outer) →
        IsAmong scopes outer result }
{
    match found {
        Some(resolved) => resolved,
        None => Resolved::Local(Found::Held(elsewhere)),
    }
}

/// The number at a place from the first on, up to the last.
fn number_at<'a>(first: i64, last: i64, place: usize) -> Found<'a>
    ensures { found_view result ≡ number_at first last place }
{
    let n = first as i128 + place as i128;
    if n <= last as i128 {
        Found::Integer(n as i64)
    } else {
        Found::Nil
    }
}

impl LoopKind {
    fn name(&self) -> &'static str
        ensures { result.now ≡ loop_name self.now }
    {
        match self {
            LoopKind::For(_) | LoopKind::Render => "forloop",
            LoopKind::TableRow(_) => "tablerow",
        }
    }
}
