//! Looking up a name or a path in the layers of a state.
ghost use Rattle.std.specs.Prelude.{◌≡◌, ◌∷◌, [], map, IsTrue, IsOk, IfErr};
ghost use Rattle.std.specs.Prelude.{IfOk, IfSome, Option, None, option_map};
ghost use Rattle.liquid_core.specs.DirectValues.{DirectlyIs};
ghost use Rattle.std.specs.Option.{ok_or};
ghost use Rattle.liquid_model.specs.Answer.{IsValueOrMemory, Answers, TakesNoMemory};
ghost use Rattle.liquid_model.specs.Cow.{cow_view};
ghost use Rattle.liquid_model.specs.Data.{text_of, is_text};
ghost use Rattle.liquid_core.specs.Environment.{lookup};
ghost use Rattle.liquid_model.specs.Find.{find};
ghost use Rattle.liquid_model.specs.Errors.{HasMessageUnlessMemory, nowhere_message};
ghost use Rattle.liquid_core.specs.Expressions.{value_along, begins_with_text};
ghost use Rattle.liquid_model.specs.ErrorKinds.{IsKindOrMemory};
ghost use Rattle.liquid_model.specs.View.{view};
ghost use Rattle.liquid_core.specs.Resolved.{resolved_view, IsAmong, IsHeld};
ghost use Rattle.liquid_core.specs.declared.state.State.{State};
ghost use Rattle.liquid_core.specs.States.{environment_of, data_held};
ghost use Rattle.liquid_core.specs.States.{value_below_loops, loops_of, FindsLoop, IsPlain};
ghost use Rattle.liquid_model.specs.declared.error.ErrorKind.TheVariants.{UnknownVariable};

use super::{Data, State};
use crate::resolved::{DirectValue, Resolved, Scopes, last_held};
use liquid_model::{Error, ErrorKind, Found, Quoted, Result, Value, ValueCow, look_up};
use std::alloc::Global;

impl<'d> State<'d> {
    /// The value of a name, where a layer holds it. It is borrowed, and no memory is taken. Loops
    /// hold no value of their own: while one is under way, a name that it or a scope over it binds
    /// is not looked for there.
    pub fn look_up<'a>(&'a self, name: &str) -> Option<&'a Value>
        ensures value { option_map (λ v. view v.now) result ≡ value_below_loops self.now name.now }
        ensures plain { IsPlain self.now → option_map (λ v. view v.now) result ≡
            lookup (environment_of self.now) name.now }
        ensures beside { (environment_of self.now).local name.now ≡ None →
            option_map (λ v. view v.now) result ≡
            lookup (environment_of self.now) name.now }
    {
        self.beside_loops(name)
    }

    #[tactic(auto, using(crate::proofs::States::beside_at, crate::proofs::States::held_at))]
    fn beside_loops<'a>(&'a self, name: &str) -> Option<&'a Value>
        ensures { option_map (λ v. view v.now) result ≡ value_below_loops self.now name.now }
    {
        if let Some(value) = last_held(&self.scopes, name) {
            return Some(value);
        }
        if let Some(value) = look_up(&self.assigned, name) {
            return Some(value);
        }
        if let Some(value) = self.get_index(name) {
            return Some(value);
        }
        look_up(self.data.object(), name)
    }

    /// What a name is, where a layer holds it. No memory is taken.
    #[tactic(auto, using(crate::proofs::States::looked_up))]
    pub(crate) fn resolve<'a>(&'a self, name: &str) -> Option<Resolved<'a, 'd>>
        ensures value { option_map resolved_view result ≡
            lookup (environment_of self.now) name.now }
        ensures among { IfSome result (IsAmong (loops_of self.now) self.now.scopes.items) }
    {
        if let Some(resolved) = self.local(name) {
            return Some(resolved);
        }
        if let Some(value) = look_up(&self.assigned, name) {
            return Some(Resolved::Local(Found::Held(value)));
        }
        if let Some(value) = self.get_index(name) {
            return Some(Resolved::Local(Found::Held(value)));
        }
        self.data.find(name)
    }

    /// As `resolve`, for what a value holds, and for numbers.
    pub(crate) fn direct_value<'a>(&'a self, name: &str) -> DirectValue<'a>
        ensures { DirectlyIs result (lookup (environment_of self.now) name.now) None }
    {
        let scopes = Scopes {
            outer: self.scopes.as_slice(),
            frames: self.frames.as_slice(),
        };
        match scopes.direct_value(name) {
            DirectValue::Nothing => match self.beside_loops(name) {
                Some(value) => DirectValue::Held(value),
                None => DirectValue::Nothing,
            },
            said => said,
        }
    }

    /// What a path leads to: the text of its first step is a name, and the further steps lead on
    /// from that name's value. An empty path leads nowhere. The only fault is `Memory`. Memory is
    /// taken only for the text of a first step that is no text itself, and where the path leads to
    /// the whole object of a loop.
    pub fn try_get<'a>(&'a self, alloc: Global, path: &[Value]) -> Result<Option<ValueCow<'a>>>
        ensures value { IsValueOrMemory (λ r. option_map cow_view r) result
            (value_along (environment_of self.now) (map view path.now)) }
        ensures no_memory { (FindsLoop self.now (value_along (environment_of self.now)
            (map view path.now)) → ⊥) →
            IsTrue (begins_with_text (map view path.now)) → IsOk result }
    {
        match path.split_first() {
            None => Ok(None),
            Some((name, steps)) => match self.named_by(alloc, name)? {
                None => Ok(None),
                Some(resolved) => along(alloc, resolved, steps),
            },
        }
    }

    /// The same, or `UnknownVariable` where the path leads to nothing.
    pub fn get<'a>(&'a self, alloc: Global, path: &[Value]) -> Result<ValueCow<'a>>
        ensures value { Answers cow_view result
            (ok_or (value_along (environment_of self.now) (map view path.now)) UnknownVariable) }
        ensures no_memory { (FindsLoop self.now (value_along (environment_of self.now)
            (map view path.now)) → ⊥) →
            IsTrue (begins_with_text (map view path.now)) →
            TakesNoMemory result (ok_or (value_along (environment_of self.now) (map view path.now))
            UnknownVariable) }
        ensures message { IfErr result
            (λ e. HasMessageUnlessMemory (nowhere_message (map view path.now)) e) }
    {
        match self.try_get(alloc, path)? {
            Some(value) => Ok(value),
            None => Err(unknown(alloc, path)),
        }
    }

    /// What the text of this value leads to, as a name.
    fn named_by<'a>(&'a self, alloc: Global, name: &Value) -> Result<Option<Resolved<'a, 'd>>>
        ensures value { IsValueOrMemory (λ r. option_map resolved_view r) result
            (lookup (environment_of self.now) (text_of (view name.now))) }
        ensures no_memory { IsTrue (is_text (view name.now)) → IsOk result }
        ensures among { IfOk result
            (λ r. IfSome r (IsAmong (loops_of self.now) self.now.scopes.items)) }
    {
        match name {
            Value::Text(text) => Ok(self.resolve(text.as_str())),
            _ => {
                let text = name.text(alloc)?;
                Ok(self.resolve(text.as_str()))
            }
        }
    }

    /// What a name is in the innermost scope that holds it.
    fn local<'a>(&'a self, name: &str) -> Option<Resolved<'a, 'd>>
        ensures value { option_map resolved_view result ≡ (environment_of self.now).local name.now }
        ensures among { IfSome result (IsAmong (loops_of self.now) self.now.scopes.items) }
    {
        let scopes = Scopes {
            outer: self.scopes.as_slice(),
            frames: self.frames.as_slice(),
        };
        scopes.find(name)
    }
}

impl<'d> Data<'d> {
    /// What the data holds under the name.
    fn find<'a>(&'a self, name: &str) -> Option<Resolved<'a, 'd>>
        ensures value { option_map resolved_view result ≡ data_held self.now name.now }
        ensures held { IfSome result IsHeld }
    {
        match self {
            Data::Own(object) => match look_up(object, name) {
                Some(value) => Some(Resolved::Local(Found::Held(value))),
                None => None,
            },
            Data::Borrowed(object) => match look_up(*object, name) {
                Some(value) => Some(Resolved::Borrowed(Found::Held(value))),
                None => None,
            },
        }
    }
}

/// What steps lead to.
fn along<'a, 'd>(
    alloc: Global,
    resolved: Resolved<'a, 'd>,
    steps: &[Value],
) -> Result<Option<ValueCow<'a>>>
    ensures value { IsValueOrMemory (λ r. option_map cow_view r) result
        (find (resolved_view resolved.entry)
        (map view steps.now)) }
    ensures no_memory { (s : State) → IsAmong (loops_of s) s.scopes.items resolved.entry →
        (FindsLoop s (find (resolved_view resolved.entry) (map view steps.now)) → ⊥) → IsOk result }
{
    let mut resolved = resolved;
    for part in steps {
        match resolved.stepped(part) {
            Some(next) => resolved = next,
            None => return Ok(None),
        }
    }
    Ok(Some(resolved.into_value(alloc)?))
}

fn unknown(alloc: Global, path: &[Value]) -> Error
    ensures kind_or_memory { IsKindOrMemory UnknownVariable result.kind }
    ensures message { HasMessageUnlessMemory (nowhere_message (map view path.now)) result }
{
    match path.first() {
        Some(name) => unknown_from(alloc, name),
        None => Error::new(
            alloc,
            ErrorKind::UnknownVariable,
            "an empty path leads to no value",
        ),
    }
}

/// The fault of a path that begins with this name and leads to no value.
fn unknown_from(alloc: Global, name: &Value) -> Error
    ensures kind_or_memory { IsKindOrMemory UnknownVariable result.kind }
    ensures message { HasMessageUnlessMemory (nowhere_message (view name.now ∷ [])) result }
{
    match name.text(alloc) {
        Ok(text) => {
            let quoted = Quoted {
                text: text.as_str(),
            };
            Error::formatted(
                alloc,
                ErrorKind::UnknownVariable,
                format_args!("the path from `{quoted}` leads to no value"),
            )
        }
        Err(refused) => refused,
    }
}
