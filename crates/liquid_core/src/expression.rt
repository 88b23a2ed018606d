//! Expressions: literals, and variables with their steps.
ghost use Rattle.std.specs.Prelude.{◌≡◌, ◌++◌, ℕ, List, option_map, option_and_then, map};
ghost use Rattle.std.specs.Prelude.{string_bytes, IsOk, IfSome, IfOk, IfErr, None, Some, true};
ghost use Rattle.liquid_model.specs.Quotes.{is_line};
ghost use Rattle.liquid_core.specs.Environment.{Environment};
ghost use Rattle.liquid_core.specs.DirectValues.{DirectlyIs};
ghost use Rattle.liquid_core.specs.AlongSteps.{value_along_steps};
ghost use Rattle.liquid_core.specs.LoopFrames.{frame_object};
ghost use Rattle.liquid_model.specs.Data.{Datum};
ghost use Rattle.liquid_model.specs.Maps.{Map};
ghost use Rattle.liquid_model.specs.Find.{step};
ghost use Rattle.liquid_model.specs.View.{view};
ghost use Rattle.liquid_model.specs.Answer.{Answers, IsValueOrMemory, TakesNoMemory};
ghost use Rattle.liquid_model.specs.Cow.{cow_view};
ghost use Rattle.liquid_model.specs.Errors.{BeginsUnlessMemory, without_value_front};
ghost use Rattle.liquid_core.specs.Expressions.{value_of, required, sought};
ghost use Rattle.liquid_core.specs.ExpressionView.{expression_view, steps_view, variable_view};
ghost use Rattle.liquid_core.specs.States.{environment_of, loops_of, FindsLoop};
ghost use Rattle.liquid_core.specs.Resolved.{resolved_view, IsAmong, IsHeld};
ghost use Rattle.liquid_model.specs.ErrorKinds.{IsKindOrMemory};
ghost use Rattle.liquid_core.specs.Spelled.{spelled, spelled_steps};
ghost use Rattle.liquid_model.specs.declared.error.ErrorKind.TheVariants.{UnknownVariable};

use crate::frame::LoopFrame;
use crate::missing::{Words, words_of, words_of_variable};
use crate::missing_value::Missing;
use crate::resolved::{DirectValue, Resolved};
use crate::spelled::{Spelled, SpelledPath};
use crate::state::State;
use liquid_model::{Error, ErrorKind, Found, Quoted, Result, Value, ValueCow, line_of};
use std::alloc::Global;
use std::fmt::Display;

/// The most bytes that follow the spelling in the message of an expression without a value.
const MOST_WORDS: usize = 600;

/// A literal, or a variable.
#[cycle(expression)]
#[derive(Drop)]
pub enum Expression {
    /// A value that stands in the template itself.
    Literal(Value),
    /// A name, with steps that lead on from its value.
    Variable(Variable),
}

/// A first name, and the steps that lead on from its value, as `a["b"][0]`.
#[cycle(expression)]
#[derive(Drop)]
pub struct Variable {
    /// The first name.
    pub name: String,
    /// The steps, each by its own value.
    pub indexes: Vec<Expression>,
}

impl Expression {
    /// The value of the expression, where it has one. A variable has none where its name has none,
    /// where a step's value is missing or no scalar, and where the steps lead to nothing.
    ///
    /// The value is borrowed from the state or the expression, also inside a loop, and a length is
    /// owned.
    /// Its only fault is `Memory`, and it takes memory only where it finds the whole object of a
    /// loop.
    pub fn try_evaluate<'a>(
        &'a self,
        alloc: Global,
        state: &'a State<'_>,
    ) -> Result<Option<ValueCow<'a>>>
        ensures value { IsValueOrMemory (λ r. option_map cow_view r) result
            (value_of (expression_view self.now)
            (environment_of state.now)) }
        ensures no_memory { (FindsLoop state.now (value_of (expression_view self.now)
            (environment_of state.now)) →
            ⊥) → IsOk result }
    {
        valued(alloc, expression_value(self, state))
    }

    /// The same, or `UnknownVariable` where the expression has no value, unless a missing value is
    /// nil in this state. That fault takes memory too.
    pub fn evaluate<'a>(&'a self, alloc: Global, state: &'a State<'_>) -> Result<ValueCow<'a>>
        ensures value { Answers cow_view result (required (expression_view self.now)
            (environment_of state.now)) }
        ensures no_memory { (FindsLoop state.now (value_of (expression_view self.now)
            (environment_of state.now)) →
            ⊥) → TakesNoMemory result (required (expression_view self.now)
            (environment_of state.now)) }
        ensures message { IfErr result (λ e. BeginsUnlessMemory
            (without_value_front (spelled (expression_view self.now))) e) }
    {
        match valued(alloc, expression_value(self, state))? {
            Some(value) => Ok(value),
            None => match state.missing() {
                Missing::IsNil => Ok(ValueCow::Owned(Value::Nil)),
                Missing::IsFault => Err(self.without_value(alloc, state)),
            },
        }
    }

    /// The same, with `None` in place of that nil.
    pub fn sought<'a>(&'a self, alloc: Global, state: &'a State<'_>) -> Result<Option<ValueCow<'a>>>
        ensures { Answers (λ r. option_map cow_view r) result (sought (expression_view self.now)
            (environment_of state.now)) }
    {
        match valued(alloc, expression_value(self, state))? {
            Some(value) => Ok(Some(value)),
            None => match state.missing() {
                Missing::IsNil => Ok(None),
                Missing::IsFault => Err(self.without_value(alloc, state)),
            },
        }
    }

    /// The value of the expression, where it is held, a number or a truth value: a literal, a name
    /// that is no loop's object, with steps that are keys and places of items, or a number or a
    /// truth value that each loop's object has. It takes no memory.
    pub fn direct_value<'a>(&'a self, state: &'a State<'_>) -> DirectValue<'a>
        ensures { DirectlyIs result (value_of (expression_view self.now) (environment_of state.now))
            None }
    {
        match self {
            Expression::Literal(value) => DirectValue::Held(value),
            Expression::Variable(variable) => variable.direct_value(state),
        }
    }

    /// The value of the expression, where it is borrowed for the whole run. `None` doesn't mean
    /// that there is no value. It takes no memory.
    pub fn borrowed_value<'d>(&self, state: &State<'d>) -> Option<&'d Value>
        ensures { IfSome result (λ v. Some (view v.now) ≡
            value_of (expression_view self.now) (environment_of state.now)) }
    {
        match expression_value(self, state) {
            Some(Resolved::Borrowed(Found::Held(value))) => Some(value),
            _ => None,
        }
    }

    /// What the expression leads to, borrowed: for the whole run where the data holds it. Else as
    /// `evaluate`. Only the fault takes memory.
    pub fn resolve<'a, 'd>(
        &'a self,
        alloc: Global,
        state: &'a State<'d>,
    ) -> Result<Resolved<'a, 'd>>
        ensures value { Answers resolved_view result (required (expression_view self.now)
            (environment_of state.now)) }
        ensures no_memory { TakesNoMemory result (required (expression_view self.now)
            (environment_of state.now)) }
        ensures message { IfErr result (λ e. BeginsUnlessMemory
            (without_value_front (spelled (expression_view self.now))) e) }
    {
        match expression_value(self, state) {
            Some(resolved) => Ok(resolved),
            None => match state.missing() {
                Missing::IsNil => Ok(Resolved::Local(Found::Nil)),
                Missing::IsFault => Err(self.without_value(alloc, state)),
            },
        }
    }

    /// The fault of an expression that has no value here.
    fn without_value(&self, alloc: Global, state: &State<'_>) -> Error
        ensures kind_or_memory { IsKindOrMemory UnknownVariable result.kind }
        ensures message { BeginsUnlessMemory
            (without_value_front (spelled (expression_view self.now))) result }
    {
        let words = words_of(alloc, self, state);
        without_value(alloc, &Spelled { expression: self }, words)
    }

    /// An equal expression that owns its parts.
    pub fn copy(&self, alloc: Global) -> Result<Expression>
        ensures { IsValueOrMemory expression_view result (expression_view self.now) }
    {
        copied(alloc, self)
    }
}

impl Variable {
    /// `Expression::direct_value` of a variable.
    fn direct_value<'a>(&'a self, state: &'a State<'_>) -> DirectValue<'a>
        ensures { DirectlyIs result (value_of (variable_view self.now) (environment_of state.now))
            None }
    {
        match state.direct_value(self.name.as_str()) {
            DirectValue::Held(value) => match direct_along(value, &self.indexes) {
                Some(found) => DirectValue::Held(found),
                None => DirectValue::Unknown,
            },
            DirectValue::Number(n) if self.indexes.is_empty() => DirectValue::Number(n),
            DirectValue::Loop(frame) => direct_part(frame, self.indexes.as_slice()),
            _ => DirectValue::Unknown,
        }
    }

    /// The value of the variable, where it has one, as `Expression::try_evaluate`.
    pub fn try_evaluate<'a>(
        &'a self,
        alloc: Global,
        state: &'a State<'_>,
    ) -> Result<Option<ValueCow<'a>>>
        ensures value { IsValueOrMemory (λ r. option_map cow_view r) result
            (value_of (variable_view self.now) (environment_of state.now)) }
        ensures no_memory { (FindsLoop state.now
            (value_of (variable_view self.now) (environment_of state.now)) →
            ⊥) → IsOk result }
    {
        valued(alloc, variable_value(self, state))
    }

    /// The same, or `UnknownVariable` where the variable has no value, unless a missing value is
    /// nil in this state. That fault takes memory too.
    pub fn evaluate<'a>(&'a self, alloc: Global, state: &'a State<'_>) -> Result<ValueCow<'a>>
        ensures value { Answers cow_view result
            (required (variable_view self.now) (environment_of state.now)) }
        ensures no_memory { (FindsLoop state.now
            (value_of (variable_view self.now) (environment_of state.now)) →
            ⊥) → TakesNoMemory result
            (required (variable_view self.now) (environment_of state.now)) }
        ensures message { IfErr result (λ e. BeginsUnlessMemory
            (without_value_front (spelled (variable_view self.now))) e) }
    {
        match valued(alloc, variable_value(self, state))? {
            Some(value) => Ok(value),
            None => match state.missing() {
                Missing::IsNil => Ok(ValueCow::Owned(Value::Nil)),
                Missing::IsFault => Err(self.without_value(alloc, state)),
            },
        }
    }

    /// The fault of a variable that has no value here.
    fn without_value(&self, alloc: Global, state: &State<'_>) -> Error
        ensures kind_or_memory { IsKindOrMemory UnknownVariable result.kind }
        ensures message { BeginsUnlessMemory
            (without_value_front (spelled (variable_view self.now))) result }
    {
        let words = words_of_variable(alloc, self, state);
        let path = SpelledPath {
            name: self.name.as_str(),
            steps: self.indexes.as_slice(),
        };
        without_value(alloc, &path, words)
    }

    /// An equal variable that owns its parts.
    pub fn copy(&self, alloc: Global) -> Result<Variable>
        ensures { IsValueOrMemory variable_view result (variable_view self.now) }
    {
        copied_variable(alloc, self)
    }
}

/// The fault of an expression or a variable that has no value, by its spelling and further words.
fn without_value<D: Display>(alloc: Global, spelled: &D, words: Words) -> Error
    ensures kind_or_memory { IsKindOrMemory UnknownVariable result.kind }
    ensures message { IfSome (D.output spelled.now)
        (λ form. BeginsUnlessMemory (without_value_front form) result) }
{
    match message(alloc, spelled, words) {
        Ok(message) => Error::with_message(ErrorKind::UnknownVariable, message),
        Err(refused) => Error::from(refused),
    }
}

/// The message of an expression that has no value: its spelling, and further words.
fn message<D: Display>(alloc: Global, spelled: &D, words: Words) -> Words
    ensures line { IfOk result (λ s. is_line 900 (string_bytes s) ≡ true) }
    ensures front { IfOk result (λ s. IfSome (D.output spelled.now) (λ form. (rest : List ℕ) ×
        (string_bytes s ≡ without_value_front form ++ rest))) }
{
    let words = line_of(MOST_WORDS, words?);
    let spelled = spelled.to_string(alloc)?;
    let quoted = Quoted {
        text: spelled.as_str(),
    };
    format!(in alloc; "`{quoted}` has no value{words}")
}

#[cycle(value)]
pub(crate) fn expression_value<'a, 'd>(
    expression: &'a Expression,
    state: &'a State<'d>,
) -> Option<Resolved<'a, 'd>>
    ensures value { option_map resolved_view result ≡ value_of (expression_view expression.now)
        (environment_of state.now) }
    ensures among { IfSome result (IsAmong (loops_of state.now) state.now.scopes.items) }
{
    match expression {
        Expression::Literal(value) => Some(Resolved::Local(Found::Held(value))),
        Expression::Variable(variable) => variable_value(variable, state),
    }
}

#[cycle(value)]
fn variable_value<'a, 'd>(variable: &'a Variable, state: &'a State<'d>) -> Option<Resolved<'a, 'd>>
    ensures value { option_map resolved_view result ≡ value_of (variable_view variable.now)
        (environment_of state.now) }
    ensures among { IfSome result (IsAmong (loops_of state.now) state.now.scopes.items) }
{
    let mut found = state.resolve(variable.name.as_str())?;
    for index in &variable.indexes {
        let part = expression_value(index, state)?;
        found = found.stepped_by(part)?;
    }
    Some(found)
}

/// What steps by literals lead to, by keys and by the places of items. `None` doesn't mean that
/// they lead nowhere.
fn direct_along<'a>(value: &'a Value, indexes: &Vec<Expression>) -> Option<&'a Value>
    ensures { (e : Environment) →
        IfSome result (λ v. Some (view v.now) ≡
        value_along_steps (view value.now) (steps_view indexes.now.items) e) }
{
    let mut found = value;
    for index in indexes {
        found = direct_step(found, index)?;
    }
    Some(found)
}

/// What a lone step leads to from a loop's object, by a literal.
fn direct_part<'a>(frame: &LoopFrame<'_>, indexes: &[Expression]) -> DirectValue<'a>
    ensures { (e : Environment) → (local : Map Datum) →
        DirectlyIs result (value_along_steps (frame_object frame.now local) (steps_view indexes.now)
        e) None }
{
    match indexes {
        [index] => direct_part_by(frame, index),
        _ => DirectValue::Unknown,
    }
}

/// A step by a literal from a loop's object.
fn direct_part_by<'a>(frame: &LoopFrame<'_>, index: &Expression) -> DirectValue<'a>
    ensures { (e : Environment) → (local : Map Datum) →
        DirectlyIs result (option_and_then (step (frame_object frame.now local))
        (value_of (expression_view index.now) e)) None }
{
    match index {
        Expression::Literal(part) => frame.direct_stepped(part),
        Expression::Variable(_) => DirectValue::Unknown,
    }
}

/// A step by a literal: a key of a map, or the place of an item. `None` doesn't mean that it leads
/// nowhere.
fn direct_step<'a>(value: &'a Value, index: &Expression) -> Option<&'a Value>
    ensures { (e : Environment) →
        IfSome result (λ v. Some (view v.now) ≡ option_and_then (step (view value.now))
        (value_of (expression_view index.now) e)) }
{
    match index {
        Expression::Literal(part) => value.direct_part(part),
        Expression::Variable(_) => None,
    }
}

/// The value of what was found.
fn valued<'a, 'd>(alloc: Global, found: Option<Resolved<'a, 'd>>) -> Result<Option<ValueCow<'a>>>
    ensures value { IsValueOrMemory (λ r. option_map cow_view r) result
        (option_map resolved_view found.entry) }
    ensures no_memory { IfSome found.entry IsHeld → IsOk result }
{
    match found {
        Some(resolved) => Ok(Some(resolved.into_value(alloc)?)),
        None => Ok(None),
    }
}

#[cycle(copied)]
fn copied(alloc: Global, expression: &Expression) -> Result<Expression>
    ensures { IsValueOrMemory expression_view result (expression_view expression.now) }
{
    match expression {
        Expression::Literal(value) => Ok(Expression::Literal(value.copy(alloc)?)),
        Expression::Variable(variable) => {
            Ok(Expression::Variable(copied_variable(alloc, variable)?))
        }
    }
}

#[cycle(copied)]
fn copied_variable(alloc: Global, variable: &Variable) -> Result<Variable>
    ensures { IsValueOrMemory variable_view result (variable_view variable.now) }
{
    let name = String::from_str(alloc, variable.name.as_str())?;
    let indexes = copied_indexes(alloc, &variable.indexes)?;
    Ok(Variable { name, indexes })
}

#[cycle(copied)]
fn copied_indexes(alloc: Global, indexes: &Vec<Expression>) -> Result<Vec<Expression>>
    ensures { IsValueOrMemory (λ v. map expression_view v.items) result
        (map expression_view indexes.now.items) }
{
    let mut copies = Vec::with_capacity(alloc, indexes.len())?;
    for index in indexes {
        copies.push(copied(alloc, index)?)?;
    }
    Ok(copies)
}
