//! The filters that add or take an item at an end of a list.
ghost use Rattle.std.specs.Prelude.{◌++◌, ◌∷◌, [], drop, map, nat_eq};
ghost use Rattle.liquid_model.specs.Answer.{Answers, IsValueOrMemory};
ghost use Rattle.liquid_model.specs.Lists.{list_of};
ghost use Rattle.liquid_model.specs.View.{view, items_view};
ghost use Rattle.liquid_filters.specs.JekyllEnds.{pop_answer, push_answer, shift_answer};
ghost use Rattle.liquid_filters.specs.JekyllEnds.{unshift_answer, without_last};

use crate::stdlib::filters::array::reverse_and_concat::{copies_of, push_copies};
use liquid_model::{Filter, Result, Value, invalid_input};
use std::alloc::Global;

/// `push`: a list with the argument as its last item.
#[derive(Clone, Copy, Drop)]
pub struct Push;

impl Filter for Push {
    ghost counts = { λ _ n. nat_eq n 1 };

    ghost answer = { λ _. push_answer };

    fn accepts(&self, count: usize) -> bool {
        count == 1
    }

    /// `InvalidInput` where the input is no list.
    fn evaluate(&self, alloc: Global, input: &Value, args: &[Value]) -> Result<Value> {
        with_last(alloc, input, &args[0])
    }
}

fn with_last(alloc: Global, input: &Value, item: &Value) -> Result<Value>
    ensures { Answers view result (push_answer (view input.now) (view item.now ∷ [])) }
{
    match input {
        Value::Array(items) => Ok(Value::Array(pushed(alloc, items, item)?)),
        _ => Err(invalid_input(alloc, "a list", input)),
    }
}

/// `unshift`: a list with the argument as its first item.
#[derive(Clone, Copy, Drop)]
pub struct Unshift;

impl Filter for Unshift {
    ghost counts = { λ _ n. nat_eq n 1 };

    ghost answer = { λ _. unshift_answer };

    fn accepts(&self, count: usize) -> bool {
        count == 1
    }

    /// `InvalidInput` where the input is no list.
    fn evaluate(&self, alloc: Global, input: &Value, args: &[Value]) -> Result<Value> {
        with_first(alloc, input, &args[0])
    }
}

fn with_first(alloc: Global, input: &Value, item: &Value) -> Result<Value>
    ensures { Answers view result (unshift_answer (view input.now) (view item.now ∷ [])) }
{
    match input {
        Value::Array(items) => Ok(Value::Array(unshifted(alloc, items, item)?)),
        _ => Err(invalid_input(alloc, "a list", input)),
    }
}

/// `pop`: a list without its last item; the empty list stays.
#[derive(Clone, Copy, Drop)]
pub struct Pop;

impl Filter for Pop {
    ghost counts = { λ _ n. nat_eq n 0 };

    ghost answer = { λ _. pop_answer };

    fn accepts(&self, count: usize) -> bool {
        count == 0
    }

    /// `InvalidInput` where the input is no list.
    fn evaluate(&self, alloc: Global, input: &Value, _args: &[Value]) -> Result<Value> {
        match input {
            Value::Array(items) => Ok(Value::Array(popped(alloc, items)?)),
            _ => Err(invalid_input(alloc, "a list", input)),
        }
    }
}

/// `shift`: a list without its first item; the empty list stays.
#[derive(Clone, Copy, Drop)]
pub struct Shift;

impl Filter for Shift {
    ghost counts = { λ _ n. nat_eq n 0 };

    ghost answer = { λ _. shift_answer };

    fn accepts(&self, count: usize) -> bool {
        count == 0
    }

    /// `InvalidInput` where the input is no list.
    fn evaluate(&self, alloc: Global, input: &Value, _args: &[Value]) -> Result<Value> {
        match input {
            Value::Array(items) => Ok(Value::Array(shifted(alloc, items)?)),
            _ => Err(invalid_input(alloc, "a list", input)),
        }
    }
}

fn pushed(alloc: Global, items: &[Value], item: &Value) -> Result<Vec<Value>>
    ensures { IsValueOrMemory (λ v. map view v.items) result (list_of (items_view items.now) ++
        view item.now ∷ []) }
{
    let mut more = Vec::with_capacity(alloc, items.len().saturating_add(1))?;
    push_copies(&mut more, items, alloc)?;
    more.push(item.copy(alloc)?)?;
    Ok(more)
}

fn unshifted(alloc: Global, items: &[Value], item: &Value) -> Result<Vec<Value>>
    ensures { IsValueOrMemory (λ v. map view v.items) result
        (view item.now ∷ list_of (items_view items.now)) }
{
    let mut more = Vec::with_capacity(alloc, items.len().saturating_add(1))?;
    more.push(item.copy(alloc)?)?;
    push_copies(&mut more, items, alloc)?;
    Ok(more)
}

fn popped(alloc: Global, items: &[Value]) -> Result<Vec<Value>>
    ensures { IsValueOrMemory (λ v. map view v.items) result
        (without_last (list_of (items_view items.now))) }
{
    match items.split_last() {
        Some((_last, rest)) => copies_of(alloc, rest),
        None => Ok(Vec::new(alloc)),
    }
}

fn shifted(alloc: Global, items: &[Value]) -> Result<Vec<Value>>
    ensures { IsValueOrMemory (λ v. map view v.items) result
        (drop 1 (list_of (items_view items.now))) }
{
    match items.split_first() {
        Some((_first, rest)) => copies_of(alloc, rest),
        None => Ok(Vec::new(alloc)),
    }
}
