//! The filters that put lists into another row.
ghost use Rattle.std.specs.Prelude.{◌++◌, nat_eq, map, reverse, IsTrue, length};
ghost use Rattle.liquid_model.specs.Answer.{Answers, IsValueOrMemory};
ghost use Rattle.liquid_model.specs.Lists.{list_of};
ghost use Rattle.liquid_model.specs.View.{view, items_view};
ghost use Rattle.liquid_model.specs.Satisfies.{Satisfies, WithFirst};
ghost use Rattle.liquid_filters.specs.ListLaws.{Concats, Reverses};
ghost use Rattle.liquid_filters.specs.Rows.{concat_answer, concat_by, reverse_answer};

use liquid_model::{Filter, Result, Value, invalid_argument, invalid_input};
use std::alloc::Global;

/// `reverse`: a list, the last item first.
#[derive(Clone, Copy, Drop)]
pub struct Reverse;

impl Filter for Reverse {
    ghost counts = { λ _ n. nat_eq n 0 };

    ghost answer = { λ _. reverse_answer };

    fn accepts(&self, count: usize) -> bool {
        count == 0
    }

    /// `InvalidInput` where the input is no list.
    fn evaluate(&self, alloc: Global, input: &Value, args: &[Value]) -> Result<Value>
        requires { IsTrue (nat_eq (length args.now) 0) }
        ensures answer { Answers view result (reverse_answer (view input.now) (map view args.now)) }
        ensures relation { Satisfies (Reverses (view input.now)) result }
    {
        reverse_answer(alloc, input, args)
    }
}

fn reverse_answer(alloc: Global, input: &Value, _args: &[Value]) -> Result<Value>
    requires { IsTrue (nat_eq (length _args.now) 0) }
    ensures { Answers view result (reverse_answer (view input.now) (map view _args.now)) }
{
    match input {
        Value::Array(items) => Ok(Value::Array(reversed(alloc, items)?)),
        _ => Err(invalid_input(alloc, "a list", input)),
    }
}

fn reversed(alloc: Global, items: &[Value]) -> Result<Vec<Value>>
    ensures { IsValueOrMemory (λ v. map view v.items) result
        (reverse (list_of (items_view items.now))) }
{
    let mut copies = copies_of(alloc, items)?;
    copies.reverse();
    Ok(copies)
}

/// Copies of the items, in their order.
pub fn copies_of(alloc: Global, items: &[Value]) -> Result<Vec<Value>>
    ensures { IsValueOrMemory (λ v. map view v.items) result (list_of (items_view items.now)) }
{
    let mut copies = Vec::with_capacity(alloc, items.len())?;
    push_copies(&mut copies, items, alloc)?;
    Ok(copies)
}

/// `concat`: a list followed by the argument's list.
#[derive(Clone, Copy, Drop)]
pub struct Concat;

impl Filter for Concat {
    ghost counts = { λ _ n. nat_eq n 1 };

    ghost answer = { λ _. concat_answer };

    fn accepts(&self, count: usize) -> bool {
        count == 1
    }

    /// `InvalidInput` where the input is no list, then `InvalidArgument` where the argument is
    /// none.
    fn evaluate(&self, alloc: Global, input: &Value, args: &[Value]) -> Result<Value>
        requires { IsTrue (nat_eq (length args.now) 1) }
        ensures answer { Answers view result (concat_answer (view input.now) (map view args.now)) }
        ensures relation { Satisfies (WithFirst (λ e rest. Concats e (view input.now))
            (map view args.now)) result }
    {
        concat_answer(alloc, input, args)
    }
}

fn concat_answer(alloc: Global, input: &Value, args: &[Value]) -> Result<Value>
    requires { IsTrue (nat_eq (length args.now) 1) }
    ensures { Answers view result (concat_answer (view input.now) (map view args.now)) }
{
    followed(alloc, input, &args[0])
}

/// The input's items, and after them those of the other list.
fn followed(alloc: Global, input: &Value, more: &Value) -> Result<Value>
    ensures { Answers view result (concat_by (view input.now) (view more.now)) }
{
    match (input, more) {
        (Value::Array(items), Value::Array(more)) => {
            Ok(Value::Array(concatenated(alloc, items, more)?))
        }
        (Value::Array(_), other) => Err(invalid_argument(alloc, "a list", other)),
        (_, _) => Err(invalid_input(alloc, "a list", input)),
    }
}

fn concatenated(alloc: Global, items: &[Value], more: &[Value]) -> Result<Vec<Value>>
    ensures { IsValueOrMemory (λ v. map view v.items) result (list_of (items_view items.now) ++
        list_of (items_view more.now)) }
{
    let mut copies = copies_of(alloc, items)?;
    push_copies(&mut copies, more, alloc)?;
    Ok(copies)
}

/// Appends an equal item for each item. `Memory` alone where there is no room, and then some may
/// have been appended.
pub fn push_copies(copies: &mut Vec<Value>, items: &[Value], alloc: Global) -> Result<()>
    ensures { IsValueOrMemory (λ _. map view copies.new.items) result (map view copies.old.items ++
        list_of (items_view items.now)) }
{
    for item in items {
        copies.push(item.copy(alloc)?)?;
    }
    Ok(())
}
