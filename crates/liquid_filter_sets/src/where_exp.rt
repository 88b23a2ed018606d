//! The filter that selects items by a condition.
ghost use Rattle.std.specs.Prelude.{◌≡◌, map, nat_eq, string_bytes};
ghost use Rattle.liquid_model.specs.Answer.{Answers, IsValueOrMemory};
ghost use Rattle.liquid_model.specs.Lists.{list_of};
ghost use Rattle.liquid_model.specs.View.{view, items_view, pairs_view};
ghost use Rattle.liquid_jekyll_host_filters.specs.Searches.{values};
ghost use Rattle.liquid_filter_sets.specs.Selections.{passes_test, items_passing_test, test_of};
ghost use Rattle.liquid_filter_sets.specs.Selections.{where_exp, where_exp_answer};
ghost use Rattle.liquid_filter_sets.specs.Views.{test_view};

use crate::condition_text::condition_in;
use crate::truth::holds;
use liquid_core::{Filter, Object, Result, State, Value, store};
use liquid_model::{invalid_argument, text_of};
use liquid_syntax::Condition;
use std::alloc::Global;

/// `where_exp`: the items of a list, or the values of a map, for which a condition holds, in their
/// order.
///
/// The first argument is the name by which the condition, the second, speaks of an item. Every
/// other name in it is nil, and so is what an item hasn't. `InvalidArgument` where the second is no
/// condition, whole. An input that is neither a list nor a map stays.
#[derive(Clone, Copy, Drop)]
pub struct WhereExp;

impl Filter for WhereExp {
    ghost counts = { λ _ n. nat_eq n 2 };

    ghost answer = { λ _. where_exp_answer };

    fn accepts(&self, count: usize) -> bool {
        count == 2
    }

    fn evaluate(&self, alloc: Global, input: &Value, args: &[Value]) -> Result<Value> {
        where_exp(alloc, input, &args[0], &args[1])
    }
}

fn where_exp(alloc: Global, input: &Value, name: &Value, condition: &Value) -> Result<Value>
    ensures { Answers view result
        (where_exp (view name.now) (view condition.now) (view input.now)) }
{
    match input {
        Value::Array(items) => {
            let test = test_of(alloc, name, condition)?;
            Ok(Value::Array(selected(alloc, items, &test)?))
        }
        Value::Object(pairs) => {
            let test = test_of(alloc, name, condition)?;
            Ok(Value::Array(selected_values(alloc, pairs, &test)?))
        }
        _ => input.copy(alloc),
    }
}

/// A condition over one name.
#[derive(Drop)]
struct Test {
    name: String,
    condition: Condition,
}

fn test_of(alloc: Global, name: &Value, condition: &Value) -> Result<Test>
    ensures { Answers test_view result (test_of (view name.now) (view condition.now)) }
{
    let text = text_of(alloc, condition)?;
    match condition_in(alloc, text.as_str())? {
        Some(found) => Ok(Test {
            name: text_of(alloc, name)?.into_owned(alloc)?,
            condition: found,
        }),
        None => Err(invalid_argument(alloc, "a condition, as 'item.price > 3'", condition)),
    }
}

impl Test {
    /// Whether the condition holds of the item.
    fn selects(&self, alloc: Global, item: &Value) -> Result<bool>
        ensures { IsValueOrMemory (λ b. b) result
            (passes_test (test_view self.now) (view item.now)) }
    {
        let mut names = Object::new(alloc);
        let name = String::from_str(alloc, self.name.as_str())?;
        store(&mut names, name, item.copy(alloc)?)?;
        holds(alloc, &self.condition, &State::new(alloc, names))
    }
}

fn selected(alloc: Global, items: &[Value], test: &Test) -> Result<Vec<Value>>
    ensures { IsValueOrMemory (λ v. map view v.items) result
        (items_passing_test (test_view test.now) (list_of (items_view items.now))) }
{
    let mut kept = Vec::new(alloc);
    for item in items {
        if test.selects(alloc, item)? {
            kept.push(item.copy(alloc)?)?;
        }
    }
    Ok(kept)
}

fn selected_values(alloc: Global, pairs: &Object, test: &Test) -> Result<Vec<Value>>
    ensures { IsValueOrMemory (λ v. map view v.items) result
        (items_passing_test (test_view test.now) (values (pairs_view pairs.now.entries))) }
{
    let mut kept = Vec::new(alloc);
    for (_key, value) in pairs.iter() {
        if test.selects(alloc, value)? {
            kept.push(value.copy(alloc)?)?;
        }
    }
    Ok(kept)
}
