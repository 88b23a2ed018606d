//! The items of a loop, borrowed where the data holds them.
ghost use Rattle.std.specs.Prelude.{◌≡◌, ◌≤◌, IfOk, length, map};
ghost use Rattle.liquid_model.specs.Answer.{Answers, IsValueOrMemory};
ghost use Rattle.liquid_model.specs.Found.{found_view};
ghost use Rattle.liquid_model.specs.Lists.{pair_lists};
ghost use Rattle.liquid_model.specs.View.{view, pairs_view};
ghost use Rattle.liquid_core.specs.Resolved.{resolved_view};
ghost use Rattle.liquid_core.specs.States.{environment_of};
ghost use Rattle.liquid_evaluation.specs.Evaluation.{source_items, value_items};
ghost use Rattle.liquid_evaluation.specs.ItemLists.{all_items};
ghost use Rattle.liquid_evaluation.specs.Ranges.{items_in, between, range_items};
ghost use Rattle.liquid_evaluation.specs.SourceView.{source_view};

use crate::range::{checked_count, count_to, pair, without_items};
use crate::range_expression::RangeExpression;
use crate::window::evaluate_whole;
use liquid_core::{Found, Items, Object, Resolved, Result, State, Value, copy_items};
use std::alloc::Global;

/// What a loop goes over, and how many items there are.
#[derive(Drop)]
pub struct LoopItems<'d> {
    pub items: Items<'d>,
    pub count: usize,
}

impl RangeExpression {
    /// The items of the source. A list that is borrowed for the whole run stays so, and any other
    /// is copied, for the body of a loop may set the name that holds it.
    ///
    /// The faults are those of `evaluate` and then those of `Range::evaluate`.
    #[tactic(auto, unfolding(crate::specs::Evaluation::source_items))]
    pub fn items<'x, 'd>(&'x self, alloc: Global, state: &'x State<'d>) -> Result<LoopItems<'d>>
        ensures items { Answers (λ r. all_items r.items) result (source_items (source_view self.now)
            (environment_of state.now)) }
        ensures count { IfOk result (λ r. r.count ≡ length (all_items r.items)) }
        ensures within { IfOk result (λ r. r.count ≤ 9223372036854775807) }
    {
        match self {
            RangeExpression::Array(value) => resolved_items(alloc, value.resolve(alloc, state)?),
            RangeExpression::Counted(first, last) => {
                let first = evaluate_whole(alloc, first, state)?;
                let last = evaluate_whole(alloc, last, state)?;
                number_items(alloc, first, last)
            }
        }
    }
}

/// The items of what a value was found to be.
fn resolved_items<'d>(alloc: Global, resolved: Resolved<'_, 'd>) -> Result<LoopItems<'d>>
    ensures items { Answers (λ r. all_items r.items) result
        (range_items (items_in (resolved_view resolved.entry))) }
    ensures count { IfOk result (λ r. r.count ≡ length (all_items r.items)) }
    ensures within { IfOk result (λ r. r.count ≤ 9223372036854775807) }
{
    match resolved {
        Resolved::Borrowed(found) => found_items(alloc, found),
        other => {
            let value = other.into_value(alloc)?;
            owned_items(alloc, value.as_value())
        }
    }
}

/// The items of what is borrowed for the whole run.
fn found_items<'d>(alloc: Global, found: Found<'d>) -> Result<LoopItems<'d>>
    ensures items { Answers (λ r. all_items r.items) result
        (range_items (items_in (found_view found.entry))) }
    ensures count { IfOk result (λ r. r.count ≡ length (all_items r.items)) }
    ensures within { IfOk result (λ r. r.count ≤ 9223372036854775807) }
{
    match found {
        Found::Held(value) => borrowed_items(alloc, value),
        other => owned_items(alloc, other.into_value().as_value()),
    }
}

/// The items of a value, of which a list is borrowed.
fn borrowed_items<'d>(alloc: Global, value: &'d Value) -> Result<LoopItems<'d>>
    ensures items { Answers (λ r. all_items r.items) result
        (range_items (items_in (view value.now))) }
    ensures count { IfOk result (λ r. r.count ≡ length (all_items r.items)) }
    ensures within { IfOk result (λ r. r.count ≤ 9223372036854775807) }
{
    match value {
        Value::Array(items) => {
            let count = checked_count(alloc, items.len() as u128)?;
            let items = Items::Borrowed(items.as_slice());
            Ok(LoopItems { items, count })
        }
        _ => owned_items(alloc, value),
    }
}

/// The items of a value, copied.
fn owned_items<'d>(alloc: Global, value: &Value) -> Result<LoopItems<'d>>
    ensures items { Answers (λ r. all_items r.items) result
        (range_items (items_in (view value.now))) }
    ensures count { IfOk result (λ r. r.count ≡ length (all_items r.items)) }
    ensures within { IfOk result (λ r. r.count ≤ 9223372036854775807) }
{
    let items = copied_items(alloc, value)?;
    let count = checked_count(alloc, items.len() as u128)?;
    let items = Items::Owned(items);
    Ok(LoopItems { items, count })
}

fn copied_items(alloc: Global, value: &Value) -> Result<Vec<Value>>
    ensures { Answers (λ v. map view v.items) result (value_items (view value.now)) }
{
    match value {
        Value::Nil => Ok(Vec::new(alloc)),
        Value::Array(items) => copy_items(alloc, items),
        Value::Object(pairs) => copied_pairs(alloc, pairs),
        _ => Err(without_items(alloc, value)),
    }
}

/// The pairs, each as a list of its key and its value.
fn copied_pairs(alloc: Global, pairs: &Object) -> Result<Vec<Value>>
    ensures { IsValueOrMemory (λ v. map view v.items) result
        (pair_lists (pairs_view pairs.now.entries)) }
{
    let mut lists = Vec::with_capacity(alloc, pairs.len())?;
    for (key, value) in pairs.iter() {
        lists.push(pair(alloc, key.as_str(), value)?)?;
    }
    Ok(lists)
}

/// The numbers from the first to the last.
fn number_items<'d>(alloc: Global, first: i64, last: i64) -> Result<LoopItems<'d>>
    ensures items { Answers (λ r. all_items r.items) result (range_items (between first last)) }
    ensures count { IfOk result (λ r. r.count ≡ length (all_items r.items)) }
    ensures within { IfOk result (λ r. r.count ≤ 9223372036854775807) }
{
    let count = checked_count(alloc, count_to(first, last))?;
    let items = Items::Numbers(first, last);
    Ok(LoopItems { items, count })
}
