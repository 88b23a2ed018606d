//! The order of conditions: `<`, `<=`, `>` and `>=`.
ghost use Rattle.std.specs.Prelude.{◌≡◌};
ghost use Rattle.liquid_model.specs.Compare.{compare, items_compare, pairs_compare};
ghost use Rattle.liquid_model.specs.View.{view, items_view, pairs_view};

use crate::value::{Object, Value};
use std::cmp::Ordering;

impl Value {
    /// The order of conditions, where there is one: within truth values, numbers and texts, and of
    /// two lists or two maps by the first unequal place, a beginning being less than the whole. Two
    /// nils and unlike kinds have none. It takes no memory.
    pub fn compare(&self, other: &Value) -> Option<Ordering>
        ensures { result ≡ compare (view self.now) (view other.now) }
    {
        compared(self, other)
    }
}

#[cycle(compared)]
fn compared(a: &Value, b: &Value) -> Option<Ordering>
    ensures { result ≡ compare (view a.now) (view b.now) }
{
    match (a, b) {
        (Value::Bool(x), Value::Bool(y)) => Some(x.cmp(y)),
        (Value::Integer(x), Value::Integer(y)) => Some(x.cmp(y)),
        (Value::Text(x), Value::Text(y)) => Some(x.as_str().cmp(y.as_str())),
        (Value::Array(x), Value::Array(y)) => compared_items(x, y),
        (Value::Object(x), Value::Object(y)) => compared_pairs(x, y),
        _ => None,
    }
}

#[cycle(compared)]
fn compared_items(a: &Vec<Value>, b: &Vec<Value>) -> Option<Ordering>
    ensures { result ≡ items_compare (items_view a.now.items) (items_view b.now.items) }
{
    let mut others = b.iter();
    for x in a {
        match others.next() {
            None => return Some(Ordering::Greater),
            Some(y) => {
                if *x != *y {
                    return compared(x, y);
                }
            }
        }
    }
    match others.next() {
        None => Some(Ordering::Equal),
        Some(_) => Some(Ordering::Less),
    }
}

#[cycle(compared)]
fn compared_pairs(a: &Object, b: &Object) -> Option<Ordering>
    ensures { result ≡ pairs_compare (pairs_view a.now.entries) (pairs_view b.now.entries) }
{
    let mut others = b.iter();
    for (key, x) in a.iter() {
        match others.next() {
            None => return Some(Ordering::Greater),
            Some((other, y)) => {
                match key.as_str().cmp(other.as_str()) {
                    Ordering::Equal => {}
                    unequal => return Some(unequal),
                }
                if *x != *y {
                    return compared(x, y);
                }
            }
        }
    }
    match others.next() {
        None => Some(Ordering::Equal),
        Some(_) => Some(Ordering::Less),
    }
}
