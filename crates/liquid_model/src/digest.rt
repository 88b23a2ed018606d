//! What a value feeds a hasher: equal values feed it alike.
ghost use Rattle.std.specs.Prelude.{◌≡◌, fold};
ghost use Rattle.liquid_model.specs.Digest.{digest, items_digest, pairs_digest, same_digest};
ghost use Rattle.liquid_model.specs.View.{view, items_view, pairs_view};

use crate::value::{Object, Value};
use std::hash::{Hash, Hasher};

impl Hash for Value {
    ghost hash_input = { λ v. digest (view v) };

    ghost respects_eq = { λ x y h. same_digest (view x) (view y) h };

    fn hash<H: Hasher>(&self, state: &mut H) {
        feed(self, state);
    }
}

#[cycle(feed)]
fn feed<H: Hasher>(value: &Value, state: &mut H)
    ensures { state.new ≡ fold H.write state.old (digest (view value.now)) }
{
    match value {
        Value::Nil => state.write_u8(0),
        Value::Bool(b) => {
            state.write_u8(1);
            b.hash(state);
        }
        Value::Integer(n) => {
            state.write_u8(2);
            n.hash(state);
        }
        Value::Text(text) => {
            state.write_u8(3);
            text.as_str().hash(state);
        }
        Value::Array(items) => {
            state.write_u8(4);
            state.write_usize(items.len());
            feed_items(items, state);
        }
        Value::Object(pairs) => {
            state.write_u8(5);
            state.write_usize(pairs.len());
            feed_pairs(pairs, state);
        }
    }
}

#[cycle(feed)]
fn feed_items<H: Hasher>(items: &Vec<Value>, state: &mut H)
    ensures { state.new ≡ fold H.write state.old (items_digest (items_view items.now.items)) }
{
    for item in items {
        feed(item, state);
    }
}

#[cycle(feed)]
fn feed_pairs<H: Hasher>(pairs: &Object, state: &mut H)
    ensures { state.new ≡ fold H.write state.old (pairs_digest (pairs_view pairs.now.entries)) }
{
    for (key, value) in pairs.iter() {
        key.as_str().hash(state);
        feed(value, state);
    }
}
