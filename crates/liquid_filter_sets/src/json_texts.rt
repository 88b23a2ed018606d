//! Whether the JSON of a value is read as the value again.
ghost use Rattle.std.specs.Prelude.{◌≡◌, true, false, Ok, Err, suc, nat_le};
ghost use Rattle.liquid_model.specs.View.{view, items_view, pairs_view};
ghost use Rattle.liquid_model.specs.declared.error.ErrorKind.TheVariants.{InvalidInput};
ghost use Rattle.liquid_filter_sets.specs.ReadBack.{AreWellFormedItems, IsWellFormed, datum_depth};
ghost use Rattle.liquid_filter_sets.specs.ReadBack.{HasAscendingKeys};
ghost use Rattle.liquid_filter_sets.specs.ReadBack.{HasWellFormedValues, items_depth, pairs_depth};
ghost use Rattle.liquid_filter_sets.specs.ReadBack.{json_read_back, read_back};

use liquid_core::{Object, Value};

/// How deep lists and maps may stand in one another where data are read from JSON.
const MAX_DEPTH: usize = 127;

/// Whether what `jsonify`, `json` and `json_of` write of the value is read as the value again. It
/// is unless lists and maps stand more than 127 deep in one another; then the text is refused, as
/// any JSON that nests so deep.
pub fn is_read_back(value: &Value) -> bool
    ensures read { result ≡ true → read_back (view value.now) ≡ Ok (view value.now) }
    ensures json { result ≡ true → json_read_back (view value.now) ≡ Ok (view value.now) }
    ensures refused { result ≡ false → read_back (view value.now) ≡ Err InvalidInput }
{
    nests_within(value, MAX_DEPTH)
}

/// Whether lists and maps stand at most so deep in one another.
#[cycle(nests_within)]
fn nests_within(value: &Value, most: usize) -> bool
    ensures within { result ≡ nat_le (datum_depth (view value.now)) most }
    ensures held { IsWellFormed (view value.now) }
{
    match value {
        Value::Nil | Value::Bool(_) | Value::Text(_) => true,
        Value::Integer(n) => {
            let _whole = *n;
            true
        }
        Value::Array(items) => items_nest_within(items, most),
        Value::Object(pairs) => pairs_nest_within(pairs, most),
    }
}

#[cycle(nests_within)]
fn items_nest_within(items: &Vec<Value>, most: usize) -> bool
    ensures within { result ≡ nat_le (suc (items_depth (items_view items.now.items))) most }
    ensures held { AreWellFormedItems (items_view items.now.items) }
{
    let mut within = most > 0;
    for item in items {
        within &= nests_within(item, most.saturating_sub(1));
    }
    within
}

#[cycle(nests_within)]
fn pairs_nest_within(pairs: &Object, most: usize) -> bool
    ensures within { result ≡ nat_le (suc (pairs_depth (pairs_view pairs.now.entries))) most }
    ensures held { HasWellFormedValues (pairs_view pairs.now.entries) }
    ensures ordered { HasAscendingKeys (pairs_view pairs.now.entries) }
{
    let mut within = most > 0;
    for (_key, value) in pairs.iter() {
        within &= nests_within(value, most.saturating_sub(1));
    }
    within
}
