//! Maps from texts to values.
ghost use Rattle.std.specs.Prelude.{◌≡◌, OnErr, string_bytes, option_map};
ghost use Rattle.liquid_model.specs.Answer.{IsValueOrMemory};
ghost use Rattle.liquid_model.specs.Data.{put};
ghost use Rattle.liquid_model.specs.Find.{value_at};
ghost use Rattle.liquid_model.specs.View.{view, pairs_view};

use crate::error::Result;
use crate::value::{Object, Value};

/// Puts the value at the key, in place of one that stands there. Where memory runs out nothing
/// changes.
pub fn store(object: &mut Object, key: String, value: Value) -> Result<()>
    ensures stored { IsValueOrMemory (λ _. pairs_view object.new.entries) result
        (put (string_bytes key) (view value) (pairs_view object.old.entries)) }
    ensures unchanged { OnErr result (object.new.entries ≡ object.old.entries) }
{
    drop(object.insert(key, value)?);
    Ok(())
}

/// The value at the key, where the map has it.
pub fn look_up<'a>(object: &'a Object, key: &str) -> Option<&'a Value>
    ensures { option_map (λ v. view v.now) result ≡
        value_at key.now (pairs_view object.now.entries) }
{
    object.get(key)
}
