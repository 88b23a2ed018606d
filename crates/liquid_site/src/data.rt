//! The data of a site.
ghost use Rattle.std.specs.Prelude.{◌≡◌, Some, None, option_map};
ghost use Rattle.liquid_model.specs.Answer.{IsValueOrMemory};
ghost use Rattle.liquid_model.specs.View.{view, pairs_view};
ghost use Rattle.liquid_core.specs.Held.{held};
ghost use Rattle.liquid_core.specs.DataChanges.{with_value};

use liquid_core::{Object, Result, Value, store};
use std::alloc::Global;
use std::collections::BTreeMap;

/// The same data, with parts of its own.
fn copied(alloc: Global, data: &Object) -> Result<Object>
    ensures { IsValueOrMemory (λ m. pairs_view m.entries) result (pairs_view «data».now.entries) }
{
    let mut copies: Object = BTreeMap::new(alloc);
    for (key, value) in data.iter() {
        let name = String::from_str(alloc, key.as_str())?;
        drop(copies.insert(name, value.copy(alloc)?)?);
    }
    Ok(copies)
}

/// The data with this value at a name, or with none.
pub(crate) fn changed(
    alloc: Global,
    data: &Object,
    name: &str,
    value: Option<Value>,
) -> Result<Object>
    ensures { IsValueOrMemory held result (with_value (held «data».now) name.now
        (option_map view value)) }
{
    let copies = copied(alloc, data)?;
    match value {
        Some(value) => set(alloc, copies, name, value),
        None => Ok(without(copies, name)),
    }
}

fn set(alloc: Global, data: Object, name: &str, value: Value) -> Result<Object>
    ensures { IsValueOrMemory held result (with_value (held «data») name.now (Some (view value))) }
{
    let mut data = data;
    store(&mut data, String::from_str(alloc, name)?, value)?;
    Ok(data)
}

fn without(data: Object, name: &str) -> Object
    ensures { held result ≡ with_value (held «data») name.now None }
{
    let mut data = data;
    drop(data.remove(name));
    data
}
